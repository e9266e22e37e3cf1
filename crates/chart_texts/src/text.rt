// One text by its kind, measured and written from the measures, with no token slice.
ghost use Rattle.std.specs.Prelude.{◌≡◌, leb, length};
ghost use Rattle.number.specs.Place.{Room, Wrote};
ghost use Rattle.rules.specs.Chart.{classes, streams};
ghost use Rattle.rules.specs.Texts.{text};

use breakdown::form::{form_of, is_total};
use breakdown::length::length_of_measures;
use breakdown::parts::ActivePart;
use breakdown::text::text_of_measures;
use breakdown::total::{total_length, total_text};
use counts::{chart_counts, stream_measures};
use measures::chart::Chart;
use rules::Kind;

// The number of stream measures.
fn stream_count(chart: Chart) -> u64
    ensures { result ≡ streams (classes chart.entry.measures.now) }
{
    u64::from(stream_measures(chart_counts(chart)))
}

// The text's length.
pub fn text_due(chart: Chart, kind: Kind) -> usize
    ensures { result ≡ length (text kind chart.entry.measures.now) }
{
    if is_total(kind) {
        return total_length(stream_count(chart));
    }
    length_of_measures(ActivePart::new(chart), form_of(kind))
}

// Question 4. The text is measured only where the slice could be too short for it.
pub fn text_fits(chart: Chart, kind: Kind, room: usize) -> bool
    ensures { result ≡ leb (length (text kind chart.entry.measures.now)) room }
{
    4 * chart.measures.len() + 11 <= room || text_due(chart, kind) <= room
}

// The text at the place `at`; the next place is answered.
pub fn put_text(chart: Chart, kind: Kind, out: &mut [u8], at: usize) -> usize
    requires { Room out.old at (text kind chart.measures.now) }
    ensures { Wrote out.old out.new at (text kind chart.entry.measures.now) result }
{
    if is_total(kind) {
        return total_text(stream_count(chart), out, at);
    }
    text_of_measures(ActivePart::new(chart), form_of(kind), out, at)
}
