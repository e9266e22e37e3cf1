// The lines of a record that was read.
ghost use Rattle.number.specs.Questions.{OneText};
ghost use Rattle.number.specs.Refusal.{written_of};
ghost use Rattle.sheet_lines.specs.Steps.{AtStart, NameRoom, LinesRoom, all_lines, texts_no, chart_lines};

use crate::MOST_INPUT;
use crate::put::{put_line, put_texts};
use chart_texts::single::stream_breakdown;
use counts_line::put_counts;
use number::refusal::Refusal;
use rules::{StreamBreakdownLevel, StreamCounts};
use stream_outputs::compute_stream_outputs;

// What the pass and the call that writes Total are lent for texts.
const TEXT_BYTES: usize = 65_536;

const TOTAL_BYTES: usize = 32;

// Name, counts, the texts that stand end to end in `texts`, Total.
fn put_lines(
    out: &mut [u8],
    name: &[u8],
    counts: StreamCounts,
    texts: &[u8],
    lengths: &[usize],
    total: &[u8],
) -> usize
    requires { LinesRoom out.old name.now counts texts.now lengths.now total.now }
    ensures { AtStart out.old out.new
        (all_lines name.now counts texts.now lengths.now total.now) result }
{
    let a = put_line(out, 0, name);
    let b = put_counts(out, a, counts, 0);
    let c = put_texts(out, b, texts, lengths);
    put_line(out, c, total)
}

// The questions of the pass, then those of Total.
pub fn put_chart(name: &[u8], m: &[u32], out: &mut [u8]) -> Result<usize, Refusal>
    requires { NameRoom name.now out.old }
    ensures { OneText (texts_no m.now) (chart_lines name.now m.now) out.old out.new (written_of result) }
{
    let mut classes = [0; MOST_INPUT];
    let mut lengths = [0; MOST_INPUT];
    let mut texts = [0; TEXT_BYTES];
    let outputs = compute_stream_outputs(m, &mut classes, &mut lengths, &mut texts)?;
    let mut total = [0; TOTAL_BYTES];
    let length = stream_breakdown(m, StreamBreakdownLevel::Total, &mut total)?;
    let each = outputs.lengths;
    Ok(put_lines(out, name, outputs.counts, &texts, &each, &total[..length]))
}
