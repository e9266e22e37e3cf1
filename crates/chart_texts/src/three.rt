// Calls that write three texts end to end: the SN texts, the standard texts.
ghost use Rattle.std.specs.Prelude.{◌≡◌, leb, length};
ghost use Rattle.rules.specs.Texts.{sn_kinds, standard_kinds, end_to_end};
ghost use Rattle.chart_texts.specs.Promises.{Breakdowns, three_written_of};

use crate::text::{put_text, text_due};
use measures::chart::Chart;
use number::refusal::Refusal;
use rules::{BreakdownMode, Kind, StreamBreakdownLevel};

// Question 4. The texts are measured only where the slice could be too short for them.
fn texts_fit(chart: Chart, kinds: [Kind; 3], room: usize) -> bool
    ensures { result ≡ leb (length (end_to_end kinds chart.entry.measures.now)) room }
{
    if 12 * chart.measures.len() + 33 <= room {
        return true;
    }
    let due: usize = kinds.iter().map(|kind| text_due(chart, *kind)).sum();
    due <= room
}

// The texts of three kinds; the length of each is answered. Questions 1, 4.
fn write_three(m: &[u32], kinds: [Kind; 3], out: &mut [u8]) -> Result<[usize; 3], Refusal>
    ensures { Breakdowns kinds m.now out.old out.new (three_written_of result) }
{
    let chart = Chart::new(m)?;
    if !texts_fit(chart, kinds, out.len()) {
        return Err(Refusal::TextTooShort);
    }
    let mut lengths = [0; 3];
    let mut at = 0;
    for (i, kind) in kinds.iter().enumerate() {
        let next = put_text(chart, *kind, out, at);
        lengths[i] = next - at;
        at = next;
    }
    Ok(lengths)
}

// The SN texts: detailed, partial, simplified.
pub fn generate_breakdowns(m: &[u32], out: &mut [u8]) -> Result<[usize; 3], Refusal>
    ensures { Breakdowns sn_kinds m.now out.old out.new (three_written_of result) }
{
    let detailed = Kind::Sn(BreakdownMode::Detailed);
    let partial = Kind::Sn(BreakdownMode::Partial);
    let simplified = Kind::Sn(BreakdownMode::Simplified);
    write_three(m, [detailed, partial, simplified], out)
}

// The standard texts: detailed, partial, simple.
pub fn stream_breakdowns(m: &[u32], out: &mut [u8]) -> Result<[usize; 3], Refusal>
    ensures { Breakdowns standard_kinds m.now out.old out.new (three_written_of result) }
{
    let detailed = Kind::Standard(StreamBreakdownLevel::Detailed);
    let partial = Kind::Standard(StreamBreakdownLevel::Partial);
    let simple = Kind::Standard(StreamBreakdownLevel::Simple);
    write_three(m, [detailed, partial, simple], out)
}
