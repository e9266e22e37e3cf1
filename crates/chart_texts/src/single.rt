// Single calls: one text, by mode or by level.
ghost use Rattle.number.specs.Refusal.{written_of};
ghost use Rattle.chart_texts.specs.Promises.{Breakdown};

use crate::text::{put_text, text_fits};
use measures::chart::Chart;
use number::refusal::Refusal;
use rules::{BreakdownMode, Kind, StreamBreakdownLevel};

// The text of a kind; its length is answered. Questions 1, 4.
fn write_text(m: &[u32], kind: Kind, out: &mut [u8]) -> Result<usize, Refusal>
    ensures { Breakdown kind m.now out.old out.new (written_of result) }
{
    let chart = Chart::new(m)?;
    if !text_fits(chart, kind, out.len()) {
        return Err(Refusal::TextTooShort);
    }
    Ok(put_text(chart, kind, out, 0))
}

// An SN text by its mode.
pub fn generate_breakdown(m: &[u32], mode: BreakdownMode, out: &mut [u8]) -> Result<usize, Refusal>
    ensures { Breakdown (Kind.Sn mode) m.now out.old out.new (written_of result) }
{
    write_text(m, Kind::Sn(mode), out)
}

// A standard text by its level.
pub fn stream_breakdown(
    m: &[u32],
    level: StreamBreakdownLevel,
    out: &mut [u8],
) -> Result<usize, Refusal>
    ensures { Breakdown (Kind.Standard level) m.now out.old out.new (written_of result) }
{
    write_text(m, Kind::Standard(level), out)
}
