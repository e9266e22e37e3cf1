// The standard text that a label of a given width shows.
#![tactic(auto)]

pub mod level;

ghost use Rattle.std.specs.Prelude.{◌≡◌};
ghost use Rattle.rules.specs.Calls.{label_choice};
ghost use Rattle.label.specs.Promises.{Label, label_written_of, pair_choice};

use chart_texts::text::{put_text, text_due, text_fits};
use measures::chart::Chart;
use number::refusal::Refusal;
use rules::{Kind, StreamBreakdownLevel};

// The level that a label shows, and its text's length.
#[derive(Clone, Copy, Debug, PartialEq, Eq)]
pub struct Labelled {
    pub level: StreamBreakdownLevel,
    pub length: usize,
}

// What label answers in C: the refusal's number, the level (1 to 4) and the text's length.
#[repr(C)]
#[derive(Clone, Copy)]
pub struct LabelWritten {
    pub refused: u32,
    pub level: u32,
    pub length: usize,
}

impl From<Result<Labelled, Refusal>> for LabelWritten {
    ghost from_gives = { λ r answer. answer ≡ label_written_of r };

    fn from(r: Result<Labelled, Refusal>) -> LabelWritten {
        match r {
            Ok(labelled) => LabelWritten {
                refused: 0,
                level: u32::from(labelled.level),
                length: labelled.length,
            },
            Err(refusal) => LabelWritten {
                refused: refusal.number(),
                level: 0,
                length: 0,
            },
        }
    }
}

// The first level, tried in order, whose text is no longer than the width.
fn choose(chart: Chart, width: usize) -> Option<StreamBreakdownLevel>
    ensures { result ≡ label_choice width chart.entry.measures.now }
{
    let levels = [
        StreamBreakdownLevel::Detailed,
        StreamBreakdownLevel::Partial,
        StreamBreakdownLevel::Simple,
        StreamBreakdownLevel::Total,
    ];
    let mut rest: &[StreamBreakdownLevel] = &levels;
    loop {
        let Some((level, after)) = rest.split_first() else {
            break None;
        };
        if text_due(chart, Kind::Standard(*level)) <= width {
            break Some(*level);
        }
        rest = after;
    }
}

// The text of the first level that fits the width. Questions 1, 6, 4.
pub fn label(m: &[u32], width: usize, out: &mut [u8]) -> Result<Labelled, Refusal>
    ensures { Label width m.now out.old out.new (label_written_of result) }
{
    let chart = Chart::new(m)?;
    let level = choose(chart, width).ok_or(Refusal::NoLevelFits)?;
    let kind = Kind::Standard(level);
    if !text_fits(chart, kind, out.len()) {
        return Err(Refusal::TextTooShort);
    }
    let length = put_text(chart, kind, out, 0);
    Ok(Labelled { level, length })
}

// The pair form: the first text itself if it fits, else the second if it fits, else the empty beginning of the first.
pub fn label_pair<'a>(first: &'a [u8], second: &'a [u8], width: usize) -> &'a [u8]
    ensures { result.now ≡ pair_choice first.now second.now width }
{
    if first.len() <= width {
        return first;
    }
    if second.len() <= width {
        return second;
    }
    &first[..0]
}
