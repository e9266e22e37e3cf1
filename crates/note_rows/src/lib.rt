// The note row reader: a chart's densities from its rows.
#![tactic(auto)]

mod line;
mod measures;

ghost use Rattle.std.specs.Prelude.{◌≡◌};
ghost use Rattle.note_rows.specs.Promises.{ReadNoteRows, rows_answer_of};

use crate::measures::read_measures;
use number::refusal::Refusal;

// The domain: a chart has at most so many measures.
const MOST_MEASURES: usize = 1_048_576;

// The densities of so many measures stand in a local array until all questions are answered.
const KEPT: usize = 4096;

// What the call answers in C: the refusal's number, 0 where the text is accepted, and the number of densities.
#[repr(C)]
#[derive(Clone, Copy)]
pub struct RowsAnswer {
    pub refused: u32,
    pub measures: usize,
}

impl From<Result<usize, Refusal>> for RowsAnswer {
    ghost from_gives = { λ r a. a ≡ rows_answer_of r };

    fn from(read: Result<usize, Refusal>) -> RowsAnswer {
        match read {
            Ok(measures) => RowsAnswer {
                refused: 0,
                measures,
            },
            Err(refusal) => RowsAnswer {
                refused: refusal.number(),
                measures: 0,
            },
        }
    }
}

// The densities of note rows at the start of `densities`; their number is answered. Nothing is written before all questions are answered:
// until then the densities stand in a local array, and a text of more measures than that has places is read once more.
pub fn read_note_rows(text: &[u8], densities: &mut [u32]) -> Result<usize, Refusal>
    ensures { ReadNoteRows text.now densities.old densities.new (rows_answer_of result) }
{
    let mut kept = [0; KEPT];
    let measures = read_measures(text, &mut kept)?;
    if measures > MOST_MEASURES {
        return Err(Refusal::TooManyMeasures);
    }
    if densities.len() < measures {
        return Err(Refusal::TooFewDensities);
    }
    if measures <= KEPT {
        densities[..measures].copy_from_slice(&kept[..measures]);
        return Ok(measures);
    }
    read_measures(text, densities)
}
