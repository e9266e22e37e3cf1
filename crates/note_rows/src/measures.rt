// The measures of note rows, in one pass over the text.
ghost use Rattle.std.specs.Prelude.{◌≡◌, set};
ghost use Rattle.note_rows.specs.Steps.{MeasuresRead};

use crate::line::{Line, Lines};
use number::refusal::Refusal;

// A measure has at most so many rows.
const MOST_ROWS: u32 = 192;

// Measure k has this density, if there is a place for it.
fn keep(densities: &mut [u32], k: usize, density: u32)
    ensures { densities.new ≡ set densities.old k density }
{
    if k < densities.len() {
        densities[k] = density;
    }
}

// The first no to the lines; where there is none, the number of measures, and at the start of `densities` as many of their densities as it
// has places.
pub fn read_measures(text: &[u8], densities: &mut [u32]) -> Result<usize, Refusal>
    ensures { MeasuresRead text.now densities.old densities.new result }
{
    let mut rows = 0;
    let mut density = 0;
    let mut measures = 0;
    for line in Lines(text) {
        match line? {
            Line::Row(note) => {
                if rows == MOST_ROWS {
                    return Err(Refusal::TooManyRows);
                }
                rows += 1;
                density += note;
            }
            Line::Measure => {
                keep(densities, measures, density);
                measures += 1;
                rows = 0;
                density = 0;
            }
            Line::Last => {
                keep(densities, measures, density);
                return Ok(measures + 1);
            }
        }
    }
    Err(Refusal::BadEnd)
}
