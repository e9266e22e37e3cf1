// The chart record reader.
#![tactic(auto)]

mod field;
mod place;
mod questions;

ghost use Rattle.std.specs.Prelude.{◌≡◌};
ghost use Rattle.record.specs.Promises.{ReadRecord, record_answer_of};

use crate::place::place_densities;
use crate::questions::check_fields;
use number::refusal::Refusal;

// The domain: a chart has at most so many measures.
const MOST_MEASURES: usize = 1_048_576;

// What a record holds: the number of densities; the name's place in the record, and its length.
#[derive(Clone, Copy, Debug, PartialEq, Eq)]
pub struct ChartRecord {
    pub measures: usize,
    pub name_start: usize,
    pub name_length: usize,
}

// The same in C, after the refusal's number, 0 where the record is accepted.
#[repr(C)]
#[derive(Clone, Copy)]
pub struct RecordAnswer {
    pub refused: u32,
    pub measures: usize,
    pub name_start: usize,
    pub name_length: usize,
}

impl From<Result<ChartRecord, Refusal>> for RecordAnswer {
    ghost from_gives = { λ r a. a ≡ record_answer_of r };

    fn from(read: Result<ChartRecord, Refusal>) -> RecordAnswer {
        match read {
            Ok(record) => RecordAnswer {
                refused: 0,
                measures: record.measures,
                name_start: record.name_start,
                name_length: record.name_length,
            },
            Err(refusal) => RecordAnswer {
                refused: refusal.number(),
                measures: 0,
                name_start: 0,
                name_length: 0,
            },
        }
    }
}

// The densities of a chart record at the start of `densities`; nothing is written before all questions are answered.
pub fn read_chart_record(record: &[u8], densities: &mut [u32]) -> Result<ChartRecord, Refusal>
    ensures { ReadRecord «record».now densities.old densities.new (record_answer_of result) }
{
    let read = check_fields(record)?;
    if read.measures > MOST_MEASURES {
        return Err(Refusal::TooManyMeasures);
    }
    if densities.len() < read.measures {
        return Err(Refusal::TooFewDensities);
    }
    place_densities(record, densities);
    Ok(read)
}
