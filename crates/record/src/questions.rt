// The questions put to a record's fields.
ghost use Rattle.std.specs.Prelude.{◌≡◌};
ghost use Rattle.record.specs.Record.{is_name, field_no};
ghost use Rattle.record.specs.Steps.{TagOf, AcceptedField, CheckedFields};

use crate::ChartRecord;
use crate::field::{Field, Fields};
use number::refusal::Refusal;

// A name stands after its field's tag and length.
const NAME_START: usize = 3;

const LONGEST_NAME: usize = 64;

// What a field holds.
#[derive(Clone, Copy, Debug, PartialEq, Eq)]
pub enum Tag {
    Name = 1,
    Densities = 2,
}

impl TryFrom<u8> for Tag {
    type Error = Refusal;

    ghost try_from_gives = { TagOf };

    fn try_from(tag: u8) -> Result<Tag, Refusal> {
        match tag {
            1 => Ok(Tag::Name),
            2 => Ok(Tag::Densities),
            _ => Err(Refusal::UnknownTag),
        }
    }
}

// A name has 1 to 64 bytes from 20 to 7E, the printable ones.
pub fn is_name(payload: &[u8]) -> bool
    ensures { result ≡ is_name payload.now }
{
    (1..=LONGEST_NAME).contains(&payload.len()) && payload.iter().all(|b| (b' '..=b'~').contains(b))
}

// The questions put to a whole field.
#[tactic(auto, unfolding(crate::specs::Record::field_no))]
pub fn check_field(field: Field, first: bool) -> Result<Tag, Refusal>
    ensures { AcceptedField first field.entry result }
{
    let tag = Tag::try_from(field.tag)?;
    match tag {
        Tag::Name if !first => Err(Refusal::NameNotFirst),
        Tag::Name if !is_name(field.payload) => Err(Refusal::BadName),
        Tag::Densities if first => Err(Refusal::NameNotFirst),
        _ => Ok(tag),
    }
}

// The first no to the fields of a record; where there is none, what they hold.
pub fn check_fields(bytes: &[u8]) -> Result<ChartRecord, Refusal>
    ensures { CheckedFields bytes.now result }
{
    let mut measures = 0;
    let mut name_length = 0;
    let mut first = true;
    for field in Fields(bytes) {
        let field = field?;
        let payload = field.payload;
        match check_field(field, first)? {
            Tag::Name => name_length = payload.len(),
            Tag::Densities => measures += payload.len(),
        }
        first = false;
    }
    if first {
        return Err(Refusal::NameNotFirst);
    }
    Ok(ChartRecord {
        measures,
        name_start: NAME_START,
        name_length,
    })
}
