// The fields of a chart record, one by one.
ghost use Rattle.std.specs.Prelude.{◌<◌, length, MatchResult};
ghost use Rattle.std.specs.Iterator.{at_most};
ghost use Rattle.record.specs.Record.{fields_of};
ghost use Rattle.record.specs.Steps.{Begins, IsCut, NextField};

use number::refusal::Refusal;

// A whole field.
#[derive(Clone, Copy)]
pub struct Field<'a> {
    pub tag: u8,
    pub payload: &'a [u8],
}

// The field that some bytes begin with, and the bytes after it. Question 8 is asked, then 17.
fn first_field(bytes: &[u8]) -> Result<(Field<'_>, &[u8]), Refusal>
    requires { 0 < length bytes.now }
    ensures { MatchResult result (λ p. Begins bytes.now p.0 p.1.now) (IsCut (fields_of bytes.now)) }
{
    let [tag, high, low, after @ ..] = bytes else {
        return Err(Refusal::FieldCutShort);
    };
    let length = u16::from_be_bytes([*high, *low]);
    let Some((payload, rest)) = after.split_at_checked(length as usize) else {
        return Err(Refusal::PayloadCut);
    };
    Ok((Field { tag: *tag, payload }, rest))
}

// The fields of the bytes that are left; after a cut field none are.
#[derive(Drop)]
pub struct Fields<'a>(pub &'a [u8]);

impl<'a> Iterator for Fields<'a> {
    type Item = Result<Field<'a>, Refusal>;

    ghost next_gives = { λ s r t. NextField s.0.now r t.0.now };

    ghost remaining = { λ s. at_most (length s.0.now) };

    fn next(&mut self) -> Option<Result<Field<'a>, Refusal>> {
        if self.0.is_empty() {
            return None;
        }
        match first_field(self.0) {
            Ok((field, rest)) => {
                self.0 = rest;
                Some(Ok(field))
            }
            Err(refusal) => {
                self.0 = &[];
                Some(Err(refusal))
            }
        }
    }
}
