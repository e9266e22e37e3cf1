// From SN detailed text to standard detailed text.
#![tactic(auto)]

mod copy;
mod item;
mod reader;

ghost use Rattle.std.specs.Prelude.{◌≡◌, [], ◌∷◌};
ghost use Rattle.number.specs.Questions.{OneText, first_no, room_for};
ghost use Rattle.number.specs.Refusal.{written_of};
ghost use Rattle.rules.specs.Bytes.{bytes};
ghost use Rattle.sn_to_standard.specs.Promises.{SnToStandard};

use crate::copy::{copy_fits, put_copied};
use crate::reader::check_text;
use number::refusal::Refusal;
use text_buffer::put::put_no_streams;

// What the empty text becomes. Question 4.
fn write_no_streams(out: &mut [u8]) -> Result<usize, Refusal>
    ensures { OneText (first_no (room_for (bytes "No Streams!") out.old ∷ [])) (bytes "No Streams!") out.old out.new (written_of result) }
{
    if out.len() < 11 {
        return Err(Refusal::TextTooShort);
    }
    Ok(put_no_streams(out, 0))
}

// The standard detailed text of an SN detailed text. Questions 18, 19, 4.
pub fn sn_to_standard(sn: &[u8], out: &mut [u8]) -> Result<usize, Refusal>
    ensures { SnToStandard sn.now out.old out.new (written_of result) }
{
    check_text(sn)?;
    if sn.is_empty() {
        return write_no_streams(out);
    }
    if !copy_fits(sn, out.len()) {
        return Err(Refusal::TextTooShort);
    }
    Ok(put_copied(sn, out))
}
