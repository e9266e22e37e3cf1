// A text grows in a buffer of the caller's own: what stands in it from the next place on is not kept, so that a byte which may be missing is
// stored without a branch. The buffer is copied to the lent slice when it is nearly full; what is left in it goes on to the next part or text.
ghost use Rattle.std.specs.Prelude.{◌<◌, ◌≤◌, [], length, take};
ghost use Rattle.number.specs.Place.{Room, Wrote};
ghost use Rattle.number.specs.Word.{byte_text};
ghost use Rattle.number.specs.Grown.{Grown};
ghost use Rattle.text_buffer.specs.Buffer.{Added, goes_on};

use crate::put::put_bytes;

// The byte `b`, or nothing if it is 0.
pub fn add_byte(buf: &mut [u8], k: usize, b: u8) -> usize
    requires { k < length buf.old }
    ensures { Grown buf.old buf.new k (byte_text b) result }
{
    buf[k] = b;
    if b == 0 { k } else { k + 1 }
}

// The first k bytes of the buffer, at a place of the lent slice; the next place is answered.
pub fn put_buffer(out: &mut [u8], at: usize, buf: &[u8], k: usize) -> usize
    requires { (k ≤ length buf.now) × Room out.old at (take k buf.now) }
    ensures { Wrote out.old out.new at (take k buf.now) result }
{
    put_bytes(out, at, &buf[..k])
}

// Where a text goes on: the next place of the slice, and how many bytes stand in the buffer for it.
#[derive(Clone, Copy)]
pub struct Left {
    pub place: usize,
    pub left: usize,
}

// With more bytes than these in a buffer of 2048 there may be no room for one more group or piece.
const NEARLY_FULL: usize = 1984;

// The buffer is written once it is nearly full.
pub fn flush(buf: &[u8], out: &mut [u8], place: usize, left: usize) -> Left
    requires { (left ≤ length buf.now) × Room out.old place (take left buf.now) }
    ensures { Added buf.now out.old (goes_on place left) [] buf.now out.new result }
{
    if left > NEARLY_FULL {
        return Left {
            place: put_buffer(out, place, buf, left),
            left: 0,
        };
    }
    Left { place, left }
}
