// The text of level Total, of the number of stream measures.
ghost use Rattle.std.specs.Prelude.{◌≡◌, length};
ghost use Rattle.number.specs.Place.{Room, Wrote};
ghost use Rattle.standard_text.specs.Standard.{total_text};

use number::{digit_count, put_u64};
use text_buffer::put::{put_bytes, put_no_streams};

pub fn total_text(streams: u64, out: &mut [u8], at: usize) -> usize
    requires { Room out.old at (total_text streams) }
    ensures { Wrote out.old out.new at (total_text streams) result }
{
    if streams == 0 {
        return put_no_streams(out, at);
    }
    let a = put_u64(out, at, streams, 0);
    put_bytes(out, a, b" Total")
}

// How many bytes it has.
pub fn total_length(streams: u64) -> usize
    ensures { result ≡ length (total_text streams) }
{
    if streams == 0 {
        return 11;
    }
    digit_count(streams) + 6
}
