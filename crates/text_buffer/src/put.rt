// Bytes at a place of a longer text; the next place is answered.
ghost use Rattle.number.specs.Place.{Room, Wrote};
ghost use Rattle.rules.specs.Bytes.{bytes};

pub fn put_bytes(out: &mut [u8], at: usize, text: &[u8]) -> usize
    requires { Room out.old at text.now }
    ensures { Wrote out.old out.new at text.now result }
{
    // Byte by byte: `copy_from_slice` is compiled to a call of memmove, which a program that links the library need not have.
    for (i, byte) in text.iter().enumerate() {
        out[at + i] = *byte;
    }
    at + text.len()
}

// What a standard text shows where there is no stream measure.
pub fn put_no_streams(out: &mut [u8], at: usize) -> usize
    requires { Room out.old at (bytes "No Streams!") }
    ensures { Wrote out.old out.new at (bytes "No Streams!") result }
{
    put_bytes(out, at, b"No Streams!")
}
