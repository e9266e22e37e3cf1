// Reading a whole input.
ghost use Rattle.std.specs.Prelude.{◌<◌, ◌≤◌, length, take, IfOk, vec_len};
ghost use Rattle.std.specs.Io.KnownBytes.{Consumes, IsAtEnd};
ghost use Rattle.std.specs.Counts.{IsPrefixLen};

use std::alloc::Global;
use std::io;
use std::io::Read;

// What the reader has left, from the start of `out` on, as far as it fits; the number of bytes is answered.
pub fn read_full<R: Read>(reader: &mut R, out: &mut [u8]) -> io::Result<usize>
    ensures counts { IfOk result (λ n. IsPrefixLen n out.new) }
    ensures bytes { IfOk result (λ n. Consumes (R.remaining reader.old) (R.remaining reader.new) (take n out.new)) }
    ensures whole { IfOk result (λ n. n < length out.new → IsAtEnd (R.remaining reader.new)) }
{
    let mut done = 0;
    while done < out.len() {
        let count = reader.read(&mut out[done..])?;
        if count == 0 {
            break;
        }
        done += count;
    }
    Ok(done)
}

// What the reader has left, as far as it is at most `most` bytes.
pub fn read_list<R: Read>(alloc: Global, reader: &mut R, most: usize) -> io::Result<Vec<u8>>
    ensures few { IfOk result (λ list. vec_len list ≤ most) }
    ensures bytes { IfOk result (λ list. Consumes (R.remaining reader.old) (R.remaining reader.new) list.items) }
    ensures whole { IfOk result (λ list. vec_len list < most → IsAtEnd (R.remaining reader.new)) }
{
    let mut list = vec![in alloc; 0u8; most]?;
    let length = read_full(reader, &mut list)?;
    list.truncate(length);
    Ok(list)
}
