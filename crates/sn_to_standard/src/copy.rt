// The bytes of a decided text as the standard text shows them: without marks, and with "-" for a space between two runs. Of the bytes of such a
// text only marks stand above "9". They go block by block: first each byte as it is shown, which the compiler does many at a time, then those
// that are kept, and these to the lent slice.
ghost use Rattle.std.specs.Prelude.{◌<◌, ◌≤◌, ◌≡◌, leb, length, take};
ghost use Rattle.number.specs.Grown.{Grown};
ghost use Rattle.number.specs.Place.{Room, Wrote};
ghost use Rattle.sn_to_standard.specs.Copied.{shown_space, shown_byte, kept_byte, kept, copied, Block, shown_part};

use text_buffer::put::put_bytes;

// How many bytes are shown at a time.
const BLOCK: usize = 256;

// A space as it is shown, by the bytes before and after it.
fn shown_space(before: u8, after: u8) -> u8
    ensures { result ≡ shown_space before after }
{
    if before == b')' || after == b'(' {
        b' '
    } else {
        b'-'
    }
}

// A byte as it is shown. No branch decides what is read, so that the compiler does many bytes at a time.
fn shown_byte(before: u8, b: u8, after: u8) -> u8
    ensures { result ≡ shown_byte before b after }
{
    let space = shown_space(before, after);
    if b == b' ' { space } else { b }
}

// Each byte of a block as it is shown.
fn fill_block(text: &[u8], i: usize, n: usize, block: &mut [u8; BLOCK])
    requires { Block text.now i n × (length block.old ≡ 256) }
    ensures { take n block.new ≡ shown_part text.now i n }
{
    for j in 0..n {
        block[j] = shown_byte(text[i + j - 1], text[i + j], text[i + j + 1]);
    }
}

// A byte after the first k of a buffer, unless it is a mark; the next place is answered.
fn add_kept(buf: &mut [u8; BLOCK], k: usize, b: u8) -> usize
    requires { (k < 256) × (length buf.old ≡ 256) }
    ensures { Grown buf.old buf.new k (kept_byte b) result }
{
    buf[k] = b;
    if b > b'9' { k } else { k + 1 }
}

// The bytes of a block, without its marks, at the start of a buffer.
fn add_block(buf: &mut [u8; BLOCK], block: &[u8]) -> usize
    requires { (length block.now ≤ 256) × (length buf.old ≡ 256) }
    ensures { Grown buf.old buf.new 0 (kept block.now) result }
{
    let mut k: usize = 0;
    for &b in block {
        k = add_kept(buf, k, b);
    }
    k
}

// A block of the copy at a place of the lent slice.
fn put_block(text: &[u8], i: usize, n: usize, out: &mut [u8], place: usize) -> usize
    requires { Block text.now i n × Room out.old place (kept (shown_part text.now i n)) }
    ensures { Wrote out.old out.new place (kept (shown_part text.now i n)) result }
{
    let mut block = [0u8; BLOCK];
    let mut buf = [0u8; BLOCK];
    fill_block(text, i, n, &mut block);
    let k = add_block(&mut buf, &block[..n]);
    put_bytes(out, place, &buf[..k])
}

// One byte that stands at an end of the text, so that no space is changed.
fn put_end(b: u8, out: &mut [u8], place: usize) -> usize
    requires { Room out.old place (kept_byte b) }
    ensures { Wrote out.old out.new place (kept_byte b) result }
{
    if b > b'9' {
        return place;
    }
    out[place] = b;
    place + 1
}

// The whole copy at the slice's start.
pub fn put_copied(text: &[u8], out: &mut [u8]) -> usize
    requires { (1 ≤ length text.now) × Room out.old 0 (copied text.now) }
    ensures { Wrote out.old out.new 0 (copied text.now) result }
{
    let mut place = put_end(text[0], out, 0);
    let last = text.len() - 1;
    if last == 0 {
        return place;
    }
    for i in (1..last).step_by(BLOCK) {
        place = put_block(text, i, BLOCK.min(last - i), out, place);
    }
    put_end(text[last], out, place)
}

// Its length: the bytes that are no marks. It is counted in 32 bits, and not by `count`, since the compiler then takes four times as many bytes at a time.
fn copied_length(text: &[u8]) -> u32
    requires { length text.now ≤ 4194304 }
    ensures { result ≡ length (copied text.now) }
{
    let mut n: u32 = 0;
    for &b in text {
        n += u32::from(b <= b'9');
    }
    n
}

// Whether it fits. It is no longer than the text, so it is measured only for a shorter slice.
pub fn copy_fits(text: &[u8], room: usize) -> bool
    requires { length text.now ≤ 4194304 }
    ensures { result ≡ leb (length (copied text.now)) room }
{
    text.len() <= room || copied_length(text) as usize <= room
}
