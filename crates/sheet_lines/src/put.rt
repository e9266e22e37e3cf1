// Lines, each put at a place and ended by 0A; the next place is answered.
ghost use Rattle.number.specs.Place.{Room, Wrote};
ghost use Rattle.number.specs.Refusal.{refusal_number};
ghost use Rattle.counts_line.specs.CountsLine.{line};
ghost use Rattle.sheet_lines.specs.Steps.{AtStart, Roomy, refusal_line, cut_lines, Cuts};

use number::put_u64;
use number::refusal::Refusal;
use text_buffer::put::put_bytes;

// A text as a line.
pub fn put_line(out: &mut [u8], at: usize, text: &[u8]) -> usize
    requires { Room out.old at (line text.now) }
    ensures { Wrote out.old out.new at (line text.now) result }
{
    let end = put_bytes(out, at, text);
    put_bytes(out, end, b"\n")
}

// A line for each of the texts that stand end to end in `texts`.
pub fn put_texts(out: &mut [u8], at: usize, texts: &[u8], lengths: &[usize]) -> usize
    requires { Cuts out.old at texts.now lengths.now }
    ensures { Wrote out.old out.new at (cut_lines texts.now lengths.now) result }
{
    let mut place = at;
    let mut rest = texts;
    for length in lengths {
        let (text, others) = rest.split_at(*length);
        place = put_line(out, place, text);
        rest = others;
    }
    place
}

// The only line of a refusal.
pub fn put_refusal(out: &mut [u8], refusal: Refusal) -> usize
    requires { Roomy out.old }
    ensures { AtStart out.old out.new (refusal_line (refusal_number refusal)) result }
{
    let a = put_bytes(out, 0, b"refused ");
    let b = put_u64(out, a, u64::from(refusal.number()), 0);
    put_bytes(out, b, b"\n")
}
