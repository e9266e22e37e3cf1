// Parts of a printed line, and lines put together at the front of a lent slice. What finds no room there is left out.
ghost use Rattle.std.specs.Prelude.{◌≡◌, MatchResult};
ghost use Rattle.std.specs.Counts.{IsPrefixLen};
ghost use Rattle.number.specs.Refusal.{carried};
ghost use Rattle.chart_list.specs.Line.{spaced};

use number::refusal::Refusal;
use std::fmt;
use std::fmt::Write;

// Numbers, each after a space.
#[derive(Clone, Copy)]
pub struct Spaced<'a, T>(pub &'a [T]);

impl<T: fmt::Display> fmt::Display for Spaced<'_, T> {
    ghost output = { λ s. spaced T.output s.0.now };

    fn fmt<W: fmt::Write>(&self, f: &mut fmt::Formatter<W>) -> fmt::Result {
        for number in self.0 {
            write!(f, " {number}")?;
        }
        Ok(())
    }
}

// The number of the refusal, 0 where there is none, and what was answered, or `none`.
pub fn numbered<T: Drop>(answer: Result<T, Refusal>, none: T) -> (u32, T)
    ensures number { result.0 ≡ carried answer }
    ensures value { MatchResult answer (λ value. result.1 ≡ value) (λ _. result.1 ≡ none) }
{
    match answer {
        Ok(value) => (0, value),
        Err(refusal) => (refusal.number(), none),
    }
}

// `text` from the place `at` on, as far as it fits; the next place is answered.
pub fn put_bytes(out: &mut [u8], at: usize, text: &[u8]) -> usize
    ensures { IsPrefixLen result out.new }
{
    let start = at.min(out.len());
    let length = text.len().min(out.len() - start);
    out[start..start + length].copy_from_slice(&text[..length]);
    start + length
}

// The digits of `n` from the place `at` on, as far as they fit; the next place is answered.
pub fn put_number(out: &mut [u8], at: usize, n: u64) -> usize
    ensures { IsPrefixLen result out.new }
{
    let start = at.min(out.len());
    start + put_line(&mut out[start..], n)
}

// A lent slice, and how many bytes are written at its front.
#[derive(Drop)]
struct Line<'a> {
    out: &'a mut [u8],
    length: usize,
}

impl fmt::Write for Line<'_> {
    // An error says that nothing more finds room.
    fn write_str(&mut self, text: &str) -> fmt::Result {
        self.length = put_bytes(self.out, self.length, text.as_bytes());
        if self.length < self.out.len() {
            Ok(())
        } else {
            Err(fmt::Error)
        }
    }
}

// What is printed of `text` at the start of `out`, as far as it fits, and its length.
pub fn put_line<D: fmt::Display + Drop>(out: &mut [u8], text: D) -> usize
    ensures { IsPrefixLen result out.new }
{
    let room = out.len();
    let mut line = Line { out, length: 0 };
    let _ = line.write(text);
    line.length.min(room)
}
