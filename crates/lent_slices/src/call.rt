// A call that writes into one text slice, and its lines.
ghost use Rattle.std.specs.Prelude.{◌≤◌, ◌*◌, length};

use chart_list::line::{Spaced, numbered};
use label::Labelled;
use number::refusal::Refusal;
use std::fmt::Display;
use std::{fmt, io};

// No text here has more bytes.
const LONGEST_TEXT: usize = 4096;

// What a call answers. Printed it is the refusal's number, 0 where there is none, and its numbers, zeros where it refuses.
pub trait Answer: Display + Drop {
    // The length of all its text.
    fn due(&self) -> usize;
}

#[derive(Clone, Copy)]
pub struct One(pub Result<usize, Refusal>);

impl Display for One {
    fn fmt<W: fmt::Write>(&self, f: &mut fmt::Formatter<W>) -> fmt::Result {
        let (refused, length) = numbered(self.0, 0);
        write!(f, "{refused} {length}")
    }
}

impl Answer for One {
    fn due(&self) -> usize {
        self.0.unwrap_or(0)
    }
}

#[derive(Clone, Copy)]
pub struct Three(pub Result<[usize; 3], Refusal>);

impl Display for Three {
    fn fmt<W: fmt::Write>(&self, f: &mut fmt::Formatter<W>) -> fmt::Result {
        let (refused, lengths) = numbered(self.0, [0; 3]);
        write!(f, "{refused}{}", Spaced(&lengths))
    }
}

impl Answer for Three {
    fn due(&self) -> usize {
        self.0.map_or(0, |lengths| total(&lengths))
    }
}

#[derive(Clone, Copy)]
pub struct Label(pub Result<Labelled, Refusal>);

impl Display for Label {
    fn fmt<W: fmt::Write>(&self, f: &mut fmt::Formatter<W>) -> fmt::Result {
        let answer = self.0.map(|label| (u32::from(label.level), label.length));
        let (refused, (level, length)) = numbered(answer, (0, 0));
        write!(f, "{refused} {level} {length}")
    }
}

impl Answer for Label {
    fn due(&self) -> usize {
        self.0.map_or(0, |label| label.length)
    }
}

// A length, or 4,096 where it is longer: no text here is.
pub fn capped(length: usize) -> usize
    ensures { result ≤ 4096 }
{
    length.min(LONGEST_TEXT)
}

// The length of texts that stand end to end.
pub fn total(lengths: &[usize]) -> usize
    ensures { result ≤ 4096 * length lengths.now }
{
    let mut due = 0usize;
    for length in lengths {
        due = due.saturating_add(capped(*length));
    }
    due
}

// The lines of a call: its text fills the slice, is one byte longer than it, and leaves three bytes of it.
pub fn print_call<D, A, F>(rt: &impl Print, name: D, call: F) -> io::Result<()>
where
    D: Display + Drop,
    A: Answer,
    F: Fn(&mut [u8]) -> A + Drop,
    requires { F.IsAlwaysCallable call }
{
    let due = capped(call(&mut [0u8; LONGEST_TEXT]).due());
    print_line(rt, &name, &call, due)?;
    if let Some(short) = due.checked_sub(1) {
        print_line(rt, &name, &call, short)?;
    }
    print_line(rt, &name, &call, due + 3)
}

// One line: the call's name, the slice's length, the answer, and the slice afterwards.
fn print_line<D, A, F>(rt: &impl Print, name: &D, call: &F, length: usize) -> io::Result<()>
where
    D: Display,
    A: Answer,
    F: Fn(&mut [u8]) -> A,
    requires { F.IsAlwaysCallable call.now }
{
    let mut space = [b'#'; LONGEST_TEXT];
    print!(rt; "{name} {length}")?;
    let Some(lent) = space.get_mut(..length) else {
        return Ok(());
    };
    let answer = call(lent);
    print!(rt; " {answer} |")?;
    rt.write_all(lent)?;
    rt.write_all(b"\n")
}
