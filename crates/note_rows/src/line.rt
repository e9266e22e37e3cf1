// The lines of note rows, one by one.
ghost use Rattle.std.specs.Prelude.{◌≡◌, false, not, [], ◌∷◌, ◌<◌, length, MatchOption, MatchResult};
ghost use Rattle.std.specs.Iterator.{at_most};
ghost use Rattle.note_rows.specs.NoteRows.{lines_of, one_of, row_bytes, note_bytes};
ghost use Rattle.note_rows.specs.Steps.{Told, row_of, begins_row, FirstRow, FirstLine, IsFault, NextLine};

use number::refusal::Refusal;

// A line that passes.
#[derive(Clone, Copy)]
pub enum Line {
    // A row, and what it adds to its measure.
    Row(u32),
    // The line ",", which ends a measure.
    Measure,
    // The line ";", which ends the last, with nothing after it.
    Last,
}

// 1 for a byte of a row, "0" to "4" or "M", else 0.
fn row_byte(b: u8) -> u32
    ensures { Told (one_of row_bytes b) result }
{
    match b {
        b'0'..=b'4' | b'M' => 1,
        _ => 0,
    }
}

// 0 for a byte that makes a row count, "1", "2" or "4", else 1.
fn quiet_byte(b: u8) -> u32
    ensures { Told (not (one_of note_bytes b)) result }
{
    match b {
        b'1'..=b'2' | b'4' => 0,
        _ => 1,
    }
}

// What four bytes add to their measure, if they are a row. Each sum is compiled to a few operations on all four bytes; `&&` or `&` of `bool`s
// in its place, or `if` or `matches!` in place of `match` above, is compiled to branches, and which notes a row holds no processor predicts.
fn row_of(a: u8, b: u8, c: u8, d: u8) -> Option<u32>
    ensures { result ≡ row_of (a ∷ b ∷ c ∷ d ∷ []) }
{
    if row_byte(a) + row_byte(b) + row_byte(c) + row_byte(d) != 4 {
        return None;
    }
    if quiet_byte(a) + quiet_byte(b) + quiet_byte(c) + quiet_byte(d) == 4 {
        return Some(0);
    }
    Some(1)
}

// The row that a text begins with, and what stands after it.
fn first_row(text: &[u8]) -> Option<(u32, &[u8])>
    ensures { MatchOption result (begins_row (lines_of text.now) ≡ false) (λ p. FirstRow text.now p.0 p.1.now) }
{
    let [a, b, c, d, end, rest @ ..] = text else {
        return None;
    };
    if *end != b'\n' {
        return None;
    }
    let note = row_of(*a, *b, *c, *d)?;
    Some((note, rest))
}

// The line "," or ";" that a text begins with, and what stands after it.
fn first_end(text: &[u8]) -> Result<(Line, &[u8]), Refusal>
    requires { (0 < length text.now) × (begins_row (lines_of text.now) ≡ false) }
    ensures { MatchResult result (λ p. FirstLine text.now p.0 p.1.now) (IsFault text.now) }
{
    let [mark, end, rest @ ..] = text else {
        return Err(Refusal::BadLine);
    };
    if *end != b'\n' {
        return Err(Refusal::BadLine);
    }
    match *mark {
        b',' => Ok((Line::Measure, rest)),
        b';' if rest.is_empty() => Ok((Line::Last, rest)),
        b';' => Err(Refusal::BadEnd),
        _ => Err(Refusal::BadLine),
    }
}

// The lines of the text that is left; after a faulty line none are.
#[derive(Drop)]
pub struct Lines<'a>(pub &'a [u8]);

impl<'a> Iterator for Lines<'a> {
    type Item = Result<Line, Refusal>;

    ghost next_gives = { λ s r t. NextLine s.0.now r t.0.now };

    ghost remaining = { λ s. at_most (length s.0.now) };

    // Most lines are rows: of any other line and of the text's end it is asked only where no row stands.
    fn next(&mut self) -> Option<Result<Line, Refusal>> {
        if let Some((note, rest)) = first_row(self.0) {
            self.0 = rest;
            return Some(Ok(Line::Row(note)));
        }
        if self.0.is_empty() {
            return None;
        }
        match first_end(self.0) {
            Ok((line, rest)) => {
                self.0 = rest;
                Some(Ok(line))
            }
            Err(refusal) => {
                self.0 = &[];
                Some(Err(refusal))
            }
        }
    }
}
