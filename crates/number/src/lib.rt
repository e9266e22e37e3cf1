// The number writer: a u64 in base ten.
#![tactic(auto)]

pub mod buffer;
pub mod refusal;
pub mod words;

ghost use Rattle.std.specs.Prelude.{◌≡◌, [], ◌∷◌, ◌++◌, ◌-◌, ◌≤◌, leb, length, replicate};
ghost use Rattle.number.specs.Digits.{digits, padded, last_digits};
ghost use Rattle.number.specs.Place.{Room, Wrote};
ghost use Rattle.number.specs.Pushed.{DigitCount, width_in_range, Pushed};
ghost use Rattle.number.specs.Questions.{question, first_no, filled, room_for, OneText};
ghost use Rattle.number.specs.Refusal.{carried, written_of};
ghost use Rattle.number.specs.Word.{word_bytes};

use crate::refusal::Refusal;
use crate::words::store_word;

// What C is told of a call that writes one text: the refusal's number, 0 where the call is accepted, and the text's length.
#[repr(C)]
#[derive(Clone, Copy, Debug, PartialEq, Eq)]
pub struct Written {
    pub refused: u32,
    pub length: usize,
}

impl From<Result<usize, Refusal>> for Written {
    ghost from_gives = { λ answer written. written ≡ written_of answer };

    fn from(answer: Result<usize, Refusal>) -> Written {
        match answer {
            Ok(length) => Written { refused: 0, length },
            Err(refusal) => Written {
                refused: refusal.number(),
                length: 0,
            },
        }
    }
}

// No number is wider: a u64 has at most 20 digits.
pub const MOST_WIDTH: u32 = 20;

// How many digits `n` has: dividing by ten takes one away, and a number below ten has one. The turns are at most 19 and the compiler makes a
// comparison of each, so that callers which measure texts have no loop inside their own.
fn count_by_ten(n: u64) -> usize
    ensures { DigitCount n result }
{
    let mut rest = n;
    for k in 1..20 {
        if rest < 10 {
            return k;
        }
        rest /= 10;
    }
    20
}

// The same. Below 100, as most numbers of a text are, nothing is divided.
pub fn digit_count(n: u64) -> usize
    ensures { DigitCount n result }
{
    if n >= 100 {
        return count_by_ten(n);
    }
    if n < 10 { 1 } else { 2 }
}

// The same, sooner for long numbers: while there are more than four digits, by four divisions at a time, of which the compiler makes one.
fn count_by_fours(n: u64) -> usize
    ensures { DigitCount n result }
{
    let mut k: usize = 0;
    let mut rest = n;
    while rest >= 10000 {
        rest = rest / 10 / 10 / 10 / 10;
        k += 4;
    }
    k + digit_count(rest)
}

// The last four digits of `n` as the bytes of a word, the first one lowest. First two pairs of digits stand in its halves, and the tens of both are found
// at once: 103 / 1024 of a number below 100, rounded down, is a tenth of it. Then a pair p with the tens t becomes t + 256 × (p - 10 × t), and the word of
// "0000" is added.
fn four_digits(n: u64) -> u32
    ensures { word_bytes result ≡ last_digits 4 n }
{
    let last = (n % 10000) as u32;
    let pairs = last / 100 + last % 100 * 65536;
    let tenths = pairs * 103 / 1024;
    let tens = tenths % 16 + tenths / 65536 * 65536;
    pairs * 256 - tens * 2559 + 808464432
}

// `n`, which has `count` digits, at the start of `out`, from the last digit to the first.
fn put_by_ten(out: &mut [u8], n: u64, count: usize)
    requires { (count ≡ length (digits n)) × Room out.old 0 (digits n) }
    ensures { out.new ≡ filled out.old (digits n) }
{
    let mut k = count;
    let mut rest = n;
    while 10 <= rest {
        k -= 1;
        out[k] = (48 + rest % 10) as u8;
        rest /= 10;
    }
    // As `out[0]`, which it is, the compiler would make it one store with that of a single digit in `push_digits`, and have that jump here.
    out[k - 1] = (48 + rest) as u8;
}

// The same; while there are more than four, four digits at a time.
fn put_by_fours(out: &mut [u8], n: u64, count: usize)
    requires { (count ≡ length (digits n)) × Room out.old 0 (digits n) }
    ensures { out.new ≡ filled out.old (digits n) }
{
    let mut k = count;
    let mut rest = n;
    while 10000 <= rest {
        k -= 4;
        store_word(out, k, four_digits(rest));
        rest /= 10000;
    }
    put_by_ten(out, rest, k);
}

// `n` in base ten at the start of `out`, with no space before it; refused with 4 where `out` is shorter than that.
fn push_digits(out: &mut [u8], n: u64) -> Result<usize, Refusal>
    ensures { OneText (first_no (room_for (digits n) out.old ∷ [])) (digits n) out.old out.new (written_of result) }
{
    if n < 10 {
        if out.len() == 0 {
            return Err(Refusal::TextTooShort);
        }
        out[0] = (48 + n) as u8;
        return Ok(1);
    }
    let length = count_by_fours(n);
    if out.len() < length {
        return Err(Refusal::TextTooShort);
    }
    put_by_fours(out, n, length);
    Ok(length)
}

// The questions of a width and of a text of `length` bytes in a slice of `room`.
fn ask(width: u32, length: usize, room: usize) -> Result<(), Refusal>
    ensures { carried result ≡ first_no (width_in_range width ∷ question 4 (leb length room) ∷ []) }
{
    if width > MOST_WIDTH {
        return Err(Refusal::WidthTooLarge);
    }
    if room < length {
        return Err(Refusal::TextTooShort);
    }
    Ok(())
}

// Spaces, and behind them `n`, which has `count` digits, at the start of `out`.
fn put_padded(out: &mut [u8], n: u64, count: usize, spaces: usize)
    requires { (count ≡ length (digits n)) × Room out.old 0 (replicate spaces 32 ++ digits n) }
    ensures { out.new ≡ filled out.old (replicate spaces 32 ++ digits n) }
{
    out[..spaces].fill(b' ');
    put_by_fours(&mut out[spaces..], n, count);
}

// The same as `push_u64`, by the count of spaces.
fn push_padded(out: &mut [u8], n: u64, width: u32) -> Result<usize, Refusal>
    ensures { Pushed n width out.old out.new (written_of result) }
{
    let count = count_by_fours(n);
    let spaces = (width as usize).saturating_sub(count);
    let length = spaces + count;
    ask(width, length, out.len())?;
    put_padded(out, n, count, spaces);
    Ok(length)
}

// `n` in base ten at the start of `out`, after spaces where it has fewer digits than `width`: refused with 20 where `width` is above 20, then with 4 where
// `out` is shorter than the text. Every number has a digit, so a width of 0 or 1 changes nothing.
pub fn push_u64(out: &mut [u8], n: u64, width: u32) -> Result<usize, Refusal>
    ensures { Pushed n width out.old out.new (written_of result) }
{
    if width < 2 {
        return push_digits(out, n);
    }
    push_padded(out, n, width)
}

// `n` at that width at the place `at` of a longer text; the next place is answered.
pub fn put_u64(out: &mut [u8], at: usize, n: u64, width: u32) -> usize
    requires { (width ≤ 20) × Room out.old at (padded width n) }
    ensures { Wrote out.old out.new at (padded width n) result }
{
    let count = count_by_fours(n);
    let spaces = (width as usize).saturating_sub(count);
    put_padded(&mut out[at..], n, count, spaces);
    at + (spaces + count)
}
