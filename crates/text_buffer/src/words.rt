// Texts of up to three bytes in a table of words, so that one is written by one look-up.
ghost use Rattle.std.specs.Prelude.{◌≡◌, ◌+◌, ◌/◌, ◌≤◌, ◌<◌, min, get_or, length, cond, ◌++◌};
ghost use Rattle.number.specs.PlacesSet.{PlacesSet};
ghost use Rattle.rules.specs.Bytes.{bytes};
ghost use Rattle.rules.specs.Texts.{mark, star};
ghost use Rattle.number.specs.Word.{byte_text, Word};
ghost use Rattle.text_buffer.specs.Words.{Words, side, is_word, class_word, sign_word};

use number::words::{set_numbers, word_before};

// The byte on a side of the length of a token of `class`: `b` of a break, a run's mark, or 0 for nothing.
fn side_byte(b: u8, class: usize) -> u8
    ensures { byte_text result ≡ side b class }
{
    match class {
        0 => b,
        1 => 0,
        2 => b'~',
        3 => b'\\',
        _ => b'=',
    }
}

// The word `w` at n places.
fn set_same(words: &mut [u32], from: usize, n: usize, w: u32)
    requires { from + n ≤ length words.old }
    ensures { PlacesSet (is_word w) from n words.old words.new }
{
    words[from..from + n].fill(w);
}

// A row by class: what stands on a side of a token's length, and then the text of `tail`.
fn set_row(words: &mut [u32], row: usize, b: u8, tail: u32)
    requires { (row + 5 ≤ length words.old) × (tail / 16777216 ≤ 2) }
    ensures { PlacesSet (class_word b tail) row 5 words.old words.new }
{
    for class in 0..5 {
        words[row + class] = word_before(side_byte(b, class), tail);
    }
}

// The signs of gaps by length: up to 4, up to `most`, and more.
fn set_signs(words: &mut [u32], row: usize, most: usize, dash: u32, slash: u32, bar: u32)
    requires { (4 ≤ most) × (row + most + 2 ≤ length words.old) }
    ensures { PlacesSet (sign_word most dash slash bar) row (most + 2) words.old words.new }
{
    set_same(words, row, 5, dash);
    set_same(words, row + 5, most - 4, slash);
    set_same(words, row + most + 1, 1, bar);
}

// Where the rows begin, after the numbers below 100. By class: the marks.
const MARKS: usize = 100;

// By class: what stands before a token's length.
const BEFORE: usize = 105;

// By class: what stands after a token's length, and a space.
const AFTER: usize = 110;

// By class: what stands after a run's length, and a space.
const ENDED: usize = 115;

// The same with a star.
const STARRED: usize = 120;

// By the length of a gap: the signs of SN texts.
pub(crate) const SIGNS: usize = 125;

// And those of standard texts.
pub(crate) const PARTS: usize = 159;

// Word n of the row of a table that begins at `row`; from `last` on, its last.
pub fn word_at(words: &[u32; 192], row: usize, last: u32, n: u32) -> u32
    requires { row + last < 192 }
    ensures { result ≡ get_or words.now (row + min n last) 0 }
{
    words[row + n.min(last) as usize]
}

// The word for `class` in a row of five of a table.
pub fn class_word(words: &[u32; 192], row: usize, class: u8) -> u32
    requires { (row ≤ 120) × (class ≤ 4) }
    ensures { result ≡ get_or words.now (row + class) 0 }
{
    words[row + class as usize]
}

// The table, filled by whoever writes texts, once, and lent.
#[derive(Drop)]
pub struct WordTable {
    pub table: [u32; 192],
    ghost filled: { Words table },
}

impl WordTable {
    pub fn new() -> WordTable {
        let space = word_before(b' ', 0);
        let star = word_before(b'*', space);
        let dash = word_before(b'-', space);
        let slash = word_before(b'/', space);
        let bar = word_before(b'|', space);
        let mut table = [0u32; 192];
        set_numbers(&mut table);
        set_row(&mut table, MARKS, 0, 0);
        set_row(&mut table, BEFORE, b'(', 0);
        set_row(&mut table, AFTER, b')', space);
        set_row(&mut table, ENDED, 0, space);
        set_row(&mut table, STARRED, 0, star);
        set_signs(&mut table, SIGNS, 32, dash, slash, bar);
        set_signs(
            &mut table,
            PARTS,
            31,
            word_before(b'-', 0),
            word_before(b'/', 0),
            word_before(b' ', bar),
        );
        WordTable { table }
    }

    // Word n of the row that begins at `row`; from `last` on, its last.
    pub fn word_at(&self, row: usize, last: u32, n: u32) -> u32
        requires { row + last < 192 }
        ensures { result ≡ get_or self.now.table (row + min n last) 0 }
    {
        word_at(&self.table, row, last, n)
    }

    // The word for `class` in a row of five.
    fn class_word(&self, row: usize, class: u8) -> u32
        requires { (row ≤ 120) × (class ≤ 4) }
        ensures { result ≡ get_or self.now.table (row + class) 0 }
    {
        class_word(&self.table, row, class)
    }

    // A run's mark.
    pub fn mark_word(&self, class: u8) -> u32
        requires { class ≤ 4 }
        ensures { Word (mark class) result }
    {
        self.class_word(MARKS, class)
    }

    // What stands before a token's length: a break's parenthesis or a run's mark.
    pub fn before_word(&self, class: u8) -> u32
        requires { class ≤ 4 }
        ensures { Word (side 40 class) result }
    {
        self.class_word(BEFORE, class)
    }

    // What stands after a token's length, and a space.
    pub fn after_word(&self, class: u8) -> u32
        requires { class ≤ 4 }
        ensures { Word (side 41 class ++ bytes " ") result }
    {
        self.class_word(AFTER, class)
    }

    // What stands after a run's length, and a space.
    pub fn end_word(&self, class: u8, starred: bool) -> u32
        requires { class ≤ 4 }
        ensures { Word (mark class ++ (star starred ++ bytes " ")) result }
    {
        self.class_word(end_row(starred), class)
    }
}

// Where the row begins of what stands after a run's length.
fn end_row(starred: bool) -> usize
    ensures { result ≡ cond starred 120 115 }
{
    if starred { STARRED } else { ENDED }
}
