// A break or gap, by its length or as a sign.
ghost use Rattle.std.specs.Prelude.{◌+◌, ◌≤◌, ◌++◌, length};
ghost use Rattle.rules.specs.Bytes.{bytes};
ghost use Rattle.rules.specs.Reduced.{gap, sign_of};
ghost use Rattle.rules.specs.Texts.{part, word};
ghost use Rattle.number.specs.Grown.{Grown};
ghost use Rattle.number.specs.Word.{Word};

use crate::buffer::add_byte;
use crate::words::{PARTS, SIGNS, WordTable};
use number::buffer::add_u64;

// By its length, in parentheses.
pub fn add_in_parens(buf: &mut [u8], k: usize, n: u32, words: &WordTable) -> usize
    requires { k + 22 ≤ length buf.old }
    ensures { Grown buf.old buf.new k (word (gap n)) result }
{
    let a = add_byte(buf, k, b'(');
    let b = add_u64(buf, a, n as u64, &words.table);
    add_byte(buf, b, b')')
}

impl WordTable {
    // The sign of an SN text, and a space.
    pub fn sign_word(&self, n: u32) -> u32
        ensures { Word (word (sign_of 32 n) ++ bytes " ") result }
    {
        self.word_at(SIGNS, 33, n)
    }

    // The sign of a standard text, with what stands around it.
    pub fn part_word(&self, n: u32) -> u32
        ensures { Word (part (sign_of 31 n)) result }
    {
        self.word_at(PARTS, 32, n)
    }
}
