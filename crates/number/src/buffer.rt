// A word or a number in a buffer of the caller's own: what stands in it from the next place on is not kept.
ghost use Rattle.std.specs.Prelude.{◌+◌, ◌/◌, ◌≤◌, length};
ghost use Rattle.number.specs.Digits.{digits};
ghost use Rattle.number.specs.Grown.{Grown};
ghost use Rattle.number.specs.Place.{Room};
ghost use Rattle.number.specs.Word.{word_text, Numbers};

use crate::words::store_word;

// The text of a word.
pub fn add_word(buf: &mut [u8], k: usize, w: u32) -> usize
    requires { (k + 4 ≤ length buf.old) × (w / 16777216 ≤ 3) }
    ensures { Grown buf.old buf.new k (word_text w) result }
{
    store_word(buf, k, w);
    k + (w / 16777216) as usize
}

// `n` in base ten, of any length. As it calls itself, the compiler leaves it a call: copies of it in the callers' loops would slow the frequent case.
fn add_long(buf: &mut [u8], k: usize, n: u64) -> usize
    requires { Room buf.old k (digits n) }
    ensures { Grown buf.old buf.new k (digits n) result }
{
    if n < 10 {
        buf[k] = (48 + n) as u8;
        return k + 1;
    }
    let last = add_long(buf, k, n / 10);
    buf[last] = (48 + n % 10) as u8;
    last + 1
}

// `n` in base ten behind the first k bytes; the next place is answered. Numbers below 100, the most frequent ones, stand in the table: whether one
// has one digit or two is then no branch, which the processor could not predict in a long chart.
pub fn add_u64(buf: &mut [u8], k: usize, n: u64, words: &[u32]) -> usize
    requires { (k + 20 ≤ length buf.old) × (100 ≤ length words.now) × Numbers words.now }
    ensures { Grown buf.old buf.new k (digits n) result }
{
    if n >= 100 {
        return add_long(buf, k, n);
    }
    add_word(buf, k, words[n as usize])
}
