// Texts of up to three bytes as words: the first byte lowest, then the second and the third, then how many count. The numbers below 100 are such texts,
// and stand in a table that its user fills and lends.
ghost use Rattle.std.specs.Prelude.{◌+◌, ◌*◌, ◌/◌, ◌≤◌, ◌≡◌, cond, ◌++◌, eqb, length};
ghost use Rattle.std.proofs.lemmas.List.Edits.{sets};
ghost use Rattle.number.specs.PlacesSet.{PlacesSet};
ghost use Rattle.number.specs.Word.{byte_text, word_text, word_bytes, Word, number_word};

// The bytes of a word at the place `k`. All four are stored, so that it is one store.
pub(crate) fn store_word(buf: &mut [u8], k: usize, w: u32)
    requires { k + 4 ≤ length buf.old }
    ensures { buf.new ≡ sets buf.old k (word_bytes w) }
{
    buf[k..k + 4].copy_from_slice(&w.to_le_bytes());
}

// The word of the byte `b`, or of nothing if it is 0, and then of the text of `w`.
pub fn word_before(b: u8, w: u32) -> u32
    requires { w / 16777216 ≤ 2 }
    ensures { Word (byte_text b ++ word_text w) result }
{
    if b == 0 {
        return w;
    }
    (w / 16777216 + 1) * 16777216 + w % 65536 * 256 + b as u32
}

// The first byte of a number below 100; 0 where it has one digit.
fn first_byte(tens: usize) -> u8
    requires { tens ≤ 9 }
    ensures { result ≡ cond (eqb tens 0) 0 (48 + tens) }
{
    if tens == 0 {
        return 0;
    }
    (48 + tens) as u8
}

// Ten numbers from 10 × `tens` on, each at its own place.
fn set_ten(words: &mut [u32], tens: usize)
    requires { (tens ≤ 9) × (10 * tens + 10 ≤ length words.old) }
    ensures { PlacesSet (number_word (10 * tens)) (10 * tens) 10 words.old words.new }
{
    let first = first_byte(tens);
    for last in 0..10 {
        words[10 * tens + last] = word_before(first, word_before((48 + last) as u8, 0));
    }
}

// The numbers below 100, each at its own place.
pub fn set_numbers(words: &mut [u32])
    requires { 100 ≤ length words.old }
    ensures { PlacesSet (number_word 0) 0 100 words.old words.new }
{
    for tens in 0..10 {
        set_ten(words, tens);
    }
}
