// One run: its length, by class bare or in marks, and a star; and what is known behind a part of a text.
ghost use Rattle.std.specs.Prelude.{◌+◌, ◌≤◌, ◌<◌, ◌≡◌, false, ◌++◌, length};
ghost use Rattle.number.specs.Place.{Room, Wrote};
ghost use Rattle.rules.specs.Bytes.{bytes};
ghost use Rattle.rules.specs.Texts.{star};
ghost use Rattle.number.specs.Grown.{Grown};
ghost use Rattle.text_buffer.specs.Measured.{Measured};
ghost use Rattle.text_buffer.specs.Runs.{run_text};

use crate::buffer::{Left, put_buffer};
use crate::words::WordTable;
use number::buffer::{add_u64, add_word};
use number::digit_count;

// A run that may still grow. The class is last: where it stood first, it was read back by a wider load than it was stored by, which the processor
// has to wait for.
#[derive(Clone, Copy)]
pub struct Run {
    pub length: u64,
    pub starred: bool,
    pub class: u8,
}

pub fn open_run(class: u8, length: u32) -> Run
    ensures { result ≡ record { class = class; length = length; starred = false } }
{
    Run {
        class,
        length: length as u64,
        starred: false,
    }
}

// The run that is open (in a standard text, a piece), and where the text goes on.
#[derive(Clone, Copy)]
pub struct Done {
    pub run: Run,
    pub to: Left,
}

// The run that is open, and how many bytes stand before it.
#[derive(Clone, Copy)]
pub struct Tally {
    pub run: Run,
    pub length: usize,
}

// The star is stored anyway: the place says whether it counts.
pub fn add_star(buf: &mut [u8], k: usize, starred: bool) -> usize
    requires { k < length buf.old }
    ensures { Grown buf.old buf.new k (star starred) result }
{
    buf[k] = b'*';
    if starred { k + 1 } else { k }
}

// A run and a space, in the buffer.
pub fn add_ended(buf: &mut [u8], k: usize, run: Run, words: &WordTable) -> usize
    requires { (k + 26 ≤ length buf.old) × (run.class ≤ 4) }
    ensures { Grown buf.old buf.new k (run_text run ++ bytes " ") result }
{
    let a = add_word(buf, k, words.mark_word(run.class));
    let b = add_u64(buf, a, run.length, &words.table);
    add_word(buf, b, words.end_word(run.class, run.starred))
}

// A run alone, in the buffer.
pub fn add_run(buf: &mut [u8], k: usize, run: Run, words: &WordTable) -> usize
    requires { (k + 26 ≤ length buf.old) × (run.class ≤ 4) }
    ensures { Grown buf.old buf.new k (run_text run) result }
{
    add_ended(buf, k, run, words) - 1
}

// A run at a place of the lent slice.
pub fn put_run(out: &mut [u8], at: usize, buf: &mut [u8], run: Run, words: &WordTable) -> usize
    requires { (26 ≤ length buf.old) × (run.class ≤ 4) × Room out.old at (run_text run) }
    ensures { Wrote out.old out.new at (run_text run) result }
{
    let k = add_run(buf, 0, run, words);
    put_buffer(out, at, buf, k)
}

pub fn star_length(starred: bool) -> usize
    ensures { Measured (star starred) 1 result }
{
    if starred { 1 } else { 0 }
}

// How many bytes a run has.
pub fn run_length(run: Run) -> usize
    ensures { Measured (run_text run) 23 result }
{
    let mark: usize = if run.class < 2 { 0 } else { 1 };
    digit_count(run.length) + mark + mark + star_length(run.starred)
}
