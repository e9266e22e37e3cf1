// The three SN texts of a chart of few tokens in one walk: detailed, partial and simplified, each in a buffer of its own.
ghost use Rattle.std.specs.Prelude.{ℕ, ◌+◌, ◌^◌, ◌≤◌, ◌<◌, ◌≢◌, ◌∷◌, length};
ghost use Rattle.rules.specs.Slices.{paired};
ghost use Rattle.text_buffer.specs.Three.{ThreeAsked, ThreeGrown};
ghost use Rattle.text_buffer.specs.Runs.{run_token};
ghost use Rattle.sn_text.specs.SnParts.{sn_of};
ghost use Rattle.sn_text.specs.SnThree.{Turned, ThreeOpened};

use crate::sn::{add_group, add_token, join_class, run_place};
use rules::tokens::Tokens;
use text_buffer::run::{Run, add_ended, add_run, open_run};
use text_buffer::three::Three;
use text_buffer::words::WordTable;

// The run that is open in a text, and the next place of its buffer.
#[derive(Clone, Copy)]
struct Turn {
    run: Run,
    place: usize,
}

// What is open in the three texts.
#[derive(Clone, Copy)]
struct Turns {
    detailed: Turn,
    partial: Turn,
    simplified: Turn,
}

// The next run right behind the open one, which is written: in no text do they join.
fn adjacent_turn(buf: &mut [u8], k: usize, last: Run, next: Run, words: &WordTable) -> Turn
    requires { (k + 52 ≤ length buf.old) × (last.class ≢ 0) × (last.class ≤ 4) × (next.class ≢ 0) }
    ensures { (limit : ℕ) → Turned limit (run_token last) 0 (run_token next) buf.old k buf.new result }
{
    Turn {
        run: next,
        place: add_ended(buf, k, last, words),
    }
}

// The next run behind a break: in detailed they don't join either, and the break is written by its length.
fn detailed_turn(
    buf: &mut [u8],
    k: usize,
    last: Run,
    gap: u32,
    next: Run,
    words: &WordTable,
) -> Turn
    requires { (k + 52 ≤ length buf.old) × (1 ≤ gap) × (last.class ≢ 0) × (last.class ≤ 4) × (next.class ≢ 0) }
    ensures { Turned 0 (run_token last) gap (run_token next) buf.old k buf.new result }
{
    let place = add_ended(buf, k, last, words);
    Turn {
        run: next,
        place: add_token(buf, place, 0, gap, words),
    }
}

// The next run behind a break, in partial and simplified: it joins the open one, or that is written with the break behind it.
fn joined_turn(
    buf: &mut [u8],
    k: usize,
    limit: u32,
    last: Run,
    gap: u32,
    next: Run,
    words: &WordTable,
) -> Turn
    requires { (k + 52 ≤ length buf.old) × (1 ≤ limit) × (last.class ≢ 0) × (last.class ≤ 4) × (next.class ≢ 0)
        × (last.length + (gap + next.length) < 2 ^ 64) }
    ensures { Turned limit (run_token last) gap (run_token next) buf.old k buf.new result }
{
    if next.class == join_class(limit, last.class, gap) {
        return Turn {
            run: Run {
                class: last.class,
                length: last.length + (gap as u64 + next.length),
                starred: true,
            },
            place: k,
        };
    }
    Turn {
        run: next,
        place: add_group(buf, k, limit, last, gap, words),
    }
}

// All but the last run of each text, behind the first.
fn three_turns(
    tokens: Tokens,
    first: Run,
    words: &WordTable,
    detailed: &mut [u8],
    partial: &mut [u8],
    simplified: &mut [u8],
) -> Turns
    requires { ThreeAsked first.class first.length tokens.classes.now tokens.lengths.now detailed.old partial.old simplified.old }
    ensures { ThreeOpened (run_token first) tokens.entry.classes.now tokens.entry.lengths.now detailed.old detailed.new partial.old
        partial.new simplified.old simplified.new result }
{
    let mut a = Turn {
        run: first,
        place: 0,
    };
    let mut b = a;
    let mut c = a;
    let mut i: usize = 0;
    // a turn takes one token or two
    while i < tokens.len() {
        let t = run_place(tokens, i);
        let j = t.place;
        let next = open_run(tokens.classes[j], tokens.lengths[j]);
        if j == i {
            a = adjacent_turn(detailed, a.place, a.run, next, words);
            b = adjacent_turn(partial, b.place, b.run, next, words);
            c = adjacent_turn(simplified, c.place, c.run, next, words);
        } else {
            a = detailed_turn(detailed, a.place, a.run, t.gap, next, words);
            b = joined_turn(partial, b.place, 1, b.run, t.gap, next, words);
            c = joined_turn(simplified, c.place, 4, c.run, t.gap, next, words);
        }
        i = j + 1;
    }
    Turns {
        detailed: a,
        partial: b,
        simplified: c,
    }
}

// The texts of a chart's first run and of the tokens behind it; how many bytes each has is answered.
pub fn sn_three(
    tokens: Tokens,
    first: Run,
    words: &WordTable,
    detailed: &mut [u8],
    partial: &mut [u8],
    simplified: &mut [u8],
) -> Three
    requires { ThreeAsked first.class first.length tokens.classes.now tokens.lengths.now detailed.old partial.old simplified.old }
    ensures { ThreeGrown detailed.old detailed.new partial.old partial.new simplified.old
        simplified.new (sn_of 0 (run_token first ∷ paired tokens.entry.classes.now tokens.entry.lengths.now))
        (sn_of 1 (run_token first ∷ paired tokens.entry.classes.now tokens.entry.lengths.now)) (sn_of 4 (run_token first ∷ paired tokens.entry.classes.now tokens.entry.lengths.now)) result }
{
    let t = three_turns(tokens, first, words, detailed, partial, simplified);
    let a = t.detailed;
    let b = t.partial;
    let c = t.simplified;
    Three {
        first: add_run(detailed, a.place, a.run, words),
        second: add_run(partial, b.place, b.run, words),
        third: add_run(simplified, c.place, c.run, words),
    }
}
