// The length of a text, part by part: of one form, and of the six that the pass writes.
ghost use Rattle.std.specs.Prelude.{◌≤◌, ◌^◌, ◌≡◌, [], ◌≢◌, length};
ghost use Rattle.rules.specs.Chart.{classes, runs};
ghost use Rattle.breakdown.specs.Forms.{text_of};
ghost use Rattle.breakdown.specs.Lengths.{FirstTally, TallyReady, TallyOn, each, both_each, ended_length, AllEnded, DueOf};

use crate::form::{Form, pass_form};
use crate::parts::ActivePart;
use crate::text::first_run;
use rules::tokens::Tokens;
use sn_text::sn::sn_part_length;
use standard_text::piece::Piece;
use standard_text::standard::standard_part_length;
use std::array;
use text_buffer::run::{Run, Tally, run_length};

fn first_tally(form: Form, class: u8, n: u32) -> Tally
    requires { (class ≢ 0) × (class ≤ 4) }
    ensures { FirstTally form class n result }
{
    Tally {
        run: first_run(form, class, n),
        length: 0,
    }
}

// One part more.
fn tally_part(tokens: Tokens, form: Form, t: Tally) -> Tally
    requires { TallyReady form t tokens.classes.now tokens.lengths.now }
    ensures { TallyOn form t tokens.entry.classes.now tokens.entry.lengths.now result }
{
    let run = t.run;
    match form {
        Form::Sn { limit } => {
            let d = sn_part_length(tokens, limit, run);
            Tally {
                run: d.run,
                length: t.length + d.length,
            }
        }
        Form::Standard { limit, signs } => {
            let d = standard_part_length(tokens, limit, signs, Piece::from(run));
            Tally {
                run: Run::from(d.piece),
                length: t.length + d.length,
            }
        }
    }
}

// With the last run or piece.
fn tally_end(t: Tally) -> usize
    requires { t.length ≤ 2 ^ 62 }
    ensures { result ≡ ended_length t }
{
    t.length + run_length(t.run)
}

fn none_length(form: Form) -> usize
    ensures { result ≡ length (text_of form []) }
{
    match form {
        Form::Sn { .. } => 0,
        Form::Standard { .. } => 11,
    }
}

// Of one form, from the measures of an active part.
pub fn length_of_measures(part: ActivePart, form: Form) -> usize
    ensures { result ≡ length (text_of form (runs (classes part.entry.measures.now))) }
{
    let Some(first) = part.first() else {
        return none_length(form);
    };
    let mut tally = first_tally(form, first.class, first.length);
    let mut parts = part.after(first);
    while parts.read() {
        tally = tally_part(parts.tokens(), form, tally);
    }
    tally_end(tally)
}

// The tallies of the six texts, in the pass's order.
fn six_first(class: u8, n: u32) -> [Tally; 6]
    requires { (class ≢ 0) × (class ≤ 4) }
    ensures { each (λ f t. FirstTally f class n t) result }
{
    array::from_fn(|i| first_tally(pass_form(i), class, n))
}

fn six_part(tokens: Tokens, six: [Tally; 6]) -> [Tally; 6]
    requires { each (λ f t. TallyReady f t tokens.classes.now tokens.lengths.now) six }
    ensures { both_each (λ f t u. TallyOn f t tokens.entry.classes.now tokens.entry.lengths.now u) six result }
{
    array::from_fn(|i| tally_part(tokens, pass_form(i), six[i]))
}

fn six_end(six: [Tally; 6]) -> [usize; 6]
    requires { each (λ f t. t.length ≤ 2 ^ 62) six }
    ensures { AllEnded six result }
{
    array::from_fn(|i| tally_end(six[i]))
}

// What is due: places for tokens, and the bytes of each of the six texts.
#[derive(Clone, Copy)]
pub struct Due {
    pub tokens: usize,
    pub lengths: [usize; 6],
}

// Of the measures of an active part.
pub fn due_of_measures(part: ActivePart) -> Due
    ensures { DueOf (runs (classes part.entry.measures.now)) result }
{
    let Some(first) = part.first() else {
        return Due {
            tokens: 0,
            lengths: [0, 0, 0, 11, 11, 11],
        };
    };
    let mut six = six_first(first.class, first.length);
    let mut tokens: usize = 1;
    let mut parts = part.after(first);
    while parts.read() {
        let read = parts.tokens();
        let on = six_part(read, six);
        six = on;
        tokens += read.len();
    }
    Due {
        tokens,
        lengths: six_end(six),
    }
}
