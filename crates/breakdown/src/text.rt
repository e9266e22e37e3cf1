// The text of a form, part by part: from tokens in two slices, or from measures.
ghost use Rattle.std.specs.Prelude.{◌+◌, ◌≤◌, ◌^◌, [], ◌++◌, ◌≢◌, length, take};
ghost use Rattle.number.specs.Place.{Room, Wrote};
ghost use Rattle.rules.specs.Chart.{classes, runs};
ghost use Rattle.rules.specs.Slices.{paired};
ghost use Rattle.number.specs.Grown.{Grown};
ghost use Rattle.text_buffer.specs.Buffer.{Added, Ready, goes_on};
ghost use Rattle.text_buffer.specs.Parts as Text;
ghost use Rattle.text_buffer.specs.Parts.{TokensBehind, PartRoom, PartWritten};
ghost use Rattle.breakdown.specs.Forms.{text_of, open_text, part_text, Open, OpenNext, FirstRun};
ghost use Rattle.text_buffer.specs.Runs.{run_text};

use crate::form::Form;
use crate::parts::ActivePart;
use rules::tokens::Tokens;
use sn_text::sn::sn_part;
use standard_text::piece::Piece;
use standard_text::standard::{dense_part, standard_part};
use text_buffer::buffer::{Left, flush, put_buffer};
use text_buffer::put::put_no_streams;
use text_buffer::run::{Done, Run, add_run};
use text_buffer::words::WordTable;

// One part of a text; the run or piece that is open after it is answered.
fn text_part(
    tokens: Tokens,
    form: Form,
    dense: bool,
    run: Run,
    words: &WordTable,
    buf: &mut [u8],
    out: &mut [u8],
    from: Left,
) -> Done
    requires { TokensBehind run.class tokens.classes.now tokens.lengths.now × Open form run × (run.length ≤ 2 ^ 62) × Ready buf.old from.left
        × PartRoom (part_text form run tokens.classes.now tokens.lengths.now) buf.old out.old from }
    ensures { PartWritten (part_text form run tokens.entry.classes.now tokens.entry.lengths.now) (open_text form result.run) buf.old out.old from
        buf.new out.new result.to × OpenNext form run (length tokens.entry.classes.now) result.run }
{
    match form {
        Form::Sn { limit } => sn_part(tokens, limit, dense, run, words, buf, out, from),
        Form::Standard { limit, signs } => {
            let open = Piece::from(run);
            let d = if dense {
                dense_part(tokens, limit, signs, open, words, buf, out, from)
            } else {
                standard_part(tokens, limit, signs, open, words, buf, out, from)
            };
            Done {
                run: Run::from(d.piece),
                to: d.to,
            }
        }
    }
}

// The run or piece of the first token.
pub fn first_run(form: Form, class: u8, length: u32) -> Run
    requires { (class ≢ 0) × (class ≤ 4) }
    ensures { FirstRun form class length result }
{
    Run {
        class: match form {
            Form::Sn { .. } => class,
            Form::Standard { .. } => 1,
        },
        length: length as u64,
        starred: false,
    }
}

// The text of no tokens.
fn add_none(form: Form, buf: &mut [u8], k: usize) -> usize
    requires { k + 11 ≤ length buf.old }
    ensures { Grown buf.old buf.new k (text_of form []) result }
{
    match form {
        Form::Sn { .. } => k,
        Form::Standard { .. } => put_no_streams(buf, k),
    }
}

// The last run or piece.
fn add_last(done: Done, words: &WordTable, buf: &mut [u8], out: &mut [u8]) -> Left
    requires { Ready buf.old done.to.left × (done.run.class ≤ 4)
        × Room out.old done.to.place (take done.to.left buf.old ++ run_text done.run) }
    ensures { Added buf.old out.old done.to (run_text done.run) buf.new out.new result }
{
    let to = done.to;
    let full = add_run(buf, to.left, done.run, words);
    flush(buf, out, to.place, full)
}

// From the tokens in two slices; `dense` picks the way of writing, not the text.
pub fn text_of_tokens(
    tokens: Tokens,
    form: Form,
    dense: bool,
    words: &WordTable,
    buf: &mut [u8],
    out: &mut [u8],
    from: Left,
) -> Left
    requires { Text.Tokens tokens.classes.now tokens.lengths.now × Ready buf.old from.left
        × Room out.old from.place (take from.left buf.old ++ text_of form (paired tokens.classes.now tokens.lengths.now)) }
    ensures { Added buf.old out.old from (text_of form (paired tokens.entry.classes.now tokens.entry.lengths.now))
        buf.new out.new result }
{
    if tokens.len() == 0 {
        let full = add_none(form, buf, from.left);
        return flush(buf, out, from.place, full);
    }
    let first = first_run(form, tokens.classes[0], tokens.lengths[0]);
    let done = text_part(tokens.behind(1), form, dense, first, words, buf, out, from);
    add_last(done, words, buf, out)
}

// From the measures of an active part, whose tokens are read some at a time.
pub fn text_of_measures(part: ActivePart, form: Form, out: &mut [u8], at: usize) -> usize
    requires { Room out.old at (text_of form (runs (classes part.measures.now))) }
    ensures { Wrote out.old out.new at (text_of form (runs (classes part.entry.measures.now))) result }
{
    let words = WordTable::new();
    let mut buf = [0u8; 2048];
    let to = measures_text(part, form, &words, &mut buf, out, at);
    put_buffer(out, to.place, &buf, to.left)
}

// The text of the measures by way of an empty buffer; the rest of it stands in the buffer.
fn measures_text(
    part: ActivePart,
    form: Form,
    words: &WordTable,
    buf: &mut [u8],
    out: &mut [u8],
    at: usize,
) -> Left
    requires { Ready buf.old 0 × Room out.old at (text_of form (runs (classes part.measures.now))) }
    ensures { Added buf.old out.old (goes_on at 0) (text_of form (runs (classes part.entry.measures.now)))
        buf.new out.new result }
{
    let Some(first) = part.first() else {
        return Left {
            place: at,
            left: add_none(form, buf, 0),
        };
    };
    let mut done = Done {
        run: first_run(form, first.class, first.length),
        to: Left { place: at, left: 0 },
    };
    let mut parts = part.after(first);
    while parts.read() {
        done = text_part(
            parts.tokens(),
            form,
            false,
            done.run,
            words,
            buf,
            out,
            done.to,
        );
    }
    add_last(done, words, buf, out)
}
