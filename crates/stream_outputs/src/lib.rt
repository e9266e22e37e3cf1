// The pass: tokens, counts and six texts of a chart.
#![tactic(auto)]

ghost use Rattle.std.specs.Prelude.{◌+◌, ◌*◌, ◌^◌, ◌≤◌, ◌<◌, ◌≡◌, true};
ghost use Rattle.text_buffer.specs.Buffer.{Ready};
ghost use Rattle.number.specs.Refusal.{carried};
ghost use Rattle.rules.specs.Slices.{paired};
ghost use Rattle.stream_outputs.specs.Promises.{Outputs, stream_outputs_of};
ghost use Rattle.stream_outputs.specs.Pass.{no_by_places, SixTexts, Tokened};

use crate::short::{FEW_TOKENS, put_short};
use breakdown::form::form_of;
use breakdown::length::due_of_measures;
use breakdown::parts::ActivePart;
use breakdown::text::text_of_tokens;
use measures::chart::Chart;
use number::refusal::Refusal;
use rules::tokens::Tokens;
use rules::{BreakdownMode, Kind, StreamBreakdownLevel, StreamCounts};
use scan::scan;
use text_buffer::buffer::{Left, put_buffer};
use text_buffer::words::WordTable;

mod short;

// The counts of a chart, the number of its tokens and the length of each of its six texts.
#[derive(Clone, Copy, Debug, PartialEq, Eq)]
pub struct ChartOutputs {
    pub counts: StreamCounts,
    pub tokens: usize,
    pub lengths: [usize; 6],
}

// What the pass answers in C: the refusal's number, and the same.
#[repr(C)]
#[derive(Clone, Copy)]
pub struct StreamOutputs {
    pub refused: u32,
    pub counts: StreamCounts,
    pub tokens: usize,
    pub lengths: [usize; 6],
}

impl From<Result<ChartOutputs, Refusal>> for StreamOutputs {
    ghost from_gives = { λ r answer. answer ≡ stream_outputs_of r };

    fn from(r: Result<ChartOutputs, Refusal>) -> StreamOutputs {
        match r {
            Ok(outputs) => {
                let lengths = outputs.lengths;
                StreamOutputs {
                    refused: 0,
                    counts: outputs.counts,
                    tokens: outputs.tokens,
                    lengths,
                }
            }
            Err(refusal) => StreamOutputs {
                refused: refusal.number(),
                counts: StreamCounts::default(),
                tokens: 0,
                lengths: [0; 6],
            },
        }
    }
}

// Is there room for all that a chart of n measures can need?
fn surely_fit(n: usize, places: usize, room: usize) -> bool
    requires { n ≤ 1048576 }
    ensures { result ≡ true → (n ≤ places) × (17 * n + 33 ≤ room) }
{
    n <= places && 17 * n + 33 <= room
}

// Questions 2 and 4. What is due is counted only where a slice could be too short.
fn ask_room(chart: Chart, classes: usize, lengths: usize, room: usize) -> Result<(), Refusal>
    ensures { carried result ≡ no_by_places chart.entry.measures.now classes lengths room }
{
    let places = classes.min(lengths);
    if surely_fit(chart.measures.len(), places, room) {
        return Ok(());
    }
    let due = due_of_measures(ActivePart::new(chart));
    if due.tokens > places {
        return Err(Refusal::TooFewTokens);
    }
    let bytes: usize = due.lengths.iter().sum();
    if bytes > room {
        return Err(Refusal::TextTooShort);
    }
    Ok(())
}

// How many bytes were added between two places.
fn between(from: Left, to: Left) -> usize
    requires { (from.place + from.left ≤ to.place + to.left) × (to.place + to.left < 2 ^ 64) }
    ensures { result + (from.place + from.left) ≡ to.place + to.left }
{
    to.place + to.left - (from.place + from.left)
}

// The six texts of some tokens end to end, by way of an empty buffer; the length of each is answered.
fn put_six(
    tokens: Tokens,
    dense: bool,
    words: &WordTable,
    buf: &mut [u8],
    out: &mut [u8],
) -> [usize; 6]
    requires { Tokened tokens.classes.now tokens.lengths.now out.old × Ready buf.old 0 }
    ensures { SixTexts (paired tokens.entry.classes.now tokens.entry.lengths.now) out.old out.new result }
{
    let kinds = [
        Kind::Sn(BreakdownMode::Detailed),
        Kind::Sn(BreakdownMode::Partial),
        Kind::Sn(BreakdownMode::Simplified),
        Kind::Standard(StreamBreakdownLevel::Detailed),
        Kind::Standard(StreamBreakdownLevel::Partial),
        Kind::Standard(StreamBreakdownLevel::Simple),
    ];
    let mut lengths = [0; 6];
    let mut to = Left { place: 0, left: 0 };
    for (i, kind) in kinds.iter().enumerate() {
        let next = text_of_tokens(tokens, form_of(*kind), dense, words, buf, out, to);
        lengths[i] = between(to, next);
        to = next;
    }
    put_buffer(out, to.place, buf, to.left);
    lengths
}

// The same by way of a table of words and a buffer of its own or, of few tokens, three at a time.
fn put_texts(tokens: Tokens, dense: bool, out: &mut [u8]) -> [usize; 6]
    requires { Tokened tokens.classes.now tokens.lengths.now out.old }
    ensures { SixTexts (paired tokens.entry.classes.now tokens.entry.lengths.now) out.old out.new result }
{
    let words = WordTable::new();
    let few = tokens.len();
    if few != 0 && few <= FEW_TOKENS {
        return put_short(tokens, &words, out);
    }
    let mut buf = [0; 2048];
    put_six(tokens, dense, &words, &mut buf, out)
}

// Questions 1, 2, 4, all asked before anything is written. `dense`: many short tokens with breaks among them, which the processor cannot
// predict; the texts are then written by loops with fewer branches on the tokens.
pub fn compute_stream_outputs(
    m: &[u32],
    classes: &mut [u8],
    lengths: &mut [u32],
    out: &mut [u8],
) -> Result<ChartOutputs, Refusal>
    ensures { Outputs m.now classes.old classes.new
        lengths.old lengths.new out.old out.new (stream_outputs_of result) }
{
    let chart = Chart::new(m)?;
    ask_room(chart, classes.len(), lengths.len(), out.len())?;
    let scanned = scan(m, classes, lengths);
    let counts = scanned.counts;
    let count = scanned.tokens;
    let breaks = counts.total_breaks as usize;
    let dense = (count > 8192) & (count > m.len() / 2) & (breaks > m.len() / 8);
    let tokens = Tokens {
        classes: &classes[..count],
        lengths: &lengths[..count],
    };
    let lengths = put_texts(tokens, dense, out);
    Ok(ChartOutputs {
        counts,
        tokens: count,
        lengths,
    })
}
