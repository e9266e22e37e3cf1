// The lines of one chart.
ghost use Rattle.std.specs.Prelude.{◌≡◌, ◌++◌};

use chart_list::line::{Spaced, put_line};
use chart_texts::single::{generate_breakdown, stream_breakdown};
use chart_texts::three::{generate_breakdowns, stream_breakdowns};
use counts_line::count_numbers;
use number::refusal::Refusal;
use rules::{BreakdownMode, Kind, StreamBreakdownLevel};
use std::io;
use stream_outputs::{StreamOutputs, compute_stream_outputs};

// Room for the texts of any 4,096 measures.
pub const ROOM: usize = 69665;

// Three texts of the pass, which stand end to end.
#[derive(Clone, Copy)]
struct Three<'a> {
    texts: &'a [u8],
    lengths: [usize; 3],
}

// The lines of the chart `m`, whose line in the list is `line`. `space` is lent to the other calls.
pub fn print_chart(rt: &impl Print, line: &[u8], m: &[u32], space: &mut [u8]) -> io::Result<()> {
    let mut classes = [0u8; 4096];
    let mut lengths = [0u32; 4096];
    let mut texts = [0u8; ROOM];
    let answer = compute_stream_outputs(m, &mut classes, &mut lengths, &mut texts);
    let outputs = StreamOutputs::from(answer);
    rt.write_all(b"chart ")?;
    rt.write_all(line)?;
    print_counts(rt, count_numbers(outputs.counts), outputs.tokens)?;
    print_texts(rt, m, &texts, outputs.lengths, space)?;
    print_total(rt, m)
}

fn print_counts(rt: &impl Print, counts: [u32; 8], tokens: usize) -> io::Result<()> {
    let others = Spaced(&counts[1..6]);
    let mut line = [0u8; 100];
    let end = put_line(&mut line, format_args!("{}{others} {tokens}\n", counts[0]));
    rt.write_all(&line[..end])
}

// The six texts that the pass wrote, beside what the other calls write.
fn print_texts(
    rt: &impl Print,
    m: &[u32],
    texts: &[u8],
    lengths: [usize; 6],
    space: &mut [u8],
) -> io::Result<()> {
    let [a, b, c, d, e, f] = lengths;
    let (sn, rest) = first_three(texts, [a, b, c]);
    let (standard, _) = first_three(rest, [d, e, f]);
    let modes = [
        BreakdownMode::Detailed,
        BreakdownMode::Partial,
        BreakdownMode::Simplified,
    ];
    print_three(rt, m, sn, modes.map(Kind::Sn), space)?;
    let levels = [
        StreamBreakdownLevel::Detailed,
        StreamBreakdownLevel::Partial,
        StreamBreakdownLevel::Simple,
    ];
    print_three(rt, m, standard, levels.map(Kind::Standard), space)?;
    let sn_agrees = agrees(sn.texts, sn.lengths, space, |lent| {
        generate_breakdowns(m, lent)
    });
    say_unless(rt, sn_agrees, b"differs: a call for three texts\n")?;
    let standard_agrees = agrees(standard.texts, standard.lengths, space, |lent| {
        stream_breakdowns(m, lent)
    });
    say_unless(rt, standard_agrees, b"differs: a call for three texts\n")
}

// The first three texts, and what stands after them.
fn first_three(texts: &[u8], lengths: [usize; 3]) -> (Three<'_>, &[u8])
    ensures { result.0.texts.now ++ result.1.now ≡ texts.now }
{
    let length = lengths
        .iter()
        .fold(0usize, |sum, length| sum.saturating_add(*length));
    let (texts, rest) = texts.split_at(length.min(texts.len()));
    (Three { texts, lengths }, rest)
}

// Three texts, one a line, each beside what the call for its kind writes.
fn print_three(
    rt: &impl Print,
    m: &[u32],
    three: Three<'_>,
    kinds: [Kind; 3],
    space: &mut [u8],
) -> io::Result<()> {
    let mut rest = three.texts;
    for (kind, length) in kinds.iter().zip(&three.lengths) {
        let (text, after) = rest.split_at((*length).min(rest.len()));
        rt.write_all(text)?;
        rt.write_all(b"\n")?;
        let agree = agrees(text, text.len(), space, |lent| match *kind {
            Kind::Sn(mode) => generate_breakdown(m, mode, lent),
            Kind::Standard(level) => stream_breakdown(m, level, lent),
        });
        say_unless(rt, agree, b"differs: a call for one text\n")?;
        rest = after;
    }
    Ok(())
}

// Does a call, lent a part of `space` that the texts of the pass fill, write them and answer their lengths?
fn agrees<T, F>(texts: &[u8], lengths: T, space: &mut [u8], call: F) -> bool
where
    T: PartialEq + Drop,
    F: FnOnce(&mut [u8]) -> Result<T, Refusal>,
    requires { F.IsAlwaysCallable call }
{
    let Some(lent) = space.get_mut(..texts.len()) else {
        return false;
    };
    // Else what an earlier call wrote could pass for this one's.
    lent.fill(0);
    let answer = call(lent);
    answer == Ok(lengths) && *lent == *texts
}

// The line that says that a call differs from the pass, where it does.
fn say_unless(rt: &impl Print, agrees: bool, line: &[u8]) -> io::Result<()> {
    if !agrees {
        rt.write_all(line)?;
    }
    Ok(())
}

fn print_total(rt: &impl Print, m: &[u32]) -> io::Result<()> {
    // The newline stands there before, after the text.
    let mut line = [b'\n'; 32];
    let length = stream_breakdown(m, StreamBreakdownLevel::Total, &mut line[..31]).unwrap_or(0);
    rt.write_all(&line[..length + 1])
}
