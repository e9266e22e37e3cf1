// SN texts, part by part. The join limit says the mode: 0 detailed, 1 partial, 4 simplified.
ghost use Rattle.std.specs.Prelude.{◌+◌, ◌^◌, ◌≤◌, ◌<◌, ◌≡◌, cond, false, ◌≢◌, [], ◌∷◌, length};
ghost use Rattle.rules.specs.Chart.{token};
ghost use Rattle.rules.specs.Reduced.{drop_ones};
ghost use Rattle.number.specs.Grown.{Grown};
ghost use Rattle.sn_text.specs.SnParts.{SnAsked, SnMeasured, SnWritten, RunPlaced, TokenAt, WithBreak, ended, join_class, long_break, SideLength};
ghost use Rattle.text_buffer.specs.Parts.{TokensBehind};
ghost use Rattle.text_buffer.specs.Measured.{Measured};
ghost use Rattle.text_buffer.specs.Runs.{run_token};
ghost use Rattle.sn_text.specs.Sn.{break_tokens, shown};

use number::buffer::{add_u64, add_word};
use number::digit_count;
use rules::tokens::Tokens;
use text_buffer::buffer::{Left, flush};
use text_buffer::run::{Done, Run, Tally, add_ended, open_run, run_length};
use text_buffer::words::WordTable;

// Where the next run stands, and the break before it (0: none).
#[derive(Clone, Copy)]
pub struct RunPlace {
    pub gap: u32,
    pub place: usize,
}

// n, or 0 where there is no break: the smaller of two numbers, since a test that picks n itself would be made a branch, as would `min`, which the
// compiler takes for that test.
fn gap_of(broken: bool, n: u32) -> u32
    ensures { result ≡ cond broken n 0 }
{
    let most = if broken { u32::MAX } else { 0 };
    if n < most { n } else { most }
}

// The run at `i`, or after the break there. Found by a branch, which goes the same way again and again in most charts.
pub fn run_place(tokens: Tokens, i: usize) -> RunPlace
    requires { TokenAt tokens.classes.now tokens.lengths.now i }
    ensures { RunPlaced tokens.entry.classes.now tokens.entry.lengths.now i result }
{
    if tokens.classes[i] == 0 {
        return RunPlace {
            gap: tokens.lengths[i],
            place: i + 1,
        };
    }
    RunPlace { gap: 0, place: i }
}

// The same with no branch.
fn dense_run_place(tokens: Tokens, i: usize) -> RunPlace
    requires { TokenAt tokens.classes.now tokens.lengths.now i }
    ensures { RunPlaced tokens.entry.classes.now tokens.entry.lengths.now i result }
{
    let broken = tokens.classes[i] == 0;
    RunPlace {
        gap: gap_of(broken, tokens.lengths[i]),
        place: if broken { i + 1 } else { i },
    }
}

// The class of a run that joins one of `class` over a break of `gap`: 0, which no run has, if none does.
pub fn join_class(limit: u32, class: u8, gap: u32) -> u8
    ensures { result ≡ join_class limit class gap }
{
    let near = (0 < gap) & (gap <= limit);
    if near { class } else { 0 }
}

// A run, with a break behind it over which no run joins: one of 2 up to the limit is added.
fn with_break(limit: u32, run: Run, gap: u32) -> Run
    requires { (run.class ≢ 0) × (run.length + gap < 2 ^ 64) }
    ensures { WithBreak limit (run_token run) gap (run_token result) }
{
    let near = (1 < gap) & (gap <= limit);
    if near {
        Run {
            length: run.length + gap as u64,
            starred: true,
            ..run
        }
    } else {
        run
    }
}

// A run with a break behind it over which no run joins, and the sign and a space of a break that is longer than the limit.
pub fn add_group(
    buf: &mut [u8],
    k: usize,
    limit: u32,
    run: Run,
    gap: u32,
    words: &WordTable,
) -> usize
    requires { (k + 29 ≤ length buf.old) × (1 ≤ limit) × (run.class ≢ 0) × (run.class ≤ 4) × (run.length + gap < 2 ^ 64) }
    ensures { Grown buf.old buf.new k (ended limit (shown limit (run_token run ∷ break_tokens gap))) result }
{
    let a = add_ended(buf, k, with_break(limit, run, gap), words);
    let b = add_word(buf, a, words.sign_word(gap));
    if limit < gap { b } else { a }
}

// A part of a text in which runs join; a turn takes a run and the break before it. Dense: for long charts of short tokens, which the processor cannot
// predict; no branch but for joins depends on them.
fn joined_part<const DENSE: bool>(
    tokens: Tokens,
    limit: u32,
    run: Run,
    words: &WordTable,
    buf: &mut [u8],
    out: &mut [u8],
    from: Left,
) -> Done
    requires { (1 ≤ limit) × SnAsked limit run tokens.classes.now tokens.lengths.now buf.old out.old from }
    ensures { SnWritten limit run tokens.entry.classes.now tokens.entry.lengths.now buf.old out.old from buf.new out.new result }
{
    let mut last = run;
    let mut to = from;
    let mut i: usize = 0;
    while i < tokens.len() {
        let t = if DENSE {
            dense_run_place(tokens, i)
        } else {
            run_place(tokens, i)
        };
        let j = t.place;
        if !DENSE && j == i {
            // right after the last run nothing joins, and there is no break to show
            let full = add_ended(buf, to.left, last, words);
            to = flush(buf, out, to.place, full);
            last = open_run(tokens.classes[j], tokens.lengths[j]);
        } else if tokens.classes[j] == join_class(limit, last.class, t.gap) {
            last.length += t.gap as u64 + tokens.lengths[j] as u64;
            last.starred = true;
        } else {
            let full = add_group(buf, to.left, limit, last, t.gap, words);
            to = flush(buf, out, to.place, full);
            last = open_run(tokens.classes[j], tokens.lengths[j]);
        }
        i = j + 1;
    }
    Done { run: last, to }
}

// A run or a break, by its length, and a space; nothing for a break of 1.
pub fn add_token(buf: &mut [u8], k: usize, class: u8, n: u32, words: &WordTable) -> usize
    requires { (k + 26 ≤ length buf.old) × (class ≤ 4) }
    ensures { Grown buf.old buf.new k (ended 0 (drop_ones (token class n false ∷ []))) result }
{
    let a = add_word(buf, k, words.before_word(class));
    let b = add_u64(buf, a, n as u64, &words.table);
    let c = add_word(buf, b, words.after_word(class));
    if (class == 0) & (n == 1) { k } else { c }
}

// A part of a text in which no runs join.
fn detailed_part(
    tokens: Tokens,
    run: Run,
    words: &WordTable,
    buf: &mut [u8],
    out: &mut [u8],
    from: Left,
) -> Done
    requires { SnAsked 0 run tokens.classes.now tokens.lengths.now buf.old out.old from }
    ensures { SnWritten 0 run tokens.entry.classes.now tokens.entry.lengths.now buf.old out.old from buf.new out.new result }
{
    if tokens.len() == 0 {
        return Done { run, to: from };
    }
    let last = tokens.len() - 1;
    let first = add_ended(buf, from.left, run, words);
    let mut to = flush(buf, out, from.place, first);
    for (class, n) in tokens.classes[..last].iter().zip(&tokens.lengths[..last]) {
        let full = add_token(buf, to.left, *class, *n, words);
        to = flush(buf, out, to.place, full);
    }
    Done {
        run: open_run(tokens.classes[last], tokens.lengths[last]),
        to,
    }
}

// A part of the SN text: an open run and some tokens behind it, of which the last stays open.
pub fn sn_part(
    tokens: Tokens,
    limit: u32,
    dense: bool,
    run: Run,
    words: &WordTable,
    buf: &mut [u8],
    out: &mut [u8],
    from: Left,
) -> Done
    requires { SnAsked limit run tokens.classes.now tokens.lengths.now buf.old out.old from }
    ensures { SnWritten limit run tokens.entry.classes.now tokens.entry.lengths.now buf.old out.old from buf.new out.new result }
{
    if limit == 0 {
        return detailed_part(tokens, run, words, buf, out, from);
    }
    if dense {
        return joined_part::<true>(tokens, limit, run, words, buf, out, from);
    }
    joined_part::<false>(tokens, limit, run, words, buf, out, from)
}

// How many bytes a break has that is shown behind a run, with a space: by its length in detailed, else as a sign.
fn long_length(limit: u32, gap: u32) -> usize
    ensures { Measured (ended limit (long_break limit gap)) 23 result }
{
    let wide = if limit == 0 {
        3 + digit_count(gap as u64)
    } else {
        2
    };
    if (1 < gap) & (limit < gap) { wide } else { 0 }
}

// How many bytes a run and the break behind it have, each with a space.
fn ended_length(limit: u32, run: Run, gap: u32) -> usize
    requires { (run.class ≢ 0) × (run.length + gap < 2 ^ 64) }
    ensures { Measured (ended limit (shown limit (run_token run ∷ break_tokens gap))) 47 result }
{
    run_length(with_break(limit, run, gap)) + 1 + long_length(limit, gap)
}

// How many bytes stand on a side of a token's length: a mark or a parenthesis, but for class 1.
fn side_length(class: u8) -> usize
    ensures { SideLength class result }
{
    if class == 1 { 0 } else { 1 }
}

// How many bytes `add_token` adds.
fn token_length(class: u8, n: u32) -> usize
    ensures { Measured (ended 0 (drop_ones (token class n false ∷ []))) 23 result }
{
    let side = side_length(class);
    let whole = digit_count(n as u64) + side + side + 1;
    if (class == 0) & (n == 1) { 0 } else { whole }
}

// How long a part of a text is in which no runs join.
fn detailed_part_length(tokens: Tokens, run: Run) -> Tally
    requires { TokensBehind run.class tokens.classes.now tokens.lengths.now }
    ensures { SnMeasured 0 run tokens.entry.classes.now tokens.entry.lengths.now result }
{
    if tokens.len() == 0 {
        return Tally { run, length: 0 };
    }
    let last = tokens.len() - 1;
    let mut total = run_length(run) + 1;
    for (class, n) in tokens.classes[..last].iter().zip(&tokens.lengths[..last]) {
        total += token_length(*class, *n);
    }
    Tally {
        run: open_run(tokens.classes[last], tokens.lengths[last]),
        length: total,
    }
}

// How long a part of a text is in which runs join: no branch depends on the tokens but for numbers of 100 and more.
fn joined_part_length(tokens: Tokens, limit: u32, run: Run) -> Tally
    requires { TokensBehind run.class tokens.classes.now tokens.lengths.now × (run.length ≤ 2 ^ 62) }
    ensures { SnMeasured limit run tokens.entry.classes.now tokens.entry.lengths.now result }
{
    let mut last = run;
    let mut total: usize = 0;
    let mut i: usize = 0;
    // a turn takes one token or two
    while i < tokens.len() {
        let t = dense_run_place(tokens, i);
        let class = tokens.classes[t.place];
        let n = tokens.lengths[t.place] as u64;
        let apart = ended_length(limit, last, t.gap);
        let joined = last.length + (t.gap as u64 + n);
        let joins = class == join_class(limit, last.class, t.gap);
        let (more, length) = if joins { (0, joined) } else { (apart, n) };
        total += more;
        last = Run {
            length,
            starred: joins,
            class,
        };
        i = t.place + 1;
    }
    Tally {
        run: last,
        length: total,
    }
}

// How long a part of the SN text is.
pub fn sn_part_length(tokens: Tokens, limit: u32, run: Run) -> Tally
    requires { TokensBehind run.class tokens.classes.now tokens.lengths.now × (run.length ≤ 2 ^ 62) }
    ensures { SnMeasured limit run tokens.entry.classes.now tokens.entry.lengths.now result }
{
    if limit == 0 {
        return detailed_part_length(tokens, run);
    }
    joined_part_length(tokens, limit, run)
}
