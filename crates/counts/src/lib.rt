// Counts of a chart, and the share of its stream measures.
#![tactic(auto)]

pub mod share;

ghost use Rattle.std.specs.Prelude.{◌≡◌, cond, ltb, ◌+◌, ◌-◌, ◌≤◌, ◌<◌, ◌^◌};
ghost use Rattle.rules.specs.Chart.{classes, runs, counts, no_counts};
ghost use Rattle.counts.specs.Sums.{Wide, sums_of, Closed, Summed, stream_measures};
ghost use Rattle.counts.specs.Promises.{counts_answer, counts_answer_of};

use measures::active::{active_behind, lead_in};
use measures::chart::Chart;
use number::refusal::Refusal;
use rules::StreamCounts;

// What the counts call answers in C: the refusal's number, 0 where the chart is accepted, and the counts.
#[repr(C)]
#[derive(Clone, Copy)]
pub struct CountsAnswer {
    pub refused: u32,
    pub counts: StreamCounts,
}

impl From<Result<StreamCounts, Refusal>> for CountsAnswer {
    ghost from_gives = { λ r a. a ≡ counts_answer_of r };

    fn from(answer: Result<StreamCounts, Refusal>) -> CountsAnswer {
        match answer {
            Ok(counts) => CountsAnswer { refused: 0, counts },
            Err(refusal) => CountsAnswer {
                refused: refusal.number(),
                counts: no_counts(),
            },
        }
    }
}

// What some tokens hold: measures of each class, and those of the gaps of 2 or more.
#[derive(Clone, Copy)]
pub struct Sums {
    pub run16: u32,
    pub run20: u32,
    pub run24: u32,
    pub run32: u32,
    pub breaks: u32,
    pub wide: u32,
}

// What the tokens of an active part hold, without the tokens. One loop and not a chain for each sum: five sums side by side, with no branch.
fn tally(m: &[u32]) -> Sums
    requires { Closed m.now }
    ensures { result ≡ sums_of (runs (classes m.now)) }
{
    let mut from16: u32 = 0;
    let mut from20: u32 = 0;
    let mut from24: u32 = 0;
    let mut from32: u32 = 0;
    // breaks that stand alone, and the two measures before x: stream measures before the first
    let mut alone: u32 = 0;
    let mut before: u32 = 16;
    let mut last: u32 = 16;
    for x in m {
        from16 += u32::from(*x >= 16);
        from20 += u32::from(*x >= 20);
        from24 += u32::from(*x >= 24);
        from32 += u32::from(*x >= 32);
        alone += u32::from((*x >= 16) & (last < 16) & (before >= 16));
        before = last;
        last = *x;
    }
    let breaks = m.len() as u32 - from16;
    Sums {
        run16: from16 - from20,
        run20: from20 - from24,
        run24: from24 - from32,
        run32: from32,
        breaks,
        wide: breaks - alone,
    }
}

// n where it makes a gap that counts, a gap of 2 or more.
pub fn wide(n: u32) -> u32
    ensures { Wide n result }
{
    if n < 2 { 0 } else { n }
}

// The counts of a refused chart.
pub fn no_counts() -> StreamCounts
    ensures { result ≡ no_counts }
{
    StreamCounts::default()
}

// The counts, from the lead-in, the active part and what its tokens hold. Lead-in and tail are gaps like those inside; without a stream
// measure there is no gap, and all measures are in `lead`.
pub fn counted(m: &[u32], lead: usize, part: &[u32], sums: Sums) -> StreamCounts
    requires { Summed m.now lead part.now sums }
    ensures { result ≡ counts (classes m.now) }
{
    let tail = (m.len() - lead - part.len()) as u32;
    let lead = lead as u32;
    if part.is_empty() {
        return StreamCounts {
            lead,
            tail,
            ..no_counts()
        };
    }
    StreamCounts {
        run16_streams: sums.run16,
        run20_streams: sums.run20,
        run24_streams: sums.run24,
        run32_streams: sums.run32,
        total_breaks: sums.wide + wide(lead) + wide(tail),
        sn_breaks: sums.breaks,
        lead,
        tail,
    }
}

// The counts of a chart of the domain.
pub fn chart_counts(chart: Chart) -> StreamCounts
    ensures { result ≡ counts (classes chart.entry.measures.now) }
{
    let m = chart.measures;
    let lead = lead_in(m);
    let part = active_behind(m, lead);
    let sums = tally(part);
    counted(m, lead, part, sums)
}

// The stream measures that some counts hold: those of the four classes.
pub fn stream_measures(counts: StreamCounts) -> u32
    requires { stream_measures counts < 2 ^ 32 }
    ensures { result ≡ stream_measures counts }
{
    counts.run16_streams + counts.run20_streams + counts.run24_streams + counts.run32_streams
}

// Counts, refused with 1 outside the domain.
pub fn compute_stream_counts(m: &[u32]) -> Result<StreamCounts, Refusal>
    ensures { counts_answer_of result ≡ counts_answer m.now }
{
    let chart = Chart::new(m)?;
    Ok(chart_counts(chart))
}
