// Share of the stream measures.
ghost use Rattle.std.specs.Prelude.{◌*◌, ◌/◌, ◌<◌, ◌≡◌};
ghost use Rattle.counts.specs.Promises.{share_answer, share_answer_of};

use crate::{chart_counts, stream_measures};
use measures::chart::Chart;
use number::refusal::Refusal;

// What the share call answers in C: the refusal's number, 0 where the chart is accepted, and the share in parts of 10,000.
#[repr(C)]
#[derive(Clone, Copy)]
pub struct ShareAnswer {
    pub refused: u32,
    pub share: u32,
}

impl From<Result<u32, Refusal>> for ShareAnswer {
    ghost from_gives = { λ r a. a ≡ share_answer_of r };

    fn from(answer: Result<u32, Refusal>) -> ShareAnswer {
        match answer {
            Ok(share) => ShareAnswer { refused: 0, share },
            Err(refusal) => ShareAnswer {
                refused: refusal.number(),
                share: 0,
            },
        }
    }
}

// The share of a chart whose active part has no break.
const WHOLE: u64 = 10_000;

// 10,000 x n divided by all, rounded down. 10,000 x n does not fit a u32.
fn ten_thousandths(n: u32, all: u32) -> u64
    requires { 0 < all }
    ensures { result ≡ (10000 * n) / all }
{
    WHOLE * u64::from(n) / u64::from(all)
}

// Share: 10,000 x s divided by (s + sn_breaks), rounded down, s the stream measures; at most 10,000.
pub fn share(m: &[u32]) -> Result<u32, Refusal>
    ensures { share_answer_of result ≡ share_answer m.now }
{
    let chart = Chart::new(m)?;
    let counts = chart_counts(chart);
    let streams = stream_measures(counts);
    if streams == 0 {
        return Err(Refusal::NoStreamMeasure);
    }
    let all = streams + counts.sn_breaks;
    Ok(ten_thousandths(streams, all) as u32)
}
