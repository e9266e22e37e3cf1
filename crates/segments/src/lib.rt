// Segments of a chart: written as records into a lent slice of them, or asked for one by one.
#![tactic(auto)]

mod steps;

ghost use Rattle.std.specs.Prelude.{◌≡◌, [], ◌∷◌};
ghost use Rattle.number.specs.Questions.{first_no};
ghost use Rattle.number.specs.Refusal.{carried};
ghost use Rattle.rules.specs.Chart.{classes};
ghost use Rattle.rules.specs.Calls.{segments};
ghost use Rattle.segments.specs.Promises.{places_for, Segmented, nth_segment, segments_answer_of, nth_segment_of};

use crate::steps::Segments;
use measures::chart::Chart;
use number::refusal::Refusal;
use rules::StreamSegment;

// An answer of stream_sequences as C gets it: the refusal's number, or 0, and how many records were written.
#[repr(C)]
#[derive(Clone, Copy)]
pub struct SegmentsAnswer {
    pub refused: u32,
    pub count: usize,
}

// An answer of segment_at as C gets it: the refusal's number, or 0, whether there is a segment of that number, and the segment.
#[repr(C)]
#[derive(Clone, Copy)]
pub struct NthSegment {
    pub refused: u32,
    pub found: bool,
    pub segment: StreamSegment,
}

impl From<Result<usize, Refusal>> for SegmentsAnswer {
    ghost from_gives = { λ r a. a ≡ segments_answer_of r };

    fn from(answer: Result<usize, Refusal>) -> SegmentsAnswer {
        match answer {
            Ok(count) => SegmentsAnswer { refused: 0, count },
            Err(refusal) => SegmentsAnswer {
                refused: refusal.number(),
                count: 0,
            },
        }
    }
}

impl From<Result<Option<StreamSegment>, Refusal>> for NthSegment {
    ghost from_gives = { λ r a. a ≡ nth_segment_of r };

    fn from(answer: Result<Option<StreamSegment>, Refusal>) -> NthSegment {
        let none = NthSegment {
            refused: 0,
            found: false,
            segment: StreamSegment {
                start: 0,
                end: 0,
                is_break: false,
            },
        };
        match answer {
            Ok(Some(segment)) => NthSegment {
                refused: 0,
                found: true,
                segment,
            },
            Ok(None) => none,
            Err(refusal) => NthSegment {
                refused: refusal.number(),
                ..none
            },
        }
    }
}

// Question 3. No chart has more segments than measures, so they are counted only where there are fewer places.
fn check_places(measures: &[u32], out: &[StreamSegment]) -> Result<(), Refusal>
    ensures { carried result ≡ first_no (places_for (segments (classes measures.now)) out.now ∷ []) }
{
    if out.len() < measures.len() && out.len() < Segments::new(measures).count() {
        return Err(Refusal::TooFewSegments);
    }
    Ok(())
}

// The chart's segments at the start of `out`, and their number: refused with 1 outside the domain, with 3 where `out` has too few places.
pub fn stream_sequences(measures: &[u32], out: &mut [StreamSegment]) -> Result<usize, Refusal>
    ensures { Segmented measures.now out.old out.new (segments_answer_of result) }
{
    let measures = Chart::new(measures)?.measures;
    check_places(measures, out)?;
    let mut segments = Segments::new(measures);
    for (i, place) in out.iter_mut().enumerate() {
        let Some(segment) = segments.next() else {
            return Ok(i);
        };
        *place = segment;
    }
    Ok(out.len())
}

// Segment number `k`, from 0, for callers that lend no slice: refused with 1 outside the domain.
pub fn segment_at(measures: &[u32], k: usize) -> Result<Option<StreamSegment>, Refusal>
    ensures { nth_segment_of result ≡ nth_segment k measures.now }
{
    let measures = Chart::new(measures)?.measures;
    Ok(Segments::new(measures).nth(k))
}
