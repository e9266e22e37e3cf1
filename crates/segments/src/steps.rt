// The stepper: from a place in the measures to the next segment.
ghost use Rattle.std.specs.Prelude.{◌≡◌, ◌+◌, not, eqb};
ghost use Rattle.std.specs.Iterator.{YieldsFirst, item_count};
ghost use Rattle.rules.specs.Chart.{class_of, classes};
ghost use Rattle.rules.specs.Calls.{segments};
ghost use Rattle.segments.specs.Steps.{stretch, segments_from};

use measures::class::categorize_measure_density;
use rules::{RunDensity, StreamSegment};

// Is it a stream measure, and no break?
fn is_stream(d: u32) -> bool
    ensures { result ≡ not (eqb (class_of d) 0) }
{
    categorize_measure_density(d) != RunDensity::Break
}

// One past the stream measures, or the breaks, that stand from `at` on.
fn stretch_end(m: &[u32], at: usize, stream: bool) -> usize
    ensures { result ≡ at + stretch stream m.now at }
{
    // By place: the same through `position` of the rest took a fifth more time, and up to 1.6 times as much where the stretches are short.
    if m.len() <= at {
        return at;
    }
    for i in at..m.len() {
        if is_stream(m[i]) != stream {
            return i;
        }
    }
    m.len()
}

// The segments from the place `at` on, one by one.
#[derive(Drop)]
pub(crate) struct Segments<'a> {
    measures: &'a [u32],
    at: usize,
}

impl<'a> Segments<'a> {
    // A chart's segments begin at its first measure; a stream-free chart has none, as there are none from its end on.
    pub(crate) fn new(measures: &'a [u32]) -> Segments<'a>
        ensures { segments_from result.measures.now result.at ≡ segments (classes measures.now) }
    {
        let lead_in = stretch_end(measures, 0, false);
        let at = if lead_in < measures.len() { 0 } else { lead_in };
        Segments { measures, at }
    }
}

impl Iterator for Segments<'_> {
    type Item = StreamSegment;

    ghost next_gives = { YieldsFirst (λ s. segments_from s.measures.now s.at) };

    ghost remaining = { item_count (λ s. segments_from s.measures.now s.at) };

    // The gap that stands at the place if it has 2 measures or more, else the piece after it.
    fn next(&mut self) -> Option<StreamSegment> {
        let at = self.at;
        let gap_end = stretch_end(self.measures, at, false);
        if 2 <= gap_end - at {
            self.at = gap_end;
            return Some(StreamSegment {
                start: at,
                end: gap_end,
                is_break: true,
            });
        }
        if self.measures.len() <= gap_end {
            return None;
        }
        let end = stretch_end(self.measures, gap_end, true);
        self.at = end;
        Some(StreamSegment {
            start: gap_end,
            end,
            is_break: false,
        })
    }
}
