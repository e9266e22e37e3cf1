// The measures of a chart's active part, read as tokens part by part.
ghost use Rattle.std.specs.Prelude.{◌≡◌, ◌≤◌, true, false, length, take, drop, MatchOption};
ghost use Rattle.rules.specs.Chart.{active_part, classes, runs};
ghost use Rattle.text_buffer.specs.MayFollow.{Alternates};
ghost use Rattle.scan.specs.Scan.{RoomForTokens, FirstTokens};
ghost use Rattle.breakdown.specs.Parts.{Alternates-prop, FirstToken, Unread, PartRead};

use measures::active::active_range;
use measures::chart::Chart;
use measures::tokens::token_at;
use rules::ViewToken;
use rules::tokens::Tokens;
use scan::{Taken, tokens_into};

// The measures of the active part of a chart of the domain.
#[derive(Clone, Copy)]
pub struct ActivePart<'a> {
    pub measures: &'a [u32],
    ghost few: { length measures.now ≤ 1048576 },
    ghost alternates: { Alternates (runs (classes measures.now)) } by { Alternates-prop (runs (classes measures.now)) },
}

impl<'a> ActivePart<'a> {
    pub fn new(chart: Chart<'a>) -> ActivePart<'a>
        ensures { result.measures.now ≡ active_part chart.entry.measures.now }
    {
        ActivePart {
            measures: active_range(chart.measures),
        }
    }

    // The first token, if there is one.
    pub fn first(self) -> Option<ViewToken>
        ensures { MatchOption result (length self.entry.measures.now ≡ 0) (λ t. FirstToken self.entry.measures.now t) }
    {
        if self.measures.is_empty() {
            return None;
        }
        Some(token_at(self.measures, 0))
    }

    // The measures after it, to be read part by part.
    pub fn after(self, first: ViewToken) -> Parts<'a>
        requires { FirstToken self.measures.now first }
        ensures { result.rest.now ≡ drop first.length self.entry.measures.now }
    {
        Parts {
            rest: &self.measures[first.length as usize..],
            classes: [0; 256],
            lengths: [0; 256],
            count: 0,
        }
    }
}

// Not inlined: there the compiler sees that the slices do not overlap. As parts of one value it takes them to, which was measured a fifth slower.
#[inline(never)]
fn read_into(m: &[u32], classes: &mut [u8], lengths: &mut [u32]) -> Taken
    requires { RoomForTokens m.now classes.old lengths.old }
    ensures { FirstTokens m.now classes.old classes.new lengths.old lengths.new result }
{
    tokens_into(m, classes, lengths)
}

// The measures that are still to be read, and the tokens of the part that was read last.
#[derive(Drop)]
pub struct Parts<'a> {
    pub rest: &'a [u32],
    classes: [u8; 256],
    lengths: [u32; 256],
    count: usize,
    ghost unread: { Unread rest.now },
    ghost within: { count ≤ 256 },
}

impl<'a> Parts<'a> {
    // Reads the tokens of the next part, if there is one.
    pub fn read(&mut self) -> bool
        ensures none { result ≡ false → length self.old.rest.now ≡ 0 }
        ensures part { result ≡ true → PartRead self.old.rest.now (take self.new.count self.new.classes)
            (take self.new.count self.new.lengths) self.new.rest.now }
    {
        let rest = self.rest;
        if rest.is_empty() {
            return false;
        }
        let taken = read_into(rest, &mut self.classes, &mut self.lengths);
        self.count = taken.tokens;
        self.rest = &rest[taken.next..];
        true
    }

    // Those that were read last.
    pub fn tokens(&self) -> Tokens<'_>
        ensures classes { result.classes.now ≡ take self.now.count self.now.classes }
        ensures lengths { result.lengths.now ≡ take self.now.count self.now.lengths }
    {
        Tokens {
            classes: &self.classes[..self.count],
            lengths: &self.lengths[..self.count],
        }
    }
}
