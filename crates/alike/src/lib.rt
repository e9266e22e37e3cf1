// Alike: do two charts have the same standard detailed text?
#![tactic(auto)]

ghost use Rattle.std.specs.Prelude.{◌≡◌, true, ◌↔◌};
ghost use Rattle.rules.specs.Chart.{classes};
ghost use Rattle.rules.specs.Demand.{SamePlaces};
ghost use Rattle.alike.specs.Promises.{alike_answer, alike_answer_of};

use measures::active::active_range;
use measures::chart::Chart;
use number::refusal::Refusal;

// What the alike call answers in C: the refusal's number, 0 where both charts are accepted, and whether they are alike.
#[repr(C)]
#[derive(Clone, Copy)]
pub struct AlikeAnswer {
    pub refused: u32,
    pub alike: bool,
}

impl From<Result<bool, Refusal>> for AlikeAnswer {
    ghost from_gives = { λ r a. a ≡ alike_answer_of r };

    fn from(answer: Result<bool, Refusal>) -> AlikeAnswer {
        match answer {
            Ok(alike) => AlikeAnswer { refused: 0, alike },
            Err(refusal) => AlikeAnswer {
                refused: refusal.number(),
                alike: false,
            },
        }
    }
}

// The least density of a stream measure.
const STREAM: u32 = 16;

// Are `a` and `b` equally long, with stream measures at the same places?
fn same_places(a: &[u32], b: &[u32]) -> bool
    ensures { (result ≡ true) ↔ SamePlaces (classes a.now) (classes b.now) }
{
    if a.len() != b.len() {
        return false;
    }
    // By place: two iterators zipped took a quarter more time.
    for (i, d) in a.iter().enumerate() {
        if (*d < STREAM) != (b[i] < STREAM) {
            return false;
        }
    }
    true
}

// Alike, without writing a text: the standard detailed text tells how long the active part is and where its stream measures stand.
pub fn alike(a: &[u32], b: &[u32]) -> Result<bool, Refusal>
    ensures { alike_answer_of result ≡ alike_answer a.now b.now }
{
    let a = Chart::new(a)?.measures;
    let b = Chart::new(b)?.measures;
    Ok(same_places(active_range(a), active_range(b)))
}
