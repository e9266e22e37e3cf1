// Tokens of a chart's measures.
ghost use Rattle.std.specs.Prelude.{◌≡◌, ◌+◌, drop};
ghost use Rattle.rules.specs.Chart.{classes};
ghost use Rattle.rules.specs.Calls.{step_at, admitted};
ghost use Rattle.rules.specs.Slices.{leading};
ghost use Rattle.measures.specs.Tokens.{MeasurePlace};

use crate::chart::MOST_MEASURES;
use crate::class::class_of;
use rules::ViewToken;

// One past the measures of class `class` that stand at `at` and behind it.
fn run_end(m: &[u32], at: usize, class: u8) -> usize
    requires { MeasurePlace m.now at }
    ensures { result ≡ at + leading class (classes (drop at m.now)) }
{
    for (n, d) in m[at..].iter().enumerate() {
        if class_of(*d) != class {
            return at + n;
        }
    }
    m.len()
}

// The token that begins at the place `at`; ended at the chart's end and beyond it, and outside the domain.
pub fn token_at(m: &[u32], at: usize) -> ViewToken
    ensures { result ≡ step_at 0 (drop at (admitted m.now)) }
{
    if m.len() > MOST_MEASURES || m.len() <= at {
        return ViewToken {
            ended: true,
            class: 0,
            length: 0,
        };
    }
    let class = class_of(m[at]);
    let end = run_end(m, at, class);
    ViewToken {
        ended: false,
        class,
        length: (end - at) as u32,
    }
}
