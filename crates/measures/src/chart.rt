// A chart that calls accept.
ghost use Rattle.std.specs.Prelude.{◌≡◌, [], ◌∷◌, IfOk};
ghost use Rattle.number.specs.Questions.{first_no};
ghost use Rattle.number.specs.Refusal.{carried};
ghost use Rattle.rules.specs.Chart.{in_domain};
ghost use Rattle.measures.specs.Domain.{Domain};

use number::refusal::Refusal;

// The domain: a chart has at most so many measures.
pub const MOST_MEASURES: usize = 1_048_576;

// Measures of the domain.
#[derive(Clone, Copy)]
pub struct Chart<'a> {
    pub measures: &'a [u32],
    ghost few: { Domain measures.now },
}

impl<'a> Chart<'a> {
    // Question 1.
    pub fn new(measures: &'a [u32]) -> Result<Chart<'a>, Refusal>
        ensures no { carried result ≡ first_no (in_domain measures.now ∷ []) }
        ensures chart { IfOk result (λ c. c.measures.now ≡ measures.now) }
    {
        if measures.len() > MOST_MEASURES {
            return Err(Refusal::TooManyMeasures);
        }
        Ok(Chart { measures })
    }
}
