// Token view: a struct that holds the lent measures and steps to the next token, breaks at both ends included.
#![tactic(auto)]

ghost use Rattle.std.specs.Prelude.{◌≡◌, [], ◌∷◌};
ghost use Rattle.std.specs.Iterator.{YieldsFirst, item_count};
ghost use Rattle.number.specs.Refusal.{carried};
ghost use Rattle.rules.specs.Calls.{admitted};
ghost use Rattle.token_view.specs.Promises.{Opening, Step, view_of, nth_answer, nth_token_of};
ghost use Rattle.token_view.specs.Steps.{view_tokens};

use measures::chart::Chart;
use measures::tokens::token_at;
use number::refusal::Refusal;
use rules::ViewToken;

// What is left to step through. It can be copied, so that a caller may step from one place twice.
#[derive(Clone, Copy)]
pub struct TokenView<'a> {
    pub measures: &'a [u32],
}

// What a step says, and the view that it leaves.
#[derive(Clone, Copy)]
pub struct TokenStep<'a> {
    pub token: ViewToken,
    pub next: TokenView<'a>,
}

// An answer of nth_token as C gets it: the refusal's number, or 0, and what the step says.
#[repr(C)]
#[derive(Clone, Copy)]
pub struct NthToken {
    pub refused: u32,
    pub token: ViewToken,
}

impl From<Result<ViewToken, Refusal>> for NthToken {
    ghost from_gives = { λ r a. a ≡ nth_token_of r };

    fn from(answer: Result<ViewToken, Refusal>) -> NthToken {
        match answer {
            Ok(token) => NthToken { refused: 0, token },
            Err(refusal) => NthToken {
                refused: refusal.number(),
                token: ViewToken {
                    ended: false,
                    class: 0,
                    length: 0,
                },
            },
        }
    }
}

// The measures, or none where they are refused.
fn admit(m: &[u32]) -> &[u32]
    ensures { result.now ≡ admitted m.now }
{
    match Chart::new(m) {
        Ok(chart) => chart.measures,
        Err(_) => &[],
    }
}

// Opens a view of a chart, by question 1.
pub fn stream_tokens(measures: &[u32]) -> Result<TokenView<'_>, Refusal>
    ensures { Opening measures.now (carried result) (view_of result) }
{
    let measures = Chart::new(measures)?.measures;
    Ok(TokenView { measures })
}

// One step of the view.
pub fn next_token(view: TokenView<'_>) -> TokenStep<'_>
    ensures { Step view.entry.measures.now result.token result.next.measures.now }
{
    let token = token_at(view.measures, 0);
    let left = admit(view.measures);
    let measures = &left[token.length as usize..];
    TokenStep {
        token,
        next: TokenView { measures },
    }
}

// The view's tokens, one by one.
impl Iterator for TokenView<'_> {
    type Item = ViewToken;

    ghost next_gives = { YieldsFirst (λ v. view_tokens v.measures.now) };

    ghost remaining = { item_count (λ v. view_tokens v.measures.now) };

    fn next(&mut self) -> Option<ViewToken> {
        let TokenStep { token, next } = next_token(*self);
        *self = next;
        if token.ended {
            return None;
        }
        Some(token)
    }
}

// Step number k, counted from 0: refused with 1 outside the domain.
pub fn nth_token(measures: &[u32], k: usize) -> Result<ViewToken, Refusal>
    ensures { nth_token_of result ≡ nth_answer k measures.now }
{
    let end = ViewToken {
        ended: true,
        class: 0,
        length: 0,
    };
    let mut view = stream_tokens(measures)?;
    Ok(view.nth(k).unwrap_or(end))
}
