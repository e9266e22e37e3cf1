// The forms of the six texts that are made of tokens.
ghost use Rattle.std.specs.Prelude.{◌≡◌, ◌<◌};
ghost use Rattle.breakdown.specs.Forms.{form_of, is_total, pass_form};

use rules::{BreakdownMode, Kind, StreamBreakdownLevel};

// SN or standard, by the longest break or gap over which runs or pieces join; in a standard text gaps are shown as signs, or by their length.
#[derive(Clone, Copy, Debug, PartialEq, Eq)]
pub enum Form {
    Sn { limit: u32 },
    Standard { limit: u32, signs: bool },
}

// The form of a kind's text; Total is not made of tokens.
pub fn form_of(kind: Kind) -> Form
    ensures { result ≡ form_of kind }
{
    match kind {
        Kind::Sn(BreakdownMode::Detailed) => Form::Sn { limit: 0 },
        Kind::Sn(BreakdownMode::Partial) => Form::Sn { limit: 1 },
        Kind::Sn(BreakdownMode::Simplified) => Form::Sn { limit: 4 },
        Kind::Standard(StreamBreakdownLevel::Detailed | StreamBreakdownLevel::Total) => {
            Form::Standard {
                limit: 0,
                signs: false,
            }
        }
        Kind::Standard(StreamBreakdownLevel::Partial) => Form::Standard {
            limit: 0,
            signs: true,
        },
        Kind::Standard(StreamBreakdownLevel::Simple) => Form::Standard {
            limit: 1,
            signs: true,
        },
    }
}

pub fn is_total(kind: Kind) -> bool
    ensures { result ≡ is_total kind }
{
    matches!(kind, Kind::Standard(StreamBreakdownLevel::Total))
}

// The form of text i of the six that the pass writes.
pub fn pass_form(i: usize) -> Form
    requires { i < 6 }
    ensures { result ≡ pass_form i }
{
    match i {
        0 => Form::Sn { limit: 0 },
        1 => Form::Sn { limit: 1 },
        2 => Form::Sn { limit: 4 },
        3 => Form::Standard {
            limit: 0,
            signs: false,
        },
        4 => Form::Standard {
            limit: 0,
            signs: true,
        },
        _ => Form::Standard {
            limit: 1,
            signs: true,
        },
    }
}
