// The calls that write one text of a chart, or three end to end.
#![tactic(auto)]

ghost use Rattle.std.specs.Prelude.{◌≡◌};
ghost use Rattle.chart_texts.specs.Promises.{three_written_of};

use number::refusal::Refusal;

pub mod single;
pub mod text;
pub mod three;

// What a call that writes three texts end to end answers in C: the refusal's number and each text's length.
#[repr(C)]
#[derive(Clone, Copy)]
pub struct ThreeWritten {
    pub refused: u32,
    pub lengths: [usize; 3],
}

impl From<Result<[usize; 3], Refusal>> for ThreeWritten {
    ghost from_gives = { λ r answer. answer ≡ three_written_of r };

    fn from(r: Result<[usize; 3], Refusal>) -> ThreeWritten {
        match r {
            Ok(lengths) => ThreeWritten {
                refused: 0,
                lengths,
            },
            Err(refusal) => ThreeWritten {
                refused: refusal.number(),
                lengths: [0; 3],
            },
        }
    }
}
