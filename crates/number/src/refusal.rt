// Why a call refuses: a name for each question that is answered with no, and its number.
ghost use Rattle.std.specs.Prelude.{◌≡◌};
ghost use Rattle.number.specs.Refusal.{refusal_number};

use std::fmt;

#[derive(Clone, Copy, Debug, PartialEq, Eq)]
pub enum Refusal {
    TooManyMeasures = 1,
    TooFewTokens = 2,
    TooFewSegments = 3,
    TextTooShort = 4,
    NoStreamClass = 5,
    NoLevelFits = 6,
    NoStreamMeasure = 7,
    FieldCutShort = 8,
    UnknownTag = 9,
    NameNotFirst = 10,
    BadName = 11,
    TooFewDensities = 12,
    InputTooLong = 13,
    BadLine = 14,
    TooManyRows = 15,
    BadEnd = 16,
    PayloadCut = 17,
    BadSnText = 18,
    Undecided = 19,
    WidthTooLarge = 20,
    NoSuchNumber = 100,
}

impl Refusal {
    // The number of the question.
    pub fn number(self) -> u32
        ensures { result ≡ refusal_number self }
    {
        self as u32
    }
}
