// The types of the answers, which the rules in specs/ speak of, and their numbers: the rules are in specs/, the laws about them in proofs/.
#![tactic(auto)]

pub mod kinds;
pub mod tokens;

// Counts, in the Rust's order; behind them the measures before and after the active part.
#[repr(C)]
#[derive(Clone, Copy, Debug, Default, PartialEq, Eq)]
pub struct StreamCounts {
    pub run16_streams: u32,
    pub run20_streams: u32,
    pub run24_streams: u32,
    pub run32_streams: u32,
    pub total_breaks: u32,
    pub sn_breaks: u32,
    pub lead: u32,
    pub tail: u32,
}

// Class of a measure, by the paper's number.
#[derive(Clone, Copy, Debug, PartialEq, Eq)]
pub enum RunDensity {
    Run32 = 4,
    Run24 = 3,
    Run20 = 2,
    Run16 = 1,
    Break = 0,
}

// Mode of an SN text.
#[derive(Clone, Copy, Debug, PartialEq, Eq)]
pub enum BreakdownMode {
    Detailed = 0,
    Partial = 1,
    Simplified = 2,
}

// Level of a standard text.
#[derive(Clone, Copy, Debug, PartialEq, Eq)]
pub enum StreamBreakdownLevel {
    Detailed = 1,
    Partial = 2,
    Simple = 3,
    Total = 4,
}

// The seven texts: three SN modes and four standard levels.
#[derive(Clone, Copy, Debug, PartialEq, Eq)]
pub enum Kind {
    Sn(BreakdownMode),
    Standard(StreamBreakdownLevel),
}

// A piece, or a gap of 2 or more: its first measure, one past its last, and which of the two it is.
#[repr(C)]
#[derive(Clone, Copy, Debug, PartialEq, Eq)]
pub struct StreamSegment {
    pub start: usize,
    pub end: usize,
    pub is_break: bool,
}

// What a step of the token view says: a token's class and length, or that the tokens have ended.
#[repr(C)]
#[derive(Clone, Copy, Debug, PartialEq, Eq)]
pub struct ViewToken {
    pub ended: bool,
    pub class: u8,
    pub length: u32,
}
