// Classes, modes and levels by their numbers.
ghost use Rattle.std.specs.Prelude.{◌≡◌};
ghost use Rattle.rules.specs.Chart.{class_number};
ghost use Rattle.rules.specs.Calls.{level_number};
ghost use Rattle.rules.specs.Kinds.{ClassOf, ModeOf, LevelOf};

use crate::{BreakdownMode, RunDensity, StreamBreakdownLevel};
use number::refusal::Refusal;

impl From<RunDensity> for u8 {
    ghost from_gives = { λ class n. n ≡ class_number class };

    fn from(class: RunDensity) -> u8 {
        class as u8
    }
}

impl From<StreamBreakdownLevel> for u32 {
    ghost from_gives = { λ level n. n ≡ level_number level };

    fn from(level: StreamBreakdownLevel) -> u32 {
        level as u32
    }
}

impl TryFrom<u32> for RunDensity {
    type Error = Refusal;

    ghost try_from_gives = { ClassOf };

    fn try_from(n: u32) -> Result<RunDensity, Refusal> {
        match n {
            0 => Ok(RunDensity::Break),
            1 => Ok(RunDensity::Run16),
            2 => Ok(RunDensity::Run20),
            3 => Ok(RunDensity::Run24),
            4 => Ok(RunDensity::Run32),
            _ => Err(Refusal::NoStreamClass),
        }
    }
}

impl TryFrom<u32> for BreakdownMode {
    type Error = Refusal;

    ghost try_from_gives = { ModeOf };

    fn try_from(n: u32) -> Result<BreakdownMode, Refusal> {
        match n {
            0 => Ok(BreakdownMode::Detailed),
            1 => Ok(BreakdownMode::Partial),
            2 => Ok(BreakdownMode::Simplified),
            _ => Err(Refusal::NoSuchNumber),
        }
    }
}

impl TryFrom<u32> for StreamBreakdownLevel {
    type Error = Refusal;

    ghost try_from_gives = { LevelOf };

    fn try_from(n: u32) -> Result<StreamBreakdownLevel, Refusal> {
        match n {
            1 => Ok(StreamBreakdownLevel::Detailed),
            2 => Ok(StreamBreakdownLevel::Partial),
            3 => Ok(StreamBreakdownLevel::Simple),
            4 => Ok(StreamBreakdownLevel::Total),
            _ => Err(Refusal::NoSuchNumber),
        }
    }
}
