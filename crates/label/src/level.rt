// Levels by their numbers.
ghost use Rattle.std.specs.Prelude.{◌≡◌, ◌≤◌};
ghost use Rattle.rules.specs.Calls.{level_number};

use rules::StreamBreakdownLevel;

// The level's number, from 1 to 4.
pub fn level_number(level: StreamBreakdownLevel) -> u32
    ensures { result ≡ level_number level }
{
    u32::from(level)
}

// The level with the number n, for a caller that knows it to be one of the four.
pub fn level_at(n: u32) -> StreamBreakdownLevel
    requires { (1 ≤ n) × (n ≤ 4) }
    ensures { level_number result ≡ n }
{
    match n {
        1 => StreamBreakdownLevel::Detailed,
        2 => StreamBreakdownLevel::Partial,
        3 => StreamBreakdownLevel::Simple,
        _ => StreamBreakdownLevel::Total,
    }
}
