// Class of a measure.
ghost use Rattle.std.specs.Prelude.{◌≡◌};
ghost use Rattle.rules.specs.Chart.{class_of, class_number};

use rules::RunDensity;

pub fn categorize_measure_density(d: u32) -> RunDensity
    ensures { class_number result ≡ class_of d }
{
    if d < 16 {
        return RunDensity::Break;
    }
    if d < 20 {
        return RunDensity::Run16;
    }
    if d < 24 {
        return RunDensity::Run20;
    }
    if d < 32 {
        return RunDensity::Run24;
    }
    RunDensity::Run32
}

// The class's number.
pub fn class_of(d: u32) -> u8
    ensures { result ≡ class_of d }
{
    u8::from(categorize_measure_density(d))
}
