// Prints run symbols, one a line: each stream class, each length below, without a star and with one.
#![tactic(auto)]

use rules::RunDensity;
use run_symbol::format_run_symbol;
use std::io;

// Changes of the number of digits, one past 32 bits, the largest.
const LENGTHS: [u64; 7] = [0, 9, 10, 99, 100, 1 << 32, u64::MAX];

fn print_symbol(rt: &impl Print, class: RunDensity, length: u64, star: bool) -> io::Result<()> {
    // The newline stands there before, after the symbol.
    let mut line = [b'\n'; 32];
    let written = format_run_symbol(class, length, star, &mut line[..31]).unwrap_or(0);
    rt.write_all(&line[..written + 1])
}

fn main(rt: HostRuntime) -> io::Result<()> {
    for class in [
        RunDensity::Run16,
        RunDensity::Run20,
        RunDensity::Run24,
        RunDensity::Run32,
    ] {
        for length in LENGTHS {
            print_symbol(&rt, class, length, false)?;
            print_symbol(&rt, class, length, true)?;
        }
    }
    Ok(())
}
