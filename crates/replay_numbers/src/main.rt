// Prints by `push_u64`, one a line: 0; for each power of ten that a u64 holds the number before it, itself and the number
// after it; the largest u64.
#![tactic(auto)]

use number::push_u64;
use std::io;

fn print_number(rt: &impl Print, n: u64) -> io::Result<()> {
    // The newline stands there before, after the digits.
    let mut line = [b'\n'; 21];
    let length = push_u64(&mut line[..20], n, 0).unwrap_or(0);
    rt.write_all(&line[..length + 1])
}

fn main(rt: HostRuntime) -> io::Result<()> {
    print_number(&rt, 0)?;
    for exponent in 0..20 {
        let power = 10u64.pow(exponent);
        for n in [power - 1, power, power + 1] {
            print_number(&rt, n)?;
        }
    }
    print_number(&rt, u64::MAX)
}
