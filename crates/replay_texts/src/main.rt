// Prints, for each chart of a list: its line, the counts and the number of tokens, the six texts by the pass, Total. The
// other calls that write these texts are run too: where one differs from the pass, a line says so.
#![tactic(auto)]

mod chart;

use chart::{ROOM, print_chart};
use chart_list::charts::fill_chart;
use chart_list::stream::read_full;
use std::io;

fn print_all(rt: &impl Print, list: &[u8]) -> io::Result<()> {
    let mut measures = [0u32; 4096];
    let mut space = [0u8; ROOM];
    for line in list.split_inclusive(|byte| *byte == b'\n') {
        let count = fill_chart(line, &mut measures);
        print_chart(rt, line, &measures[..count], &mut space)?;
    }
    Ok(())
}

fn main(rt: HostRuntime) -> io::Result<()> {
    let mut space = [0u8; 65536];
    let length = read_full(&mut rt.stdin(), &mut space)?;
    print_all(&rt, &space[..length])
}
