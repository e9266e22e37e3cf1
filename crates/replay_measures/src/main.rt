// Prints, for each chart of a list, what the calls on measures answer: one line a chart.
#![tactic(auto)]

mod answers;

use answers::print_answers;
use chart_list::charts::fill_chart;
use chart_list::stream::read_full;
use std::io;

fn print_all(rt: &impl Print, list: &[u8]) -> io::Result<()> {
    // A chart's line ends after so many bytes, without its newline where that finds no room.
    let mut space = [0u8; 4096];
    let mut previous = [0u32; 4096];
    let mut measures = [0u32; 4096];
    let mut previous_count = 0;
    for line in list.split_inclusive(|byte| *byte == b'\n') {
        let count = fill_chart(line, &mut measures);
        let before = previous.get(..previous_count).unwrap_or(&[]);
        print_answers(rt, &mut space, before, &measures[..count])?;
        previous[..count].copy_from_slice(&measures[..count]);
        previous_count = count;
    }
    Ok(())
}

fn main(rt: HostRuntime) -> io::Result<()> {
    let mut space = [0u8; 65536];
    let length = read_full(&mut rt.stdin(), &mut space)?;
    print_all(&rt, &space[..length])
}
