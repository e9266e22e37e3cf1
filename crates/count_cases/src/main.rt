// Prints a line for each chart of a list: the counts by their own call and by the pass, each after the refusal's number, and the refusal's number and
// the length by `board_counts`. Where that accepts, the line for boards follows.
#![tactic(auto)]

mod answers;

use answers::print_answers;
use chart_list::charts::fill_chart;
use chart_list::stream::read_full;
use measures::chart::MOST_MEASURES;
use std::io;

fn print_all(rt: &impl Print, list: &[u8]) -> io::Result<()> {
    // One measure more than the domain has.
    let mut measures = [0u32; MOST_MEASURES + 1];
    for line in list.split_inclusive(|byte| *byte == b'\n') {
        let count = fill_chart(line, &mut measures);
        print_answers(rt, &measures[..count])?;
    }
    Ok(())
}

// The list that is read into `space`.
fn print_list(rt: &(impl Input + Print), space: &mut [u8]) -> io::Result<()> {
    let length = read_full(&mut rt.reader(), space)?;
    print_all(rt, &space[..length])
}

fn main(rt: HostRuntime) -> io::Result<()> {
    // Room for the whole list.
    let mut space = [0u8; 262144];
    print_list(&rt, &mut space)
}
