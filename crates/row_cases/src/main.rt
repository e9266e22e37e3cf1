// Prints, for each text of a list, what `read_note_rows` answers and what all places lent to it then hold; each held 7 before. A case is the
// number of places in two bytes, high byte first, and the text; it stands after its length in three bytes.
#![tactic(auto)]

use chart_list::cases::{Cases, lent_case};
use chart_list::line::{Spaced, numbered, put_line};
use chart_list::stream::read_full;
use note_rows::read_note_rows;
use std::io;

// The line of a case, put together in `line`.
fn print_case(rt: &impl Print, line: &mut [u8], places: usize, text: &[u8]) -> io::Result<()> {
    let mut densities = [7u32; 4100];
    let Some(lent) = densities.get_mut(..places) else {
        return Ok(());
    };
    let (refused, measures) = numbered(read_note_rows(text, lent), 0);
    let end = put_line(line, format_args!("{refused} {measures}{}\n", Spaced(lent)));
    rt.write_all(&line[..end])
}

fn main(rt: HostRuntime) -> io::Result<()> {
    let mut space = [0u8; 65536];
    let length = read_full(&mut rt.stdin(), &mut space)?;
    // Room for any 4,100 numbers of 32 bits.
    let mut line = [0u8; 65536];
    for (places, text) in Cases(&space[..length]).filter_map(lent_case) {
        print_case(&rt, &mut line, places, text)?;
    }
    Ok(())
}
