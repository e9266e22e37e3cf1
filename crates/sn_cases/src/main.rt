// Prints, for each text of a list, what `sn_to_standard` answers and what all places lent to it then hold; each held "." before. A case is the
// number of places in two bytes, high byte first, and the text; it stands after its length in three bytes.
#![tactic(auto)]

use chart_list::cases::{Cases, lent_case};
use chart_list::line::{numbered, put_bytes, put_line};
use chart_list::stream::read_full;
use sn_to_standard::sn_to_standard;
use std::io;

// The line of a case, put together in `line`.
fn print_case(rt: &impl Print, line: &mut [u8], places: usize, sn: &[u8]) -> io::Result<()> {
    let mut out = [b'.'; 1024];
    let Some(lent) = out.get_mut(..places) else {
        return Ok(());
    };
    let (refused, length) = numbered(sn_to_standard(sn, lent), 0);
    let start = put_line(line, format_args!("{refused} {length} "));
    let places_end = put_bytes(line, start, lent);
    let end = put_bytes(line, places_end, b"\n");
    rt.write_all(&line[..end])
}

fn main(rt: HostRuntime) -> io::Result<()> {
    let mut space = [0u8; 65536];
    let length = read_full(&mut rt.stdin(), &mut space)?;
    // Room for two numbers and the 1,024 places.
    let mut line = [0u8; 65536];
    for (places, sn) in Cases(&space[..length]).filter_map(lent_case) {
        print_case(&rt, &mut line, places, sn)?;
    }
    Ok(())
}
