// Prints what `sheet` prints for each record of a list. A record stands after its length in three bytes, high byte first.
#![tactic(auto)]

use chart_list::cases::Cases;
use chart_list::stream::read_full;
use sheet_lines::print_sheet;
use std::io;

// The list that is read into `space`.
fn print_list(rt: &(impl Input + Print), space: &mut [u8]) -> io::Result<()> {
    let length = read_full(&mut rt.reader(), space)?;
    for record in Cases(&space[..length]) {
        let sheet = print_sheet(record);
        rt.write_all(&sheet.bytes[..sheet.length])?;
    }
    Ok(())
}

fn main(rt: HostRuntime) -> io::Result<()> {
    // Room for the whole list.
    let mut space = [0u8; 524288];
    print_list(&rt, &mut space)
}
