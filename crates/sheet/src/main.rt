// Prints the sheet of the chart record on standard input.
#![tactic(auto)]

ghost use Rattle.std.specs.Prelude.{IfSome, OnOk};
ghost use Rattle.std.specs.Io.KnownBytes.{Appends};
ghost use Rattle.sheet_lines.specs.Sheet.{sheet_bytes};

use chart_list::stream::read_full;
use sheet_lines::print_sheet;
use std::io;
use std::io::{Read, Write};

// The sheet of all that the input has left. One byte more than a record may have is read, so that a longer input is seen.
fn write_sheet<R: Read, W: Write>(input: &mut R, output: &mut W) -> io::Result<()>
    ensures { OnOk result (IfSome (R.remaining input.old) (λ given.
        Appends (W.contents output.old) (W.contents output.new) (sheet_bytes given))) }
{
    let mut space = [0u8; 16385];
    let count = read_full(input, &mut space)?;
    let sheet = print_sheet(&space[..count]);
    output.write_all(&sheet.bytes[..sheet.length])
}

fn main(rt: HostRuntime) -> io::Result<()> {
    write_sheet(&mut rt.stdin(), &mut rt.stdout())
}
