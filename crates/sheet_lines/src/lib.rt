// The bytes that the program `sheet` prints for the bytes that it is given.
#![tactic(auto)]

mod chart;
mod put;

ghost use Rattle.number.specs.Questions.{OneText};
ghost use Rattle.number.specs.Refusal.{written_of};
ghost use Rattle.sheet_lines.specs.Sheet.{Printed, sheet_no, sheet_bytes};
ghost use Rattle.sheet_lines.specs.Steps.{AtStart, Roomy, sheet_lines};

use crate::chart::put_chart;
use crate::put::put_refusal;
use number::refusal::Refusal;
use record::read_chart_record;

// A record has at most so many bytes; so many densities and tokens have room in what the calls are lent.
const MOST_INPUT: usize = 16_384;

// The bytes to print: the first `length` of `bytes`.
#[repr(C)]
#[derive(Clone, Copy)]
pub struct Sheet {
    pub bytes: [u8; 66048],
    pub length: usize,
}

// The lines of a record that is accepted, at the start of `out`; their bytes are counted. Question 13, the record's, those of the chart.
fn put_sheet(input: &[u8], out: &mut [u8]) -> Result<usize, Refusal>
    requires { Roomy out.old }
    ensures { OneText (sheet_no input.now) (sheet_lines input.now) out.old out.new (written_of result) }
{
    if MOST_INPUT < input.len() {
        return Err(Refusal::InputTooLong);
    }
    let mut densities = [0; MOST_INPUT];
    let read = read_chart_record(input, &mut densities)?;
    let end = read.name_start + read.name_length;
    let name = &input[read.name_start..end];
    put_chart(name, &densities[..read.measures], out)
}

// The lines, or the line of a refusal, at the start of `out`; their bytes are counted. `pv_print_sheet` calls it with the array that it answers: by way of
// `print_sheet` the array would be on the stack twice.
#[inline(never)]
pub fn put_answer(input: &[u8], out: &mut [u8]) -> usize
    requires { Roomy out.old }
    ensures { AtStart out.old out.new (sheet_bytes input.now) result }
{
    match put_sheet(input, out) {
        Ok(length) => length,
        Err(refusal) => put_refusal(out, refusal),
    }
}

// The bytes that `sheet` prints for `input`.
pub fn print_sheet(input: &[u8]) -> Sheet
    ensures { Printed input.now result }
{
    let mut sheet = Sheet {
        bytes: [0; 66048],
        length: 0,
    };
    sheet.length = put_answer(input, &mut sheet.bytes);
    sheet
}
