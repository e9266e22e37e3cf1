// The calls that write texts. A mode, a level and a class pass as their numbers.
ghost use Rattle.std.specs.Prelude.{◌≡◌, length};
ghost use Rattle.number.specs.Pushed.{Pushed};
ghost use Rattle.number.specs.Refusal.{written_of};
ghost use Rattle.rules.specs.Texts.{sn_kinds, standard_kinds};
ghost use Rattle.counts_line.specs.Promises.{BoardCounts};
ghost use Rattle.run_symbol.specs.Promises.{RunSymbol};
ghost use Rattle.chart_texts.specs.Promises.{Breakdowns};
ghost use Rattle.label.specs.Promises.{Label};
ghost use Rattle.stream_outputs.specs.Promises.{Outputs};
ghost use Rattle.sheet_lines.specs.Sheet.{Printed};
ghost use Rattle.sn_to_standard.specs.Promises.{SnToStandard};
ghost use Rattle.puvolamie_c.specs.Numbers.{class_at, mode_kind, level_kind, OneKind};
ghost use Rattle.puvolamie_c.specs.Parts.{pair_part};

use chart_texts::ThreeWritten;
use chart_texts::single::{generate_breakdown, stream_breakdown};
use chart_texts::three::{generate_breakdowns, stream_breakdowns};
use counts_line::board_counts;
use label::{LabelWritten, label};
use number::refusal::Refusal;
use number::{Written, push_u64};
use rules::{BreakdownMode, RunDensity, StreamBreakdownLevel};
use run_symbol::format_run_symbol;
use sheet_lines::{Sheet, put_answer};
use sn_to_standard::sn_to_standard;
use stream_outputs::{StreamOutputs, compute_stream_outputs};

// The part of one of two texts that a label shows: the beginning of the second or of the first, and its length.
#[repr(C)]
#[derive(Clone, Copy)]
pub struct PairPart {
    pub second: bool,
    pub length: usize,
}

#[unsafe(no_mangle)]
pub extern "C" fn pv_push_u64(out: &mut [u8], n: u64, width: u32) -> Written
    ensures { Pushed n width out.old out.new result }
{
    Written::from(push_u64(out, n, width))
}

#[unsafe(no_mangle)]
pub extern "C" fn pv_board_counts(m: &[u32], out: &mut [u8]) -> Written
    ensures { BoardCounts m.now out.old out.new result }
{
    Written::from(board_counts(m, out))
}

// By the class's number.
fn symbol_of(class: u32, length: u64, star: bool, out: &mut [u8]) -> Result<usize, Refusal>
    ensures { RunSymbol (class_at class) length star out.old out.new (written_of result) }
{
    let class = RunDensity::try_from(class)?;
    format_run_symbol(class, length, star, out)
}

#[unsafe(no_mangle)]
pub extern "C" fn pv_format_run_symbol(
    out: &mut [u8],
    class: u32,
    length: u64,
    star: bool,
) -> Written
    ensures { RunSymbol (class_at class) length star out.old out.new result }
{
    Written::from(symbol_of(class, length, star, out))
}

// By the mode's number.
fn breakdown_of(m: &[u32], mode: u32, out: &mut [u8]) -> Result<usize, Refusal>
    ensures { OneKind (mode_kind mode) m.now out.old out.new (written_of result) }
{
    let mode = BreakdownMode::try_from(mode)?;
    generate_breakdown(m, mode, out)
}

#[unsafe(no_mangle)]
pub extern "C" fn pv_generate_breakdown(m: &[u32], out: &mut [u8], mode: u32) -> Written
    ensures { OneKind (mode_kind mode) m.now out.old out.new result }
{
    Written::from(breakdown_of(m, mode, out))
}

// By the level's number.
fn stream_breakdown_of(m: &[u32], level: u32, out: &mut [u8]) -> Result<usize, Refusal>
    ensures { OneKind (level_kind level) m.now out.old out.new (written_of result) }
{
    let level = StreamBreakdownLevel::try_from(level)?;
    stream_breakdown(m, level, out)
}

#[unsafe(no_mangle)]
pub extern "C" fn pv_stream_breakdown(m: &[u32], out: &mut [u8], level: u32) -> Written
    ensures { OneKind (level_kind level) m.now out.old out.new result }
{
    Written::from(stream_breakdown_of(m, level, out))
}

#[unsafe(no_mangle)]
pub extern "C" fn pv_generate_breakdowns(m: &[u32], out: &mut [u8]) -> ThreeWritten
    ensures { Breakdowns sn_kinds m.now out.old out.new result }
{
    ThreeWritten::from(generate_breakdowns(m, out))
}

#[unsafe(no_mangle)]
pub extern "C" fn pv_stream_breakdowns(m: &[u32], out: &mut [u8]) -> ThreeWritten
    ensures { Breakdowns standard_kinds m.now out.old out.new result }
{
    ThreeWritten::from(stream_breakdowns(m, out))
}

#[unsafe(no_mangle)]
pub extern "C" fn pv_compute_stream_outputs(
    m: &[u32],
    classes: &mut [u8],
    lengths: &mut [u32],
    out: &mut [u8],
) -> StreamOutputs
    ensures { Outputs m.now classes.old classes.new
        lengths.old lengths.new out.old out.new result }
{
    StreamOutputs::from(compute_stream_outputs(m, classes, lengths, out))
}

#[unsafe(no_mangle)]
pub extern "C" fn pv_label(m: &[u32], out: &mut [u8], width: usize) -> LabelWritten
    ensures { Label width m.now out.old out.new result }
{
    LabelWritten::from(label(m, width, out))
}

#[unsafe(no_mangle)]
pub extern "C" fn pv_label_pair(first: &[u8], second: &[u8], width: usize) -> PairPart
    ensures { result ≡ pair_part (length first.now) (length second.now) width }
{
    if first.len() <= width {
        return PairPart {
            second: false,
            length: first.len(),
        };
    }
    if second.len() <= width {
        return PairPart {
            second: true,
            length: second.len(),
        };
    }
    PairPart {
        second: false,
        length: 0,
    }
}

#[unsafe(no_mangle)]
pub extern "C" fn pv_sn_to_standard(sn: &[u8], out: &mut [u8]) -> Written
    ensures { SnToStandard sn.now out.old out.new result }
{
    Written::from(sn_to_standard(sn, out))
}

// What the program `sheet` prints for the bytes `input`: `print_sheet`, whose array a call would copy once more on the stack.
#[unsafe(no_mangle)]
pub extern "C" fn pv_print_sheet(input: &[u8]) -> Sheet
    ensures { Printed input.now result }
{
    let mut sheet = Sheet {
        bytes: [0; 66048],
        length: 0,
    };
    sheet.length = put_answer(input, &mut sheet.bytes);
    sheet
}
