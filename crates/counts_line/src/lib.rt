// The counts line: its numbers at a least width, parted by one space. Each part is put at a place and answers the next place.
#![tactic(auto)]

ghost use Rattle.std.specs.Prelude.{◌≤◌, ◌≡◌, ◌++◌};
ghost use Rattle.number.specs.Digits.{padded};
ghost use Rattle.number.specs.Place.{Room, Wrote};
ghost use Rattle.number.specs.Refusal.{written_of};
ghost use Rattle.rules.specs.Bytes.{bytes};
ghost use Rattle.rules.specs.Chart.{count_numbers};
ghost use Rattle.counts_line.specs.CountsLine.{line, parted_by_spaces};
ghost use Rattle.counts_line.specs.Promises.{BoardCounts};

use counts::chart_counts;
use measures::chart::Chart;
use number::put_u64;
use number::refusal::Refusal;
use rules::StreamCounts;
use text_buffer::put::put_bytes;

// A board's line has so many bytes, whatever the chart of the domain.
const BOARD_LINE: usize = 64;

// Each of its numbers has this width.
const BOARD_WIDTH: u32 = 7;

// A number after a space.
fn put_spaced(out: &mut [u8], at: usize, n: u32, width: u32) -> usize
    requires { (width ≤ 20) × Room out.old at (bytes " " ++ padded width n) }
    ensures { Wrote out.old out.new at (bytes " " ++ padded width n) result }
{
    let a = put_bytes(out, at, b" ");
    put_u64(out, a, n as u64, width)
}

// Numbers parted by one space.
fn put_numbers(out: &mut [u8], at: usize, numbers: &[u32], width: u32) -> usize
    requires { (width ≤ 20) × Room out.old at (parted_by_spaces width numbers.now) }
    ensures { Wrote out.old out.new at (parted_by_spaces width numbers.now) result }
{
    let [first, rest @ ..] = numbers else {
        return at;
    };
    let mut place = put_u64(out, at, *first as u64, width);
    for n in rest {
        place = put_spaced(out, place, *n, width);
    }
    place
}

// The counts in the order of their line.
pub fn count_numbers(counts: StreamCounts) -> [u32; 8]
    ensures { result ≡ count_numbers counts }
{
    [
        counts.run16_streams,
        counts.run20_streams,
        counts.run24_streams,
        counts.run32_streams,
        counts.total_breaks,
        counts.sn_breaks,
        counts.lead,
        counts.tail,
    ]
}

// The line of the counts, ended by 0A.
pub fn put_counts(out: &mut [u8], at: usize, counts: StreamCounts, width: u32) -> usize
    requires { (width ≤ 20) × Room out.old at (line (parted_by_spaces width (count_numbers counts))) }
    ensures { Wrote out.old out.new at (line (parted_by_spaces width (count_numbers counts))) result }
{
    let numbers = count_numbers(counts);
    let end = put_numbers(out, at, &numbers, width);
    put_bytes(out, end, b"\n")
}

// The counts line for boards, ended by 0A: refused with 1 outside the domain, then with 4 where `out` is shorter than the line.
pub fn board_counts(m: &[u32], out: &mut [u8]) -> Result<usize, Refusal>
    ensures { BoardCounts m.now out.old out.new (written_of result) }
{
    let chart = Chart::new(m)?;
    if out.len() < BOARD_LINE {
        return Err(Refusal::TextTooShort);
    }
    Ok(put_counts(out, 0, chart_counts(chart), BOARD_WIDTH))
}
