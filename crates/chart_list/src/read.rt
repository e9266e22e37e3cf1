// The charts of a list by their places.
ghost use Rattle.chart_list.specs.Bounds.{ReadChart};

use crate::charts::fill_chart;

// A chart that was read: the place of the next line, and how many measures stand in the lent slice.
#[derive(Clone, Copy)]
pub struct Chart {
    pub next: usize,
    pub measures: usize,
}

// The chart of the line at `at`, as far as it fits into `out`.
pub fn next_chart(list: &[u8], at: usize, out: &mut [u32]) -> Chart
    ensures { ReadChart list.now at out.new result }
{
    let start = at.min(list.len());
    let rest = &list[start..];
    let length = match rest.iter().position(|byte| *byte == b'\n') {
        Some(end) => end + 1,
        None => rest.len(),
    };
    Chart {
        next: start + length,
        measures: fill_chart(&rest[..length], out),
    }
}
