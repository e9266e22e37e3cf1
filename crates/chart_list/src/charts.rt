// Chart lists: one chart a line, its items parted by one space. `D` is one measure of density D, `DxK` is K of them.
ghost use Rattle.std.specs.Prelude.{◌<◌, ◌≤◌, length, IfOk, IfSome, vec_len};
ghost use Rattle.std.specs.Iterator.{at_most};
ghost use Rattle.std.specs.Counts.{IsPrefixLen};

use std::alloc::{AllocError, Global};
use std::iter;

// `times` measures of one density.
#[derive(Clone, Copy)]
struct Item {
    density: u32,
    times: u32,
}

// The items of a line, each read as far as it has the form of one.
#[derive(Clone, Copy)]
struct Items<'a>(&'a [u8]);

impl<'a> Iterator for Items<'a> {
    type Item = Item;

    ghost remaining = { λ s. at_most (length s.0.now) };

    fn next(&mut self) -> Option<Item> {
        if self.0.is_empty() {
            return None;
        }
        let (density, rest) = number(self.0);
        let (times, rest) = match rest {
            [b'x', rest @ ..] => number(rest),
            _ => (1, rest),
        };
        // One byte parts it from the next.
        self.0 = rest.get(1..).unwrap_or(&[]);
        Some(Item { density, times })
    }
}

// The number at the start of a text, or the largest u32 if that is smaller, and what stands after its last digit.
fn number(text: &[u8]) -> (u32, &[u8])
    ensures { length result.1.now ≤ length text.now }
{
    let end = text
        .iter()
        .position(|byte| !byte.is_ascii_digit())
        .unwrap_or(text.len());
    let (digits, rest) = text.split_at(end);
    let value = digits.iter().fold(0u32, |value, digit| {
        value
            .saturating_mul(10)
            .saturating_add(u32::from(digit.wrapping_sub(b'0')))
    });
    (value, rest)
}

// The measures of a line's items, as far as there are at most `most`. The newline at its end is none.
pub fn read_chart(alloc: Global, line: &[u8], most: usize) -> Result<Vec<u32>, AllocError>
    ensures { IfOk result (λ chart. vec_len chart ≤ most) }
{
    let items = line.strip_suffix(b"\n").unwrap_or(line);
    Items(items)
        .flat_map(|item| iter::repeat_n(item.density, item.times as usize))
        .take(most)
        .collect(alloc)
}

// The measures of a line's items from the start of `out` on, as far as they fit, and their number. The newline at its end is none.
pub fn fill_chart(line: &[u8], out: &mut [u32]) -> usize
    ensures { IsPrefixLen result out.new }
{
    let items = line.strip_suffix(b"\n").unwrap_or(line);
    let mut measures = 0usize;
    for item in Items(items) {
        let end = out.len().min(measures.saturating_add(item.times as usize));
        out[measures..end].fill(item.density);
        measures = end;
    }
    measures
}
