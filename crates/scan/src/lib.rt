// One scan over a chart's measures: its tokens and its counts.
#![tactic(auto)]

ghost use Rattle.std.specs.Prelude.{◌≡◌, cond, eqb, length, ◌+◌, ◌≤◌, ◌<◌, ◌^◌};
ghost use Rattle.rules.specs.Chart.{class_of, tokens};
ghost use Rattle.counts.specs.Sums.{sums_of};
ghost use Rattle.rules.specs.Slices.{paired, total};
ghost use Rattle.scan.specs.Scan.{Bounded, OfClass, Steps, StepsTaken, ScanAsked, FirstRuns, TokenRoom, Scanned, RoomForTokens, FirstTokens};

use counts::{Sums, counted, wide};
use measures::active::{active_behind, lead_in, skip};
use rules::StreamCounts;
use rules::tokens::Tokens;

// What the scan answers: the counts and the number of tokens.
#[derive(Clone, Copy)]
pub struct ScanAnswer {
    pub counts: StreamCounts,
    pub tokens: usize,
}

// How many of a chart's first tokens were taken, and the measure where the tokens after them begin.
#[derive(Clone, Copy)]
pub struct Taken {
    pub tokens: usize,
    pub next: usize,
}

// The class of `d`, as the number that is lent to C, without a branch: the base-16 digits of one number, from the right, are the classes of the
// densities 0 to 3, 4 to 7 and so on up to 32, which stands for all above it.
fn class_at(d: u32) -> u8
    ensures { result ≡ class_of d }
{
    let digit = d.min(32) / 4;
    ((0x4_3321_0000u64 >> (4 * digit)) % 16) as u8
}

// A class's least density, and how many it has beyond that.
#[derive(Clone, Copy)]
struct Bounds {
    lo: u32,
    more: u32,
}

// There is no other class: with a last arm for one, the compiler does not branch on class 4, which would often be predicted wrong.
fn bounds_of(class: u8) -> Bounds
    requires { class ≤ 4 }
    ensures { Bounded class result }
{
    match class {
        0 => Bounds { lo: 0, more: 15 },
        1 => Bounds { lo: 16, more: 3 },
        2 => Bounds { lo: 20, more: 3 },
        3 => Bounds { lo: 24, more: 7 },
        4 => Bounds {
            lo: 32,
            more: 4294967263,
        },
        _ => Bounds { lo: 0, more: 15 },
    }
}

// On from `i` over measures of `class`, eight at a time. In a long chart the processor cannot predict where a run ends, and a branch that goes wrong
// costs more than the steps that it saves: there only a run that has 64 measures already is skipped.
fn run_on(m: &[u32], i: usize, class: u8, so_far: u32) -> usize
    requires { (i ≤ length m.now) × (class ≤ 4) }
    ensures { OfClass m.now i class result }
{
    if (m.len() > 65536) & (so_far < 64) {
        return i;
    }
    let b = bounds_of(class);
    skip(m, i, b.lo, b.more)
}

// The run that a scan is in: its class, its measures so far, and its place in the slices.
#[derive(Clone, Copy)]
struct Pending {
    class: u8,
    length: u32,
    place: usize,
}

// On over `count` measures from `from` on: the pending run is written at each, so that no branch on the chart's data is needed.
fn steps_into(
    m: &[u32],
    from: usize,
    count: usize,
    cs: &mut [u8],
    ns: &mut [u32],
    mut p: Pending,
) -> Pending
    requires { Steps m.now from count cs.old ns.old p }
    ensures { StepsTaken m.now from count cs.old cs.new ns.old ns.new p result }
{
    for &d in &m[from..from + count] {
        let class = class_at(d);
        p.length += 1;
        if class != p.class {
            p.place += 1;
            p.length = 1;
        }
        p.class = class;
        cs[p.place] = class;
        ns[p.place] = p.length;
    }
    p
}

// The longest runs of one class in `m`, into two lent slices, until there are `most`: over a long run eight measures at a time, then a
// block of 16 step by step. A block is two calls with the length 8 in them: the compiler unrolls a loop of 8, and not one of 16.
fn runs_into(m: &[u32], cs: &mut [u8], ns: &mut [u32], most: usize) -> Taken
    requires { ScanAsked m.now cs.old ns.old most }
    ensures { FirstRuns m.now most cs.old cs.new ns.old ns.new result }
{
    if m.is_empty() {
        return Taken { tokens: 0, next: 0 };
    }
    let class = class_at(m[0]);
    cs[0] = class;
    ns[0] = 1;
    let mut p = Pending {
        class,
        length: 1,
        place: 0,
    };
    let mut i: usize = 1;
    while i < m.len() {
        if p.place >= most {
            return Taken {
                tokens: p.place,
                next: i - p.length as usize,
            };
        }
        let j = run_on(m, i, p.class, p.length);
        p.length += (j - i) as u32;
        ns[p.place] = p.length;
        if m.len() - j > 16 {
            p = steps_into(m, j, 8, cs, ns, p);
            p = steps_into(m, j + 8, 8, cs, ns, p);
            i = j + 16;
        } else {
            p = steps_into(m, j, m.len() - j, cs, ns, p);
            i = m.len();
        }
    }
    Taken {
        tokens: p.place + 1,
        next: i,
    }
}

// v, with n added where x is k.
fn add_if(v: u32, n: u32, k: u8, x: u8) -> u32
    requires { v + n < 2 ^ 32 }
    ensures { result ≡ cond (eqb k x) (v + n) v }
{
    if k == x { v + n } else { v }
}

// What some tokens hold.
fn add_up(tokens: Tokens) -> Sums
    requires { total (paired tokens.classes.now tokens.lengths.now) ≤ 1048576 }
    ensures { result ≡ sums_of (paired tokens.entry.classes.now tokens.entry.lengths.now) }
{
    let mut sums = Sums {
        run16: 0,
        run20: 0,
        run24: 0,
        run32: 0,
        breaks: 0,
        wide: 0,
    };
    for (&x, &n) in tokens.classes.iter().zip(tokens.lengths) {
        sums.run16 = add_if(sums.run16, n, 1, x);
        sums.run20 = add_if(sums.run20, n, 2, x);
        sums.run24 = add_if(sums.run24, n, 3, x);
        sums.run32 = add_if(sums.run32, n, 4, x);
        sums.breaks = add_if(sums.breaks, n, 0, x);
        sums.wide = add_if(sums.wide, wide(n), 0, x);
    }
    sums
}

// The tokens of a chart, into two lent slices, as C lends them, and its counts, summed up from the tokens.
pub fn scan(m: &[u32], cs: &mut [u8], ns: &mut [u32]) -> ScanAnswer
    requires { TokenRoom m.now cs.old ns.old }
    ensures { Scanned m.now result cs.old cs.new ns.old ns.new }
{
    let lead = lead_in(m);
    let part = active_behind(m, lead);
    let taken = runs_into(part, cs, ns, part.len());
    let tokens = taken.tokens;
    let sums = add_up(Tokens {
        classes: &cs[..tokens],
        lengths: &ns[..tokens],
    });
    let counts = counted(m, lead, part, sums);
    ScanAnswer { counts, tokens }
}

// The first tokens of `m`, as many as surely fit: `runs_into` may go 16 beyond the place where it is to stop, and one is pending. A break
// is given back where it is the last, so that the last is a run.
pub fn tokens_into(m: &[u32], cs: &mut [u8], ns: &mut [u32]) -> Taken
    requires { RoomForTokens m.now cs.old ns.old }
    ensures { FirstTokens m.now cs.old cs.new ns.old ns.new result }
{
    let most = cs.len() - 17;
    let all = runs_into(m, cs, ns, most);
    let last = all.tokens - 1;
    if cs[last] != 0 {
        return all;
    }
    Taken {
        tokens: last,
        next: all.next - ns[last] as usize,
    }
}
