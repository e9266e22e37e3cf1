// Active part of a chart.
ghost use Rattle.std.specs.Prelude.{◌≡◌, ◌+◌, ◌<◌, ◌^◌, true, length};
ghost use Rattle.rules.specs.Chart.{active_part};
ghost use Rattle.measures.specs.Active.{SkipAsked, Stretch, LedIn, Ended};

// Are the measures of a block densities of `lo` to `lo + more`? All are looked at: so the compiler does many at a time.
fn all_within(block: &[u32], lo: u32, more: u32) -> bool
    requires { lo + more < 2 ^ 32 }
    ensures { result ≡ true → Stretch block.now 0 lo more (length block.now) }
{
    let mut all = true;
    for d in block {
        all &= d.wrapping_sub(lo) <= more;
    }
    all
}

// On from `from`, eight measures at a time, while all eight are densities of `lo` to `lo + more`.
pub fn skip(m: &[u32], from: usize, lo: u32, more: u32) -> usize
    requires { SkipAsked m.now from lo more }
    ensures { Stretch m.now from lo more result }
{
    let mut i = from;
    for block in m[from..].chunks_exact(8) {
        if !all_within(block, lo, more) {
            return i;
        }
        i += 8;
    }
    i
}

// How many breaks lead in.
pub fn lead_in(m: &[u32]) -> usize
    ensures { LedIn m.now result }
{
    let skipped = skip(m, 0, 0, 15);
    let rest = &m[skipped..];
    skipped + rest.iter().position(|d| *d >= 16).unwrap_or(rest.len())
}

// How many measures there are up to the last stream measure.
fn to_last(m: &[u32]) -> usize
    ensures { Ended m.now result }
{
    for last in (0..m.len()).rev() {
        if m[last] >= 16 {
            return last + 1;
        }
    }
    0
}

// The active part, of a chart whose lead-in is known.
pub fn active_behind(m: &[u32], lead: usize) -> &[u32]
    requires { LedIn m.now lead }
    ensures { result.now ≡ active_part m.now }
{
    let rest = &m[lead..];
    let n = to_last(rest);
    &rest[..n]
}

// Active part: first to last stream measure, as that part of the caller's own slice.
pub fn active_range(m: &[u32]) -> &[u32]
    ensures { result.now ≡ active_part m.now }
{
    let lead = lead_in(m);
    active_behind(m, lead)
}
