// The reader: whether a text is inside the rules, and whether it is decided. The class that is passed on is that of the run before (0 at the
// start and behind a break), beside the measures so far and whether a gap was undecided.
ghost use Rattle.std.specs.Prelude.{◌≤◌, ◌≡◌, false, ◌||◌, drop};
ghost use Rattle.number.specs.Refusal.{carried};
ghost use Rattle.rules.specs.Chart.{token};
ghost use Rattle.sn_to_standard.specs.Converted.{two_classes};
ghost use Rattle.sn_to_standard.specs.Promises.{text_no};
ghost use Rattle.sn_to_standard.specs.Items.{Within, more_measures};
ghost use Rattle.sn_to_standard.specs.Descents.{StandsIn, expect_no, after_no, packed, Descended, opens};

use crate::item::{read_break, read_run};
use number::refusal::Refusal;

// The measures with one more run: behind a run of its class there was a gap of 1.
fn measures_with(before: u8, measures: u32, class: u8, length: u32) -> u32
    requires { (1 ≤ class) × (measures ≤ 1048576) × (length ≤ 1048576) }
    ensures { result ≡ more_measures before measures (token class length false) }
{
    if before == class {
        return measures + 1 + length;
    }
    measures + length
}

// Whether a gap is undecided once there is one more run.
fn undecided_with(before: u8, undecided: bool, class: u8, length: u32) -> bool
    requires { 1 ≤ class }
    ensures { result ≡ (undecided || two_classes (token before 1 false) (token class length false)) }
{
    if undecided {
        return true;
    }
    if before == 0 {
        return false;
    }
    before != class
}

// Whether a break begins at a place.
fn opens_at(text: &[u8], at: usize) -> bool
    requires { Within text.now at }
    ensures { result ≡ opens (drop at text.now) }
{
    if at == text.len() {
        return false;
    }
    text[at] == b'('
}

// Where a descent stops, in one number: a struct would be copied at each return.
fn pack(at: usize, class: u8, measures: u32, undecided: bool) -> u64
    requires { (at ≤ 4194304) × (class ≤ 4) × (measures ≤ 1048576) }
    ensures { result ≡ packed at class measures undecided }
{
    let stand = (at as u64 * 8 + class as u64) * 2;
    if undecided {
        return (stand + 1) * 2097152 + measures as u64;
    }
    stand * 2097152 + measures as u64
}

// A run is expected. At most `budget` runs are read, so that no text decides how deep the calls go.
#[cycle(after_run_expect_run)]
fn expect_run(text: &[u8], at: usize, class: u8, measures: u32, undecided: bool, budget: u32) -> u64
    requires { StandsIn text.now at class measures }
    ensures { Descended text.now (expect_no text.now at class measures undecided) at budget result }
{
    if budget == 0 {
        return pack(at, class, measures, undecided);
    }
    let run = read_run(text, at);
    if run.length == 0 {
        return 18;
    }
    let more = measures_with(class, measures, run.class, run.length);
    if 1048576 < more {
        return 18;
    }
    let unsure = undecided_with(class, undecided, run.class, run.length);
    after_run(text, run.next, run.class, more, unsure, budget - 1)
}

// What may follow a run is expected: the end, a run, or a break and a run.
#[cycle(after_run_expect_run)]
fn after_run(text: &[u8], at: usize, class: u8, measures: u32, undecided: bool, budget: u32) -> u64
    requires { StandsIn text.now at class measures }
    ensures { Descended text.now (after_no text.now at class measures undecided) at 1 result }
{
    if at == text.len() {
        return if undecided { 19 } else { 0 };
    }
    if text[at] != b' ' {
        return 18;
    }
    if !opens_at(text, at + 1) {
        return expect_run(text, at + 1, class, measures, undecided, budget);
    }
    let gap = read_break(text, at + 2);
    if gap.length == 0 {
        return 18;
    }
    let more = measures + gap.length;
    if 1048576 < more {
        return 18;
    }
    expect_run(text, gap.next, 0, more, undecided, budget)
}

// 18 for a text outside the rules or with too many measures, 19 for an undecided one, else 0. A descent reads at most 64 runs. A text of more
// than 4 bytes a measure is outside the rules.
fn text_no(text: &[u8]) -> u32
    ensures { result ≡ text_no text.now }
{
    if text.len() == 0 {
        return 0;
    }
    if 4194304 < text.len() {
        return 18;
    }
    let mut at: usize = 0;
    let mut class: u8 = 0;
    let mut measures: u32 = 0;
    let mut undecided = false;
    loop {
        let stop = expect_run(text, at, class, measures, undecided, 64);
        if stop < 20 {
            return stop as u32;
        }
        at = (stop / 33554432) as usize;
        class = (stop / 4194304 % 8) as u8;
        undecided = stop / 2097152 % 2 == 1;
        measures = (stop % 2097152) as u32;
    }
}

// Whether a text is refused: by 18 where it is outside the rules or has too many measures, by 19 where it is undecided.
pub fn check_text(text: &[u8]) -> Result<(), Refusal>
    ensures { carried result ≡ text_no text.now }
{
    let no = text_no(text);
    if no == 0 {
        return Ok(());
    }
    if no == 18 {
        return Err(Refusal::BadSnText);
    }
    Err(Refusal::Undecided)
}
