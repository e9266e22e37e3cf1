// What is read off a chart, the chart record, and note rows.
ghost use Rattle.std.specs.Prelude.{◌≡◌};
ghost use Rattle.rules.specs.Chart.{class_of};
ghost use Rattle.counts.specs.Promises.{counts_answer, share_answer};
ghost use Rattle.alike.specs.Promises.{alike_answer};
ghost use Rattle.segments.specs.Promises.{Segmented, nth_segment};
ghost use Rattle.token_view.specs.Promises.{nth_answer};
ghost use Rattle.record.specs.Promises.{ReadRecord};
ghost use Rattle.note_rows.specs.Promises.{ReadNoteRows};
ghost use Rattle.puvolamie_c.specs.Parts.{active_range};

use alike::{AlikeAnswer, alike};
use counts::share::{ShareAnswer, share};
use counts::{CountsAnswer, compute_stream_counts};
use measures::active::{active_behind, lead_in};
use measures::class::class_of;
use note_rows::{RowsAnswer, read_note_rows};
use record::{RecordAnswer, read_chart_record};
use rules::StreamSegment;
use segments::{NthSegment, SegmentsAnswer, segment_at, stream_sequences};
use token_view::{NthToken, nth_token};

// The active part, by the place of its first measure in the caller's slice and its length.
#[repr(C)]
#[derive(Clone, Copy)]
pub struct ActiveRange {
    pub start: usize,
    pub length: usize,
}

// The class's number.
#[unsafe(no_mangle)]
pub extern "C" fn pv_categorize_measure_density(d: u32) -> u32
    ensures { result ≡ class_of d }
{
    u32::from(class_of(d))
}

#[unsafe(no_mangle)]
pub extern "C" fn pv_active_range(m: &[u32]) -> ActiveRange
    ensures { result ≡ active_range m.now }
{
    let start = lead_in(m);
    let part = active_behind(m, start);
    ActiveRange {
        start,
        length: part.len(),
    }
}

#[unsafe(no_mangle)]
pub extern "C" fn pv_compute_stream_counts(m: &[u32]) -> CountsAnswer
    ensures { result ≡ counts_answer m.now }
{
    CountsAnswer::from(compute_stream_counts(m))
}

#[unsafe(no_mangle)]
pub extern "C" fn pv_share(m: &[u32]) -> ShareAnswer
    ensures { result ≡ share_answer m.now }
{
    ShareAnswer::from(share(m))
}

#[unsafe(no_mangle)]
pub extern "C" fn pv_alike(a: &[u32], b: &[u32]) -> AlikeAnswer
    ensures { result ≡ alike_answer a.now b.now }
{
    AlikeAnswer::from(alike(a, b))
}

#[unsafe(no_mangle)]
pub extern "C" fn pv_stream_sequences(m: &[u32], out: &mut [StreamSegment]) -> SegmentsAnswer
    ensures { Segmented m.now out.old out.new result }
{
    SegmentsAnswer::from(stream_sequences(m, out))
}

#[unsafe(no_mangle)]
pub extern "C" fn pv_segment_at(m: &[u32], k: usize) -> NthSegment
    ensures { result ≡ nth_segment k m.now }
{
    NthSegment::from(segment_at(m, k))
}

// The token view: a caller keeps the measures that are left, asks for step number 0 of them and moves on by the token's length. A refused
// answer is not ended.
#[unsafe(no_mangle)]
pub extern "C" fn pv_nth_token(m: &[u32], k: usize) -> NthToken
    ensures { result ≡ nth_answer k m.now }
{
    NthToken::from(nth_token(m, k))
}

#[unsafe(no_mangle)]
pub extern "C" fn pv_read_chart_record(record: &[u8], densities: &mut [u32]) -> RecordAnswer
    ensures { ReadRecord «record».now densities.old densities.new result }
{
    RecordAnswer::from(read_chart_record(record, densities))
}

#[unsafe(no_mangle)]
pub extern "C" fn pv_read_note_rows(text: &[u8], densities: &mut [u32]) -> RowsAnswer
    ensures { ReadNoteRows text.now densities.old densities.new result }
{
    RowsAnswer::from(read_note_rows(text, densities))
}
