// The lines of one chart.
use chart_list::line::{Spaced, numbered, put_bytes, put_line};
use counts::compute_stream_counts;
use counts_line::{board_counts, count_numbers};
use number::refusal::Refusal;
use std::io;
use stream_outputs::compute_stream_outputs;

// The two lines of a chart have fewer bytes.
const LONGEST_LINES: usize = 256;

pub fn print_answers(rt: &impl Print, m: &[u32]) -> io::Result<()> {
    // The line for boards fills what is lent.
    let mut board = [0u8; 64];
    let (by_counts, counts) = numbered(compute_stream_counts(m).map(count_numbers), [0; 8]);
    let (by_pass, pass_counts) = numbered(counts_of_pass(m), [0; 8]);
    let (refused, length) = numbered(board_counts(m, &mut board), 0);
    let (counts, pass_counts) = (Spaced(&counts), Spaced(&pass_counts));
    let mut lines = [0u8; LONGEST_LINES];
    let line = format_args!("{by_counts}{counts}; {by_pass}{pass_counts}; {refused} {length}\n");
    let mut end = put_line(&mut lines, line);
    if refused == 0 {
        end = put_bytes(&mut lines, end, &board);
    }
    rt.write_all(&lines[..end])
}

// Lent are 64 places for the tokens, and room for the texts of any 64 measures.
fn counts_of_pass(m: &[u32]) -> Result<[u32; 8], Refusal> {
    let mut classes = [0u8; 64];
    let mut lengths = [0u32; 64];
    let mut texts = [0u8; 1121];
    let outputs = compute_stream_outputs(m, &mut classes, &mut lengths, &mut texts)?;
    Ok(count_numbers(outputs.counts))
}
