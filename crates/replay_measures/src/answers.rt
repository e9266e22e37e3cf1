// A chart's line, and the parts of it that have no fixed number of numbers.
use alike::alike;
use chart_list::line::{Spaced, put_line};
use counts::compute_stream_counts;
use counts::share::share;
use counts_line::count_numbers;
use measures::active::active_range;
use number::refusal::Refusal;
use segments::segment_at;
use std::{fmt, io};
use token_view::nth_token;

// The line of the chart `m`, which stands in the list after `previous`. It is put together in `line`.
pub fn print_answers(
    rt: &impl Print,
    line: &mut [u8],
    previous: &[u32],
    m: &[u32],
) -> io::Result<()> {
    let counts = count_numbers(compute_stream_counts(m).unwrap_or_default());
    let lead_in = m.iter().position(|density| 16 <= *density).unwrap_or(0);
    let active = active_range(m);
    let end = put_line(
        line,
        format_args!(
            "counts{}; active {lead_in} {}; tokens{}; all{}; segments{}; share {}; alike {}\n",
            Spaced(&counts[..6]),
            active.len(),
            Tokens(active),
            Tokens(m),
            Segments(m),
            Share(share(m)),
            u8::from(alike(previous, m).unwrap_or(false))
        ),
    );
    rt.write_all(&line[..end])
}

// The tokens of measures.
#[derive(Clone, Copy)]
struct Tokens<'a>(&'a [u32]);

impl fmt::Display for Tokens<'_> {
    fn fmt<W: fmt::Write>(&self, f: &mut fmt::Formatter<W>) -> fmt::Result {
        // A chart has no more tokens than measures.
        for k in 0..self.0.len() {
            match nth_token(self.0, k) {
                Ok(token) if !token.ended => write!(f, " {}:{}", token.class, token.length)?,
                _ => break,
            }
        }
        Ok(())
    }
}

// The segments of measures, each break with a mark.
#[derive(Clone, Copy)]
struct Segments<'a>(&'a [u32]);

impl fmt::Display for Segments<'_> {
    fn fmt<W: fmt::Write>(&self, f: &mut fmt::Formatter<W>) -> fmt::Result {
        // A chart has no more segments than measures.
        for k in 0..self.0.len() {
            let Ok(Some(segment)) = segment_at(self.0, k) else {
                break;
            };
            let mark = if segment.is_break { "!" } else { "" };
            write!(f, " {}-{}{mark}", segment.start, segment.end)?;
        }
        Ok(())
    }
}

// A share, or why there is none.
#[derive(Clone, Copy)]
struct Share(Result<u32, Refusal>);

impl fmt::Display for Share {
    fn fmt<W: fmt::Write>(&self, f: &mut fmt::Formatter<W>) -> fmt::Result {
        match self.0 {
            Ok(share) => write!(f, "{share}"),
            Err(refusal) => write!(f, "refused {}", refusal.number()),
        }
    }
}
