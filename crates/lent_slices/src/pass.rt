// The pass, and its lines.
use crate::call::total;
use chart_list::line::Spaced;
use counts_line::count_numbers;
use std::io;
use stream_outputs::{StreamOutputs, compute_stream_outputs};

// How many places are lent of the three slices.
#[derive(Clone, Copy)]
struct Places {
    classes: usize,
    lengths: usize,
    text: usize,
}

// The lines of the pass: all three slices full; a token slice one short; a token slice and the text slice, for the order
// of the questions; the text slice; all three longer.
pub fn print_passes(rt: &impl Print, m: &[u32]) -> io::Result<()> {
    let mut classes = [0u8; 32];
    let mut lengths = [0u32; 32];
    let mut space = [0u8; 4096];
    let roomy = compute_stream_outputs(m, &mut classes, &mut lengths, &mut space);
    let (tokens, text) = roomy.map_or((0, 0), |outputs| (outputs.tokens, total(&outputs.lengths)));
    let full = Places {
        classes: tokens,
        lengths: tokens,
        text,
    };
    print_pass(rt, m, full)?;
    let token_short = full.classes.checked_sub(1);
    let text_short = full.text.checked_sub(1);
    if let (Some(token), Some(text)) = (token_short, text_short) {
        print_pass(
            rt,
            m,
            Places {
                classes: token,
                ..full
            },
        )?;
        print_pass(
            rt,
            m,
            Places {
                lengths: token,
                ..full
            },
        )?;
        print_pass(
            rt,
            m,
            Places {
                lengths: token,
                text,
                ..full
            },
        )?;
    }
    if let Some(text) = text_short {
        print_pass(rt, m, Places { text, ..full })?;
    }
    let longer = Places {
        classes: full.classes.saturating_add(2),
        lengths: full.lengths.saturating_add(3),
        text: full.text.saturating_add(3),
    };
    print_pass(rt, m, longer)
}

// One line: the lengths of the slices of classes, lengths and text, the answer, and the slices afterwards.
fn print_pass(rt: &impl Print, m: &[u32], places: Places) -> io::Result<()> {
    let mut classes = [9u8; 32];
    let mut lengths = [9u32; 32];
    let mut space = [b'#'; 4096];
    print!(rt;
        "compute_stream_outputs{}",
        Spaced(&[places.classes, places.lengths, places.text])
    )?;
    let (Some(classes), Some(lengths), Some(text)) = (
        classes.get_mut(..places.classes),
        lengths.get_mut(..places.lengths),
        space.get_mut(..places.text),
    ) else {
        return Ok(());
    };
    let outputs = StreamOutputs::from(compute_stream_outputs(m, classes, lengths, text));
    print!(rt;
        " {}{} {}{} |{} |{} |",
        outputs.refused,
        Spaced(&count_numbers(outputs.counts)),
        outputs.tokens,
        Spaced(&outputs.lengths),
        Spaced(classes),
        Spaced(lengths)
    )?;
    rt.write_all(text)?;
    rt.write_all(b"\n")
}
