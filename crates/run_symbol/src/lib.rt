// One run as an SN text shows it.
#![tactic(auto)]

ghost use Rattle.number.specs.Refusal.{written_of};
ghost use Rattle.run_symbol.specs.Promises.{RunSymbol};

use number::refusal::Refusal;
use rules::RunDensity;
use text_buffer::run::{Run, put_run, run_length};
use text_buffer::words::WordTable;

// Questions 5, 4.
pub fn format_run_symbol(
    class: RunDensity,
    length: u64,
    star: bool,
    out: &mut [u8],
) -> Result<usize, Refusal>
    ensures { RunSymbol class length star out.old out.new (written_of result) }
{
    if class == RunDensity::Break {
        return Err(Refusal::NoStreamClass);
    }
    let run = Run {
        class: u8::from(class),
        length,
        starred: star,
    };
    if out.len() < run_length(run) {
        return Err(Refusal::TextTooShort);
    }
    let words = WordTable::new();
    let mut buf = [0u8; 26];
    Ok(put_run(out, 0, &mut buf, run, &words))
}
