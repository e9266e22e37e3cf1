// The six texts of few tokens: three in one walk, each in a buffer of its own.
ghost use Rattle.rules.specs.Slices.{paired};
ghost use Rattle.stream_outputs.specs.Pass.{FewTokens, SixTexts, UpTo};

use rules::tokens::Tokens;
use sn_text::three::sn_three;
use standard_text::three::standard_three;
use text_buffer::run::open_run;
use text_buffer::three::put_three;
use text_buffer::words::WordTable;

// So many tokens are few: each of their texts has room in a buffer of 1,024 bytes.
pub const FEW_TOKENS: usize = 88;

// The six texts by way of three buffers; the length of each is answered.
fn put_by_three(
    tokens: Tokens,
    words: &WordTable,
    a: &mut [u8],
    b: &mut [u8],
    c: &mut [u8],
    out: &mut [u8],
) -> [usize; 6]
    requires { FewTokens tokens.classes.now tokens.lengths.now a.old b.old c.old out.old }
    ensures { SixTexts (paired tokens.entry.classes.now tokens.entry.lengths.now) out.old out.new result }
{
    let length = tokens.lengths[0];
    let first = open_run(tokens.classes[0], length);
    let rest = tokens.behind(1);
    let sn = sn_three(rest, first, words, a, b, c);
    let next = put_three(out, 0, a, b, c, sn);
    let standard = standard_three(rest, length, words, a, b, c);
    put_three(out, next, a, b, c, standard);
    [
        sn.first,
        sn.second,
        sn.third,
        standard.first,
        standard.second,
        standard.third,
    ]
}

// The six texts by way of buffers of its own.
pub fn put_short(tokens: Tokens, words: &WordTable, out: &mut [u8]) -> [usize; 6]
    requires { UpTo FEW_TOKENS tokens.classes.now tokens.lengths.now out.old }
    ensures { SixTexts (paired tokens.entry.classes.now tokens.entry.lengths.now) out.old out.new result }
{
    let mut a = [0; 1024];
    let mut b = [0; 1024];
    let mut c = [0; 1024];
    put_by_three(tokens, words, &mut a, &mut b, &mut c, out)
}
