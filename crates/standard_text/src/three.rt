// The three standard texts of a chart of few tokens in one walk: detailed, partial and simple, each in a buffer of its own.
ghost use Rattle.std.specs.Prelude.{◌+◌, ◌^◌, ◌≤◌, ◌<◌, ◌≡◌, true, false, length};
ghost use Rattle.rules.specs.Slices.{paired};
ghost use Rattle.text_buffer.specs.Three.{ThreeAsked, ThreeGrown};
ghost use Rattle.standard_text.specs.Standard.{standard_from};
ghost use Rattle.standard_text.specs.StandardThree.{SimpleTurned, RunTurned, GapAsked, GapTurned, first_turn, ThreeOpened};

use crate::piece::Piece;
use crate::standard::add_piece;
use number::buffer::add_u64;
use rules::tokens::Tokens;
use text_buffer::run::add_star;
use text_buffer::three::Three;
use text_buffer::words::WordTable;

// The piece that is open in the simple text, and the next place of its buffer.
#[derive(Clone, Copy)]
struct SimpleTurn {
    piece: Piece,
    place: usize,
}

// What is open in the three texts, and the next place of each buffer: detailed and partial have the same pieces, without a star.
#[derive(Clone, Copy)]
struct PieceTurns {
    piece: u64,
    joined: Piece,
    detailed: usize,
    partial: usize,
    simple: usize,
}

// A gap and the run after it, of n measures, in the simple text: over a gap of 1 they join the open piece, else that is written with the gap.
fn simple_turn(
    buf: &mut [u8],
    k: usize,
    last: Piece,
    gap: u32,
    n: u32,
    words: &WordTable,
) -> SimpleTurn
    requires { (k + 45 ≤ length buf.old) × (1 ≤ gap) × (last.length + (gap + n) < 2 ^ 64) }
    ensures { SimpleTurned last gap n buf.old k buf.new result }
{
    if gap == 1 {
        return SimpleTurn {
            piece: Piece {
                length: last.length + (gap as u64 + n as u64),
                starred: true,
            },
            place: k,
        };
    }
    SimpleTurn {
        piece: Piece {
            length: n as u64,
            starred: false,
        },
        place: add_piece(buf, k, last.length, last.starred, gap, true, words),
    }
}

// A run of n measures right after the open pieces.
fn run_turn(t: PieceTurns, n: u32) -> PieceTurns
    requires { (t.piece + n < 2 ^ 64) × (t.joined.length + n < 2 ^ 64) }
    ensures { RunTurned t n result }
{
    let last = t.joined;
    PieceTurns {
        piece: t.piece + n as u64,
        joined: Piece {
            length: last.length + n as u64,
            starred: last.starred,
        },
        detailed: t.detailed,
        partial: t.partial,
        simple: t.simple,
    }
}

// A gap and the run after it, of n measures.
fn gap_turn(
    t: PieceTurns,
    gap: u32,
    n: u32,
    words: &WordTable,
    detailed: &mut [u8],
    partial: &mut [u8],
    simple: &mut [u8],
) -> PieceTurns
    requires { GapAsked t gap n detailed.old partial.old simple.old }
    ensures { GapTurned t gap n detailed.old detailed.new partial.old partial.new simple.old
        simple.new result }
{
    let d = add_piece(detailed, t.detailed, t.piece, false, gap, false, words);
    let p = add_piece(partial, t.partial, t.piece, false, gap, true, words);
    let last = t.joined;
    let s = simple_turn(simple, t.simple, last, gap, n, words);
    let joined = s.piece;
    PieceTurns {
        piece: n as u64,
        joined,
        detailed: d,
        partial: p,
        simple: s.place,
    }
}

// What is open at the first run.
fn first_turn(first: u32) -> PieceTurns
    ensures { result ≡ first_turn first }
{
    PieceTurns {
        piece: first as u64,
        joined: Piece {
            length: first as u64,
            starred: false,
        },
        detailed: 0,
        partial: 0,
        simple: 0,
    }
}

// All but the last piece of each text, after the first run. A gap is read together with the run after it, so the loop goes on by one token or by two.
fn three_pieces(
    tokens: Tokens,
    first: u32,
    words: &WordTable,
    detailed: &mut [u8],
    partial: &mut [u8],
    simple: &mut [u8],
) -> PieceTurns
    requires { ThreeAsked 1 first tokens.classes.now tokens.lengths.now detailed.old partial.old simple.old }
    ensures { ThreeOpened first tokens.entry.classes.now tokens.entry.lengths.now detailed.old detailed.new partial.old
        partial.new simple.old simple.new result }
{
    let mut t = first_turn(first);
    let mut i: usize = 0;
    while i < tokens.classes.len() {
        let n = tokens.lengths[i];
        let next = i + 1;
        if tokens.classes[i] != 0 {
            t = run_turn(t, n);
            i = next;
        } else {
            let run = tokens.lengths[next];
            t = gap_turn(t, n, run, words, detailed, partial, simple);
            i = next + 1;
        }
    }
    t
}

// The texts of a chart's first run, of `first` measures, and of the tokens after it; how many bytes each has is answered.
pub fn standard_three(
    tokens: Tokens,
    first: u32,
    words: &WordTable,
    detailed: &mut [u8],
    partial: &mut [u8],
    simple: &mut [u8],
) -> Three
    requires { ThreeAsked 1 first tokens.classes.now tokens.lengths.now detailed.old partial.old simple.old }
    ensures { ThreeGrown detailed.old detailed.new partial.old partial.new simple.old
        simple.new (standard_from false 0 first false (paired tokens.entry.classes.now tokens.entry.lengths.now))
        (standard_from true 0 first false (paired tokens.entry.classes.now tokens.entry.lengths.now))
        (standard_from true 1 first false (paired tokens.entry.classes.now tokens.entry.lengths.now)) result }
{
    let t = three_pieces(tokens, first, words, detailed, partial, simple);
    let last = t.joined;
    let bare = add_u64(simple, t.simple, last.length, &words.table);
    Three {
        first: add_u64(detailed, t.detailed, t.piece, &words.table),
        second: add_u64(partial, t.partial, t.piece, &words.table),
        third: add_star(simple, bare, last.starred),
    }
}
