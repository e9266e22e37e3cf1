// Standard texts, part by part. Detailed: limit 0, gaps by length; partial: limit 0, signs; simple: limit 1, signs.
ghost use Rattle.std.specs.Prelude.{◌+◌, ◌*◌, ◌^◌, ◌≤◌, ◌≡◌, cond, ◌++◌, eqb, length, take};
ghost use Rattle.number.specs.Place.{Room};
ghost use Rattle.rules.specs.Bytes.{bytes};
ghost use Rattle.rules.specs.Reduced.{gap};
ghost use Rattle.rules.specs.Texts.{part};
ghost use Rattle.number.specs.Grown.{Grown};
ghost use Rattle.text_buffer.specs.Buffer.{Added, Ready};
ghost use Rattle.standard_text.specs.Filled.{done_text, done_texts};
ghost use Rattle.text_buffer.specs.Parts.{PartMeasured, TokensBehind};
ghost use Rattle.standard_text.specs.Standard.{standard_from, standard_part, gap_item};
ghost use Rattle.number.specs.Word.{byte_text};
ghost use Rattle.text_buffer.specs.Measured.{Measured};
ghost use Rattle.standard_text.specs.StandardParts.{StandardAsked, StandardWritten};

use crate::piece::{DonePieces, Piece};
use number::buffer::{add_u64, add_word};
use number::digit_count;
use rules::tokens::Tokens;
use text_buffer::buffer::{Left, add_byte, flush};
use text_buffer::gap::add_in_parens;
use text_buffer::run::{add_star, star_length};
use text_buffer::words::WordTable;

// The piece that is open after a part, and where the text goes on.
#[derive(Clone, Copy)]
pub struct StandardDone {
    pub piece: Piece,
    pub to: Left,
}

// The piece that is open after a part, and how many bytes are done.
#[derive(Clone, Copy)]
pub struct StandardMeasured {
    pub piece: Piece,
    pub length: usize,
}

// The first byte of a gap by its length.
fn first_byte(n: u32) -> u8
    ensures { byte_text result ≡ cond (eqb n 1) (bytes "-") (bytes " ") }
{
    if n == 1 {
        return b'-';
    }
    b' '
}

// A gap by its length: "-" for 1, else in parentheses, which are stored anyway: the place says whether they count.
fn add_length(buf: &mut [u8], k: usize, n: u32, words: &WordTable) -> usize
    requires { k + 24 ≤ length buf.old }
    ensures { Grown buf.old buf.new k (part (gap n)) result }
{
    let a = add_byte(buf, k, first_byte(n));
    let b = add_in_parens(buf, a, n, words);
    let c = add_byte(buf, b, b' ');
    if n == 1 { a } else { c }
}

fn add_gap(buf: &mut [u8], k: usize, signs: bool, n: u32, words: &WordTable) -> usize
    requires { k + 24 ≤ length buf.old }
    ensures { Grown buf.old buf.new k (part (gap_item signs n)) result }
{
    if signs {
        return add_word(buf, k, words.part_word(n));
    }
    add_length(buf, k, n, words)
}

// A piece and the gap after it. The piece is passed as numbers: a struct that is passed on is copied by wider loads than it was stored by, which the
// processor has to wait for.
pub fn add_piece(
    buf: &mut [u8],
    k: usize,
    n: u64,
    starred: bool,
    gap: u32,
    signs: bool,
    words: &WordTable,
) -> usize
    requires { k + 45 ≤ length buf.old }
    ensures { Grown buf.old buf.new k (done_text signs n starred gap) result }
{
    let a = add_u64(buf, k, n, &words.table);
    let b = add_star(buf, a, starred);
    add_gap(buf, b, signs, gap, words)
}

// The pieces that are done, each with its gap.
fn put_pieces(
    done: &DonePieces,
    count: usize,
    signs: bool,
    words: &WordTable,
    buf: &mut [u8],
    out: &mut [u8],
    from: Left,
) -> Left
    requires { (count ≤ 16) × Ready buf.old from.left
        × Room out.old from.place (take from.left buf.old ++ done_texts signs count done.now) }
    ensures { Added buf.old out.old from (done_texts signs count done.now) buf.new out.new result }
{
    let mut to = from;
    for i in 0..count {
        let starred = done.stars[i];
        let full = add_piece(
            buf,
            to.left,
            done.lengths[i],
            starred,
            done.gaps[i],
            signs,
            words,
        );
        to = flush(buf, out, to.place, full);
    }
    to
}

// A part: the tokens after an open piece. The one that is open at its end is answered, and not written. The step over a token is written out, here and where
// a part is measured: as a function that answers the next piece, as in `fill`, it was measured slower, and so was a zip of the two slices, which has two ends.
pub fn standard_part(
    tokens: Tokens,
    limit: u32,
    signs: bool,
    piece: Piece,
    words: &WordTable,
    buf: &mut [u8],
    out: &mut [u8],
    from: Left,
) -> StandardDone
    requires { StandardAsked signs limit piece tokens.classes.now tokens.lengths.now buf.old out.old from }
    ensures { StandardWritten signs limit piece tokens.entry.classes.now tokens.entry.lengths.now buf.old out.old from
        buf.new out.new result }
{
    let mut open = piece;
    let mut to = from;
    for (i, class) in tokens.classes.iter().enumerate() {
        let n = tokens.lengths[i];
        if *class != 0 {
            open.length += n as u64;
        } else if n <= limit {
            open.length += n as u64;
            open.starred = true;
        } else {
            let full = add_piece(buf, to.left, open.length, open.starred, n, signs, words);
            to = flush(buf, out, to.place, full);
            open = Piece {
                length: 0,
                starred: false,
            };
        }
    }
    StandardDone { piece: open, to }
}

// The same text another way, for long charts of short tokens, 16 at a time: no branch depends on the tokens, which the processor cannot predict there.
pub fn dense_part(
    tokens: Tokens,
    limit: u32,
    signs: bool,
    piece: Piece,
    words: &WordTable,
    buf: &mut [u8],
    out: &mut [u8],
    from: Left,
) -> StandardDone
    requires { StandardAsked signs limit piece tokens.classes.now tokens.lengths.now buf.old out.old from }
    ensures { StandardWritten signs limit piece tokens.entry.classes.now tokens.entry.lengths.now buf.old out.old from
        buf.new out.new result }
{
    let mut done = DonePieces {
        lengths: [0; 16],
        stars: [false; 16],
        gaps: [0; 16],
    };
    let mut open = piece;
    let mut to = from;
    for (classes, lengths) in tokens.classes.chunks(16).zip(tokens.lengths.chunks(16)) {
        let f = done.fill(Tokens { classes, lengths }, limit, open);
        to = put_pieces(&done, f.count, signs, words, buf, out, to);
        open = f.piece;
    }
    StandardDone { piece: open, to }
}

// How long a gap that is shown is.
fn shown_length(signs: bool, n: u32) -> usize
    ensures { Measured (part (gap_item signs n)) 24 result }
{
    if signs {
        return if n <= 31 { 1 } else { 3 };
    }
    let long = 4 + digit_count(n as u64);
    if n == 1 { 1 } else { long }
}

// How long a piece and the gap after it are.
fn done_length(n: u64, starred: bool, signs: bool, gap: u32) -> usize
    ensures { Measured (done_text signs n starred gap) 47 result }
{
    digit_count(n) + star_length(starred) + shown_length(signs, gap)
}

// How many bytes `standard_part` writes.
pub fn standard_part_length(
    tokens: Tokens,
    limit: u32,
    signs: bool,
    piece: Piece,
) -> StandardMeasured
    requires { TokensBehind 1 tokens.classes.now tokens.lengths.now × (piece.length ≤ 2 ^ 62) }
    ensures { PartMeasured (standard_part signs limit piece.length piece.starred tokens.entry.classes.now tokens.entry.lengths.now)
        (standard_from signs limit result.piece.length result.piece.starred) (47 * length tokens.entry.classes.now) result.length
        × (result.piece.length ≤ piece.length + 4294967296 * length tokens.entry.classes.now) }
{
    let mut open = piece;
    let mut total: usize = 0;
    for (i, class) in tokens.classes.iter().enumerate() {
        let n = tokens.lengths[i];
        if *class != 0 {
            open.length += n as u64;
        } else if n <= limit {
            open.length += n as u64;
            open.starred = true;
        } else {
            total += done_length(open.length, open.starred, signs, n);
            open = Piece {
                length: 0,
                starred: false,
            };
        }
    }
    StandardMeasured {
        piece: open,
        length: total,
    }
}
