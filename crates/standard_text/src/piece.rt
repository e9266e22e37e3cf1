// Pieces and gaps of a standard text, found without a branch on the tokens, in arrays of the caller's.
ghost use Rattle.std.specs.Prelude.{◌≡◌, cond, false, ◌||◌, ◌≤◌, ◌+◌, ◌^◌, length};
ghost use Rattle.rules.specs.Slices.{paired};
ghost use Rattle.standard_text.specs.Filled.{Filled};

use rules::tokens::Tokens;
use text_buffer::run::Run;

// A piece that may still grow.
#[derive(Clone, Copy)]
pub struct Piece {
    pub length: u64,
    pub starred: bool,
}

// A piece as a run, of class 1.
impl From<Piece> for Run {
    ghost from_gives = { λ p r. r ≡ record { class = 1; length = p.length; starred = p.starred } };

    fn from(piece: Piece) -> Run {
        Run {
            length: piece.length,
            starred: piece.starred,
            class: 1,
        }
    }
}

// And back: a piece has no class.
impl From<Run> for Piece {
    ghost from_gives = { λ r p. p ≡ record { length = r.length; starred = r.starred } };

    fn from(run: Run) -> Piece {
        Piece {
            length: run.length,
            starred: run.starred,
        }
    }
}

// Pieces that are done, each with the gap after it: an array for each of their numbers, since of a struct for each the padding would be stored too.
#[derive(Drop)]
pub struct DonePieces {
    pub lengths: [u64; 16],
    pub stars: [bool; 16],
    pub gaps: [u32; 16],
}

// The piece that is open after some tokens, and how many are done.
#[derive(Clone, Copy)]
pub struct FillEnd {
    pub piece: Piece,
    pub count: usize,
}

impl Piece {
    // The piece that is open after a token of n measures: a new one after a gap that is shown, else it grew.
    fn after(self, gap: bool, n: u32, shown: bool) -> Piece
        requires { self.length ≤ 2 ^ 63 }
        ensures length { result.length ≡ cond shown 0 (self.length + n) }
        ensures starred { result.starred ≡ cond shown false (gap || self.starred) }
    {
        if shown {
            return Piece {
                length: 0,
                starred: false,
            };
        }
        Piece {
            length: self.length + n as u64,
            starred: gap | self.starred,
        }
    }
}

impl DonePieces {
    // The pieces that up to 16 tokens make. A piece and a gap are stored at each token, and kept where the gap is shown, so that no branch depends on them.
    pub fn fill(&mut self, tokens: Tokens, limit: u32, piece: Piece) -> FillEnd
        requires few { length tokens.classes.now ≤ 16 }
        requires small { piece.length ≤ 2 ^ 62 + 2 ^ 52 }
        ensures { Filled limit piece (paired tokens.entry.classes.now tokens.entry.lengths.now) result.piece result.count self.new }
    {
        let mut open = piece;
        let mut count: usize = 0;
        for (i, class) in tokens.classes.iter().enumerate() {
            let n = tokens.lengths[i];
            let gap = *class == 0;
            let shown = gap & (limit < n);
            self.lengths[count] = open.length;
            self.stars[count] = open.starred;
            self.gaps[count] = n;
            count = if shown { count + 1 } else { count };
            open = open.after(gap, n, shown);
        }
        FillEnd { piece: open, count }
    }
}
