ghost use Rattle.std.specs.Prelude.{◌≡◌, ◌<◌, length, take, min};
ghost use Rattle.span_service.specs.Pieces.{first_of, without, trimmed};

use span_base::Bytes;
use std::marker::Model;

/// Pieces of bytes that are given one after another.
#[derive(Debug, Drop)]
pub(crate) struct Pieces {
    pieces: Vec<Bytes>,
    /// How many pieces were given whole.
    passed: usize,
    /// How many bytes were given of the next one.
    used: usize,
}

impl Model for Pieces {
    ghost use Rattle.span_service.specs.Pieces.{HeldPieces, left_of};

    ghost Value = { HeldPieces };

    ghost view = { λ p. record { all = p.pieces.items; left = left_of p.pieces.items p.passed p.used } };
}

impl Pieces {
    pub(crate) fn new(pieces: Vec<Bytes>) -> Pieces
        ensures { result ≡ record { all = pieces.items; left = pieces.items } }
    {
        Pieces {
            pieces,
            passed: 0,
            used: 0,
        }
    }

    /// Gives the front of the first piece that has something left, as much as there is room for.
    pub(crate) fn give(&mut self, buf: &mut [u8]) -> usize
        requires { 0 < length buf.old }
        ensures count { result ≡ min (length (first_of self.old.left)) (length buf.new) }
        ensures bytes { take result buf.new ≡ take result (first_of self.old.left) }
        ensures after { self.new ≡ record self.old { left = without result self.old.left } }
    {
        self.pass();
        if self.passed >= self.pieces.len() {
            return 0;
        }
        let piece = self.pieces[self.passed].as_slice();
        let start = piece.len().min(self.used);
        let rest = &piece[start..];
        let count = rest.len().min(buf.len());
        buf[..count].copy_from_slice(&rest[..count]);
        self.used = start + count;
        count
    }

    // Passes the pieces that have nothing left.
    #[tactic(auto, using(crate::proofs::Giving::untouched))]
    fn pass(&mut self)
        ensures { self.new ≡ record self.old { left = trimmed self.old.left } }
    {
        while self.passed < self.pieces.len() && self.used >= self.pieces[self.passed].len() {
            self.passed += 1;
            self.used = 0;
        }
    }
}
