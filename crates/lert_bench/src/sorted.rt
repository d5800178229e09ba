//! A stream of sorted pieces in memory.

ghost use Rattle.std.specs.Prelude.{◌^◌, ◌≤◌, vec_len};
ghost use Rattle.lert_spec.proofs.GivenLaws.{given_prop};
ghost use Rattle.lert_spec.specs.Table.{AreGiven};

use lert_base::{Piece, PieceFault, Pieces};
use lert_io::Faulty;

/// A context that never fails.
#[derive(Clone, Copy)]
pub struct Quiet {}

impl Faulty for Quiet {
    ghost faults = { λ _. 0 };

    ghost mark = { λ _. 0 };
}

/// Pieces in ascending tails, of which so many were given.
#[derive(Drop)]
pub struct Sorted {
    pieces: Vec<Piece>,
    given: usize,
    ghost sorted: { AreGiven (2 ^ 64) pieces.items } by { given_prop (2 ^ 64) pieces.items },
}

impl Sorted {
    pub fn new(pieces: Vec<Piece>) -> Sorted
        requires { AreGiven (2 ^ 64) pieces.items }
    {
        Sorted { pieces, given: 0 }
    }
}

impl Pieces<Quiet> for Sorted {
    ghost use Rattle.std.specs.Prelude.{◌^◌, take, drop, Some};
    ghost use Rattle.lert_bench.specs.Streams.{stays_given};

    ghost to_come = { λ s _. Some (drop s.given s.pieces.items) };

    ghost given = { λ s. take s.given s.pieces.items };

    ghost limit = { λ _. 2 ^ 64 };

    ghost breaks = { λ _ _ _. ⊥ };

    ghost keeps = { λ _ _. Unit {0} };

    ghost in_order = { λ s _ pieces told. stays_given s.given s.pieces.items pieces s.sorted told };

    ghost keeps_same = { λ _. tt };

    ghost keeps_on = { λ _ _ _ _ _. tt };

    ghost keeps_told = { λ _ _ _ _ _ told. told };

    ghost keeps_untold = { λ _ _ _ _ untold. untold };

    ghost keeps_breaks = { λ _ _ _ _ _. ((λ no. no), (λ no. no)) };

    fn next(&mut self, _ctx: &mut Quiet) -> Result<Option<Piece>, PieceFault> {
        if self.given >= self.pieces.len() {
            return Ok(None);
        }
        let piece = self.pieces[self.given];
        self.given += 1;
        Ok(Some(piece))
    }
}
