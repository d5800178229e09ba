//! A stream of sorted pieces in memory.

ghost use Rattle.std.specs.Prelude.{◌≡◌, ◌^◌, ◌<◌, ◌≤◌, ◌++◌, ◌∷◌, [], IsTrue};
ghost use Rattle.lert_spec.proofs.GivenLaws.{given_prop};
ghost use Rattle.lert_spec.specs.Table.{AreGiven};

use lert_base::{Piece, PieceFault, Pieces};
use lert_io::Faulty;
use std::alloc::Global;
use std::process::Abort;

/// A context that counts its faults.
#[derive(Clone, Copy)]
pub struct Counting {
    pub faults: u64,
}

impl Faulty for Counting {
    ghost faults = { λ c. c.faults };

    ghost mark = { λ _. 0 };
}

/// Pieces in ascending tails, of which so many were given. Before one of them it refuses so many times.
#[derive(Drop)]
pub struct Sorted {
    pieces: Vec<Piece>,
    given: usize,
    refuses_at: usize,
    refusals: u64,
    ghost sorted: { AreGiven (2 ^ 64) pieces.items } by { given_prop (2 ^ 64) pieces.items },
}

impl Sorted {
    /// The rows of a table, a tail and a count each, up to the first that isn't above those before it.
    pub fn new(rt: &impl Abort, alloc: Global, rows: &[(u64, u64)]) -> Sorted {
        Sorted {
            pieces: pieces_of(rt, alloc, rows),
            given: 0,
            refuses_at: 0,
            refusals: 0,
        }
    }

    /// The same stream, which refuses so many times before this piece.
    pub fn refusing(self, at: usize, refusals: u64) -> Sorted {
        let Sorted { pieces, given, .. } = self;
        Sorted {
            pieces,
            given,
            refuses_at: at,
            refusals,
        }
    }
}

fn pieces_of(rt: &impl Abort, alloc: Global, rows: &[(u64, u64)]) -> Vec<Piece>
    ensures { AreGiven (2 ^ 64) result.items }
{
    let mut pieces = Vec::new(alloc);
    let mut least = 0u64;
    for &(tail, count) in rows {
        let piece = Piece { tail, count };
        if !is_next(piece, least) {
            return pieces;
        }
        put(rt, &mut pieces, piece);
        let Some(above) = tail.checked_add(1) else {
            return pieces;
        };
        least = above;
    }
    pieces
}

// Puts a piece behind the others.
fn put(rt: &impl Abort, pieces: &mut Vec<Piece>, piece: Piece)
    ensures { pieces.new.items ≡ pieces.old.items ++ piece ∷ [] }
{
    pieces.push(piece).expect(rt, "memory");
}

// Whether a piece may stand behind others whose tails are below the least one.
fn is_next(piece: Piece, least: u64) -> bool
    ensures tail { IsTrue result → least ≤ piece.tail }
    ensures some { IsTrue result → 1 ≤ piece.count }
    ensures small { IsTrue result → piece.count ≤ 2 ^ 47 }
    ensures fits { piece.tail < 2 ^ 64 }
{
    piece.tail >= least && piece.count >= 1 && piece.count <= 1 << 47
}

impl Pieces<Counting> for Sorted {
    ghost use Rattle.std.specs.Prelude.{◌^◌, take, drop, Some};
    ghost use Rattle.lert_merge_tests.specs.Sorted.{stays_given};

    ghost to_come = { λ s _. Some (drop s.given s.pieces.items) };

    ghost given = { λ s. take s.given s.pieces.items };

    ghost limit = { λ _. 2 ^ 64 };

    ghost breaks = { λ _ _ _. ⊥ };

    ghost keeps = { λ _ _. Unit {0} };

    ghost in_order = { λ s _ pieces told. stays_given s.given s.pieces.items pieces s.sorted told };

    ghost keeps_same = { λ _. tt };

    ghost keeps_on = { λ _ _ _ _ _. tt };

    ghost keeps_told = { λ _ _ _ _ _ told. told };

    ghost keeps_untold = { λ _ _ _ _ untold. untold };

    ghost keeps_breaks = { λ _ _ _ _ _. ((λ no. no), (λ no. no)) };

    fn next(&mut self, ctx: &mut Counting) -> Result<Option<Piece>, PieceFault> {
        if self.refusals > 0 && self.given == self.refuses_at {
            self.refusals -= 1;
            ctx.faults = ctx.faults.saturating_add(1);
            return Err(PieceFault::Failed);
        }
        if self.given >= self.pieces.len() {
            return Ok(None);
        }
        let piece = self.pieces[self.given];
        self.given += 1;
        Ok(Some(piece))
    }
}
