//! A taker of totals: a merge hands it each tail with the sum of its counts.

ghost use Rattle.std.specs.Prelude.{◌≡◌, ℕ, ◌<◌, List, [], ◌∷◌, ◌++◌, All};
ghost use Rattle.lert_spec.specs.declared.piece.Piece.{Piece};

/// What takes totals in ascending tails.
pub trait Totals {
    /// The value took this list.
    ghost took: { Self → List Piece → Type 0 };

    /// Takes one more total, behind all that were taken.
    fn total(&mut self, tail: u64, count: u64)
        requires { (pieces : List Piece) × took self.old pieces × All (λ piece. piece.tail < tail) pieces }
        ensures { (pieces : List Piece) → took self.old pieces → All (λ piece. piece.tail < tail) pieces →
            took self.new (pieces ++ record { tail = tail; count = count } ∷ []) };
}
