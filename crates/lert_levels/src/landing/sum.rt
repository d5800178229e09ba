//! The sum of one tail's pieces, as they come one by one.

ghost use Rattle.std.specs.Prelude.{◌≡◌, ◌+◌, ◌<◌, ◌≤◌, ◌^◌, ◌++◌, List, Some, None, IfSome, IsSomeAnd, option_to_list};
ghost use Rattle.lert_spec.specs.declared.piece.Piece.{Piece};
ghost use Rattle.lert_spec.specs.Table.{plus};
ghost use Rattle.lert_levels.specs.landing.Whole.{whole, AreBelow};

use lert_base::Piece;

/// The pieces of the last tail, added up: none yet, or a sum that may still grow.
#[derive(Clone, Copy, Drop)]
pub struct Sum {
    last: Option<Piece>,
}

impl Sum {
    /// No piece yet.
    pub fn new() -> Sum
        ensures { result.last ≡ None }
    {
        Sum { last: None }
    }

    /// Adds a piece to the sum of its tail, or begins with it: then it answers the sum so far, which is finished.
    #[inline]
    pub fn add(&mut self, piece: Piece) -> Option<Piece>
        requires ascends { IfSome self.old.last (λ last. last.tail ≤ piece.tail) }
        requires fits { IfSome self.old.last (λ last. last.count + piece.count < 2 ^ 63) }

        // Behind what was handed on before, it is as if the piece's count were added to a table.
        ensures whole { (front : List Piece) → AreBelow piece.tail front →
            whole (front ++ option_to_list result) self.new ≡ plus (whole front self.old) piece.tail piece.count }
        ensures last { IsSomeAnd self.new.last (λ last. last.tail ≡ piece.tail) }
        ensures finished { IfSome result (λ sum. (self.old.last ≡ Some sum) × (sum.tail < piece.tail)) }
    {
        let Some(last) = self.last else {
            self.last = Some(piece);
            return None;
        };
        if last.tail == piece.tail {
            let count = last.count + piece.count;
            self.last = Some(Piece { count, ..piece });
            return None;
        }
        self.last = Some(piece);
        Some(last)
    }

    /// The sum so far, which is finished. Behind it there is none.
    pub fn take(&mut self) -> Option<Piece>
        ensures finished { result ≡ self.old.last }
        ensures none { self.new.last ≡ None }
    {
        let last = self.last;
        self.last = None;
        last
    }
}
