//! Streams of pieces, which a merge reads: a bin of a level, from a frame or from a table.

ghost use Rattle.std.specs.Prelude.{◌≡◌, ◌≢◌, ℕ, ◌<◌, ◌≤◌, List, [], ◌∷◌, ◌++◌, Option, Some, None, Err, MatchOption, IfOk, OnErr, ◌↔◌, option_to_list};
ghost use Rattle.lert_io.specs.Fault.{HasRisen};
ghost use Rattle.lert_spec.specs.Table.{AreGiven};
ghost use Rattle.lert_spec.specs.declared.piece.Piece.{Piece};

use lert_io::Faulty;
use lert_spec::Piece;

/// Why a stream gives no piece.
#[derive(Clone, Copy, Debug, PartialEq, Eq)]
pub enum PieceFault {
    /// A call on the context failed.
    Failed,
    /// What the stream reads leaves its format at this byte.
    Malformed { at: u64 },
}

/// A stream of pieces in ascending tails, read through a context, as a file's.
pub trait Pieces<C: Faulty> {
    /// The pieces still to come, where the context tells them.
    ghost to_come: { Self → C → Option (List Piece) };

    /// The pieces that the stream gave since it was made or started anew.
    ghost given: { Self → List Piece };

    /// The tails of the pieces are below this number.
    ghost limit: { Self → ℕ };

    /// What the stream reads through this context leaves its format at this byte.
    ghost breaks: { Self → C → ℕ → Type 0 };

    /// What a call leaves of the context: the first is before calls, the second after.
    ghost keeps: { C → C → Type 0 };

    /// The next piece. After a refusal nothing is said of what is still to come of this stream.
    fn next(&mut self, ctx: &mut C) -> Result<Option<Piece>, PieceFault>
        // Where the pieces are told, they come in their order, and None exactly where none is left.
        ensures told { (ps : List Piece) → to_come self.old ctx.old ≡ Some ps → IfOk result (λ piece.
            MatchOption piece
            ((ps ≡ []) × (to_come self.new ctx.new ≡ Some []))
            (λ p. (rest : List Piece) × (ps ≡ p ∷ rest) × (to_come self.new ctx.new ≡ Some rest))) }
        ensures untold { to_come self.old ctx.old ≡ None → to_come self.new ctx.new ≡ None }

        // Told or not, what was given ascends below the limit, each count from 1 to 2^47.
        ensures given { IfOk result (λ piece. given self.new ≡ given self.old ++ option_to_list piece) }
        ensures refused { OnErr result (given self.new ≡ given self.old) }
        ensures ascending { AreGiven (limit self.new) (given self.new) }
        ensures limit { limit self.new ≡ limit self.old }

        ensures failed { result ≡ Err PieceFault.Failed →
            HasRisen (C.faults ctx.old) (C.faults ctx.new) }
        ensures malformed { (at : ℕ) → result ≡ Err (PieceFault.Malformed at) →
            (to_come self.old ctx.old ≡ None) × breaks self.old ctx.old at }
        ensures breaks { (at : ℕ) → breaks self.new ctx.new at ↔ breaks self.old ctx.old at }

        ensures faults { C.faults ctx.old ≤ C.faults ctx.new }
        ensures mark { C.mark ctx.new ≡ C.mark ctx.old }
        ensures keeps { keeps ctx.old ctx.new };

    /// What was given and what is to come ascend below the limit.
    ghost in_order: { (stream : Self) (ctx : C) (pieces : List Piece) →
        to_come stream ctx ≡ Some pieces → AreGiven (limit stream) (given stream ++ pieces) };

    /// A context that no call was made on is kept, and one that is kept twice in turn.
    ghost keeps_same: { (ctx : C) → keeps ctx ctx };

    ghost keeps_on: { (a b c : C) → keeps a b → keeps b c → keeps a c };

    /// Through a context that is kept the same is to come of every stream, and the same breaks.
    ghost keeps_told: { (other : Self) (a b : C) (ps : List Piece) →
        keeps a b → to_come other a ≡ Some ps → to_come other b ≡ Some ps };

    ghost keeps_untold: { (other : Self) (a b : C) →
        keeps a b → to_come other a ≡ None → to_come other b ≡ None };

    ghost keeps_breaks: { (other : Self) (a b : C) (at : ℕ) →
        keeps a b → (breaks other b at ↔ breaks other a at) };
}
