//! Sets of streams, which an order reads: the bins of a flush, from tables and from frames at once.

ghost use Rattle.std.specs.Prelude.{◌≡◌, ◌≢◌, ℕ, ◌<◌, ◌≤◌, List, [], ◌∷◌, ◌++◌, Option, Some, None, Ok, Err, MatchOption, IfOk, OnErr, ◌↔◌, option_to_list};
ghost use Rattle.lert_io.specs.Fault.{HasRisen};
ghost use Rattle.lert_spec.specs.Table.{AreGiven};
ghost use Rattle.lert_spec.specs.declared.piece.Piece.{Piece};
ghost use Rattle.lert_merge.specs.order.Untouched.{IsUntouched};

use lert_base::{Piece, PieceFault};
use lert_io::Faulty;

/// Streams of pieces in ascending tails, each asked by its number, from 0 on, and read through one context.
pub trait Streams<C: Faulty> {
    /// How many there are.
    ghost count: { Self → ℕ };

    /// The pieces still to come of one of them, where the context tells them.
    ghost to_come: { Self → ℕ → C → Option (List Piece) };

    /// The pieces that one of them gave since it was begun.
    ghost given: { Self → ℕ → List Piece };

    /// The tails of its pieces are below this number.
    ghost limit: { Self → ℕ → ℕ };

    /// What it reads through this context leaves its format at this byte.
    ghost breaks: { Self → ℕ → C → ℕ → Type 0 };

    /// What a call leaves of the context: the first is before calls, the second after.
    ghost keeps: { C → C → Type 0 };

    /// Through such a context each stream is told that leaves its format nowhere.
    ghost tells: { C → Type 0 };

    /// What calls leave of the set besides: which streams these are. The first is before calls, the second after.
    ghost same: { Self → Self → Type 0 };

    /// How many streams there are.
    fn len(&self) -> usize
        ensures { result ≡ count self.now };

    /// A stream's next piece. After a refusal nothing is said of what is still to come of this stream.
    fn next(&mut self, stream: usize, ctx: &mut C) -> Result<Option<Piece>, PieceFault>
        requires { stream < count self.old }
        // Where the stream's pieces are told, they come in their order, and None exactly where none is left.
        ensures told { (ps : List Piece) → to_come self.old stream ctx.old ≡ Some ps → IfOk result (λ piece.
            MatchOption piece
            ((ps ≡ []) × (to_come self.new stream ctx.new ≡ Some []))
            (λ p. (rest : List Piece) × (ps ≡ p ∷ rest) × (to_come self.new stream ctx.new ≡ Some rest))) }
        ensures untold { to_come self.old stream ctx.old ≡ None → to_come self.new stream ctx.new ≡ None }

        // Where the context tells, None comes only where none is left: no stream ends where it leaves its format.
        ensures ended { tells ctx.old → result ≡ Ok None → to_come self.old stream ctx.old ≡ Some [] }

        // Told or not, what was given ascends below the limit, each count from 1 to 2^47.
        ensures given { IfOk result (λ piece. given self.new stream ≡ given self.old stream ++ option_to_list piece) }
        ensures refused { OnErr result (given self.new stream ≡ given self.old stream) }
        ensures ascending { AreGiven (limit self.new stream) (given self.new stream) }
        ensures limit { limit self.new stream ≡ limit self.old stream }

        ensures failed { result ≡ Err PieceFault.Failed →
            HasRisen (C.faults ctx.old) (C.faults ctx.new) }
        ensures malformed { (at : ℕ) → result ≡ Err (PieceFault.Malformed at) →
            (to_come self.old stream ctx.old ≡ None) × breaks self.old stream ctx.old at }
        ensures breaks { (at : ℕ) → breaks self.new stream ctx.new at ↔ breaks self.old stream ctx.old at }

        // The other streams are as they were, whatever becomes of the context.
        ensures others { (k : ℕ) → k ≢ stream → IsUntouched to_come given limit breaks self.old self.new k }
        ensures count { count self.new ≡ count self.old }
        ensures same { same self.old self.new }

        ensures faults { C.faults ctx.old ≤ C.faults ctx.new }
        ensures mark { C.mark ctx.new ≡ C.mark ctx.old }
        ensures keeps { keeps ctx.old ctx.new };

    /// What a stream gave and what is to come of it ascend below its limit.
    ghost in_order: { (streams : Self) (stream : ℕ) (ctx : C) (pieces : List Piece) → stream < count streams →
        to_come streams stream ctx ≡ Some pieces → AreGiven (limit streams stream) (given streams stream ++ pieces) };

    /// A context that no call was made on is kept, and one that is kept twice in turn.
    ghost keeps_same: { (ctx : C) → keeps ctx ctx };

    ghost keeps_on: { (a b c : C) → keeps a b → keeps b c → keeps a c };

    /// Through a context that is kept the same is to come of every stream of every set, and the same breaks.
    ghost keeps_told: { (streams : Self) (stream : ℕ) (a b : C) (ps : List Piece) →
        keeps a b → to_come streams stream a ≡ Some ps → to_come streams stream b ≡ Some ps };

    ghost keeps_untold: { (streams : Self) (stream : ℕ) (a b : C) →
        keeps a b → to_come streams stream a ≡ None → to_come streams stream b ≡ None };

    ghost keeps_breaks: { (streams : Self) (stream : ℕ) (a b : C) (at : ℕ) →
        keeps a b → (breaks streams stream b at ↔ breaks streams stream a at) };

    /// It tells only where it told before.
    ghost keeps_tells: { (a b : C) → keeps a b → tells b → tells a };

    /// Without a call the streams are the same, and so they are after two calls in turn.
    ghost same_self: { (streams : Self) → same streams streams };

    ghost same_on: { (a b c : Self) → same a b → same b c → same a c };
}
