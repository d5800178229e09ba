//! The order.

ghost use Rattle.std.specs.Prelude.{◌≡◌, ℕ, ◌+◌, ◌<◌, ◌≤◌, ◌^◌, List, ◌++◌, ◌∷◌, [], Some, None, Ok, Err, IsTrue, MatchOption, IfSome, IfOk, OnOk, OnErr, length, slice_set, false};
ghost use Rattle.lert_io.specs.Fault.{HasRisen};
ghost use Rattle.lert_spec.specs.Table.{AreGiven};
ghost use Rattle.lert_spec.specs.declared.piece.Piece.{Piece};
ghost use Rattle.lert_merge.specs.order.Ordering.{Ordering, AreRead, Tells, HasTaken, part_in, part_of, none_of, IsNext, AreOver, IsNotBelow, IsBelow, IsNothingGiven, IsGiven, IsReady, IsStarted};
ghost use Rattle.lert_merge.specs.order.Ordering.{AreEnded, AllGive, AllTold, AreKnown, AreWhole, AreSame, Breaks};

use crate::order::ahead::Ahead;
use crate::order::streams::Streams;
use lert_base::{Piece, PieceFault};
use lert_io::Faulty;
use std::marker::{Model, PhantomData};
use std::snapshot::Snapshot;

/// The streams of a set in one order, seen as the set, what was read ahead of its streams, and the tail given last.
///
/// One piece is read ahead of each stream. Only `Ahead::new` takes memory.
#[derive(Drop)]
pub struct Order<C: Faulty, S: Streams<C>> {
    streams: S,
    ahead: Ahead,
    last: Snapshot<Option<u64>>,
    of: PhantomData<C>,
}

impl<C: Faulty, S: Streams<C>> Model for Order<C, S> {
    ghost use Rattle.lert_merge.specs.order.Ordering.{Ordering, IsOrdering};

    ghost Value = { Ordering S };

    ghost view = { λ o. record { streams = o.streams; ahead = o.ahead; last = o.last.value } };

    ghost invariant = { λ o. IsOrdering S.Streams (record { streams = o.streams; ahead = o.ahead; last = o.last.value }) };
}

impl<C: Faulty, S: Streams<C>> Order<C, S> {
    /// Begins an order of what is to come of the streams. Nothing is read yet.
    pub fn new(streams: S, mut ahead: Ahead) -> Order<C, S>
        requires few { S.count streams ≤ 65535 }
        requires room { S.count streams ≤ ahead.room }
        ensures streams { result.streams ≡ streams }
        ensures tails { result.ahead.tails ≡ [] }
        ensures counts { result.ahead.counts ≡ [] }
        ensures room { result.ahead.room ≡ ahead.room }
        ensures last { result.last ≡ None }
    {
        ahead.clear();
        let none: Option<u64> = None;
        Order {
            streams,
            ahead,
            last: Snapshot::of(&none),
            of: PhantomData,
        }
    }

    /// The next piece, with the number of its stream. None exactly where no stream has more.
    ///
    /// The stream's next piece is read before this one is given: after a refusal what was read ahead is as it was, and
    /// nothing is said of what is still to come of the stream that refused.
    #[inline]
    pub fn step(&mut self, ctx: &mut C) -> Result<Option<(usize, Piece)>, PieceFault>
        // Where the context tells, a piece of the least tail is taken from the front of its list.
        ensures told { (lists : List (List Piece)) → Tells S.Streams ctx.old self.old lists → IfOk result (λ given.
            MatchOption given (AreOver lists × Tells S.Streams ctx.new self.new lists) (λ g. (rest : List Piece) ×
            (IsNext lists g.0 g.1 rest × Tells S.Streams ctx.new self.new (slice_set lists g.0 rest)))) }
        ensures untold { (k : ℕ) → k < S.count self.old.streams →
            S.to_come self.old.streams k ctx.old ≡ None → S.to_come self.new.streams k ctx.new ≡ None }
        ensures known { OnOk result (AreKnown S.Streams ctx.old self.old ctx.new self.new) }

        // Where the context tells, a stream that ended was told to its end: none ends where it leaves its format.
        ensures whole { OnOk result (AreWhole S.Streams ctx.old self.old → AreWhole S.Streams ctx.new self.new) }

        // Told or not, the tails ascend below their streams' limits, those of one stream strictly, and the pieces are
        // what the streams gave.
        ensures above { IfOk result (λ given. IfSome given (λ g. IsNotBelow self.old.last g.1.tail)) }
        ensures below { IfOk result (λ given. IfSome given (λ g. IsBelow S.Streams self.new.streams g.0 g.1.tail)) }
        ensures last { IfOk result (λ given. IfSome given (λ g. self.new.last ≡ Some g.1.tail)) }
        ensures small { IfOk result (λ given. IfSome given (λ g. (1 ≤ g.1.count) × (g.1.count ≤ 2 ^ 47))) }
        ensures ascending { IfOk result (λ given. IfSome given (λ g. (pieces : List Piece) →
            HasTaken S.Streams self.old g.0 pieces → AreGiven (S.limit self.new.streams g.0) (pieces ++ g.1 ∷ []))) }
        ensures taken { IfOk result (λ given. (k : ℕ) (pieces : List Piece) → k < S.count self.old.streams →
            HasTaken S.Streams self.old k pieces → HasTaken S.Streams self.new k (pieces ++ part_in given k)) }
        ensures refused { OnErr result ((k : ℕ) (pieces : List Piece) → k < S.count self.old.streams →
            HasTaken S.Streams self.old k pieces → HasTaken S.Streams self.new k pieces) }
        ensures held { (k : ℕ) → k < S.count self.old.streams →
            (pieces : List Piece) × HasTaken S.Streams self.old k pieces }
        ensures over { result ≡ Ok None → AreEnded S.Streams self.new }
        ensures nothing_given { IsNothingGiven result → self.new.last ≡ self.old.last }

        ensures failed { result ≡ Err PieceFault.Failed → HasRisen (C.faults ctx.old) (C.faults ctx.new) }
        ensures malformed { (at : ℕ) → result ≡ Err (PieceFault.Malformed at) →
            Breaks S.Streams ctx.old self.old.streams at }
        ensures same { AreSame S.Streams ctx.old self.old ctx.new self.new }
        ensures kept { S.same self.old.streams self.new.streams }

        ensures faults { C.faults ctx.old ≤ C.faults ctx.new }
        ensures mark { C.mark ctx.new ≡ C.mark ctx.old }
        ensures keeps { S.keeps ctx.old ctx.new }
    {
        if !self.is_begun() {
            self.read_first(ctx)?;
        }
        self.give(ctx)
    }

    #[inline]
    fn is_begun(&self) -> bool
        ensures ready { IsTrue result → IsReady S.Streams self.now }
        ensures held { (k : ℕ) → k < S.count self.now.streams →
            (pieces : List Piece) × HasTaken S.Streams self.now k pieces }
    {
        self.ahead.is_begun()
    }

    // Whether a stream was not read yet.
    fn is_unread(&self) -> bool
        ensures unread { IsTrue result → length self.now.ahead.counts < S.count self.now.streams }
        ensures read { result ≡ false → AreRead S.Streams self.now }
    {
        self.ahead.len() < self.streams.len()
    }

    // Reads a piece of each stream ahead, of which none was.
    #[cold]
    fn read_first(&mut self, ctx: &mut C) -> Result<(), PieceFault>
        ensures gives { AllGive S.Streams none_of ctx.old self.old ctx.new self.new }
        ensures last { self.new.last ≡ self.old.last }
        ensures told { OnOk result (AllTold S.Streams ctx.old self.old ctx.new self.new) }
        ensures whole { OnOk result (AreWhole S.Streams ctx.old self.old → AreWhole S.Streams ctx.new self.new) }
        ensures ready { OnOk result (IsReady S.Streams self.new) }

        ensures failed { result ≡ Err PieceFault.Failed → HasRisen (C.faults ctx.old) (C.faults ctx.new) }
        ensures malformed { (at : ℕ) → result ≡ Err (PieceFault.Malformed at) →
            Breaks S.Streams ctx.old self.old.streams at }

        ensures faults { C.faults ctx.old ≤ C.faults ctx.new }
        ensures mark { C.mark ctx.new ≡ C.mark ctx.old }
        ensures keeps { S.keeps ctx.old ctx.new }
    {
        while self.is_unread() {
            self.read_one(ctx)?;
        }
        self.start();
        Ok(())
    }

    // Reads a piece of the first stream ahead that was not read yet.
    fn read_one(&mut self, ctx: &mut C) -> Result<(), PieceFault>
        requires { length self.old.ahead.counts < S.count self.old.streams }
        ensures gives { AllGive S.Streams none_of ctx.old self.old ctx.new self.new }
        ensures last { self.new.last ≡ self.old.last }
        ensures told { OnOk result (AllTold S.Streams ctx.old self.old ctx.new self.new) }
        ensures whole { OnOk result (AreWhole S.Streams ctx.old self.old → AreWhole S.Streams ctx.new self.new) }
        ensures len { OnOk result (length self.new.ahead.counts ≡ length self.old.ahead.counts + 1) }

        ensures failed { result ≡ Err PieceFault.Failed → HasRisen (C.faults ctx.old) (C.faults ctx.new) }
        ensures malformed { (at : ℕ) → result ≡ Err (PieceFault.Malformed at) →
            Breaks S.Streams ctx.old self.old.streams at }

        ensures faults { C.faults ctx.old ≤ C.faults ctx.new }
        ensures mark { C.mark ctx.new ≡ C.mark ctx.old }
        ensures keeps { S.keeps ctx.old ctx.new }
    {
        let stream = self.ahead.len();
        let first = self.streams.next(stream, ctx)?;
        self.ahead.push(first);
        Ok(())
    }

    // Tells the tree the first tails.
    fn start(&mut self)
        requires { AreRead S.Streams self.old }
        ensures started { IsStarted self.old self.new }
        ensures ready { IsReady S.Streams self.new }
    {
        self.ahead.start();
    }

    // Gives a piece of the least tail, and reads its stream's next one ahead.
    #[inline]
    fn give(&mut self, ctx: &mut C) -> Result<Option<(usize, Piece)>, PieceFault>
        requires { IsReady S.Streams self.old }
        ensures gives { AllGive S.Streams (part_of result) ctx.old self.old ctx.new self.new }
        ensures given { IfOk result (λ given. IfSome given (λ g. IsGiven S.Streams self.old self.new g.0 g.1)) }
        ensures over { result ≡ Ok None → AreEnded S.Streams self.new }
        ensures nothing_given { IsNothingGiven result → self.new.last ≡ self.old.last }
        ensures told { (lists : List (List Piece)) → Tells S.Streams ctx.old self.old lists → IfOk result (λ given.
            MatchOption given (AreOver lists × Tells S.Streams ctx.new self.new lists) (λ g. (rest : List Piece) ×
            (IsNext lists g.0 g.1 rest × Tells S.Streams ctx.new self.new (slice_set lists g.0 rest)))) }
        ensures known { OnOk result (AreKnown S.Streams ctx.old self.old ctx.new self.new) }
        ensures whole { OnOk result (AreWhole S.Streams ctx.old self.old → AreWhole S.Streams ctx.new self.new) }

        ensures failed { result ≡ Err PieceFault.Failed → HasRisen (C.faults ctx.old) (C.faults ctx.new) }
        ensures malformed { (at : ℕ) → result ≡ Err (PieceFault.Malformed at) →
            Breaks S.Streams ctx.old self.old.streams at }

        ensures faults { C.faults ctx.old ≤ C.faults ctx.new }
        ensures mark { C.mark ctx.new ≡ C.mark ctx.old }
        ensures keeps { S.keeps ctx.old ctx.new }
    {
        let Some((stream, piece)) = self.ahead.front() else {
            return Ok(None);
        };
        let next = self.streams.next(stream, ctx)?;
        self.ahead.replace(stream, next);
        let tail = Some(piece.tail);
        self.last = Snapshot::of(&tail);
        Ok(Some((stream, piece)))
    }

    /// The set of streams, and the memory for the next order.
    pub fn into_parts(self) -> (S, Ahead)
        ensures streams { result.0 ≡ self.streams }
        ensures room { result.1.room ≡ self.ahead.room }
    {
        let Order {
            streams,
            ahead,
            last: _,
            of: _,
        } = self;
        (streams, ahead)
    }
}
