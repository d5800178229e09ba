//! The merge.

ghost use Rattle.std.specs.Prelude.{◌≡◌, ℕ, ◌<◌, ◌≤◌, ◌^◌, ◌+◌, IsTrue, List, ◌++◌, ◌∷◌, [], length, map, true, false, Some, None, Ok, Err, MatchOption, IfSome, IfOk, OnErr};
ghost use Rattle.lert_io.specs.Fault.{HasRisen};
ghost use Rattle.lert_spec.specs.declared.piece.Piece.{Piece};
ghost use Rattle.lert_merge.specs.order.Ordering.{AreOver, AreSame, Breaks, IsNothingGiven};
ghost use Rattle.lert_merge.specs.Givers.{sum_below};
ghost use Rattle.lert_merge.specs.Merging.{Merging, TellsSums, HasSummed, part_summed, IsNextSum, AreShares, IsAbove, IsBelowOne, AreSummedUp, HasTurned, share_of, behind, turn_of};

use crate::heads::Heads;
use crate::order::{Order, Streams};
use crate::sums::Sums;
use lert_base::{Piece, PieceFault};
use lert_io::Faulty;
use std::marker::Model;

/// What came of a step of the order.
#[derive(Clone, Copy, Debug)]
pub enum Turn {
    /// A piece was taken of the tail in hand.
    Taken,
    /// No more comes of the tail in hand: it is given. None where there was none, and the order is over.
    Given(Option<Piece>),
}

/// The sums of the pieces of a set of streams, seen as the order of their pieces and what was taken of it.
///
/// The pieces of one tail are taken one by one, until a piece of another tail comes. Only `Heads::new` takes memory.
#[derive(Drop)]
pub struct Merge<C: Faulty, S: Streams<C>> {
    order: Order<C, S>,
    sums: Sums,
    is_over: bool,
}

impl<C: Faulty, S: Streams<C>> Model for Merge<C, S> {
    ghost use Rattle.lert_merge.specs.Merging.{Merging, IsMerging};

    ghost Value = { Merging S };

    ghost view = { λ m. record { order = m.order; sums = m.sums; is_over = m.is_over } };

    ghost invariant = { λ m. IsMerging S.Streams (record { order = m.order; sums = m.sums; is_over = m.is_over }) };
}

impl<C: Faulty, S: Streams<C>> Merge<C, S> {
    /// Begins a merge of what is to come of the streams. Nothing is read yet.
    pub fn new(streams: S, heads: Heads) -> Merge<C, S>
        requires few { S.count streams ≤ 65535 }
        requires room { S.count streams ≤ heads.room }
        ensures streams { result.order.streams ≡ streams }
        ensures tails { result.order.ahead.tails ≡ [] }
        ensures counts { result.order.ahead.counts ≡ [] }
        ensures taken { result.sums.taken ≡ [] }
        ensures shares { (k : ℕ) → share_of result k ≡ 0 }
        ensures last { result.sums.last ≡ None }
        ensures room { result.sums.room ≡ heads.room }
        ensures ahead { result.order.ahead.room ≡ heads.room }
        ensures going { result.is_over ≡ false }
    {
        let Heads { ahead, mut sums } = heads;
        sums.clear();
        Merge {
            order: Order::new(streams, ahead),
            sums,
            is_over: false,
        }
    }

    /// The least tail still to come, with the sum of its counts. None exactly where no stream has more.
    ///
    /// After a refusal nothing is said of what is still to come of the stream that refused. What was taken of a tail
    /// before it stays in the merge, and the next call goes on with it.
    #[inline]
    pub fn next(&mut self, ctx: &mut C) -> Result<Option<Piece>, PieceFault>
        // Where the context tells, the pieces of the least tail are taken from the front of all lists.
        ensures told { (lists : List (List Piece)) → TellsSums S.Streams ctx.old self.old lists → IfOk result (λ piece.
            MatchOption piece (AreOver lists × TellsSums S.Streams ctx.new self.new lists) (λ p.
            IsNextSum lists p × AreShares self.new lists p.tail ×
            TellsSums S.Streams ctx.new self.new (map (behind p.tail) lists))) }
        ensures untold { (k : ℕ) → k < S.count self.old.order.streams →
            S.to_come self.old.order.streams k ctx.old ≡ None → S.to_come self.new.order.streams k ctx.new ≡ None }

        // Told or not, the tails ascend below the greatest limit, and the shares are what the streams gave.
        ensures above { IfOk result (λ piece. IfSome piece (λ p. IsAbove self.old.sums.last p.tail)) }
        ensures below { IfOk result (λ piece. IfSome piece (λ p. IsBelowOne S.Streams self.new.order.streams p.tail)) }
        ensures last { IfOk result (λ piece. IfSome piece (λ p. self.new.sums.last ≡ Some p.tail)) }
        ensures sum { IfOk result (λ piece. IfSome piece (λ p.
            p.count ≡ sum_below (share_of self.new) (S.count self.new.order.streams))) }
        ensures small { IfOk result (λ piece. IfSome piece (λ p. (1 ≤ p.count) × (p.count < 2 ^ 63))) }
        ensures taken { IfOk result (λ piece. (k : ℕ) (pieces : List Piece) → k < S.count self.old.order.streams →
            HasSummed S.Streams self.old k pieces →
            HasSummed S.Streams self.new k (pieces ++ part_summed piece (share_of self.new k))) }
        ensures refused { OnErr result ((k : ℕ) (pieces : List Piece) → k < S.count self.old.order.streams →
            HasSummed S.Streams self.old k pieces → HasSummed S.Streams self.new k pieces) }
        ensures over { result ≡ Ok None → AreSummedUp S.Streams self.new }
        ensures nothing_given { IsNothingGiven result → (self.new.sums.last ≡ self.old.sums.last) ×
            ((k : ℕ) → share_of self.new k ≡ share_of self.old k) }

        ensures failed { result ≡ Err PieceFault.Failed → HasRisen (C.faults ctx.old) (C.faults ctx.new) }
        ensures malformed { (at : ℕ) → result ≡ Err (PieceFault.Malformed at) →
            Breaks S.Streams ctx.old self.old.order.streams at }
        ensures same { AreSame S.Streams ctx.old self.old.order ctx.new self.new.order }
        ensures kept { S.same self.old.order.streams self.new.order.streams }

        ensures faults { C.faults ctx.old ≤ C.faults ctx.new }
        ensures mark { C.mark ctx.new ≡ C.mark ctx.old }
        ensures keeps { S.keeps ctx.old ctx.new }
    {
        if self.is_over() {
            return Ok(None);
        }
        self.advance(ctx)
    }

    // Whether the order is over, and all that was taken of it given.
    #[inline]
    fn is_over(&self) -> bool
        ensures ended { IsTrue result → AreSummedUp S.Streams self.now }
        ensures going { result ≡ false → self.now.is_over ≡ false }
    {
        self.is_over
    }

    // Takes turns until a piece is given.
    fn advance(&mut self, ctx: &mut C) -> Result<Option<Piece>, PieceFault>
        requires { self.old.is_over ≡ false }
        ensures { HasTurned S.Streams C.faults C.mark ctx.old self.old ctx.new self.new (turn_of result) }
    {
        loop {
            if let Turn::Given(piece) = self.turn(ctx)? {
                return Ok(piece);
            }
        }
    }

    // Takes the order's next piece. One of another tail than those in hand gives these.
    fn turn(&mut self, ctx: &mut C) -> Result<Turn, PieceFault>
        requires { self.old.is_over ≡ false }
        ensures turned { HasTurned S.Streams C.faults C.mark ctx.old self.old ctx.new self.new result }
        ensures goes_on { result ≡ Ok Turn.Taken → (self.new.is_over ≡ false)
            × (length self.new.sums.taken ≡ length self.old.sums.taken + 1)
            × (length self.new.sums.taken ≤ S.count self.old.order.streams) }
    {
        let taken = self.order.step(ctx)?;
        let Some((stream, piece)) = taken else {
            self.is_over = true;
            let rest = self.sums.give();
            return Ok(Turn::Given(rest));
        };
        if self.sums.is_of(piece.tail) {
            self.sums.add(stream, piece);
            return Ok(Turn::Taken);
        }
        let given = self.sums.give();
        self.sums.add(stream, piece);
        Ok(Turn::Given(given))
    }

    /// A stream's share of the piece that was given last, 0 where it had none. It looks at the streams that had one.
    #[inline]
    pub fn share(&self, stream: usize) -> u64
        requires { stream < S.count self.now.order.streams }
        ensures { result ≡ share_of self.now stream }
    {
        self.sums.share(stream)
    }

    /// The set of streams, and the heads for the next merge.
    pub fn into_parts(self) -> (S, Heads)
        ensures streams { result.0 ≡ self.order.streams }
        ensures room { result.1.room ≡ self.sums.room }
        ensures ahead { result.1.room ≡ self.order.ahead.room }
    {
        let Merge {
            order,
            sums,
            is_over: _,
        } = self;
        let (streams, ahead) = order.into_parts();
        (streams, Heads { ahead, sums })
    }
}
