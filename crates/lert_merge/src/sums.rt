//! What was taken of a tail: the streams that have a part in it.

ghost use Rattle.std.specs.Prelude.{◌≡◌, ◌≢◌, ℕ, ◌<◌, ◌≤◌, ◌^◌, ◌⊎◌, ◌++◌, ◌∷◌, [], Some, None, length, IfOk, MatchOption, IsTrue, false, sum_by};
ghost use Rattle.lert_merge.specs.Givers.{Taking, share_in, IsSum};

use lert_base::Piece;
use lert_io::OutOfMemory;
use std::alloc::Global;
use std::marker::Model;
use std::mem;
use std::snapshot::Snapshot;

/// A stream that has a part in a tail, and its count.
#[derive(Clone, Copy, Debug)]
pub struct Giver {
    pub stream: usize,
    pub count: u64,
}

/// The streams that had a part in the tail given last, and those that were taken of the next one so far.
#[derive(Drop)]
pub struct Sums {
    given: Vec<Giver>,
    taken: Vec<Giver>,
    tail: u64,
    // The sum of what was taken.
    sum: u64,
    last: Snapshot<Option<u64>>,
    room: usize,
}

impl Model for Sums {
    ghost use Rattle.std.specs.Prelude.{vec_capacity};
    ghost use Rattle.lert_merge.specs.Givers.{Taking, IsTaking};

    ghost Value = { Taking };

    ghost view = { λ s. record { given = s.given.items; taken = s.taken.items; tail = s.tail; last = s.last.value; room = s.room } };

    ghost invariant = { λ s. IsTaking s.taken.items s.sum s.room (vec_capacity s.given) (vec_capacity s.taken) };
}

impl Sums {
    // Memory for at most so many streams.
    pub(crate) fn new(alloc: Global, streams: usize) -> Result<Sums, OutOfMemory>
        ensures { IfOk result (λ sums. sums.room ≡ streams) }
    {
        let none: Option<u64> = None;
        Ok(Sums {
            given: Vec::with_capacity(alloc, streams)?,
            taken: Vec::with_capacity(alloc, streams)?,
            tail: 0,
            sum: 0,
            last: Snapshot::of(&none),
            room: streams,
        })
    }

    // Forgets what was given and taken.
    pub(crate) fn clear(&mut self)
        ensures given { self.new.given ≡ [] }
        ensures taken { self.new.taken ≡ [] }
        ensures last { self.new.last ≡ None }
        ensures room { self.new.room ≡ self.old.room }
    {
        self.given.clear();
        self.taken.clear();
        self.sum = 0;
        let none: Option<u64> = None;
        self.last = Snapshot::of(&none);
    }

    // Whether nothing of another tail was taken.
    #[inline]
    pub(crate) fn is_of(&self, tail: u64) -> bool
        ensures own { IsTrue result → (self.now.taken ≡ []) ⊎ (tail ≡ self.now.tail) }
        ensures other { result ≡ false → (1 ≤ length self.now.taken) × (tail ≢ self.now.tail) }
    {
        if self.taken.is_empty() {
            return true;
        }
        tail == self.tail
    }

    // Takes a stream's piece, of the tail in hand.
    #[inline]
    pub(crate) fn add(&mut self, stream: usize, piece: Piece)
        requires few { length self.old.taken < 65535 }
        requires room { length self.old.taken < self.old.room }
        requires small { (1 ≤ piece.count) × (piece.count ≤ 2 ^ 47) }
        ensures { self.new ≡ record self.old {
          taken = self.old.taken ++ record { stream = stream; count = piece.count } ∷ [];
          tail = piece.tail;
        } }
    {
        let giver = Giver {
            stream,
            count: piece.count,
        };
        // There is room for each stream, and none gives a tail twice.
        let is_taken = self.taken.push(giver).is_ok();
        prove!(is_taken);
        self.tail = piece.tail;
        self.sum += piece.count;
    }

    // Gives what was taken, if anything was.
    #[inline]
    pub(crate) fn give(&mut self) -> Option<Piece>
        ensures { MatchOption result ((self.old.taken ≡ []) × (self.new ≡ self.old)) (IsSum self.old self.new) }
    {
        if self.taken.is_empty() {
            return None;
        }
        mem::swap(&mut self.given, &mut self.taken);
        self.taken.clear();
        let piece = Piece {
            tail: self.tail,
            count: self.sum,
        };
        self.sum = 0;
        let last = Some(piece.tail);
        self.last = Snapshot::of(&last);
        Some(piece)
    }

    // A stream's part of what was given.
    #[inline]
    pub(crate) fn share(&self, stream: usize) -> u64
        ensures { result ≡ share_in self.now.given stream }
    {
        for giver in &self.given {
            if giver.stream == stream {
                return giver.count;
            }
        }
        0
    }
}
