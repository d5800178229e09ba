//! What an order reads ahead: of each stream one piece, until it ended.

ghost use Rattle.std.specs.Prelude.{◌≡◌, ℕ, ◌+◌, ◌<◌, ◌≤◌, ◌⊎◌, [], true, false, length, IfOk, IfSome, MatchOption};
ghost use Rattle.lert_merge.specs.tree.Race.{number_at, greatest};
ghost use Rattle.lert_merge.specs.order.Fronts.{Fronts, AreLast, AreAllLast, IsBegun, IsFront, IsLeft, IsPut, tail_in, count_in};

use crate::tree::Tree;
use lert_base::Piece;
use lert_io::OutOfMemory;
use std::alloc::Global;
use std::marker::Model;

/// The memory of an order: of each stream the piece that was read ahead, and a tree that knows the least tail of them.
#[derive(Drop)]
pub struct Ahead {
    tree: Tree,
    // The tails that were read first, until the tree knows all of them.
    firsts: Vec<u64>,
    // The count of each stream's piece; an ended stream has the count 0, and the greatest tail.
    counts: Vec<u64>,
    is_begun: bool,
    room: usize,
}

impl Model for Ahead {
    ghost use Rattle.std.specs.Prelude.{vec_capacity};
    ghost use Rattle.lert_merge.specs.order.Fronts.{Fronts, tails_of, IsKept};

    ghost Value = { Fronts };

    ghost view = { λ a. record {
      tails = tails_of a.is_begun a.tree.keys a.firsts.items;
      counts = a.counts.items;
      is_begun = a.is_begun;
      first = a.tree.first;
      room = a.room;
    } };

    ghost invariant = { λ a. IsKept a.tree a.firsts.items a.counts.items a.is_begun a.room (vec_capacity a.firsts) (vec_capacity a.counts) };
}

impl Ahead {
    /// Memory for at most so many streams. Its only error is want of memory.
    pub fn new(alloc: Global, streams: usize) -> Result<Ahead, OutOfMemory>
        ensures { IfOk result (λ ahead. ahead ≡ record { tails = []; counts = []; is_begun = false; first = 0; room = streams }) }
    {
        Ok(Ahead {
            tree: Tree::new(alloc, streams)?,
            firsts: Vec::with_capacity(alloc, streams)?,
            counts: Vec::with_capacity(alloc, streams)?,
            is_begun: false,
            room: streams,
        })
    }

    // Forgets what was read.
    pub(crate) fn clear(&mut self)
        ensures tails { self.new.tails ≡ [] }
        ensures counts { self.new.counts ≡ [] }
        ensures begun { self.new.is_begun ≡ false }
        ensures room { self.new.room ≡ self.old.room }
    {
        self.firsts.clear();
        self.counts.clear();
        self.is_begun = false;
    }

    // How many streams were read.
    pub(crate) fn len(&self) -> usize
        ensures { result ≡ length self.now.counts }
    {
        self.counts.len()
    }

    #[inline]
    pub(crate) fn is_begun(&self) -> bool
        ensures begun { result ≡ self.now.is_begun }
        ensures len { length self.now.tails ≡ length self.now.counts }
    {
        self.is_begun
    }

    // Puts down what the next stream answered when it was asked first.
    pub(crate) fn push(&mut self, next: Option<Piece>)
        requires unbegun { self.old.is_begun ≡ false }
        requires room { length self.old.counts < self.old.room }
        ensures put { IsPut self.old self.new (length self.old.counts) next }
        ensures len { length self.new.counts ≡ length self.old.counts + 1 }
    {
        let (tail, count) = entry_of(next);
        // `new` reserved a place for each stream.
        let is_tail_put = self.firsts.push(tail).is_ok();
        prove!(is_tail_put);
        let is_count_put = self.counts.push(count).is_ok();
        prove!(is_count_put);
    }

    // Tells the tree all tails that were read first, if there are any.
    pub(crate) fn start(&mut self)
        requires few { length self.old.counts ≤ 65535 }
        ensures tails { self.new.tails ≡ self.old.tails }
        ensures counts { self.new.counts ≡ self.old.counts }
        ensures begun { IsBegun self.new }
        ensures room { self.new.room ≡ self.old.room }
    {
        if self.is_begun || self.firsts.is_empty() {
            return;
        }
        self.tree.begin(&self.firsts);
        self.is_begun = true;
    }

    // A piece of the least tail, and its stream. None where all streams ended.
    #[inline]
    pub(crate) fn front(&self) -> Option<(usize, Piece)>
        requires begun { IsBegun self.now }
        requires last { AreLast self.now }
        ensures { MatchOption result (AreAllLast self.now) (λ g. IsFront self.now g.0 g.1) }
    {
        if !self.is_begun {
            return None;
        }
        let stream = self.tree.first();
        let count = self.counts[stream];
        if count == 0 {
            return self.left();
        }
        let tail = self.tree.key(stream);
        Some((stream, Piece { tail, count }))
    }

    // A piece that is left where the least tail is the greatest one, by which the tree can't tell it from an ended stream.
    #[cold]
    fn left(&self) -> Option<(usize, Piece)>
        requires begun { self.now.is_begun ≡ true }
        ensures { MatchOption result (AreAllLast self.now) (λ g. IsLeft self.now g.0 g.1) }
    {
        for stream in 0..self.counts.len() {
            let count = self.counts[stream];
            if count > 0 {
                let tail = self.tree.key(stream);
                return Some((stream, Piece { tail, count }));
            }
        }
        None
    }

    // Puts down what the stream in front answered, in the place of its piece.
    #[inline]
    pub(crate) fn replace(&mut self, stream: usize, next: Option<Piece>)
        requires begun { self.old.is_begun ≡ true }
        requires within { stream < length self.old.counts }
        requires which { (stream ≡ self.old.first) ⊎
            ((number_at self.old.tails stream ≡ greatest) × (number_at self.old.tails self.old.first ≡ greatest)) }
        requires above { IfSome next (λ p. number_at self.old.tails stream < p.tail) }
        ensures put { IsPut self.old self.new stream next }
        ensures len { length self.new.counts ≡ length self.old.counts }
    {
        let (tail, count) = entry_of(next);
        self.counts[stream] = count;
        // Where another stream is the tree's first, both have the greatest tail, and keep it.
        self.tree.replace(tail);
    }
}

// The tail and the count that an answer is put down as.
#[inline]
fn entry_of(next: Option<Piece>) -> (u64, u64)
    ensures tail { result.0 ≡ tail_in next }
    ensures count { result.1 ≡ count_in next }
{
    match next {
        Some(piece) => (piece.tail, piece.count),
        None => (u64::MAX, 0),
    }
}
