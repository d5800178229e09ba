//! The tree of losers over the keys of some streams.

ghost use Rattle.std.specs.Prelude.{◌≡◌, ◌<◌, ◌≤◌, [], length, IfOk, slice_set};
ghost use Rattle.lert_merge.specs.tree.Race.{number_at, IsLeast};

use crate::tree::matches::{play, replay};
use lert_io::OutOfMemory;
use std::alloc::Global;
use std::marker::Model;

/// The keys of some streams, and which stream is first: one with the least key.
///
/// Streams meet in pairs, and the winners in pairs again. The match of places 2j and 2j + 1 is that at place j, up to the
/// last one at place 1. The leaves stand behind the matches: as many as streams, made up to a power of two, so that each
/// has as many matches above it.
#[derive(Drop)]
pub struct Tree {
    // The key of each leaf. A leaf that has no stream has the greatest key, and is never first.
    keys: Vec<u64>,
    // The loser of each match, from place 1 on.
    nodes: Vec<u32>,
    streams: usize,
    // The winner of the last match.
    first: u32,
    room: usize,
}

impl Model for Tree {
    ghost use Rattle.std.specs.Prelude.{take, vec_capacity};
    ghost use Rattle.lert_merge.specs.tree.Race.{Race};
    ghost use Rattle.lert_merge.specs.tree.Matches.{IsTree};

    ghost Value = { Race };

    ghost view = { λ t. record { keys = take t.streams t.keys.items; room = t.room; first = t.first } };

    ghost invariant = { λ t. IsTree t.keys.items t.nodes.items t.streams t.first t.room (vec_capacity t.keys) (vec_capacity t.nodes) };
}

impl Tree {
    /// A tree of at most so many streams. Its only error is want of memory.
    pub fn new(alloc: Global, streams: usize) -> Result<Tree, OutOfMemory>
        ensures { IfOk result (λ tree. tree ≡ record { keys = []; room = streams; first = 0 }) }
    {
        let leaves = streams.checked_add(streams).ok_or(OutOfMemory)?;
        Ok(Tree {
            keys: Vec::with_capacity(alloc, leaves)?,
            nodes: Vec::with_capacity(alloc, leaves)?,
            streams: 0,
            first: 0,
            room: streams,
        })
    }

    /// Begins anew, with a key for each stream. It takes no memory.
    pub fn begin(&mut self, keys: &[u64])
        requires some { 1 ≤ length keys.now }
        requires few { length keys.now ≤ 65535 }
        requires room { length keys.now ≤ self.old.room }
        ensures keys { self.new.keys ≡ keys.now }
        ensures room { self.new.room ≡ self.old.room }
    {
        let streams = keys.len();
        // There are less than twice as many leaves, for which `new` reserved room.
        let leaves = streams.next_power_of_two();
        self.keys.clear();
        let is_copied = self.keys.extend_from_slice(keys).is_ok();
        prove!(is_copied);
        let is_filled = self.keys.resize(leaves, u64::MAX).is_ok();
        prove!(is_filled);
        self.nodes.clear();
        let is_cleared = self.nodes.resize(leaves, 0).is_ok();
        prove!(is_cleared);
        self.first = play(&self.keys, &mut self.nodes, streams);
        self.streams = streams;
    }

    /// The stream whose key is the least; one of them where several have it.
    #[inline]
    pub fn first(&self) -> usize
        requires some { 1 ≤ length self.now.keys }
        ensures first { result ≡ self.now.first }
        ensures least { IsLeast self.now.keys result }
    {
        self.first as usize
    }

    /// The key of a stream.
    #[inline]
    pub fn key(&self, stream: usize) -> u64
        requires { stream < length self.now.keys }
        ensures { result ≡ number_at self.now.keys stream }
    {
        self.keys[stream]
    }

    /// Gives the first stream another key. Which stream is first then, `first` says.
    #[inline]
    pub fn replace(&mut self, key: u64)
        requires some { 1 ≤ length self.old.keys }
        ensures keys { self.new.keys ≡ slice_set self.old.keys self.old.first key }
        ensures room { self.new.room ≡ self.old.room }
    {
        self.first = replay(&mut self.keys, &mut self.nodes, self.first, key);
    }
}
