//! The sorted list.

ghost use Rattle.std.specs.Prelude.{◌≡◌, ℕ, ◌+◌, ◌<◌, ◌≤◌, length, MatchResult};
ghost use Rattle.lert_plain.specs.Place.{IsPresent, IsAbsent};
ghost use Rattle.lert_spec.specs.Table.{AscendsFrom};

use lert_base::{CountTable, Piece};
use lert_io::OutOfMemory;
use std::alloc::Global;
use std::marker::Model;

/// Counts of tails in a sorted list. The list never grows beyond the memory that `new` took: 16 bytes an add.
#[derive(Drop)]
pub struct PlainTable {
    pieces: Vec<Piece>,
    adds: u64,
    room: u64,
    quotient_bits: u32,
    width: u32,
}

impl Model for PlainTable {
    ghost use Rattle.std.specs.Prelude.{◌≤◌, ◌≡◌, ◌+◌, ◌^◌, vec_capacity};
    ghost use Rattle.lert_plain.specs.Contents.{Contents, IsKept};

    ghost Value = { Contents };

    ghost view = { λ t. record {
      pieces = t.pieces.items;
      adds = t.adds;
      room = t.room;
      quotient_bits = t.quotient_bits;
      width = t.width;
    } };

    ghost invariant = { λ t. IsKept t.pieces.items t.adds t.room (t.quotient_bits + t.width) (vec_capacity t.pieces) };
}

/// A place in a `PlainTable`.
#[derive(Clone, Copy, Debug)]
pub struct PlainCursor {
    at: usize,
}

/// Where `tail` stands, or where it belongs.
fn place_of(pieces: &[Piece], tail: u64) -> Result<usize, usize>
    requires { (least : ℕ) × (limit : ℕ) × AscendsFrom least limit pieces.now }
    ensures { MatchResult result (IsPresent pieces.now tail) (IsAbsent pieces.now tail) }
{
    let mut low = 0;
    let mut high = pieces.len();
    while low < high {
        let middle = low + (high - low) / 2;
        if pieces[middle].tail < tail {
            low = middle + 1;
        } else {
            high = middle;
        }
    }
    if low < pieces.len() && pieces[low].tail == tail {
        Ok(low)
    } else {
        Err(low)
    }
}

impl CountTable for PlainTable {
    type Cursor = PlainCursor;

    ghost use Rattle.std.specs.Prelude.{drop};

    ghost pieces = { λ t. t.pieces };

    ghost adds = { λ t. t.adds };

    ghost room = { λ t. t.room };

    ghost quotient_bits = { λ t. t.quotient_bits };

    ghost width = { λ t. t.width };

    ghost stands = { λ t c. Unit {0} };

    ghost left = { λ t c. drop c.at t.pieces };

    fn new(alloc: Global, quotient: u32, remainder: u32, events: u64) -> Result<Self, OutOfMemory> {
        let pieces = Vec::with_capacity(alloc, events as usize)?;
        Ok(PlainTable {
            pieces,
            adds: 0,
            room: events,
            quotient_bits: quotient,
            width: remainder,
        })
    }

    fn add(&mut self, tail: u64, n: u64) {
        self.adds += 1;
        match place_of(&self.pieces, tail) {
            Ok(at) => self.pieces[at].count += n,
            Err(at) => {
                // `new` reserved a place for every add.
                let inserted = self.pieces.insert(at, Piece { tail, count: n }).is_ok();
                prove!(inserted);
            }
        }
    }

    fn count(&self, tail: u64) -> u64 {
        match place_of(&self.pieces, tail) {
            Ok(at) => self.pieces[at].count,
            Err(_) => 0,
        }
    }

    fn adds(&self) -> u64 {
        self.adds
    }

    fn clear(&mut self) {
        self.pieces.clear();
        self.adds = 0;
    }

    fn start(&self) -> PlainCursor {
        let _ = &self.pieces;
        PlainCursor { at: 0 }
    }

    fn step(&self, cursor: &mut PlainCursor) -> Option<Piece> {
        let piece = self.pieces.get(cursor.at).copied()?;
        cursor.at += 1;
        Some(piece)
    }
}
