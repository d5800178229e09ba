//! One filter and the tails that it takes.

ghost use Rattle.std.specs.Prelude.{◌≡◌, ◌+◌, ◌^◌, ◌<◌, ◌≤◌, ◌↔◌, [], IfOk, IsTrue};
ghost use Rattle.lert_spec.specs.Table.{count_of, total, plus};

use lert_base::CountTable;
use lert_cqf::Cqf;
use lert_io::OutOfMemory;
use std::alloc::Global;
use std::marker::Model;

/// The numbers of a filter.
#[derive(Clone, Copy)]
pub struct Shape {
    pub quotient_bits: u32,
    pub width: u32,
    /// The events that it has room for.
    pub room: u64,
    /// The greatest tail.
    pub greatest: u64,
    ghost quotients: { (6 ≤ quotient_bits) × (quotient_bits ≤ 39) },
    ghost widths: { (8 ≤ width) × (width ≤ 58) },
    ghost small: { (1 ≤ room) × (room ≤ 2 ^ 39) },
    ghost tails: { greatest < 2 ^ (quotient_bits + width) },
}

/// A filter that takes tails while it has room.
#[derive(Drop)]
pub struct Bin {
    shape: Shape,
    table: Cqf,
}

impl Model for Bin {
    ghost use Rattle.std.specs.Prelude.{◌≡◌, ◌+◌};
    ghost use Rattle.lert_spec.specs.Table.{total};
    ghost use Rattle.lert_bench.specs.Filled.{Filled};

    ghost Value = { Filled };

    ghost view = { λ b. record { pieces = b.table.pieces; room = b.shape.room; greatest = b.shape.greatest } };

    ghost invariant = { λ b. (b.table.room ≡ b.shape.room)
        × (b.table.adds ≡ total b.table.pieces)
        × (b.table.quotient_bits + b.table.width ≡ b.shape.quotient_bits + b.shape.width) };
}

impl Bin {
    /// An empty filter.
    pub fn new(alloc: Global, shape: Shape) -> Result<Bin, OutOfMemory>
        ensures { IfOk result (λ b. b ≡ record { pieces = []; room = shape.room; greatest = shape.greatest }) }
    {
        let table = Cqf::new(alloc, shape.quotient_bits, shape.width, shape.room)?;
        Ok(Bin { shape, table })
    }

    /// A filter that has the tails, as far as there is room.
    pub fn with(alloc: Global, shape: Shape, tails: &[u64]) -> Result<Bin, OutOfMemory> {
        let mut bin = Bin::new(alloc, shape)?;
        for tail in tails {
            bin.add(*tail);
        }
        Ok(bin)
    }

    /// Whether it has room for no more event.
    pub fn is_full(&self) -> bool
        ensures { IsTrue result ↔ (self.now.room ≤ total self.now.pieces) }
    {
        self.table.adds() >= self.shape.room
    }

    /// Counts one event of the tail, if there is room and the tail isn't too great.
    pub fn add(&mut self, tail: u64)
        ensures taken { tail ≤ self.old.greatest → total self.old.pieces < self.old.room
            → self.new ≡ record self.old { pieces = plus self.old.pieces tail 1 } }
        ensures great { self.old.greatest < tail → self.new ≡ self.old }
        ensures full { self.old.room ≤ total self.old.pieces → self.new ≡ self.old }
    {
        if tail > self.shape.greatest {
            return;
        }
        if self.table.adds() >= self.shape.room {
            return;
        }
        self.table.add(tail, 1);
    }

    /// How often the tail was added.
    pub fn count(&self, tail: u64) -> u64
        ensures { result ≡ count_of self.now.pieces tail }
    {
        self.table.count(tail)
    }

    /// Empties it.
    pub fn clear(&mut self)
        ensures { self.new ≡ record self.old { pieces = [] } }
    {
        self.table.clear();
    }
}
