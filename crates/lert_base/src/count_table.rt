//! Count tables: what was added to each tail, in ascending tails.

ghost use Rattle.std.specs.Prelude.{◌≡◌, ℕ, ◌+◌, ◌-◌, ◌*◌, ◌^◌, ◌<◌, ◌≤◌, ◌↔◌, List, [], ◌∷◌, IfOk, MatchOption, IsNone};
ghost use Rattle.lert_spec.specs.Table.{costs, count_of, total, plus, IsTable};
ghost use Rattle.lert_spec.specs.declared.piece.Piece.{Piece};

use lert_io::OutOfMemory;
use lert_spec::Piece;
use std::alloc::Global;

/// A table of counts, seen as its pieces in ascending tails, how often something was added, and a room: how often that
/// may be.
///
/// Only `new` takes memory.
pub trait CountTable: Drop {
    /// A place between two pieces of a table.
    type Cursor: Drop;

    /// The pieces, a count table.
    ghost pieces: { Self → List Piece };

    /// How often something was added since the table was made or emptied.
    ghost adds: { Self → ℕ };

    /// And how often it may be.
    ghost room: { Self → ℕ };

    /// A tail's quotient has so many bits.
    ghost quotient_bits: { Self → ℕ };

    /// And its remainder so many.
    ghost width: { Self → ℕ };

    /// The cursor was started on this table, and the table is as it was then.
    ghost stands: { Self → Self.Cursor → Type 0 };

    /// The pieces that the cursor has still to give.
    ghost left: { Self → Self.Cursor → List Piece };

    /// An empty table for `events` adds, of tails with `quotient` bits above the last `remainder` bits.
    fn new(alloc: Global, quotient: u32, remainder: u32, events: u64) -> Result<Self, OutOfMemory>
        requires least_quotient { 6 ≤ quotient }
        requires most_quotient { quotient ≤ 39 }
        requires least_width { 8 ≤ remainder }
        requires most_width { remainder ≤ 58 }
        requires events { events ≤ 2 ^ 39 }
        ensures empty { IfOk result (λ t. pieces t ≡ []) }
        ensures adds { IfOk result (λ t. adds t ≡ 0) }
        ensures room { IfOk result (λ t. room t ≡ events) }
        ensures quotient_bits { IfOk result (λ t. quotient_bits t ≡ quotient) }
        ensures width { IfOk result (λ t. width t ≡ remainder) };

    /// Raises the count of `tail` by `n`: one add, whatever `n` is.
    fn add(&mut self, tail: u64, n: u64)
        requires some { 1 ≤ n }
        requires few { n ≤ 255 }
        requires has_room { adds self.old < room self.old }
        requires below { tail < 2 ^ (quotient_bits self.old + width self.old) }
        ensures pieces { pieces self.new ≡ plus (pieces self.old) tail n }
        ensures adds { adds self.new ≡ adds self.old + 1 }
        ensures room { room self.new ≡ room self.old }
        ensures quotient_bits { quotient_bits self.new ≡ quotient_bits self.old }
        ensures width { width self.new ≡ width self.old };

    /// What was added to `tail` in all, 0 where it is absent.
    fn count(&self, tail: u64) -> u64
        ensures { result ≡ count_of (pieces self.now) tail };

    /// How often something was added: no more than the counts together, and a 255th of them at least.
    fn adds(&self) -> u64
        ensures value { result ≡ adds self.now }
        ensures in_room { result ≤ room self.now }
        ensures costs { costs 2 (pieces self.now) ≤ result }
        ensures least { result ≤ total (pieces self.now) }
        ensures most { total (pieces self.now) ≤ 255 * result };

    /// Empties the table. Its room and the bits of its tails stay.
    fn clear(&mut self)
        ensures pieces { pieces self.new ≡ [] }
        ensures adds { adds self.new ≡ 0 }
        ensures room { room self.new ≡ room self.old }
        ensures quotient_bits { quotient_bits self.new ≡ quotient_bits self.old }
        ensures width { width self.new ≡ width self.old };

    /// A cursor before the first piece.
    fn start(&self) -> Self::Cursor
        ensures stands { stands self.now result }
        ensures left { left self.now result ≡ pieces self.now }
        ensures ascending { IsTable (2 ^ (quotient_bits self.now + width self.now)) (pieces self.now) };

    /// The next piece in ascending tails.
    fn step(&self, cursor: &mut Self::Cursor) -> Option<Piece>
        requires { stands self.now cursor.old }
        ensures stands { stands self.now cursor.new }
        ensures next { MatchOption result
            (left self.now cursor.old ≡ [])
            (λ p. left self.now cursor.old ≡ p ∷ left self.now cursor.new) }
        ensures end { IsNone result → left self.now cursor.new ≡ [] };
}
