//! The table.

ghost use Rattle.std.specs.Prelude.{◌≡◌, ℕ, ◌+◌, ◌*◌, ◌/◌, ◌%◌, ◌^◌, ◌<◌, ◌≤◌, List, [], Bool, true, false, drop, length};
ghost use Rattle.lert_cqf.specs.Layout.{layout};
ghost use Rattle.lert_cqf.specs.Standing.{Stands, IsInRun};
ghost use Rattle.lert_runs.specs.RunText.{IsTextOf, count_in};

use crate::cursor::CqfCursor;
use crate::rows::Rows;
use lert_base::CountTable;
use lert_counter::scan_group;
use lert_io::{OutOfMemory, Seen};
use lert_runs::{count_above_all, find};
use lert_slotbits::Bits;
use lert_spec::Piece;
use std::alloc::Global;
use std::marker::Model;

/// More slots than a spill can count.
const TOO_MANY_SLOTS: u64 = (1 << 32) - 1;

/// A remainder above all counts is looked for in so many slots one by one, and in more by halves.
const FEW_SLOTS: u64 = 64;

/// A counting quotient filter: the counts of tails, in `2^q + 4 * events` slots, where `events` adds have room.
///
/// Beside the slots it takes four bytes and two bits for each quotient, and two bits for each slot.
#[derive(Drop)]
pub struct Cqf {
    rows: Rows,
    quotient_bits: u32,
    width: u32,
    adds: u64,
    // All counts together.
    sum: u64,
    room: u64,
    // Every add since the last `clear`, which contracts alone see.
    added: Seen<Piece>,
}

impl Model for Cqf {
    ghost use Rattle.std.specs.Prelude.{◌≡◌};
    ghost use Rattle.lert_spec.specs.Table.{total};
    ghost use Rattle.lert_cqf.specs.Contents.{Contents, built, IsKept};

    ghost Value = { Contents };

    ghost view = { λ t. record {
      pieces = built t.added;
      adds = t.adds;
      room = t.room;
      quotient_bits = t.quotient_bits;
      width = t.width;
    } };

    ghost invariant = { λ t. IsKept (built t.added) t.quotient_bits t.width t.adds t.room
        t.rows.slots.items t.rows.occupied t.rows.run_ends t.rows.used t.rows.spill
        × (t.sum ≡ total (built t.added)) };
}

impl Cqf {
    /// The slots, with 0 where no run stands.
    pub fn slots(&self) -> &[u64]
        ensures laid { result.now ≡
            (layout self.now.quotient_bits self.now.width self.now.room self.now.pieces).slots }
        ensures count { length result.now ≡ 2 ^ self.now.quotient_bits + 4 * self.now.room }
    {
        &self.rows.slots
    }

    /// The quotients that occur.
    pub fn occupied(&self) -> &Bits
        ensures laid { result.now ≡
            (layout self.now.quotient_bits self.now.width self.now.room self.now.pieces).occupied }
        ensures count { length result.now ≡ 2 ^ self.now.quotient_bits }
    {
        &self.rows.occupied
    }

    /// The last slot of each run.
    pub fn run_ends(&self) -> &Bits
        ensures laid { result.now ≡
            (layout self.now.quotient_bits self.now.width self.now.room self.now.pieces).run_ends }
        ensures count { length result.now ≡ 2 ^ self.now.quotient_bits + 4 * self.now.room }
    {
        &self.rows.run_ends
    }
}

impl Cqf {
    /// The quotient and the remainder of a tail.
    fn parts(&self, tail: u64) -> (u64, u64)
        ensures quotient { result.0 ≡ tail / 2 ^ self.now.width }
        ensures remainder { result.1 ≡ tail % 2 ^ self.now.width }
    {
        (tail >> self.width, tail & ((1u64 << self.width) - 1))
    }

    /// Moves a cursor that stands at a run's end to the next run, if there is one.
    fn enter(&self, cursor: &mut CqfCursor) -> bool
        requires { Stands self.now cursor.old }
        ensures entered { result ≡ true → IsInRun self.now cursor.new × (cursor.new.at < cursor.new.end) }
        ensures given { cursor.new.given ≡ cursor.old.given }
        ensures over { result ≡ false → (cursor.new ≡ cursor.old) × (drop cursor.old.given self.now.pieces ≡ []) }
    {
        if cursor.at < cursor.end {
            return true;
        }
        let Some(home) = self.rows.occupied.next_true(cursor.next) else {
            return false;
        };
        cursor.next = home + 1;
        cursor.at = self.rows.start(home);
        cursor.end = self.rows.start(home + 1);
        true
    }
}

/// How often `x` stands in a run text. It is seldom asked, and a function of its own, so that the place that `find`
/// fills in memory costs no other count.
#[inline(never)]
fn count_by_place(width: u32, run: &[u64], x: u64) -> u64
    requires narrow { 8 ≤ width }
    requires wide { width ≤ 62 }
    requires run_text { (ps : List (ℕ × ℕ)) × IsTextOf width run.now ps }
    ensures { (ps : List (ℕ × ℕ)) → IsTextOf width run.now ps → result ≡ count_in ps x }
{
    find(width, run, x).count
}

impl CountTable for Cqf {
    type Cursor = CqfCursor;

    ghost use Rattle.std.specs.Prelude.{drop, ◌+◌};
    ghost use Rattle.lert_cqf.specs.Standing.{Stands};

    ghost pieces = { λ t. t.pieces };

    ghost adds = { λ t. t.adds };

    ghost room = { λ t. t.room };

    ghost quotient_bits = { λ t. t.quotient_bits };

    ghost width = { λ t. t.width };

    ghost stands = { λ t c. Stands t c };

    ghost left = { λ t c. drop c.given t.pieces };

    fn new(alloc: Global, quotient: u32, remainder: u32, events: u64) -> Result<Self, OutOfMemory> {
        let homes = 1u64 << quotient;
        let slots = homes + 4 * events;
        if slots >= TOO_MANY_SLOTS {
            return Err(OutOfMemory);
        }
        let rows = Rows::new(alloc, homes, slots)?;
        Ok(Cqf {
            rows,
            quotient_bits: quotient,
            width: remainder,
            adds: 0,
            sum: 0,
            room: events,
            added: Seen::new(),
        })
    }

    /// Shifts once for each slot that a group grows by: at most nine times, and almost always once.
    fn add(&mut self, tail: u64, n: u64) {
        let (home, x) = self.parts(tail);
        self.rows.put(self.width, home, x, n);
        self.adds += 1;
        self.sum += n;
        self.added.push(&Piece { tail, count: n });
    }

    fn count(&self, tail: u64) -> u64 {
        let (home, x) = self.parts(tail);
        if home >= self.rows.occupied.len() {
            return 0;
        }
        let at = self.rows.start(home);
        let end = self.rows.start(home + 1);
        if end <= at + 2 {
            // Two slots are two remainders or one twice. No branch tells them apart, since none could be guessed.
            return self.rows.count_first(home, at, x) + self.rows.count_second(at, end, x);
        }
        let run = self.rows.part(at, end);
        if x > self.sum && end - at <= FEW_SLOTS {
            // So do nearly all remainders: no count is greater than all of them together.
            return count_above_all(run, x);
        }
        count_by_place(self.width, run, x)
    }

    fn adds(&self) -> u64 {
        self.adds
    }

    /// Writes 8 bytes for each slot up to the last run's end, which is at least one for each quotient, 4 for each
    /// quotient, and all bits.
    fn clear(&mut self) {
        let homes = self.rows.occupied.len();
        let end = self.rows.start(homes);
        self.rows.clear(end);
        self.adds = 0;
        self.sum = 0;
        self.added = Seen::new();
    }

    fn start(&self) -> CqfCursor {
        // Opens the invariant, from which the contract follows.
        let _ = &self.rows;
        CqfCursor {
            next: 0,
            at: 0,
            end: 0,
            given: 0,
        }
    }

    fn step(&self, cursor: &mut CqfCursor) -> Option<Piece> {
        if !self.enter(cursor) {
            return None;
        }
        let Some(group) = scan_group(self.width, self.rows.part(cursor.at, cursor.end)) else {
            unreachable!()
        };
        cursor.at += group.used as u64;
        cursor.given += 1;
        Some(Piece {
            tail: ((cursor.next - 1) << self.width) + group.x,
            count: group.count,
        })
    }
}
