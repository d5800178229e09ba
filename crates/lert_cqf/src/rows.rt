//! The rows of a table.
//!
//! Beside the slots, the occupied quotients and the run ends stand two rows that no layout shows: which cells
//! are used, and for each quotient how far the runs below it reach past its home. So a run is found with no
//! counting of bits, and the first free cell behind a place by a scan of words.

ghost use Rattle.std.specs.Prelude.{◌≡◌, ◌≢◌, ◌+◌, ◌-◌, ◌^◌, ◌<◌, ◌≤◌, true, false, length, replicate, slice_index, slice_index_or, take, drop, IfOk};

use crate::cells::clear_first;
use crate::spill::Spill;
use lert_io::OutOfMemory;
use lert_slotbits::Bits;
use std::alloc::Global;

/// The rows of a table.
#[derive(Drop)]
pub struct Rows {
    pub slots: Vec<u64>,
    pub occupied: Bits,
    pub run_ends: Bits,
    pub used: Bits,
    pub spill: Spill,
}

impl Rows {
    /// Empty rows for so many homes and slots.
    pub fn new(alloc: Global, homes: u64, slots: u64) -> Result<Rows, OutOfMemory>
        requires { homes < 2 ^ 63 }
        ensures slots { IfOk result (λ r. r.slots.items ≡ replicate slots 0) }
        ensures occupied { IfOk result (λ r. r.occupied ≡ replicate homes false) }
        ensures run_ends { IfOk result (λ r. r.run_ends ≡ replicate slots false) }
        ensures used { IfOk result (λ r. r.used ≡ replicate slots false) }
        ensures spill { IfOk result (λ r. r.spill ≡ replicate (homes + 1) 0) }
    {
        Ok(Rows {
            slots: vec![in alloc; 0; slots as usize]?,
            occupied: Bits::new(alloc, homes)?,
            run_ends: Bits::new(alloc, slots)?,
            used: Bits::new(alloc, slots)?,
            spill: Spill::new(alloc, homes as usize + 1)?,
        })
    }

    /// Where the runs below `home` end, or `home` itself behind them.
    pub fn start(&self, home: u64) -> u64
        requires within { home < length self.now.spill }
        requires fits { home + slice_index self.now.spill home < 2 ^ 64 }
        ensures { result ≡ home + slice_index self.now.spill home }
    {
        home + self.spill.get(home as usize)
    }

    /// Whether `x` stands in the slot `at`, and a run of `home` does, as 1 or 0.
    pub fn count_first(&self, home: u64, at: u64, x: u64) -> u64
        requires home { home < length self.now.occupied }
        requires at { at < length self.now.slots.items }
        ensures small { result ≤ 1 }
        ensures vacant { slice_index_or self.now.occupied home false ≡ false → result ≡ 0 }
        ensures other { slice_index self.now.slots.items at ≢ x → result ≡ 0 }
        ensures here { slice_index_or self.now.occupied home false ≡ true
            → slice_index self.now.slots.items at ≡ x → result ≡ 1 }
    {
        u64::from(self.occupied.get(home) & (self.slots[at as usize] == x))
    }

    /// Whether `x` stands in the slot before `end`, and that isn't `at`, as 1 or 0.
    pub fn count_second(&self, at: u64, end: u64, x: u64) -> u64
        requires some { 0 < end }
        requires at { at < length self.now.slots.items }
        requires end { end ≤ length self.now.slots.items }
        ensures small { result ≤ 1 }
        ensures none { end ≤ at + 1 → result ≡ 0 }
        ensures other { slice_index self.now.slots.items (end - 1) ≢ x → result ≡ 0 }
        ensures here { at + 1 < end → slice_index self.now.slots.items (end - 1) ≡ x → result ≡ 1 }
    {
        let last = at.max(end - 1);
        u64::from((at < last) & (self.slots[last as usize] == x))
    }

    /// The slots `at..end`.
    pub fn part(&self, at: u64, end: u64) -> &[u64]
        requires order { at ≤ end }
        requires within { end ≤ length self.now.slots.items }
        ensures { result.now ≡ take (end - at) (drop at self.now.slots.items) }
    {
        &self.slots[at as usize..end as usize]
    }

    /// Empties all rows, where no run reaches past `end`.
    pub fn clear(&mut self, end: u64)
        requires within { end ≤ length self.old.slots.items }
        requires past { drop end self.old.slots.items ≡ replicate (length self.old.slots.items - end) 0 }
        ensures slots { self.new.slots.items ≡ replicate (length self.old.slots.items) 0 }
        ensures occupied { self.new.occupied ≡ replicate (length self.old.occupied) false }
        ensures run_ends { self.new.run_ends ≡ replicate (length self.old.run_ends) false }
        ensures used { self.new.used ≡ replicate (length self.old.used) false }
        ensures spill { self.new.spill ≡ replicate (length self.old.spill) 0 }
    {
        clear_first(&mut self.slots, end as usize);
        self.occupied.clear();
        self.run_ends.clear();
        self.used.clear();
        self.spill.clear();
    }
}
