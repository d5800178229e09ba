//! Two sources for two threads, whose first reads wait for each other.

ghost use Rattle.std.specs.Prelude.{◌≡◌, ◌+◌, ◌<◌, ◌≤◌, ℕ, List, None, Some, true, false, min, length, take, drop, IfOk, IsErr, OnErr};
ghost use Rattle.lert_io.specs.Fault.{HasCause};
ghost use Rattle.lert_io.specs.Reading.{HandsOut};

use crate::copy::copy_front;
use crate::faulty::{Failed, Faulty, OutOfMemory};
use crate::source::Source;
use std::alloc::Global;
use std::marker::Model;
use std::sync::Arc;
use std::sync::atomic::{AtomicU64, Ordering};
use std::thread::yield_now;

// That the first read of each was begun: 1, and 0 before.
#[derive(Drop)]
struct Flags {
    first: AtomicU64,
    second: AtomicU64,
}

/// One of two sources that show that two threads ran at once: the first read of each sets a flag, and fails where it
/// doesn't find the other one's set in time. It has bytes, which it doesn't tell.
#[derive(Drop)]
pub struct PairedSource {
    bytes: Vec<u8>,
    at: usize,
    flags: Arc<Flags, Global>,
    is_first: bool,
    cut: usize,
    turns: u64,
    begun: bool,
    faults: u64,
    mark: u64,
}

impl Model for PairedSource {
    ghost use Rattle.std.specs.Prelude.{◌≤◌, drop, length};
    ghost use Rattle.lert_io.specs.Memory.{Pairing};

    ghost Value = { Pairing };

    ghost view = { λ s. record { left = drop s.at s.bytes.items; cut = s.cut; begun = s.begun; faults = s.faults; mark = s.mark } };

    ghost invariant = { λ s. (s.at ≤ length s.bytes.items) × (1 ≤ s.cut) };
}

impl PairedSource {
    /// Two sources of these bytes, with mark 0. The first read of each looks for the other one's at most `turns` times, and
    /// then gives at most `cut` bytes, 1 at least.
    pub fn pair(
        alloc: Global,
        first: &[u8],
        second: &[u8],
        cut: usize,
        turns: u64,
    ) -> Result<(PairedSource, PairedSource), OutOfMemory>
        requires { 1 ≤ cut }
        ensures first { IfOk result (λ pair. pair.0 ≡ record { left = first.now; cut = cut; begun = false; faults = 0; mark = 0 }) }
        ensures second { IfOk result (λ pair. pair.1 ≡ record { left = second.now; cut = cut; begun = false; faults = 0; mark = 0 }) }
    {
        let flags = Arc::new(
            alloc,
            Flags {
                first: AtomicU64::new(0),
                second: AtomicU64::new(0),
            },
        )?;
        let theirs = Arc::try_clone(&flags)?;
        Ok((
            PairedSource {
                bytes: Vec::from_slice(alloc, first)?,
                at: 0,
                flags,
                is_first: true,
                cut,
                turns,
                begun: false,
                faults: 0,
                mark: 0,
            },
            PairedSource {
                bytes: Vec::from_slice(alloc, second)?,
                at: 0,
                flags: theirs,
                is_first: false,
                cut,
                turns,
                begun: false,
                faults: 0,
                mark: 0,
            },
        ))
    }

    /// The source with this mark.
    pub fn marked(mut self, mark: u64) -> PairedSource
        ensures { result ≡ record self { mark = mark } }
    {
        self.mark = mark;
        self
    }

    // Sets its own flag, and looks for the other one.
    fn meets(&self) -> bool {
        if self.is_first {
            self.flags.first.store(1, Ordering::SeqCst);
            return is_set(&self.flags.second, self.turns);
        }
        self.flags.second.store(1, Ordering::SeqCst);
        is_set(&self.flags.first, self.turns)
    }

    // The next bytes, at most so many.
    fn hand_out(&mut self, most: usize, into: &mut [u8]) -> usize
        ensures count { result ≡ min (min (length self.old.left) most) (length into.new) }
        ensures room { length into.new ≡ length into.old }
        ensures copied { take result into.new ≡ take result self.old.left }
        ensures rest { self.new ≡ record self.old { left = drop result self.old.left } }
    {
        let left = &self.bytes[self.at..];
        let given = &left[..left.len().min(most)];
        let count = copy_front(given, into);
        self.at += count;
        count
    }
}

// Whether a flag is found set within so many looks.
fn is_set(flag: &AtomicU64, turns: u64) -> bool {
    for _ in 0..turns {
        if flag.load(Ordering::SeqCst) != 0 {
            return true;
        }
        yield_now();
    }
    false
}

impl Faulty for PairedSource {
    ghost faults = { λ s. s.faults };

    ghost mark = { λ s. s.mark };
}

impl Source for PairedSource {
    ghost use Rattle.std.specs.Prelude.{None};

    ghost remaining = { λ _. None };

    /// The first read fails where the other source's was not begun in time, and gives at most `cut` bytes else. Every other
    /// read hands out as many bytes as `into` has room for.
    fn read(&mut self, into: &mut [u8]) -> Result<usize, Failed>
        requires { 0 < length into.old }
        ensures within { IfOk result (λ count. count ≤ length into.new) }
        ensures told { (bytes : List ℕ) → None ≡ Some bytes → IfOk result (λ count. HandsOut count into.new bytes None) }
        ensures begun { self.new.begun ≡ true }
        ensures first { IfOk result (λ count. self.old.begun ≡ false → count ≡ min (min (length self.old.left) self.old.cut) (length into.new)) }
        ensures later { IfOk result (λ count. self.old.begun ≡ true → count ≡ min (length self.old.left) (length into.new)) }
        ensures copied { IfOk result (λ count. take count into.new ≡ take count self.old.left) }
        ensures rest { IfOk result (λ count. self.new ≡ record self.old { left = drop count self.old.left; begun = true }) }
        ensures refused { IsErr result → self.old.begun ≡ false }
        ensures failed { OnErr result (self.new ≡ record self.old { begun = true; faults = min (self.old.faults + 1) 18446744073709551615 }) }
        ensures cause { HasCause self.old.faults self.new.faults result }
        ensures mark { self.new.mark ≡ self.old.mark }
    {
        if self.begun {
            return Ok(self.hand_out(usize::MAX, into));
        }
        self.begun = true;
        if !self.meets() {
            self.faults = self.faults.saturating_add(1);
            return Err(Failed);
        }
        Ok(self.hand_out(self.cut, into))
    }
}
