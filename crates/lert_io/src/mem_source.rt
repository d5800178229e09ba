//! A source in memory, whose calls fail where a list says so.

ghost use Rattle.std.specs.Prelude.{◌≡◌, ◌↔◌, ℕ, ◌+◌, ◌<◌, ◌≤◌, List, Some, min, length, take, drop, IfOk, OnErr, IsErr, Contains};
ghost use Rattle.lert_io.specs.Fault.{HasCause};
ghost use Rattle.lert_io.specs.Reading.{HandsOut};

use crate::call_list::CallList;
use crate::copy::copy_front;
use crate::faulty::{Failed, Faulty, OutOfMemory};
use crate::source::Source;
use std::alloc::Global;
use std::marker::Model;

/// Bytes that are read to their end, and the calls that fail on the way.
#[derive(Drop)]
pub struct MemSource {
    bytes: Vec<u8>,
    at: usize,
    fails: CallList,
    calls: u64,
    faults: u64,
    mark: u64,
}

impl Model for MemSource {
    ghost use Rattle.std.specs.Prelude.{◌≤◌, drop, length};
    ghost use Rattle.lert_io.specs.Memory.{Feeding};

    ghost Value = { Feeding };

    ghost view = { λ s. record { left = drop s.at s.bytes.items; fails = s.fails; calls = s.calls; faults = s.faults; mark = s.mark } };

    ghost invariant = { λ s. s.at ≤ length s.bytes.items };
}

impl MemSource {
    /// A source of these bytes, with mark 0, whose calls with these numbers, from 1, fail.
    pub fn new(alloc: Global, bytes: &[u8], fails: &CallList) -> Result<MemSource, OutOfMemory>
        ensures { IfOk result (λ source. source ≡
            record { left = bytes.now; fails = fails.now; calls = 0; faults = 0; mark = 0 }) }
    {
        Ok(MemSource {
            bytes: Vec::from_slice(alloc, bytes)?,
            at: 0,
            fails: fails.copied(alloc)?,
            calls: 0,
            faults: 0,
            mark: 0,
        })
    }

    /// The source with this mark.
    pub fn marked(mut self, mark: u64) -> MemSource
        ensures { result ≡ record self { mark = mark } }
    {
        self.mark = mark;
        self
    }

    /// The same source in memory of its own.
    pub fn copied(&self, alloc: Global) -> Result<MemSource, OutOfMemory>
        ensures { IfOk result (λ source. source ≡ self.now) }
    {
        Ok(MemSource {
            bytes: Vec::from_slice(alloc, &self.bytes[self.at..])?,
            at: 0,
            fails: self.fails.copied(alloc)?,
            calls: self.calls,
            faults: self.faults,
            mark: self.mark,
        })
    }
}

impl Faulty for MemSource {
    ghost faults = { λ s. s.faults };

    ghost mark = { λ s. s.mark };
}

impl Source for MemSource {
    ghost use Rattle.std.specs.Prelude.{Some};

    ghost remaining = { λ s. Some s.left };

    /// Fails exactly where the number of the call is listed, and else hands out as many bytes as `into`
    /// has room for.
    fn read(&mut self, into: &mut [u8]) -> Result<usize, Failed>
        requires { 0 < length into.old }
        ensures within { IfOk result (λ count. count ≤ length into.new) }
        ensures told { (bytes : List ℕ) → Some self.old.left ≡ Some bytes → IfOk result (λ count. HandsOut count into.new bytes (Some self.new.left)) }
        ensures refused { OnErr result (self.new.left ≡ self.old.left) }
        ensures number { self.new.calls ≡ min (self.old.calls + 1) 18446744073709551615 }
        ensures fails { IsErr result ↔ Contains self.old.fails self.new.calls }
        ensures fed { IfOk result (λ count. count ≡ min (length self.old.left) (length into.new)) }
        ensures copied { IfOk result (λ count. take count into.new ≡ take count self.old.left) }
        ensures rest { IfOk result (λ count. self.new ≡ record self.old { left = drop count self.old.left; calls = self.new.calls }) }
        ensures failed { OnErr result (self.new ≡ record self.old {
          calls = self.new.calls;
          faults = min (self.old.faults + 1) 18446744073709551615;
        }) }
        ensures cause { HasCause self.old.faults self.new.faults result }
        ensures mark { self.new.mark ≡ self.old.mark }
    {
        self.calls = self.calls.saturating_add(1);
        if self.fails.contains(self.calls) {
            self.faults = self.faults.saturating_add(1);
            return Err(Failed);
        }
        let count = copy_front(&self.bytes[self.at..], into);
        self.at += count;
        Ok(count)
    }
}
