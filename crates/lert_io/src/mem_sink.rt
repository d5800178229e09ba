//! A sink in memory with a bounded room, whose calls fail where a list says so.

ghost use Rattle.std.specs.Prelude.{◌≡◌, ◌↔◌, ℕ, ◌+◌, ◌-◌, ◌<◌, ◌≤◌, List, ◌++◌, ◌⊎◌, [], Some, min, length, take, IfOk, OnErr, IsErr, Contains};
ghost use Rattle.lert_io.specs.Fault.{HasCause};

use crate::call_list::CallList;
use crate::faulty::{Failed, Faulty, OutOfMemory};
use crate::sink::Sink;
use std::alloc::Global;
use std::marker::Model;

/// The bytes that were written, up to a room, and the calls that fail on the way.
#[derive(Drop)]
pub struct MemSink {
    bytes: Vec<u8>,
    room: u64,
    fails: CallList,
    calls: u64,
    faults: u64,
}

impl Model for MemSink {
    ghost use Rattle.std.specs.Prelude.{◌≤◌};
    ghost use Rattle.std.specs.Vec.{vec_capacity, vec_len};
    ghost use Rattle.lert_io.specs.Memory.{Filling};

    ghost Value = { Filling };

    ghost view = { λ s. record { taken = s.bytes.items; room = s.room; fails = s.fails; calls = s.calls; faults = s.faults } };

    ghost invariant = { λ s. (vec_len s.bytes ≤ s.room) × (s.room ≤ vec_capacity s.bytes) };
}

impl MemSink {
    /// An empty sink that takes `room` bytes in all, whose calls with these numbers, from 1, fail. All
    /// its memory is taken here.
    pub fn new(alloc: Global, room: u64, fails: &CallList) -> Result<MemSink, OutOfMemory>
        ensures { IfOk result (λ sink. sink ≡
            record { taken = []; room = room; fails = fails.now; calls = 0; faults = 0 }) }
    {
        Ok(MemSink {
            bytes: Vec::with_capacity(alloc, room as usize)?,
            room,
            fails: fails.copied(alloc)?,
            calls: 0,
            faults: 0,
        })
    }

    /// The bytes that it took.
    pub fn bytes(&self) -> &[u8]
        ensures { result.now ≡ self.now.taken }
    {
        self.bytes.as_slice()
    }
}

impl Faulty for MemSink {
    ghost faults = { λ s. s.faults };

    ghost mark = { λ _. 0 };
}

impl Sink for MemSink {
    ghost use Rattle.std.specs.Prelude.{Some};

    ghost taken = { λ s. Some s.taken };

    /// Fails exactly where the number of the call is listed or the sink is full, and else takes as many
    /// bytes as it has room for.
    fn write(&mut self, bytes: &[u8]) -> Result<usize, Failed>
        requires { 0 < length bytes.now }
        ensures some { IfOk result (λ count. 0 < count) }
        ensures told { (before : List ℕ) → Some self.old.taken ≡ Some before → IfOk result (λ count. Some self.new.taken ≡ Some (before ++ take count bytes.now)) }
        ensures refused { OnErr result (self.new.taken ≡ self.old.taken) }
        ensures number { self.new.calls ≡ min (self.old.calls + 1) 18446744073709551615 }
        ensures fails { IsErr result ↔ (Contains self.old.fails self.new.calls ⊎ (self.old.room ≤ length self.old.taken)) }
        ensures count { IfOk result (λ count. count ≡ min (length bytes.now) (self.old.room - length self.old.taken)) }
        ensures filled { IfOk result (λ count. self.new ≡
            record self.old { taken = self.old.taken ++ take count bytes.now; calls = self.new.calls }) }
        ensures failed { OnErr result (self.new ≡ record self.old {
          calls = self.new.calls;
          faults = min (self.old.faults + 1) 18446744073709551615;
        }) }
        ensures cause { HasCause self.old.faults self.new.faults result }
    {
        self.calls = self.calls.saturating_add(1);
        let left = self.room as usize - self.bytes.len();
        if left == 0 || self.fails.contains(self.calls) {
            self.faults = self.faults.saturating_add(1);
            return Err(Failed);
        }
        let count = bytes.len().min(left);
        self.bytes.extend_from_slice(&bytes[..count]).unwrap();
        Ok(count)
    }
}
