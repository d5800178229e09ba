//! A state for tests: it counts the packets of number 0 and those of other numbers, up to a bound, and says whose state it is.

ghost use Rattle.std.specs.Prelude.{◌≡◌, ℕ, ◌+◌, ◌<◌, ◌≤◌, ◌^◌, false, None, length};
ghost use Rattle.lert_base.specs.Packet.{own};

use lert_base::{Entry, Held, KeyList};
use std::alloc::Global;
use std::process::Abort;

/// The counter stands at its bound.
#[derive(Clone, Copy, Debug, PartialEq, Eq, Drop)]
pub struct Full;

#[derive(Drop)]
pub struct Counter {
    pub name: char,
    pub zeros: u64,
    pub others: u64,
    pub room: u64,
    ghost bounded: { (zeros + others ≤ room) × (room < 2 ^ 40) },
}

impl Counter {
    pub fn new(name: char, room: u32) -> Counter
        ensures { (result.zeros ≡ 0) × (result.others ≡ 0) × (result.room ≡ room) }
    {
        Counter {
            name,
            zeros: 0,
            others: 0,
            room: room as u64,
        }
    }
}

impl Held for Counter {
    type Terms = u64;

    type Reply = u64;

    type Refusal = Full;

    ghost terms = { λ c. c.room };

    ghost stands_for = { λ c h. (length (own h 0) ≡ c.zeros) × (length h ≡ c.zeros + c.others) };

    ghost stopped = { λ _. false };

    ghost over = { λ _. None };

    ghost answers = { λ room h packet reply. reply ≡ length h + 1 };

    ghost refuses = { λ room h packet refusal. length h ≡ room };

    ghost fits = { λ room packet. Unit {0} };

    fn apply(&mut self, entry: &Entry) -> Result<u64, Full> {
        if self.zeros + self.others == self.room {
            return Err(Full);
        }
        if entry.by == 0 {
            self.zeros += 1;
        } else {
            self.others += 1;
        }
        Ok(self.zeros + self.others)
    }

    ghost use Rattle.std.proofs.Common.{arith};

    ghost short = { λ c h stands. let count = stands.1 in let bound = c.bounded in Prim.omega arith };
}

/// A packet of this number, with no key.
pub fn entry_of(rt: &impl Abort, alloc: Global, by: u32) -> Entry
    ensures { result.by ≡ by }
{
    Entry::new(by, 0, KeyList::with_room(alloc, 1).expect(rt, "memory"))
}
