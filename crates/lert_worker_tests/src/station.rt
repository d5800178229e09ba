//! The state of a cone in these tests.

ghost use Rattle.std.specs.Prelude.{◌≡◌, ℕ, ◌+◌, ◌<◌, ◌≤◌, ◌^◌, List, All, false, None, length};
ghost use Rattle.lert_base.specs.Packet.{Packet};

use crate::flags::{Flags, shared};
use lert_base::{ConeFault, Entry, Held};
use std::alloc::Global;
use std::process::Abort;
use std::sync::Arc;
use std::thread::yield_now;

// How often a state gives way once the other thread has answered, so that this one is asleep before the lock is freed.
const LINGERS: u64 = 10_000;

/// What a state does besides counting.
#[derive(Clone, Copy, Debug, PartialEq, Eq)]
pub enum Role {
    Counts,
    /// At its first packet it waits until the other thread answers, and refuses the packet where that doesn't come.
    Waits,
    /// The same, and it stays for long behind the answer.
    Lingers,
    /// The same, and it refuses its first packet then.
    Refuses,
    /// It shows that it was given a packet.
    Shows,
}

/// It counts its packets.
#[derive(Drop)]
pub struct Station {
    pub taken: u64,
    role: Role,
    flags: Arc<Flags, Global>,
    ghost bounded: { taken < 2 ^ 40 },
}

impl Station {
    // Whether the packet may be taken.
    fn meets(&mut self) -> bool
        ensures { self.new.taken ≡ self.old.taken }
    {
        match self.role {
            Role::Counts => true,
            Role::Waits => self.is_answered(0),
            Role::Lingers => self.is_answered(LINGERS),
            Role::Refuses => {
                let _answered = self.is_answered(LINGERS);
                self.role = Role::Counts;
                false
            }
            Role::Shows => {
                self.flags.answer();
                true
            }
        }
    }

    // Whether the other thread answers at the first packet. At a later one nothing is waited for.
    fn is_answered(&self, lingers: u64) -> bool {
        self.flags.enter();
        if self.taken > 0 {
            return true;
        }
        let answered = self.flags.await_answer();
        for _ in 0..lingers {
            yield_now();
        }
        answered
    }
}

impl Held for Station {
    type Terms = ();

    type Reply = u64;

    type Refusal = ConeFault;

    ghost use Rattle.lert_base.specs.declared.cone_fault.ConeFault.TheVariants.{Broken};

    ghost terms = { λ s. tt };

    ghost stands_for = { λ s h. length h ≡ s.taken };

    ghost stopped = { λ _. false };

    ghost over = { λ _. None };

    ghost answers = { λ terms h packet reply. reply ≡ length h + 1 };

    ghost refuses = { λ terms h packet refusal. refusal ≡ Broken };

    ghost fits = { λ terms packet. Unit {0} };

    fn apply(&mut self, _entry: &Entry) -> Result<u64, ConeFault> {
        if !self.meets() || self.taken + 1 >= 1 << 40 {
            return Err(ConeFault::Broken);
        }
        self.taken += 1;
        Ok(self.taken)
    }

    ghost use Rattle.std.proofs.Common.{arith};

    ghost short = { λ s h stands. let bound = s.bounded in Prim.omega arith };
}

/// One that took nothing, with this role.
pub fn empty_station(rt: &impl Abort, flags: &Arc<Flags, Global>, role: Role) -> Station
    ensures { result.taken ≡ 0 }
{
    Station {
        taken: 0,
        role,
        flags: shared(rt, flags),
    }
}

/// Two of them, with these roles.
pub fn two_stations(
    rt: &impl Abort,
    alloc: Global,
    flags: &Arc<Flags, Global>,
    roles: (Role, Role),
) -> Vec<Station>
    ensures cones { length result.items ≡ 2 }
    ensures opened { All (λ state. (h : List Packet) × (length h ≡ state.taken)) result.items }
{
    let mut states = Vec::with_capacity(alloc, 2).expect(rt, "memory");
    states.push_reserved(empty_station(rt, flags, roles.0));
    states.push_reserved(empty_station(rt, flags, roles.1));
    states
}
