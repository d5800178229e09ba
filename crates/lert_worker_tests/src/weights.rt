//! The weights of items, on their way from traces to cones.

ghost use Rattle.std.specs.Prelude.{◌≡◌, ℕ, ◌+◌, ◌<◌, ◌^◌, List, All, false, None, length};
ghost use Rattle.lert_base.specs.Packet.{Packet};

use crate::crew::{Way, run_pair};
use crate::workers::two_cones;
use lert_base::{ConeFault, Entry, Held};
use lert_io::{CallList, MemSource};
use lert_spec::Item;
use lert_worker::WorkerEnd;
use std::alloc::Global;
use std::process::Abort;
use std::sync::Wait;
use std::thread::Threads;

// A trace of version 2: the key 0 with the weight 7, the key 1 with 255, and the key 0 with 2. The key 0 is the first cone's,
// and the key 1 the second one's.
const WEIGHED: [u8; 35] = [
    0x4c, 0x45, 0x52, 0x54, 2, 0, 0, 0, 0, 0, 0, 0, 0, 0, 0, 0, 7, 1, 0, 0, 0, 0, 0, 0, 0, 255, 0,
    0, 0, 0, 0, 0, 0, 0, 2,
];

// A trace of version 1, of the key 0.
const PLAIN: [u8; 16] = [0x4c, 0x45, 0x52, 0x54, 1, 0, 0, 0, 0, 0, 0, 0, 0, 0, 0, 0];

// What stands where no item came.
const NONE: Item = Item { key: 0, weight: 0 };

// The state of a cone that keeps the first item of each of its first four packets.
#[derive(Drop)]
struct Scale {
    taken: u64,
    items: [Item; 4],
    ghost bounded: { taken < 2 ^ 40 },
}

impl Scale {
    fn keep(&mut self, entry: &Entry)
        ensures { self.new.taken ≡ self.old.taken }
    {
        let Some(place) = self.items.get_mut(self.taken as usize) else {
            return;
        };
        if let (Some(key), Some(weight)) = (
            entry.keys.as_slice().first(),
            entry.keys.weights().first(),
        ) {
            *place = Item {
                key: *key,
                weight: *weight,
            };
        }
    }
}

impl Held for Scale {
    type Terms = ();

    type Reply = u64;

    type Refusal = ConeFault;

    ghost use Rattle.lert_base.specs.declared.cone_fault.ConeFault.TheVariants.{Broken};

    ghost terms = { λ s. tt };

    ghost stands_for = { λ s h. length h ≡ s.taken };

    ghost stopped = { λ _. false };

    ghost over = { λ _. None };

    ghost answers = { λ terms h packet reply. reply ≡ length h + 1 };

    ghost refuses = { λ terms h packet refusal. refusal ≡ Broken };

    ghost fits = { λ terms packet. Unit {0} };

    fn apply(&mut self, entry: &Entry) -> Result<u64, ConeFault> {
        if self.taken + 1 >= 1 << 40 {
            return Err(ConeFault::Broken);
        }
        self.keep(entry);
        self.taken += 1;
        Ok(self.taken)
    }

    ghost use Rattle.std.proofs.Common.{arith};

    ghost short = { λ s h stands. let bound = s.bounded in Prim.omega arith };
}

fn empty_scale() -> Scale
    ensures { result.taken ≡ 0 }
{
    Scale {
        taken: 0,
        items: [NONE; 4],
    }
}

fn two_scales(rt: &impl Abort, alloc: Global) -> Vec<Scale>
    ensures cones { length result.items ≡ 2 }
    ensures opened { All (λ state. (h : List Packet) × (length h ≡ state.taken)) result.items }
{
    let mut states = Vec::with_capacity(alloc, 2).expect(rt, "memory");
    states.push_reserved(empty_scale());
    states.push_reserved(empty_scale());
    states
}

fn sources(rt: &impl Abort, alloc: Global) -> (MemSource, MemSource) {
    let calm = CallList::new(alloc).expect(rt, "memory");
    (
        MemSource::new(alloc, &WEIGHED, &calm).expect(rt, "memory"),
        MemSource::new(alloc, &PLAIN, &calm).expect(rt, "memory"),
    )
}

// How the workers ended, and what the cones kept.
#[derive(Clone, Copy, Debug, PartialEq, Eq)]
struct Brought {
    ends: (WorkerEnd, WorkerEnd),
    first: [Item; 4],
    second: [Item; 4],
}

fn kept_of(scale: Option<&Scale>) -> [Item; 4] {
    match scale {
        Some(scale) => scale.items,
        None => [NONE; 4],
    }
}

fn bring<R: Threads + Wait + Sync + Abort>(rt: &R, alloc: Global) -> Brought {
    let settings = two_cones(rt);
    let states = two_scales(rt, alloc);
    let outcome = run_pair(
        rt,
        alloc,
        &settings,
        states,
        sources(rt, alloc),
        Way::InTurn,
    );
    Brought {
        ends: (outcome.first, outcome.second),
        first: kept_of(outcome.states.first()),
        second: kept_of(outcome.states.last()),
    }
}

// A worker that forgot the weights, or took those of another key, would bring others. An item of a trace without weights
// weighs 1.
#[test]
fn items_come_with_their_weights(rt: HostRuntime) {
    let all = Brought {
        ends: (WorkerEnd::Ran, WorkerEnd::Ran),
        first: [
            Item { key: 0, weight: 7 },
            Item { key: 0, weight: 2 },
            Item { key: 0, weight: 1 },
            NONE,
        ],
        second: [
            Item {
                key: 1,
                weight: 255,
            },
            NONE,
            NONE,
            NONE,
        ],
    };
    assert_eq!(rt; bring(&rt, rt.alloc()), all);
}
