//! A lock, or a fleet, with a pass for each of two callers.

ghost use Rattle.std.specs.Prelude.{◌≡◌, ◌≤◌, List, All, length};
ghost use Rattle.lert_base.specs.Packet.{Packet};
ghost use Rattle.lert_worker_tests.specs.Pairs.{AreLockPasses, ArePasses};

use lert_base::Held;
use lert_conelock::{ConeLock, Pass};
use lert_fleet::{Fleet, FleetPass};
use std::alloc::Global;
use std::process::Abort;

/// A lock round this state, and the passes of the numbers 0 and 1.
pub fn lock_of_two<S: Held + Send>(
    rt: &impl Abort,
    alloc: Global,
    state: S,
) -> (ConeLock<S>, Pass<S>, Pass<S>)
where
    S: Drop,
    requires { (h : List Packet) × S.stands_for state h }
    ensures { AreLockPasses result.0 result.1 result.2 }
{
    let Ok((lock, mut first)) = ConeLock::new(alloc, state, 2) else {
        panic!(rt; "memory");
    };
    let second = lock.split(&mut first, 1);
    (lock, first, second)
}

/// A fleet of these states, and the passes of the numbers 0 and 1.
pub fn fleet_of_two<S: Held + Send>(
    rt: &impl Abort,
    alloc: Global,
    states: Vec<S>,
) -> (Fleet<S>, FleetPass<S>, FleetPass<S>)
where
    S: Drop,
    requires few { (1 ≤ length states.items) × (length states.items ≤ 256) }
    requires opened { All (λ state. (h : List Packet) × S.stands_for state h) states.items }
    ensures passes { ArePasses result.0 result.1 result.2 }
    ensures cones { length result.0 ≡ length states.items }
{
    let Ok((fleet, mut first)) = Fleet::new(alloc, states, 2) else {
        panic!(rt; "memory");
    };
    let second = fleet.split(&mut first, 1).expect(rt, "memory");
    (fleet, first, second)
}
