//! The tests themselves.

ghost use Rattle.std.specs.Prelude.{◌≡◌};

use crate::crew::{Outcome, Way, run_pair};
use crate::flags::{Flags, new_flags, shared};
use crate::four::run_four;
use crate::late_source::{Awaits, LateSource};
use crate::station::{Role, Station, two_stations};
use lert_base::{Numbers, Settings};
use lert_io::{CallList, MemSource, PairedSource};
use lert_trace::TraceFault;
use lert_worker::WorkerEnd;
use std::alloc::Global;
use std::process::Abort;
use std::sync::{Arc, Wait};
use std::thread::Threads;

// Two cones, and packets of one item.
const NUMBERS: Numbers = Numbers {
    threshold: 3,
    bins: 3,
    ratio: 2,
    base: 4,
    levels: 2,
    cone_bits: 1,
    room: 32,
    packet: 1,
};

// How often a source looks for another thread's, and for one that doesn't come.
const LONG: u64 = 200_000_000;

const SHORT: u64 = 1_000;

// A trace of the key 0, which is the first cone's, and one of the keys 0 and 1, of which the second is the second cone's.
const FIRST: [u8; 16] = [0x4c, 0x45, 0x52, 0x54, 1, 0, 0, 0, 0, 0, 0, 0, 0, 0, 0, 0];

const BOTH: [u8; 24] = [
    0x4c, 0x45, 0x52, 0x54, 1, 0, 0, 0, 0, 0, 0, 0, 0, 0, 0, 0, 1, 0, 0, 0, 0, 0, 0, 0,
];

/// Settings of two cones, with packets of one item.
pub fn two_cones(rt: &impl Abort) -> Settings
    ensures { result.cone_bits ≡ 1 }
{
    Settings::new(NUMBERS).expect(rt, "settings")
}

// How the workers ended, and how many packets each cone took.
#[derive(Clone, Copy, Debug, PartialEq, Eq)]
struct Seen {
    ends: (WorkerEnd, WorkerEnd),
    taken: (Option<u64>, Option<u64>),
}

fn taken_of(station: Option<&Station>) -> Option<u64> {
    match station {
        Some(station) => Some(station.taken),
        None => None,
    }
}

fn look_at(outcome: &Outcome<Station>) -> Seen {
    Seen {
        ends: (outcome.first, outcome.second),
        taken: (
            taken_of(outcome.states.first()),
            taken_of(outcome.states.last()),
        ),
    }
}

// Two workers whose sources meet: each fails at its first read where the other's wasn't begun.
fn meet<R: Threads + Wait + Sync + Abort>(rt: &R, alloc: Global, way: Way, turns: u64) -> Seen {
    let settings = two_cones(rt);
    let flags = new_flags(rt, alloc);
    let states = two_stations(rt, alloc, &flags, (Role::Counts, Role::Counts));
    let sources = PairedSource::pair(alloc, &FIRST, &BOTH, 8, turns).expect(rt, "memory");
    look_at(&run_pair(rt, alloc, &settings, states, sources, way))
}

#[test]
fn two_workers_run_at_once(rt: HostRuntime) {
    let all = Seen {
        ends: (WorkerEnd::Ran, WorkerEnd::Ran),
        taken: (Some(2), Some(1)),
    };
    assert_eq!(rt; meet(&rt, rt.alloc(), Way::AtOnce, LONG), all);
}

// Its source is met by no other one. That of the second worker is.
#[test]
fn of_two_workers_in_turn_the_first_fails(rt: HostRuntime) {
    let stopped = WorkerEnd::Trace {
        trace: 0,
        fault: TraceFault::ReadFailed,
    };
    let second_alone = Seen {
        ends: (stopped, WorkerEnd::Ran),
        taken: (Some(1), Some(1)),
    };
    assert_eq!(rt; meet(&rt, rt.alloc(), Way::InTurn, SHORT), second_alone);
}

// Four workers, each of which has a source that waits at its first read for those of the other three.
fn meet_four<R: Threads + Wait + Sync + Abort>(rt: &R, alloc: Global) -> ([WorkerEnd; 4], u64) {
    let settings = two_cones(rt);
    let flags = new_flags(rt, alloc);
    let states = two_stations(rt, alloc, &flags, (Role::Counts, Role::Counts));
    let calm = CallList::new(alloc).expect(rt, "memory");
    let sources = [
        begun_source(rt, alloc, &calm, &flags),
        begun_source(rt, alloc, &calm, &flags),
        begun_source(rt, alloc, &calm, &flags),
        begun_source(rt, alloc, &calm, &flags),
    ];
    let ends = run_four(rt, alloc, &settings, states, sources);
    (ends, flags.met())
}

fn begun_source(
    rt: &impl Abort,
    alloc: Global,
    calm: &CallList,
    flags: &Arc<Flags, Global>,
) -> LateSource {
    let source = MemSource::new(alloc, &FIRST, calm).expect(rt, "memory");
    LateSource::new(source, shared(rt, flags), Awaits::Begun(4))
}

// Workers of which two run behind the other two would find two others alone.
#[test]
fn four_workers_run_at_once(rt: HostRuntime) {
    let all_met = ([WorkerEnd::Ran; 4], 4);
    assert_eq!(rt; meet_four(&rt, rt.alloc()), all_met);
}

// The first worker holds the first cone until the second cone is given a packet. The second worker has a key for the first
// cone, begins while that is held, and then has one for the second.
fn hold<R: Threads + Wait + Sync + Abort>(rt: &R, alloc: Global) -> Seen {
    let settings = two_cones(rt);
    let flags = new_flags(rt, alloc);
    let states = two_stations(rt, alloc, &flags, (Role::Waits, Role::Shows));
    let sources = late_sources(rt, alloc, &flags);
    let outcome = run_pair(rt, alloc, &settings, states, sources, Way::AtOnce);
    look_at(&outcome)
}

// The second one waits until the first cone is held.
fn late_sources(
    rt: &impl Abort,
    alloc: Global,
    flags: &Arc<Flags, Global>,
) -> (LateSource, LateSource) {
    let calm = CallList::new(alloc).expect(rt, "memory");
    let first = MemSource::new(alloc, &FIRST, &calm).expect(rt, "memory");
    let second = MemSource::new(alloc, &BOTH, &calm).expect(rt, "memory");
    (
        LateSource::new(first, shared(rt, flags), Awaits::Nothing),
        LateSource::new(second, shared(rt, flags), Awaits::Inside),
    )
}

// A worker that waited for a cone with its first key would never bring the second one, and the first cone would refuse.
#[test]
fn a_worker_goes_on_while_a_cone_is_held(rt: HostRuntime) {
    let all = Seen {
        ends: (WorkerEnd::Ran, WorkerEnd::Ran),
        taken: (Some(2), Some(1)),
    };
    assert_eq!(rt; hold(&rt, rt.alloc()), all);
}
