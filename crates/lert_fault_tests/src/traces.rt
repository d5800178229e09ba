//! Each read of each trace fails in turn.

use crate::faults::{Faults, NO_FAULT, Object};
use crate::plays::{Cones, play};
use crate::steps::{recover_words, run_words};
use crate::walk::{Left, check_calls};
use lert_top::Status;
use std::alloc::Global;
use std::process::Abort;
use std::random::RandomSource;
use std::sync::Wait;
use std::thread::Threads;

#[test]
fn a_run_whose_trace_fails_drops_what_its_rings_hold(rt: HostRuntime) {
    // The first read gives all keys of such a trace, of which a full ring is brought.
    let first = [(1, Left::Steps(0)), (0, Left::Steps(1))];
    let second = [(0, Left::Steps(3))];
    check_calls(&rt, rt.alloc(), Object::FirstTrace, &first);
    check_calls(&rt, rt.alloc(), Object::SecondTrace, &second);
}

// Runs two workers over empty files, and wants the status, and this text of a recovery.
fn check_two(
    rt: &(impl Abort + Threads + Wait + Sync + RandomSource),
    alloc: Global,
    faults: Faults,
    status: Status,
    text: &str,
) {
    let empty = Cones::empty(alloc);
    let ended = play(rt, alloc, &run_words("2"), &empty, faults);
    let recovered = play(rt, alloc, &recover_words(), &ended.cones, NO_FAULT);
    assert!(rt; ended.is(status, b""), "the status");
    assert!(rt; recovered.is(Status::Done, text.as_bytes()), "{text}");
}

#[test]
fn the_other_worker_goes_on_and_the_lowest_fault_is_answered(rt: HostRuntime) {
    let first = Status::TraceFault { trace: 0 };
    let rows: [(Faults, Status, &str); 4] = [
        (
            Object::FirstTrace.failing(1),
            first,
            "cone 0 events 1 reports 0 open\ncone 1 events 2 reports 0 open\ntotal events 3 reports 0\n",
        ),
        (
            Object::SecondTrace.failing(1),
            Status::TraceFault { trace: 1 },
            "cone 0 events 12 reports 1 open\n0 5\ncone 1 events 1 reports 0 open\ntotal events 13 reports 1\n",
        ),
        (
            Faults {
                reads: (1, 1),
                ..NO_FAULT
            },
            first,
            "cone 0 events 0 reports 0 open\ncone 1 events 0 reports 0 open\ntotal events 0 reports 0\n",
        ),
        // The write of the other worker's packet of cone 1 fails, behind ten calls that made the cone.
        (
            Faults {
                reads: (1, 0),
                calls: (0, 11),
                ..NO_FAULT
            },
            first,
            "cone 0 events 1 reports 0 open\ncone 1 events 0 reports 0 open\ntotal events 1 reports 0\n",
        ),
    ];
    for (faults, status, text) in rows {
        check_two(&rt, rt.alloc(), faults, status, text);
    }
}
