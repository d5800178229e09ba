//! Which fault of two workers is answered, where one of them meets a full cone.

use crate::faults::{Faults, NO_FAULT, Object};
use crate::plays::{Cones, play_over};
use crate::steps::run_words;
use lert_top::Status;
use lert_trials::trace;
use std::alloc::Global;
use std::process::Abort;
use std::random::RandomSource;
use std::sync::Wait;
use std::thread::Threads;

// Keys of one cone each: a packet of them, and as many as fill the cone, which takes 71. A worker alone with its cone brings them in
// packets of eight, of which the ninth is refused.
const ZEROS: [u64; 72] = [0; 72];

const ONES: [u64; 72] = [1; 72];

const FULL: Status = Status::CapacityFull {
    cone: 0,
    n: 64,
    len: 8,
};

// The keys of a trace, and whether its last byte is missing.
type Trace<'a> = (&'a [u64], bool);

fn bytes_of(rt: &impl Abort, alloc: Global, trace_of: Trace) -> Vec<u8> {
    let (keys, cut) = trace_of;
    let mut bytes = trace(alloc, keys).expect(rt, "memory");
    if cut {
        bytes.pop();
    }
    bytes
}

// Runs two workers over two traces and empty files, and wants the status, and no text.
fn check_order(
    rt: &(impl Abort + Threads + Wait + Sync + RandomSource),
    alloc: Global,
    traces: [Trace; 2],
    faults: Faults,
    status: Status,
) {
    let first = bytes_of(rt, alloc, traces[0]);
    let second = bytes_of(rt, alloc, traces[1]);
    let empty = Cones::empty(alloc);
    let words = run_words("2");
    let ended = play_over(rt, alloc, &words, [&first, &second], &empty, faults);
    assert!(rt; ended.is(status, b""), "the status");
}

#[test]
fn a_full_cone_is_answered_behind_all_other_faults_and_the_lowest_first(rt: HostRuntime) {
    let one = &ONES[..8];
    let zero = &ZEROS[..8];
    let rows: [([Trace; 2], Faults, Status); 8] = [
        // A read of the other trace fails.
        (
            [(&ZEROS, false), (one, false)],
            Object::SecondTrace.failing(1),
            Status::TraceFault { trace: 1 },
        ),
        // The other trace is cut in its eighth key, at 8 + 7 * 8.
        (
            [(&ZEROS, false), (one, true)],
            NO_FAULT,
            Status::BadTrace { trace: 1, at: 64 },
        ),
        (
            [(zero, true), (&ONES, false)],
            NO_FAULT,
            Status::BadTrace { trace: 0, at: 64 },
        ),
        // The write of the other cone's packet fails, behind ten calls that made the cone.
        (
            [(&ZEROS, false), (one, false)],
            Object::SecondBay.failing(11),
            Status::BayFault { cone: 1 },
        ),
        (
            [(zero, false), (&ONES, false)],
            Object::FirstBay.failing(11),
            Status::BayFault { cone: 0 },
        ),
        // Both cones are full.
        ([(&ZEROS, false), (&ONES, false)], NO_FAULT, FULL),
        ([(&ONES, false), (&ZEROS, false)], NO_FAULT, FULL),
        // The other cone takes its keys.
        ([(one, false), (&ZEROS, false)], NO_FAULT, FULL),
    ];
    for (traces, faults, status) in rows {
        check_order(&rt, rt.alloc(), traces, faults, status);
    }
}
