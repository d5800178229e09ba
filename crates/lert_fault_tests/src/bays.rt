//! Each call of each bay fails in turn, in a run and in a recovery.

use crate::faults::{NO_FAULT, Object};
use crate::plays::{Cones, Ended, play};
use crate::steps::recover_words;
use crate::walk::{Left, check_calls, have_steps, run_failing, text_of};
use lert_bay::{JOURNAL, LOG};
use lert_top::Status;
use std::alloc::Global;
use std::process::Abort;
use std::random::RandomSource;
use std::sync::Wait;
use std::thread::Threads;

// A number above that of the calls of a recovery here.
const MOST_CALLS: u64 = 1_000;

// The number of the first call behind the append of the second packet of cone 0, which is one of its flush: six lengths, two
// headers that are written and synced, and four calls for each packet come before.
const FIRST_CALL_OF_THE_FLUSH: u64 = 19;

fn ends(cone: u32, file: u8, at: u64) -> Left {
    Left::Unmade { cone, file, at }
}

#[test]
fn a_run_whose_bay_fails_leaves_the_packets_from_before(rt: HostRuntime) {
    let first: [(u64, Left); 12] = [
        // The lengths of the files are asked before the cone is made, and as it is.
        (6, ends(0, JOURNAL, 0)),
        // Each header with its gate is written, and half of it stands then, and synced.
        (1, ends(0, JOURNAL, 16)),
        (1, ends(0, LOG, 0)),
        (1, ends(0, LOG, 4)),
        (1, ends(1, JOURNAL, 0)),
        // A packet that is written and synced counts once its gate is open, though that isn't synced.
        (3, Left::Steps(0)),
        (4, Left::Steps(1)),
        // With the second packet comes the flush and its record.
        (0, Left::Steps(2)),
        (3, Left::Steps(3)),
        (1, Left::Steps(4)),
        // The cone is closed once both traces were read.
        (0, Left::Steps(5)),
        (1, Left::Steps(6)),
    ];
    check_calls(&rt, rt.alloc(), Object::FirstBay, &first);
    let second: [(u64, Left); 12] = [
        // The files of all cones are looked at before one is made.
        (3, ends(0, JOURNAL, 0)),
        (3, ends(1, JOURNAL, 0)),
        (1, ends(1, JOURNAL, 16)),
        (1, ends(1, LOG, 0)),
        (1, ends(1, LOG, 4)),
        (1, Left::Steps(0)),
        (3, Left::Steps(2)),
        (1, Left::Steps(3)),
        (3, Left::Steps(4)),
        (1, Left::Steps(5)),
        (0, Left::Steps(6)),
        (1, Left::Steps(7)),
    ];
    check_calls(&rt, rt.alloc(), Object::SecondBay, &second);
}

// Whether a recovery of these files failed with the bay's status and no text, changed no journal, and another one
// prints what is due.
fn is_repeated(ended: &Ended, again: &Ended, cones: &Cones, status: Status, text: &[u8]) -> bool {
    ended.is(status, b"")
        && ended.cones.have_journals_of(cones)
        && again.is(Status::Done, text)
        && again.cones.have_journals_of(cones)
}

// How long the log of cone 0 is behind a recovery that met no fault; of one that met one, wants that it may be
// repeated.
fn log_behind(
    rt: &impl Abort,
    ended: &Ended,
    again: &Ended,
    cones: &Cones,
    status: Status,
    text: &[u8],
    call: u64,
) -> Option<usize> {
    if ended.is(Status::Done, text) {
        return Some(ended.cones.first.log.len());
    }
    assert!(rt;
        is_repeated(ended, again, cones, status, text),
        "call {call}"
    );
    None
}

// Makes a call of a bay fail in a recovery of these files, and repeats that. Answers how long the log of cone 0 is,
// where it met no fault.
fn recover_failing(
    rt: &(impl Abort + Threads + Wait + Sync + RandomSource),
    alloc: Global,
    bay: Object,
    cones: &Cones,
    text: &[u8],
    call: u64,
) -> Option<usize> {
    let words = recover_words();
    let ended = play(rt, alloc, &words, cones, bay.failing(call));
    let again = play(rt, alloc, &words, &ended.cones, NO_FAULT);
    log_behind(rt, &ended, &again, cones, bay.status(), text, call)
}

// Makes each call of a bay fail in turn in a recovery of these files, and wants the bay's status, no text, the same
// journals, and that another recovery prints what is due. Answers the number of the recovery that meets no fault, and
// how long the log of cone 0 is then.
fn check_recoveries(
    rt: &(impl Abort + Threads + Wait + Sync + RandomSource),
    alloc: Global,
    bay: Object,
    cones: &Cones,
    text: &[u8],
) -> (u64, usize) {
    for call in 1..MOST_CALLS {
        if let Some(logged) = recover_failing(rt, alloc, bay, cones, text, call) {
            return (call, logged);
        }
    }
    panic!(rt; "there is no end of calls");
}

#[test]
fn a_recovery_whose_bay_fails_may_be_repeated(rt: HostRuntime) {
    let call = FIRST_CALL_OF_THE_FLUSH;
    let left = run_failing(&rt, rt.alloc(), Object::FirstBay, call);
    assert!(rt; have_steps(&left.cones, 2));
    let logged = left.cones.first.log.len();
    let text = text_of(2).as_bytes();
    for bay in [Object::FirstBay, Object::SecondBay] {
        let (call, longer) = check_recoveries(&rt, rt.alloc(), bay, &left.cones, text);
        // Three syncs come before all else, and the recovery makes the flush that the run didn't come to.
        assert!(rt; call > 3 && longer > logged);
    }
}
