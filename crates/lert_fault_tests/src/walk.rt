//! The calls of an object, of which one after the other fails in a run by one worker.

use crate::faults::{NO_FAULT, Object};
use crate::plays::{Cones, Ended, play};
use crate::steps::{STEPS, WHOLE, have_no_packet, have_packets, recover_words, run_words};
use lert_top::Status;
use std::alloc::Global;
use std::process::Abort;
use std::random::RandomSource;
use std::sync::Wait;
use std::thread::Threads;

// A number above that of the calls of each object here.
const MOST_CALLS: u64 = 1_000;

/// What a run leaves.
#[derive(Clone, Copy)]
pub enum Left {
    /// Not all cones, and no packet: a recovery names a cone, a file of it, and its end.
    Unmade { cone: u32, file: u8, at: u64 },
    /// What so many steps make.
    Steps(usize),
}

/// Makes each call of an object fail in turn, and wants the object's status, no text, and that the run leaves what these rows
/// say: so many calls in turn leave this, and with 0 as many as there are, one at least. No further call comes.
pub fn check_calls(
    rt: &(impl Abort + Threads + Wait + Sync + RandomSource),
    alloc: Global,
    object: Object,
    rows: &[(u64, Left)],
) {
    let mut call = 1;
    for (calls, left) in rows {
        let next = first_other(rt, alloc, object, call, *left);
        let is_due = call < next && (*calls == 0 || next - call == *calls);
        assert!(rt; is_due, "calls from {call} on");
        call = next;
    }
    let ended = run_failing(rt, alloc, object, call);
    ends_whole(rt, &ended, call);
}

// Wants all that a run prints and leaves which comes to its end.
fn ends_whole(rt: &impl Abort, ended: &Ended, call: u64) {
    let is_whole = ended.is(Status::Done, WHOLE.as_bytes()) && have_steps(&ended.cones, 7);
    assert!(rt; is_whole, "call {call}");
}

// The number of the first call from this one on whose failing leaves something else.
fn first_other(
    rt: &(impl Abort + Threads + Wait + Sync + RandomSource),
    alloc: Global,
    object: Object,
    from: u64,
    left: Left,
) -> u64 {
    for call in from..MOST_CALLS {
        if !leaves(rt, alloc, object, call, left) {
            return call;
        }
    }
    panic!(rt; "there is no end of calls");
}

// Whether a run of which this call fails has the object's status and no text, puts all back, and leaves this.
fn leaves(
    rt: &(impl Abort + Threads + Wait + Sync + RandomSource),
    alloc: Global,
    object: Object,
    call: u64,
    left: Left,
) -> bool {
    let ended = run_failing(rt, alloc, object, call);
    let recovered = play(rt, alloc, &recover_words(), &ended.cones, NO_FAULT);
    has_failed(&ended, object) && is_left(&ended, &recovered, left)
}

// Whether a run has the object's status and no text, and put all back.
fn has_failed(ended: &Ended, object: Object) -> bool {
    ended.is(object.status(), b"") && ended.back == [true; 4]
}

/// What comes of a run by one worker over empty files of which this call fails.
pub fn run_failing(
    rt: &(impl Abort + Threads + Wait + Sync + RandomSource),
    alloc: Global,
    object: Object,
    call: u64,
) -> Ended {
    let empty = Cones::empty(alloc);
    play(rt, alloc, &run_words("1"), &empty, object.failing(call))
}

// Whether this was left, of which that was recovered: a recovery changes no journal, and no file where it is refused.
fn is_left(ended: &Ended, recovered: &Ended, left: Left) -> bool {
    match left {
        Left::Unmade { cone, file, at } => {
            have_no_packet(&ended.cones)
                && recovered.is(Status::Malformed { cone, file, at }, b"")
                && recovered.cones.are(&ended.cones)
        }
        Left::Steps(steps) => {
            have_steps(&ended.cones, steps)
                && recovered.is(Status::Done, text_of(steps).as_bytes())
                && recovered.cones.have_journals_of(&ended.cones)
        }
    }
}

/// Whether the journals are those of so many steps.
pub fn have_steps(cones: &Cones, steps: usize) -> bool {
    match STEPS.get(steps) {
        Some((first, second, _)) => have_packets(cones, *first, *second),
        None => false,
    }
}

/// What a recovery prints after so many steps.
pub fn text_of(steps: usize) -> &'static str {
    match STEPS.get(steps) {
        Some((_, _, text)) => text,
        None => "",
    }
}
