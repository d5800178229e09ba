//! Each opening fails in turn.

use crate::faults::{Faults, NO_FAULT};
use crate::plays::{Cones, Ended, play};
use crate::steps::{recover_words, run_words};
use lert_top::Status;
use std::alloc::Global;
use std::process::Abort;
use std::random::RandomSource;
use std::sync::Wait;
use std::thread::Threads;

// Makes this opening fail, and wants that what was opened before came back, with the files as they were.
fn check_opening(
    rt: &(impl Abort + Threads + Wait + Sync + RandomSource),
    alloc: Global,
    words: &[&str],
    opening: u64,
    back: [bool; 4],
) {
    let empty = Cones::empty(alloc);
    let faults = Faults {
        opening,
        ..NO_FAULT
    };
    let ended = play(rt, alloc, words, &empty, faults);
    ends_so(rt, &ended, &empty, opening, back);
}

fn ends_so(rt: &impl Abort, ended: &Ended, cones: &Cones, opening: u64, back: [bool; 4]) {
    assert_eq!(rt; ended.back, back, "opening {opening}");
    let is_same = ended.is(Status::PlaceFault, b"") && ended.cones.are(cones);
    assert!(rt; is_same, "opening {opening}");
}

#[test]
fn what_was_opened_before_one_failed_comes_back(rt: HostRuntime) {
    for opening in 1..5 {
        let back = [opening > 1, opening > 2, opening > 3, false];
        check_opening(&rt, rt.alloc(), &run_words("1"), opening, back);
    }
    for opening in 3..5 {
        let back = [false, false, opening > 3, false];
        check_opening(&rt, rt.alloc(), &recover_words(), opening, back);
    }
}
