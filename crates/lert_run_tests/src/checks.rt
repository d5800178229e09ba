//! What runs and recoveries come to, and what is wanted of them.

use lert_top::Status;
use lert_trials::{Ended, Files, Row, recover_files, recover_form, run_row};
use std::alloc::Global;
use std::process::Abort;
use std::random::RandomSource;
use std::sync::Wait;
use std::thread::Threads;

/// The text of the keys 7, 7, 7.
pub const SEVENS_TEXT: &str = "cone 0 events 3 reports 1 closed\n7 3\ntotal events 3 reports 1\n";

/// The row of these words over a trace, in which no call fails.
pub fn whole_row<'a>(words: &'a [&'a str], cones: u32, trace: &'a [u8]) -> Row<'a> {
    Row {
        words,
        cones,
        trace,
        failing_read: 0,
        failing_write: 0,
    }
}

/// What comes of a row over a place that has its trace and its bays.
pub fn ran(
    rt: &(impl Abort + Threads + Wait + Sync + RandomSource),
    alloc: Global,
    row: &Row,
) -> Ended {
    run_row(rt, alloc, row).expect(rt, "memory")
}

/// What comes of a recovery of files with these numbers.
pub fn recovered(
    rt: &(impl Abort + Threads + Wait + Sync + RandomSource),
    alloc: Global,
    numbers: &[&str; 8],
    files: &Files,
) -> Ended {
    recover_files(rt, alloc, &recover_form(*numbers), files).expect(rt, "memory")
}

/// Wants this status and this text.
pub fn ends(rt: &impl Abort, ended: &Ended, status: Status, text: &str) {
    assert!(rt; ended.ended_with(status), "the status");
    assert!(rt; ended.wrote(text), "the text");
}
