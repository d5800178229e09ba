//! Runs over one trace and bays in memory.

use crate::checks::{ends, ran, whole_row};
use lert_top::Status;
use lert_trials::{Ended, Row, long_form};
use std::alloc::Global;
use std::process::Abort;
use std::random::RandomSource;
use std::sync::Wait;
use std::thread::Threads;

mod cones;
mod crews;
mod faults;
mod generated;
mod reports;
mod usage;
mod weights;

// Wants the status and the text, and that all came back that is opened for such a status.
fn ends_opened(rt: &impl Abort, ended: &Ended, cones: u32, status: Status, text: &str) {
    ends(rt, ended, status, text);
    let opened = !matches!(status, Status::Usage { rule: _ } | Status::PlaceFault);
    let bays = if opened { cones } else { 0 };
    assert!(rt;
        ended.trace == opened && ended.bays == bays,
        "what came back"
    );
}

// Runs a row over a place that has its trace and its bays, and wants the status and the text.
fn check(
    rt: &(impl Abort + Threads + Wait + Sync + RandomSource),
    alloc: Global,
    row: &Row,
    status: Status,
    text: &str,
) {
    let ended = ran(rt, alloc, row);
    ends_opened(rt, &ended, row.cones, status, text);
}

fn cones_of(cone_bits: &str) -> u32 {
    1 << cone_bits.parse::<u32>().unwrap_or(0).min(8)
}

// Runs the long form with these numbers over a trace, in which no call fails.
fn check_long(
    rt: &(impl Abort + Threads + Wait + Sync + RandomSource),
    alloc: Global,
    numbers: &[&str; 8],
    trace: &[u8],
    status: Status,
    text: &str,
) {
    let words = long_form(*numbers);
    let row = whole_row(&words, cones_of(numbers[5]), trace);
    check(rt, alloc, &row, status, text);
}
