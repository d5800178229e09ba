//! What is reported, and when.

use super::{check, check_long};
use crate::checks::whole_row;
use lert_top::Status;
use lert_trials::{SMALL, short_form, trace, trace_with};
use std::alloc::Global;
use std::process::Abort;
use std::random::RandomSource;
use std::sync::Wait;
use std::thread::Threads;

// A threshold, keys, and the text.
const SHORT: [(&str, &[u64], &str); 4] = [
    (
        "3",
        &[],
        "cone 0 events 0 reports 0 closed\ntotal events 0 reports 0\n",
    ),
    (
        "3",
        &[7, 7, 7],
        "cone 0 events 3 reports 1 closed\n7 3\ntotal events 3 reports 1\n",
    ),
    (
        "1",
        &[7, 7, 8],
        "cone 0 events 3 reports 2 closed\n7 1\n8 3\ntotal events 3 reports 2\n",
    ),
    (
        "4294967295",
        &[7, 7, 8],
        "cone 0 events 3 reports 0 closed\ntotal events 3 reports 0\n",
    ),
];

fn check_short(
    rt: &(impl Abort + Threads + Wait + Sync + RandomSource),
    alloc: Global,
    threshold: &str,
    keys: &[u64],
    text: &str,
) {
    let trace = trace(alloc, keys).expect(rt, "memory");
    let words = short_form(threshold);
    check(rt, alloc, &whole_row(&words, 1, &trace), Status::Done, text);
}

#[test]
fn the_short_form_runs_with_the_defaults(rt: HostRuntime) {
    for row in &SHORT {
        let (threshold, keys, text) = *row;
        check_short(&rt, rt.alloc(), threshold, keys, text);
    }
}

const AT_ONCE: [&str; 8] = ["1", "3", "2", "4", "2", "0", "32", "8"];

const SPELLED: [&str; 8] = ["03", "3", "2", "4", "2", "00", "32", "00000000000000000008"];

// Numbers, keys, and the text.
const LONG: [(&[&str; 8], &[u64], &str); 4] = [
    (
        &SMALL,
        &[],
        "cone 0 events 0 reports 0 closed\ntotal events 0 reports 0\n",
    ),
    (
        &SMALL,
        &[7, 7, 7],
        "cone 0 events 3 reports 1 closed\n7 3\ntotal events 3 reports 1\n",
    ),
    (
        &SPELLED,
        &[7, 7, 7],
        "cone 0 events 3 reports 1 closed\n7 3\ntotal events 3 reports 1\n",
    ),
    (
        &AT_ONCE,
        &[7, 7, 8],
        "cone 0 events 3 reports 2 closed\n7 1\n8 3\ntotal events 3 reports 2\n",
    ),
];

fn check_keys(
    rt: &(impl Abort + Threads + Wait + Sync + RandomSource),
    alloc: Global,
    numbers: &[&str; 8],
    keys: &[u64],
    text: &str,
) {
    let trace = trace(alloc, keys).expect(rt, "memory");
    check_long(rt, alloc, numbers, &trace, Status::Done, text);
}

#[test]
fn the_long_form_runs_with_its_settings(rt: HostRuntime) {
    for row in &LONG {
        let (numbers, keys, text) = *row;
        check_keys(&rt, rt.alloc(), numbers, keys, text);
    }
}

// How many keys there are, these at these positions, and the text.
const PLACED: [(u8, &[(u8, u64)], &str); 5] = [
    (
        16,
        &[(1, 7), (2, 7), (13, 7)],
        "cone 0 events 16 reports 1 closed\n7 16\ntotal events 16 reports 1\n",
    ),
    (
        16,
        &[(1, 7), (2, 7), (16, 7)],
        "cone 0 events 16 reports 1 closed\n7 16\ntotal events 16 reports 1\n",
    ),
    (
        40,
        &[(1, 7), (2, 7), (33, 7)],
        "cone 0 events 40 reports 1 closed\n7 40\ntotal events 40 reports 1\n",
    ),
    (
        35,
        &[(1, 7), (33, 7), (34, 7), (35, 7)],
        "cone 0 events 35 reports 1 closed\n7 35\ntotal events 35 reports 1\n",
    ),
    (
        34,
        &[(1, 7), (2, 7), (33, 7)],
        "cone 0 events 34 reports 1 closed\n7 34\ntotal events 34 reports 1\n",
    ),
];

fn check_placed(
    rt: &(impl Abort + Threads + Wait + Sync + RandomSource),
    alloc: Global,
    len: u8,
    placed: &[(u8, u64)],
    text: &str,
) {
    let trace = trace_with(alloc, len, placed).expect(rt, "memory");
    check_long(rt, alloc, &SMALL, &trace, Status::Done, text);
}

#[test]
fn a_key_is_reported_by_level_0_by_a_flush_or_at_the_end(rt: HostRuntime) {
    for row in &PLACED {
        let (len, placed, text) = *row;
        check_placed(&rt, rt.alloc(), len, placed, text);
    }
}

// The keys 1 and 2^64 - 1 among sixteen, either of them first.
const BOTH: [&[(u8, u64)]; 2] = [
    &[
        (1, 1),
        (2, 1),
        (13, 1),
        (3, u64::MAX),
        (4, u64::MAX),
        (14, u64::MAX),
    ],
    &[
        (1, u64::MAX),
        (2, u64::MAX),
        (13, u64::MAX),
        (14, 1),
        (15, 1),
        (16, 1),
    ],
];

#[test]
fn reports_of_one_position_stand_in_the_order_of_mixed_values(rt: HostRuntime) {
    let text =
        "cone 0 events 16 reports 2 closed\n18446744073709551615 16\n1 16\ntotal events 16 reports 2\n";
    for placed in &BOTH {
        check_placed(&rt, rt.alloc(), 16, placed, text);
    }
}
