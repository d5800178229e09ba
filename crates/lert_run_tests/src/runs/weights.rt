//! Traces with weights: what is reported, what a bad one is answered with, and cones that take no more weight.

use super::{check, check_long};
use crate::checks::whole_row;
use lert_top::Status;
use lert_trials::{SMALL, WEIGHED_HEADER, short_form, weighed_trace};
use std::alloc::Global;
use std::process::Abort;
use std::random::RandomSource;
use std::sync::Wait;
use std::thread::Threads;

// Among sixteen items 7 weighs 1 at the first position and 2 at the thirteenth.
const PLACED: [(u64, u8); 16] = [
    (7, 1),
    (1_002, 1),
    (1_003, 1),
    (1_004, 1),
    (1_005, 1),
    (1_006, 1),
    (1_007, 1),
    (1_008, 1),
    (1_009, 1),
    (1_010, 1),
    (1_011, 1),
    (1_012, 1),
    (7, 2),
    (1_014, 1),
    (1_015, 1),
    (1_016, 1),
];

// Items, and the text over them with the threshold 3.
const WEIGHED: [(&[(u64, u8)], &str); 5] = [
    (
        &[],
        "cone 0 events 0 reports 0 closed\ntotal events 0 reports 0\n",
    ),
    (
        &[(7, 1), (7, 2)],
        "cone 0 events 2 reports 1 closed\n7 2\ntotal events 2 reports 1\n",
    ),
    (
        &[(7, 3)],
        "cone 0 events 1 reports 1 closed\n7 1\ntotal events 1 reports 1\n",
    ),
    (
        &[(7, 2), (8, 1)],
        "cone 0 events 2 reports 0 closed\ntotal events 2 reports 0\n",
    ),
    (
        &PLACED,
        "cone 0 events 16 reports 1 closed\n7 16\ntotal events 16 reports 1\n",
    ),
];

// Room for one report, so that a cone takes a weight of 3.
const LIGHT: [&str; 8] = ["3", "3", "2", "4", "2", "0", "1", "8"];

// The most that a cone takes with it, and one more; and four items are more than a cone takes by their number, which is tested before
// their weight.
const HEAVY: [(&[(u64, u8)], Status, &str); 5] = [
    (
        &[(7, 2), (8, 1)],
        Status::Done,
        "cone 0 events 2 reports 0 closed\ntotal events 2 reports 0\n",
    ),
    (
        &[(7, 2), (8, 2)],
        Status::WeightFull {
            cone: 0,
            weight: 0,
            more: 4,
        },
        "",
    ),
    (
        &[(7, 255)],
        Status::WeightFull {
            cone: 0,
            weight: 0,
            more: 255,
        },
        "",
    ),
    (
        &[(7, 1), (8, 1), (9, 1)],
        Status::Done,
        "cone 0 events 3 reports 0 closed\ntotal events 3 reports 0\n",
    ),
    (
        &[(7, 255), (8, 1), (9, 1), (7, 1)],
        Status::CapacityFull {
            cone: 0,
            n: 0,
            len: 4,
        },
        "",
    ),
];

// A packet that weighs all that a cone with room for 32 reports takes, and an item behind it.
const BEHIND: [(u64, u8); 9] = [
    (1, 12),
    (2, 12),
    (3, 12),
    (4, 12),
    (5, 12),
    (6, 12),
    (7, 12),
    (8, 12),
    (9, 1),
];

fn check_items(
    rt: &(impl Abort + Threads + Wait + Sync + RandomSource),
    alloc: Global,
    numbers: &[&str; 8],
    items: &[(u64, u8)],
    status: Status,
    text: &str,
) {
    let trace = weighed_trace(alloc, items).expect(rt, "memory");
    check_long(rt, alloc, numbers, &trace, status, text);
}

#[test]
fn a_key_is_reported_where_its_weight_reaches_the_threshold(rt: HostRuntime) {
    for row in &WEIGHED {
        let (items, text) = *row;
        check_items(&rt, rt.alloc(), &SMALL, items, Status::Done, text);
    }
}

#[test]
fn a_cone_whose_weight_is_full_is_named(rt: HostRuntime) {
    for row in &HEAVY {
        let (items, status, text) = *row;
        check_items(&rt, rt.alloc(), &LIGHT, items, status, text);
    }
    let full = Status::WeightFull {
        cone: 0,
        weight: 96,
        more: 1,
    };
    check_items(&rt, rt.alloc(), &SMALL, &BEHIND, full, "");
}

// What stands behind the header of a trace with weights, and the place at which the format is left.
const BAD: [(&[u8], u64); 5] = [
    (&[7, 0, 0, 0, 0, 0, 0, 0, 1, 7, 0, 0, 0], 17),
    (&[7, 0, 0, 0, 0, 0, 0, 0, 0, 7, 0, 0, 0], 16),
    (&[7, 0, 0, 0, 0, 0, 0, 0], 8),
    (&[7, 0, 0, 0, 0, 0, 0, 0, 1, 7, 0, 0, 0, 0, 0, 0, 0, 0], 25),
    (&[7, 0, 0, 0, 0, 0, 0, 0, 0, 7, 0, 0, 0, 0, 0, 0, 0, 0], 16),
];

fn check_bad(
    rt: &(impl Abort + Threads + Wait + Sync + RandomSource),
    alloc: Global,
    items: &[u8],
    at: u64,
) {
    let mut trace = Vec::from_slice(alloc, &WEIGHED_HEADER).expect(rt, "memory");
    trace.extend_from_slice(items).expect(rt, "memory");
    let words = short_form("3");
    let row = whole_row(&words, 1, &trace);
    check(rt, alloc, &row, Status::BadTrace { trace: 0, at }, "");
}

#[test]
fn a_weight_of_0_and_a_cut_item_are_answered_with_their_places(rt: HostRuntime) {
    for row in &BAD {
        let (items, at) = *row;
        check_bad(&rt, rt.alloc(), items, at);
    }
}
