use crate::items::items_of;
use lert_reference::timely::{is_timely, is_timely_so_far};
use lert_spec::Report;
use std::alloc::Global;
use std::process::Abort;

// Key 7 weighs three at position 13, twelve behind its first, and key 8 at position 14, eleven behind its first.
const EVENTS: [(u64, u8); 20] = [
    (7, 1),
    (102, 1),
    (8, 2),
    (104, 2),
    (105, 2),
    (106, 1),
    (107, 1),
    (108, 1),
    (109, 1),
    (110, 1),
    (111, 1),
    (112, 1),
    (7, 2),
    (8, 1),
    (115, 1),
    (116, 1),
    (117, 1),
    (118, 1),
    (119, 1),
    (120, 2),
];

fn reports_of(rt: &impl Abort, alloc: Global, pairs: &[(u64, u64)]) -> Vec<Report> {
    let mut reports = Vec::new(alloc);
    for (key, at) in pairs {
        let report = Report { key: *key, at: *at };
        reports.push(report).expect(rt, "memory");
    }
    reports
}

// Whether these reports are timely for so many of the events, and whether they are so far.
fn are_timely(rt: &impl Abort, alloc: Global, len: usize, pairs: &[(u64, u64)]) -> (bool, bool) {
    assert!(rt; len <= 20);
    let reports = reports_of(rt, alloc, pairs);
    let events = items_of(rt, alloc, &EVENTS[..len]);
    assert!(rt; events.len() <= 20);
    (
        is_timely(3, 3, &events, &reports),
        is_timely_so_far(3, 3, &events, &reports),
    )
}

// With three bins a report may be late by half of what its key took to reach the threshold.
#[test]
fn reports_are_tried_with_threshold_three_and_three_bins(rt: HostRuntime) {
    let rows: [(usize, &[(u64, u64)], bool, bool); 20] = [
        // Nothing is due.
        (0, &[], true, true),
        (12, &[], true, true),
        // Both keys at once, late, and late by exactly the bound.
        (20, &[(7, 13), (8, 14)], true, true),
        (20, &[(8, 15), (7, 16)], true, true),
        (20, &[(7, 19), (8, 19)], true, true),
        // Late by one too many.
        (20, &[(8, 19), (7, 20)], false, false),
        (20, &[(7, 16), (8, 20)], false, false),
        // Early, and behind the last event.
        (20, &[(7, 12), (8, 14)], false, false),
        (14, &[(7, 13), (8, 15)], false, false),
        // In the wrong order, and listed twice.
        (20, &[(7, 16), (8, 15)], false, false),
        (20, &[(7, 16), (7, 16), (8, 19)], false, false),
        // Of a key that weighs too little, and of one that doesn't occur.
        (20, &[(7, 16), (8, 19), (105, 20)], false, false),
        (20, &[(7, 16), (8, 19), (9, 20)], false, false),
        // Missing, where the bound hasn't passed.
        (13, &[], false, true),
        (18, &[], false, true),
        (19, &[(7, 19)], false, true),
        // Missing, where it has.
        (19, &[], false, false),
        (20, &[(7, 19)], false, false),
        (20, &[(8, 19)], false, false),
        (20, &[], false, false),
    ];
    for row in 0..20 {
        let (len, pairs, timely, so_far) = rows[row];
        let found = are_timely(&rt, rt.alloc(), len, pairs);
        assert_eq!(rt; found, (timely, so_far), "row {row}");
    }
}
