//! Keys of several cones.

use super::check_long;
use lert_top::Status;
use lert_trials::trace;
use std::alloc::Global;
use std::process::Abort;

// The mixed value of 0 is 0, that of 1 begins with b4, and that of 2^64 - 1 with 64.
const KEYS: [u64; 9] = [0, 0, 0, 1, 1, 1, u64::MAX, u64::MAX, u64::MAX];

#[test]
fn each_key_goes_to_its_cone_whatever_the_packet(rt: HostRuntime) {
    let text = "cone 0 events 6 reports 2 closed\n0 3\n18446744073709551615 6\n\
        cone 1 events 3 reports 1 closed\n1 3\ntotal events 9 reports 3\n";
    let trace = trace(rt.alloc(), &KEYS).expect(&rt, "memory");
    for packet in ["8", "1", "2"] {
        let numbers = ["3", "3", "2", "4", "2", "1", "32", packet];
        check_long(&rt, rt.alloc(), &numbers, &trace, Status::Done, text);
    }
}

// Puts the line of a cone that has no key behind a text.
fn push_line(rt: &impl Abort, alloc: Global, text: &mut String, cone: u32) {
    let line = format!(in alloc; "cone {cone} events 0 reports 0 closed\n").expect(rt, "memory");
    text.push_str(&line).expect(rt, "memory");
}

// Puts the text of a cone behind a text, of the nine keys over 256 cones, those of 0, 1 and 2^64 - 1 being 0, 180 and
// 100.
fn push_cone(rt: &impl Abort, alloc: Global, text: &mut String, cone: u32) {
    let line = match cone {
        0 => "cone 0 events 3 reports 1 closed\n0 3\n",
        100 => "cone 100 events 3 reports 1 closed\n18446744073709551615 3\n",
        180 => "cone 180 events 3 reports 1 closed\n1 3\n",
        _ => "",
    };
    text.push_str(line).expect(rt, "memory");
    if line.is_empty() {
        push_line(rt, alloc, text, cone);
    }
}

// The text of all cones.
fn text_of_all_cones(rt: &impl Abort, alloc: Global) -> String {
    let mut text = String::new(alloc);
    for cone in 0..256 {
        push_cone(rt, alloc, &mut text, cone);
    }
    let total = "total events 9 reports 3\n";
    text.push_str(total).expect(rt, "memory");
    text
}

#[test]
fn all_256_cones_are_printed_in_ascending_order(rt: HostRuntime) {
    let text = text_of_all_cones(&rt, rt.alloc());
    let trace = trace(rt.alloc(), &KEYS).expect(&rt, "memory");
    let numbers = ["3", "3", "2", "4", "2", "8", "32", "8"];
    check_long(&rt, rt.alloc(), &numbers, &trace, Status::Done, &text);
}

#[test]
fn a_full_cone_is_named(rt: HostRuntime) {
    let numbers = ["3", "3", "2", "4", "2", "1", "32", "8"];
    let rows: [(usize, Status, &str); 2] = [
        (
            71,
            Status::Done,
            "cone 0 events 0 reports 0 closed\ncone 1 events 71 reports 1 closed\n1 3\ntotal events 71 reports 1\n",
        ),
        (
            72,
            Status::CapacityFull {
                cone: 1,
                n: 64,
                len: 8,
            },
            "",
        ),
    ];
    for (len, status, text) in rows {
        assert!(rt; len <= 72);
        let trace = trace(rt.alloc(), &[1; 72][..len]).expect(&rt, "memory");
        check_long(&rt, rt.alloc(), &numbers, &trace, status, text);
    }
}
