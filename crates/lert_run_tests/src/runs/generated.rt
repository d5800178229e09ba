//! Generated keys, written as a trace or drilled, and options in another order.

use super::check;
use crate::checks::{SEVENS_TEXT, ends, ran, whole_row};
use lert_io::{CallList, MemSink};
use lert_top::{Status, gen_to};
use lert_trials::{Ended, HEADER};
use std::alloc::Global;
use std::process::Abort;
use std::random::RandomSource;
use std::sync::Wait;
use std::thread::Threads;

// Wants this text, and that the place was asked for nothing.
fn ends_unasked(rt: &impl Abort, ended: &Ended, text: &str) {
    ends(rt, ended, Status::Done, text);
    assert!(rt; !ended.trace && ended.bays == 0, "what came back");
}

// Runs words that ask a place for nothing, and wants this text.
fn check_unasked(
    rt: &(impl Abort + Threads + Wait + Sync + RandomSource),
    alloc: Global,
    words: &[&str],
    text: &str,
) {
    let ended = ran(rt, alloc, &whole_row(words, 1, &HEADER));
    ends_unasked(rt, &ended, text);
}

#[test]
fn a_generated_key_stands_in_a_trace(rt: HostRuntime) {
    let words = ["gen", "--seed", "0", "--events", "1"];
    check_unasked(&rt, rt.alloc(), &words, "LERT\x01\0\0\0d\x01\0\0\0\0\0\0");
}

// A sink whose third write fails.
fn sink_with_two_writes(rt: &impl Abort, alloc: Global) -> MemSink {
    let mut fails = CallList::new(alloc).expect(rt, "memory");
    fails.push(3).expect(rt, "memory");
    MemSink::new(alloc, 100_000, &fails).expect(rt, "memory")
}

#[test]
fn a_third_write_that_fails_leaves_what_two_wrote(rt: HostRuntime) {
    let mut sink = sink_with_two_writes(&rt, rt.alloc());
    let status = gen_to(7, 5_000, &mut sink);
    assert!(rt; status == Status::OutFault, "the status");
    assert_eq!(rt; sink.bytes().len(), 16_384);
}

// The numbers are those of a plain count of all keys (tools/tests/drilled).
#[test]
fn a_drill_prints_a_plain_count(rt: HostRuntime) {
    let none = [
        "drill",
        "--seed",
        "1",
        "--events",
        "100",
        "--threshold",
        "101",
        "--cone-bits",
        "0",
    ];
    let text = "cone 0 events 100 reports 0 keys 0000000000000000\ntotal events 100 reports 0\n";
    check_unasked(&rt, rt.alloc(), &none, text);
    let few = [
        "drill",
        "--events=3000",
        "--threshold=5",
        "--cone-bits=1",
        "--workers=3",
        "--packet=8",
        "--base=4",
    ];
    let text = "cone 0 events 1459 reports 7 keys 000000000000031d\n\
        cone 1 events 1541 reports 8 keys 0000000000000138\n\
        total events 3000 reports 15\n";
    check_unasked(&rt, rt.alloc(), &few, text);
}

#[test]
fn a_drill_of_too_many_keys_is_full(rt: HostRuntime) {
    let words = [
        "drill",
        "--threshold",
        "1",
        "--room",
        "1",
        "--cone-bits",
        "0",
        "--workers",
        "1",
        "--packet",
        "1",
    ];
    let ended = ran(&rt, rt.alloc(), &whole_row(&words, 1, &HEADER));
    let full = Status::CapacityFull {
        cone: 0,
        n: 1,
        len: 1,
    };
    ends(&rt, &ended, full, "");
}

#[test]
fn options_stand_between_names_and_behind_them(rt: HostRuntime) {
    let mut trace = [0; 32];
    trace[..8].copy_from_slice(&HEADER);
    for place in [8, 16, 24] {
        trace[place] = 7;
    }
    let words = [
        "run",
        "--threshold=003",
        "d",
        "--cone-bits",
        "0",
        "--workers=1",
        "--",
        "a",
    ];
    let row = whole_row(&words, 1, &trace);
    check(&rt, rt.alloc(), &row, Status::Done, SEVENS_TEXT);
}
