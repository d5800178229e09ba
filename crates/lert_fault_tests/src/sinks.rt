//! Each write of the text fails in turn.

use crate::faults::{Faults, NO_FAULT};
use crate::plays::{Cones, Ended, play};
use crate::steps::{WHOLE, recover_words, run_words};
use lert_top::Status;
use std::alloc::Global;
use std::process::Abort;
use std::random::RandomSource;
use std::sync::Wait;
use std::thread::Threads;

// Runs these words over these files into a sink of each size up to that of the text, and once more with a first write that fails,
// and wants the front of the text for which there is room, `OutFault` where that isn't all, and these files.
fn check_sinks(
    rt: &(impl Abort + Threads + Wait + Sync + RandomSource),
    alloc: Global,
    words: &[&str],
    cones: &Cones,
    text: &[u8],
    left: &Cones,
) {
    for room in 0..text.len() {
        let faults = Faults {
            room: room as u64,
            ..NO_FAULT
        };
        let ended = play(rt, alloc, words, cones, faults);
        has_front(rt, &ended, &text[..room], left);
    }
    let first_write = Faults {
        write: 1,
        ..NO_FAULT
    };
    let ended = play(rt, alloc, words, cones, first_write);
    has_front(rt, &ended, b"", left);
    let enough = Faults {
        room: text.len() as u64,
        ..NO_FAULT
    };
    let ended = play(rt, alloc, words, cones, enough);
    assert!(rt; ended.is(Status::Done, text), "the whole text");
}

// Wants a front of a text, and these files.
fn has_front(rt: &impl Abort, ended: &Ended, front: &[u8], left: &Cones) {
    let count = front.len();
    let is_so = ended.is(Status::OutFault, front) && ended.cones.are(left);
    assert!(rt; is_so, "{count} bytes");
}

#[test]
fn a_run_whose_text_is_cut_is_finished_and_its_recovery_prints_it(rt: HostRuntime) {
    let empty = Cones::empty(rt.alloc());
    let whole = play(&rt, rt.alloc(), &run_words("1"), &empty, NO_FAULT);
    let text = WHOLE.as_bytes();
    assert!(rt; whole.is(Status::Done, text));
    let left = &whole.cones;
    check_sinks(&rt, rt.alloc(), &run_words("1"), &empty, text, left);
    check_sinks(&rt, rt.alloc(), &recover_words(), left, text, left);
}

#[test]
fn generated_keys_and_a_summary_are_cut_where_the_sink_is_full(rt: HostRuntime) {
    let empty = Cones::empty(rt.alloc());
    let drill = [
        "drill",
        "--events=100",
        "--threshold=101",
        "--cone-bits=0",
        "--base=4",
        "--room=32",
        "--packet=8",
    ];
    let rows: [(&[&str], &[u8]); 2] = [
        (
            &["gen", "--seed", "0", "--events", "1"],
            b"LERT\x01\0\0\0d\x01\0\0\0\0\0\0",
        ),
        (
            &drill,
            b"cone 0 events 100 reports 0 keys 0000000000000000\ntotal events 100 reports 0\n",
        ),
    ];
    for (words, text) in rows {
        check_sinks(&rt, rt.alloc(), words, &empty, text, &empty);
    }
}
