//! Runs over two traces by several workers.

use crate::checks::ends;
use lert_base::Words;
use lert_top::Status;
use lert_trials::{SMALL, Two, crew_form, long_form, run_pair, run_two, trace, weighed_trace};
use std::alloc::Global;
use std::process::Abort;
use std::random::RandomSource;
use std::sync::Wait;
use std::thread::Threads;

// Threshold 2, and else the small settings.
const TWICE: [&str; 8] = ["2", "3", "2", "4", "2", "0", "32", "8"];

// Runs these words over two traces and an empty bay, and wants the status and the text.
fn check_two(
    rt: &(impl Abort + Threads + Wait + Sync + RandomSource),
    alloc: Global,
    words: &[&str],
    two: &Two,
    status: Status,
    text: &str,
) {
    let ended = run_two(rt, alloc, words, two).expect(rt, "memory");
    ends(rt, &ended, status, text);
}

// Two traces, of which no read fails.
fn two<'a>(first: &'a [u8], second: &'a [u8]) -> Two<'a> {
    Two {
        first,
        second,
        failing_read: 0,
    }
}

#[test]
fn a_key_of_two_traces_is_counted_in_both(rt: HostRuntime) {
    let one = trace(rt.alloc(), &[7]).expect(&rt, "memory");
    let both = two(&one, &one);
    let text = "cone 0 events 2 reports 1 closed\n7 2\ntotal events 2 reports 1\n";
    // One name twice is two readers.
    let crews = [("1", "b"), ("2", "b"), ("64", "b"), ("2", "a")];
    for crew in 0..4 {
        let (workers, second) = crews[crew];
        let words = crew_form(TWICE, workers, second);
        check_two(&rt, rt.alloc(), &words, &both, Status::Done, text);
    }
}

#[test]
fn a_key_weighs_in_traces_of_both_versions_together(rt: HostRuntime) {
    let plain = trace(rt.alloc(), &[7]).expect(&rt, "memory");
    let weighed = weighed_trace(rt.alloc(), &[(7, 2), (8, 1)]).expect(&rt, "memory");
    let both = two(&plain, &weighed);
    let words = crew_form(SMALL, "1", "b");
    let text = "cone 0 events 3 reports 1 closed\n7 2\ntotal events 3 reports 1\n";
    check_two(&rt, rt.alloc(), &words, &both, Status::Done, text);
}

#[test]
fn the_lowest_trace_with_the_first_kind_of_fault_is_answered(rt: HostRuntime) {
    let mut cut = trace(rt.alloc(), &[7, 7]).expect(&rt, "memory");
    cut.truncate(21);
    let bad = [0x4c, 0x45, 0x52, 0x55, 1, 0, 0, 0];
    let rows: [(&[u8], u64, Status); 2] = [
        (&bad, 0, Status::BadTrace { trace: 0, at: 16 }),
        (&cut, 1, Status::TraceFault { trace: 0 }),
    ];
    let words = crew_form(TWICE, "2", "b");
    for (second, failing_read, status) in rows {
        let place = Two {
            first: &cut,
            second,
            failing_read,
        };
        check_two(&rt, rt.alloc(), &words, &place, status, "");
    }
}

// Runs these words over two traces without a byte, and wants the rule that they break.
fn check_rule(
    rt: &(impl Abort + Threads + Wait + Sync + RandomSource),
    alloc: Global,
    words: &[&str],
    rule: u8,
) {
    let none = two(&[], &[]);
    check_two(rt, alloc, words, &none, Status::Usage { rule }, "");
}

// Words with one trace more than there may be.
fn too_many_words() -> [&'static str; 1_043] {
    let mut many = ["a"; 1_043];
    many[..18].copy_from_slice(&long_form(SMALL)[..18]);
    many
}

#[test]
fn rules_on_workers_and_traces_are_named(rt: HostRuntime) {
    for workers in ["0", "65"] {
        check_rule(&rt, rt.alloc(), &crew_form(SMALL, workers, "b"), 12);
    }
    // No trace.
    check_rule(&rt, rt.alloc(), &long_form(SMALL)[..18], 0);
    check_rule(&rt, rt.alloc(), &crew_form(SMALL, "2", "b")[..20], 0);
    check_rule(&rt, rt.alloc(), &too_many_words(), 13);
}

fn words_of(rt: &impl Abort, alloc: Global, texts: &[&str]) -> Words {
    let mut words = Words::new(alloc).expect(rt, "memory");
    for text in texts {
        words.push(text).expect(rt, "memory");
    }
    words
}

#[test]
fn two_workers_read_at_once(rt: HostRuntime) {
    let sevens = trace(rt.alloc(), &[7, 7, 7]).expect(&rt, "memory");
    let words = crew_form(SMALL, "2", "b");
    let words = words_of(&rt, rt.alloc(), &words);
    let (status, text) = run_pair(&rt, rt.alloc(), &words, &sevens, 8, 200_000_000).expect(
        &rt, "memory",
    );
    assert!(rt; status == Status::Done, "the status");
    let wanted = "cone 0 events 6 reports 1 closed\n7 3\ntotal events 6 reports 1\n";
    assert!(rt; text.as_slice() == wanted.as_bytes(), "the text");
}
