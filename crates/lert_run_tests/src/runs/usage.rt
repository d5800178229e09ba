//! Words that are no line, and lines that break a rule.

use super::check;
use crate::checks::whole_row;
use lert_top::Status;
use lert_trials::{HEADER, SMALL, long_form, short_form};
use std::alloc::Global;
use std::process::Abort;
use std::random::RandomSource;
use std::sync::Wait;
use std::thread::Threads;

// Runs words that break a rule, over a trace of no key.
fn check_usage(
    rt: &(impl Abort + Threads + Wait + Sync + RandomSource),
    alloc: Global,
    words: &[&str],
    rule: u8,
) {
    let row = whole_row(words, 1, &HEADER);
    check(rt, alloc, &row, Status::Usage { rule }, "");
}

#[test]
fn words_of_another_form_are_no_line(rt: HostRuntime) {
    let rows: [&[&str]; 10] = [
        &[],
        &["Run", "d", "a"],
        &["run", "d"],
        &["run", "d", ""],
        &["run", "d", "a", "-d"],
        &["run", "d", "a", "--bins"],
        &["run", "d", "a", "--bins=3", "--bins", "3"],
        &["run", "d", "a", "--seed", "3"],
        &["run", "d", "--", "a", "--"],
        &["recover", "d", "a"],
    ];
    for words in rows {
        check_usage(&rt, rt.alloc(), words, 0);
    }
}

#[test]
fn a_word_that_spells_no_number_is_no_line(rt: HostRuntime) {
    for number in [
        "+3",
        "",
        "3 ",
        "000000000000000000003",
        "18446744073709551616",
    ] {
        check_usage(&rt, rt.alloc(), &short_form(number), 0);
        let [_, bins, ratio, base, levels, cone_bits, room, packet] = SMALL;
        let numbers = [number, bins, ratio, base, levels, cone_bits, room, packet];
        check_usage(&rt, rt.alloc(), &long_form(numbers), 0);
    }
}

// Numbers of the small settings that are changed at their places, and the first rule that they break.
type Changed<'a> = (&'a [(usize, &'a str)], u8);

// The small settings, changed like this.
fn changed<'a>(changes: &'a [(usize, &'a str)]) -> [&'a str; 8] {
    let mut numbers = SMALL;
    for (place, number) in changes {
        if let Some(slot) = numbers.get_mut(*place) {
            *slot = *number;
        }
    }
    numbers
}

#[test]
fn the_first_broken_rule_is_named(rt: HostRuntime) {
    let rows: [Changed; 10] = [
        (&[(0, "0")], 1),
        (&[(0, "4294967296")], 1),
        (&[(1, "1")], 2),
        (&[(2, "17")], 3),
        (&[(3, "3")], 4),
        (&[(4, "9")], 5),
        (&[(6, "0")], 7),
        (&[(7, "1025")], 8),
        (&[(1, "2"), (2, "4"), (3, "65536"), (4, "7")], 11),
        (&[(1, "1"), (3, "3"), (7, "0")], 2),
    ];
    for (changes, rule) in rows {
        let words = long_form(changed(changes));
        check_usage(&rt, rt.alloc(), &words, rule);
    }
    for number in ["00", "4294967296"] {
        check_usage(&rt, rt.alloc(), &short_form(number), 1);
    }
}

#[test]
fn the_rules_on_many_cones_are_named(rt: HostRuntime) {
    let rows: [Changed; 3] = [
        (&[(5, "9")], 6),
        (&[(1, "16"), (3, "65536"), (5, "4")], 9),
        (&[(5, "8"), (6, "65537")], 10),
    ];
    for (changes, rule) in rows {
        let words = long_form(changed(changes));
        check_usage(&rt, rt.alloc(), &words, rule);
    }
}
