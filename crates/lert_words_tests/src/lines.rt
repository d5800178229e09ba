//! Command lines: the rule that each faulty one gets, and where names stand.

use lert_args::{Line, LineFault, read_line};
use lert_base::Words;
use std::alloc::Global;
use std::process::Abort;

/// The words of a line, which stand in a text with one space between them.
pub fn words_of(rt: &impl Abort, alloc: Global, text: &str) -> Words {
    let mut words = Words::new(alloc).expect(rt, "memory");
    for word in text.split(' ') {
        words.push(word).expect(rt, "memory");
    }
    words
}

/// The line that words are, or the rule that they get. It tells no more, so that who calls has no facts to carry.
pub fn line_of(rt: &impl Abort, alloc: Global, words: &Words) -> Result<Line, u8> {
    match read_line(alloc, words) {
        Ok(line) => Ok(line),
        Err(LineFault::Usage { rule }) => Err(rule),
        Err(LineFault::OutOfMemory) => panic!(rt; "memory"),
    }
}

// The rule that a line gets, or none where it is one.
fn rule_of(rt: &impl Abort, alloc: Global, text: &str) -> Option<u8> {
    let words = words_of(rt, alloc, text);
    match line_of(rt, alloc, &words) {
        Ok(_line) => None,
        Err(rule) => Some(rule),
    }
}

// Lines, and the rule that each gets.
const ROWS: [(&str, Option<u8>); 20] = [
    ("", Some(0)),
    ("run", Some(0)),
    ("run d", Some(0)),
    ("run d a --bins", Some(0)),
    ("run d a --bins=3 --bins 3", Some(0)),
    ("run d a --bins=", Some(0)),
    ("run d -", Some(0)),
    ("run d a -x", Some(0)),
    ("run d -- a --", Some(0)),
    ("run d a --seed 1", Some(0)),
    ("run d a --bins 18446744073709551616", Some(0)),
    ("recover d a", Some(0)),
    ("gen d", Some(0)),
    ("drill --", None),
    ("run d a --bins 1 --workers 65", Some(2)),
    ("run d a --workers 65", Some(12)),
    ("gen --events=4294967296", None),
    ("gen --events=4294967297", Some(14)),
    ("drill --events=4194305", Some(14)),
    ("drill --events=4194305 --workers 0", Some(12)),
];

#[test]
fn faulty_lines_get_their_first_rule(rt: HostRuntime) {
    for (line, rule) in ROWS {
        assert_eq!(rt; rule_of(&rt, rt.alloc(), line), rule, "{line}");
    }
}

// Whether a line is a run with three bins and the other defaults, over the directory that the second word names and the trace
// that the fifth one does.
fn is_run_of_three_bins(line: &Line) -> bool {
    match line {
        Line::Run {
            settings,
            workers,
            dir,
            traces,
        } => {
            let numbers = settings.numbers();
            numbers.bins == 3
                && numbers.base == 4_096
                && *workers == 4
                && *dir == 1
                && traces.as_slice() == [4].as_slice()
        }
        _ => false,
    }
}

#[test]
fn a_name_behind_the_options_may_begin_with_a_hyphen(rt: HostRuntime) {
    let words = words_of(&rt, rt.alloc(), "run d --bins=003 -- -a");
    let line = line_of(&rt, rt.alloc(), &words).expect(&rt, "the words are a line");
    assert!(rt; is_run_of_three_bins(&line));
}

// The seed and the number of a line of generated keys.
fn generated(line: &Line) -> Option<(u64, u64)> {
    match line {
        Line::Gen { seed, events } => Some((*seed, *events)),
        _ => None,
    }
}

#[test]
fn generated_keys_have_a_seed_and_a_number(rt: HostRuntime) {
    let words = words_of(&rt, rt.alloc(), "gen --events 7");
    let line = line_of(&rt, rt.alloc(), &words).expect(&rt, "the words are a line");
    assert_eq!(rt; generated(&line), Some((1, 7)));
}
