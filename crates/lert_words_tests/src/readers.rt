//! `read_line` beside the reader by hand, over lines that were judged by eye.

ghost use Rattle.std.specs.Prelude.{◌≤◌, IfSome};

use crate::by_hand::{Given, HandFault, read_given};
use crate::lines::{line_of, words_of};
use lert_args::Line;
use lert_base::Words;
use std::alloc::Global;
use std::process::Abort;

// The options of a drill, by their names without the hyphens. The first eight are those of a recovery, the first nine those of a
// run, and the last two those of generated keys.
const OPTIONS: [&str; 11] = [
    "threshold",
    "bins",
    "ratio",
    "base",
    "levels",
    "cone-bits",
    "room",
    "packet",
    "workers",
    "seed",
    "events",
];

// What both readers say of a line: that it is none; that its words spell one, with the same places of names; or not the same.
#[derive(Clone, Copy, Debug, PartialEq, Eq)]
enum Verdict {
    NoLine,
    Spelt,
    Apart,
}

// Where the options of a command begin and end, where there is one of this name.
fn span_of(command: &str) -> Option<(usize, usize)>
    ensures { IfSome result (λ span. (span.0 ≤ span.1) × (span.1 ≤ 11)) }
{
    match command {
        "run" => Some((0, 9)),
        "recover" => Some((0, 8)),
        "gen" => Some((9, 11)),
        "drill" => Some((0, 11)),
        _ => None,
    }
}

// What the reader by hand says of a line, by the options of its command, or none where its words are faulty.
fn given_by_hand(rt: &impl Abort, alloc: Global, words: &Words) -> Option<Given> {
    if words.len() == 0 {
        return None;
    }
    let (first, last) = span_of(words.word(0))?;
    match read_given(alloc, &OPTIONS[first..last], words) {
        Ok(given) => Some(given),
        Err(HandFault::Faulty) => None,
        Err(HandFault::OutOfMemory) => panic!(rt; "memory"),
    }
}

// Whether a command takes so many names.
fn takes_names(command: &str, number: usize) -> bool {
    match command {
        "run" => number >= 2,
        "recover" => number == 1,
        _ => number == 0,
    }
}

// The places of the names of a line by the reader by hand, or none where the words spell no line.
fn names_by_hand(rt: &impl Abort, alloc: Global, words: &Words) -> Option<Vec<usize>> {
    let given = given_by_hand(rt, alloc, words)?;
    if words.len() > 0 && takes_names(words.word(0), given.names.len()) {
        return Some(given.names);
    }
    None
}

// Whether these are the places of the names of a line.
fn has_names(line: &Line, names: &[usize]) -> bool {
    match line {
        Line::Run { dir, traces, .. } => match names {
            [first, rest @ ..] => first == dir && rest == traces.as_slice(),
            [] => false,
        },
        Line::Recover { dir, .. } => names == [*dir].as_slice(),
        _ => names.is_empty(),
    }
}

// Whether both readers agree, where the one by hand finds names at these places in a line, or no line. A line that
// breaks a rule of numbers is spelt, and its names aren't told.
fn agree(line: &Result<Line, u8>, names: Option<&[usize]>) -> bool {
    match line {
        Ok(line) => match names {
            Some(names) => has_names(line, names),
            None => false,
        },
        Err(rule) => names.is_some() == (*rule > 0),
    }
}

// What both readers say of a line.
fn verdict_of(rt: &impl Abort, alloc: Global, text: &str) -> Verdict {
    let words = words_of(rt, alloc, text);
    let names = names_by_hand(rt, alloc, &words);
    let line = line_of(rt, alloc, &words);
    match (agree(&line, names.as_deref()), names.is_some()) {
        (true, true) => Verdict::Spelt,
        (true, false) => Verdict::NoLine,
        (false, _) => Verdict::Apart,
    }
}

// Lines, and what both readers say of each.
const ROWS: [(&str, Verdict); 37] = [
    ("run d a", Verdict::Spelt),
    ("run d dé a", Verdict::Spelt),
    ("run --bins 3 d --base=4096 a --workers 2", Verdict::Spelt),
    ("run --threshold=00000000000000000024 d a", Verdict::Spelt),
    ("run d a --room 18446744073709551615", Verdict::Spelt),
    ("run d a --", Verdict::Spelt),
    ("run -- d a", Verdict::Spelt),
    ("run d --ratio 4 -- -a --bins=3 --levels", Verdict::Spelt),
    ("recover d --base=4096 --", Verdict::Spelt),
    ("recover --cone-bits 3 -- --packet", Verdict::Spelt),
    ("gen", Verdict::Spelt),
    ("gen --seed 7 --events=9 --", Verdict::Spelt),
    ("drill --workers 0 --seed=0", Verdict::Spelt),
    ("run d a ", Verdict::NoLine),
    ("run d a --bins ", Verdict::NoLine),
    ("run d a --bins=", Verdict::NoLine),
    ("run d a --bins=3=4", Verdict::NoLine),
    ("run d a --bins +3", Verdict::NoLine),
    ("run d a --bins -3", Verdict::NoLine),
    ("run d a --bins -- 3", Verdict::NoLine),
    ("run d a --room 000000000000000000024", Verdict::NoLine),
    ("run d a --room=18446744073709551616", Verdict::NoLine),
    ("run d a --bin 3", Verdict::NoLine),
    ("run d a --=3", Verdict::NoLine),
    ("run d a ---bins 3", Verdict::NoLine),
    ("run d a -x", Verdict::NoLine),
    ("run d a --help", Verdict::NoLine),
    ("run d -- a -", Verdict::NoLine),
    ("run d -- a -- b", Verdict::NoLine),
    ("run d -- a ", Verdict::NoLine),
    ("recover d --workers 2", Verdict::NoLine),
    ("recover d --seed=1", Verdict::NoLine),
    ("gen --events 9 --seed", Verdict::NoLine),
    ("gen --bins=3", Verdict::NoLine),
    ("drill --seed=1 --bins 3 --seed 1", Verdict::NoLine),
    ("drill --events 5 d", Verdict::NoLine),
    (" run d a", Verdict::NoLine),
];

#[test]
fn clap_reads_what_the_reader_by_hand_reads(rt: HostRuntime) {
    for (line, verdict) in ROWS {
        assert_eq!(rt; verdict_of(&rt, rt.alloc(), line), verdict, "{line}");
    }
}
