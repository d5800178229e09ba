//! The text of a record, and each place at which a payload leaves it.

ghost use Rattle.std.specs.Prelude.{◌≡◌, ◌+◌, ◌<◌, ◌≤◌, length};

use crate::settings::settings_of;
use lert_base::{Numbers, Report};
use lert_reports::{LogBefore, LogKind, LogParts, read_log, write_log};
use std::process::Abort;

// The log of a cone that was closed after three keys 7, with threshold 3.
const TEXT: [u8; 61] =
    *b"LERTL\x01\0\0\x01\x2f\0\0\0\x02\x03\0\0\0\0\0\0\0\x20\0\0\0\0\0\0\0\x01\0\0\0\0\0\0\0\0\0\x01\0\0\0\x07\0\0\0\0\0\0\0\x03\0\0\0\0\0\0\0\0";

#[test]
fn a_record_is_written(rt: HostRuntime) {
    let mut text = [255; 53];
    let len = written(&CLOSED, &mut text);
    assert!(rt; len == 52 && text.starts_with(&TEXT[9..]));
}

const NUMBERS: Numbers = Numbers {
    threshold: 3,
    bins: 3,
    ratio: 2,
    base: 4,
    levels: 2,
    cone_bits: 0,
    room: 32,
    packet: 8,
};

const NOTHING: LogBefore = LogBefore {
    flushes: 0,
    n0: 0,
    reports: 0,
    at: 0,
};

// What is answered to a payload behind nothing.
fn read(rt: &impl Abort, payload: &[u8]) -> Result<LogParts, u64> {
    read_log(&settings_of(rt, NUMBERS), 0, &NOTHING, payload)
}

#[test]
fn a_record_is_read(rt: HostRuntime) {
    let closed = LogParts {
        kind: LogKind::Closing,
        n0: 3,
        offset: 32,
        first: 1,
        directory_at: 25,
        reports_at: 31,
        reports: 1,
    };
    assert!(rt; read(&rt, &TEXT[13..60]) == Ok(closed));
}

// A record with one report, the bytes of its directory, and the cone and the records before it with which it is read.
#[derive(Clone, Copy)]
struct Case {
    kind: LogKind,
    n0: u64,
    offset: u64,
    first: u64,
    directory: &'static [u8],
    report: Report,
    cone: u32,
    before: LogBefore,
}

const CLOSED: Case = Case {
    kind: LogKind::Closing,
    n0: 3,
    offset: 32,
    first: 1,
    directory: &[0, 0],
    report: Report { key: 7, at: 3 },
    cone: 0,
    before: NOTHING,
};

const EARLY: Case = Case {
    kind: LogKind::Flush,
    ..CLOSED
};

const FIRST: Case = Case { n0: 12, ..EARLY };

const LATER: Case = Case {
    n0: 32,
    before: LogBefore {
        flushes: 5,
        ..NOTHING
    },
    ..EARLY
};

// Cases that break a rule, and the field at which their payload is left.
const BROKEN: [(Case, u64); 16] = [
    (EARLY, 1),
    (Case { n0: 12, ..CLOSED }, 1),
    (
        Case {
            before: LogBefore { n0: 4, ..NOTHING },
            ..CLOSED
        },
        1,
    ),
    (
        Case {
            offset: 31,
            ..CLOSED
        },
        9,
    ),
    (
        Case {
            offset: (1 << 46) + 1,
            ..CLOSED
        },
        9,
    ),
    (Case { first: 0, ..CLOSED }, 17),
    (Case { first: 2, ..CLOSED }, 17),
    (FIRST, 25),
    (
        Case {
            directory: &[1, 4, 0],
            ..FIRST
        },
        26,
    ),
    (
        Case {
            directory: &[1, 3, 1, 0],
            ..FIRST
        },
        27,
    ),
    (
        Case {
            directory: &[2, 1, 1, 1, 0],
            ..LATER
        },
        27,
    ),
    (
        Case {
            before: LogBefore {
                reports: 32,
                ..NOTHING
            },
            ..CLOSED
        },
        27,
    ),
    (Case { cone: 1, ..CLOSED }, 31),
    (
        Case {
            before: LogBefore { at: 4, ..NOTHING },
            ..CLOSED
        },
        39,
    ),
    (
        Case {
            report: Report { key: 7, at: 0 },
            ..CLOSED
        },
        39,
    ),
    (
        Case {
            report: Report { key: 7, at: 4 },
            ..CLOSED
        },
        39,
    ),
];

// Cases that break none.
const KEPT: [Case; 3] = [
    CLOSED,
    Case {
        directory: &[1, 3, 0],
        ..FIRST
    },
    Case {
        directory: &[2, 1, 0, 1, 1],
        ..LATER
    },
];

// Writes a case, whose directory has to fit, and answers how long the record is.
fn written(case: &Case, text: &mut [u8]) -> usize
    requires directory { length case.now.directory.now ≤ 6 }
    requires room { 50 + length case.now.directory.now ≤ length text.old }
    ensures { result ≡ 50 + length case.now.directory.now }
{
    write_log(
        case.kind,
        case.n0,
        case.offset,
        case.first,
        case.directory,
        &[case.report],
        text,
    )
}

// The field at which the payload that is written of a case is left.
fn left(rt: &impl Abort, case: &Case) -> Option<u64> {
    let settings = settings_of(rt, NUMBERS);
    let mut text = [0; 56];
    assert!(rt; case.directory.len() <= 6);
    let len = written(case, &mut text);
    read_log(&settings, case.cone, &case.before, &text[4..len - 1]).err()
}

#[test]
fn a_record_that_breaks_a_rule_is_left_at_its_field(rt: HostRuntime) {
    for (case, place) in BROKEN {
        assert!(rt; left(&rt, &case) == Some(place), "{place}");
    }
    for case in KEPT {
        assert!(rt; left(&rt, &case).is_none());
    }
}

// What is answered where a byte of the closing record is another.
fn changed(rt: &impl Abort, place: usize, byte: u8) -> Option<u64>
    requires { place < 47 }
{
    let mut payload = [0; 47];
    payload.copy_from_slice(&TEXT[13..60]);
    payload[place] = byte;
    read(rt, &payload).err()
}

#[test]
fn bytes_that_no_record_has_are_left(rt: HostRuntime) {
    // The kind; and more reports than there are bytes for, and fewer.
    let places = [changed(&rt, 0, 3), changed(&rt, 27, 2), changed(&rt, 27, 0)];
    assert_eq!(rt; places, [Some(0), Some(47), Some(31)]);
}
