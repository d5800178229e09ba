//! The header of one cone's journal, read with its own settings and with others.

use crate::cones::{SMALL, settings_of, with_file};
use lert_base::{Kept, Numbers};
use lert_bay::JOURNAL;
use lert_files::{ReopenFault, read_journal_header};
use std::alloc::Global;
use std::process::Abort;

const OTHERS: Numbers = Numbers {
    threshold: 4,
    ..SMALL
};

// A header of these numbers, and a closed gate behind it, also of the first version.
const TEXT: [u8; 33] =
    *b"LERTJ\x02\0\0\x03\0\0\0\x20\0\0\0\x04\0\0\0\x08\0\0\0\x03\x02\x02\0\0\0\0\0\0";

const FIRST: [u8; 33] =
    *b"LERTJ\x01\0\0\x03\0\0\0\x20\0\0\0\x04\0\0\0\x08\0\0\0\x03\x02\x02\0\0\0\0\0\0";

const SECOND_CONE: [u8; 33] =
    *b"LERTJ\x02\0\0\x03\0\0\0\x20\0\0\0\x04\0\0\0\x08\0\0\0\x03\x02\x02\0\x01\0\0\0\0";

// The version that is read of a journal of these bytes, with these numbers.
fn answer_to(
    rt: &impl Abort,
    alloc: Global,
    numbers: Numbers,
    bytes: &[u8],
) -> Result<u8, ReopenFault> {
    let settings = settings_of(rt, numbers);
    let mut bay = with_file(rt, alloc, JOURNAL, bytes);
    read_journal_header(&mut bay, &settings, 0)
}

const OWN: Kept = Kept {
    cone: 0,
    version: 2,
    numbers: SMALL,
};

const OLD: Kept = Kept { version: 1, ..OWN };

const SECOND: Kept = Kept { cone: 1, ..OWN };

// Numbers, a journal of which so many bytes are there, and the version that is read of it.
const CASES: [(Numbers, &[u8], usize, Result<u8, ReopenFault>); 11] = [
    (SMALL, &TEXT, 33, Ok(2)),
    (SMALL, &FIRST, 33, Ok(1)),
    (
        OTHERS,
        &TEXT,
        33,
        Err(ReopenFault::OtherSettings { kept: OWN }),
    ),
    (
        OTHERS,
        &FIRST,
        33,
        Err(ReopenFault::OtherSettings { kept: OLD }),
    ),
    (
        SMALL,
        &SECOND_CONE,
        33,
        Err(ReopenFault::OtherSettings { kept: SECOND }),
    ),
    (
        SMALL,
        &TEXT,
        32,
        Err(ReopenFault::Malformed {
            file: JOURNAL,
            at: 32,
        }),
    ),
    (
        OTHERS,
        &TEXT,
        20,
        Err(ReopenFault::Malformed {
            file: JOURNAL,
            at: 20,
        }),
    ),
    // A third version, and another byte behind the second one.
    (
        SMALL,
        b"LERTJ\x03\0\0",
        8,
        Err(ReopenFault::Malformed {
            file: JOURNAL,
            at: 5,
        }),
    ),
    (
        SMALL,
        b"LERTJ\x02\x01\0",
        8,
        Err(ReopenFault::Malformed {
            file: JOURNAL,
            at: 6,
        }),
    ),
    (
        SMALL,
        b"LERTL\x01\0\0",
        8,
        Err(ReopenFault::Malformed {
            file: JOURNAL,
            at: 4,
        }),
    ),
    (
        SMALL,
        b"",
        0,
        Err(ReopenFault::Malformed {
            file: JOURNAL,
            at: 0,
        }),
    ),
];

fn check_header(
    rt: &impl Abort,
    alloc: Global,
    numbers: Numbers,
    bytes: &[u8],
    wanted: Result<u8, ReopenFault>,
) {
    let answer = answer_to(rt, alloc, numbers, bytes);
    assert!(rt; answer == wanted, "of {} bytes", bytes.len());
}

#[test]
fn a_header_is_this_cones_or_anothers_or_none(rt: HostRuntime) {
    for row in &CASES {
        let (numbers, text, len, wanted) = *row;
        let bytes = text.get(..len).expect(&rt, "the text is so long");
        check_header(&rt, rt.alloc(), numbers, bytes, wanted);
    }
}
