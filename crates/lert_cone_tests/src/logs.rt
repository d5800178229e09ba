//! The bytes of whole logs, and of some that leave the format.

ghost use Rattle.std.specs.Prelude.{◌≡◌, []};

use crate::cones::{SMALL, changed, settings_of, with_file};
use lert_base::Report;
use lert_bay::{Bay, LOG};
use lert_files::{Directory, ReopenFault, read_whole_log};
use lert_plain::PlainTable;
use lert_reports::{LogPoint, ReportStore};
use std::alloc::Global;
use std::process::Abort;

// The log of a cone that was closed after three keys 7.
const CLOSED: [u8; 61] =
    *b"LERTL\x01\0\0\x01\x2f\0\0\0\x02\x03\0\0\0\0\0\0\0\x20\0\0\0\0\0\0\0\x01\0\0\0\0\0\0\0\0\0\x01\0\0\0\x07\0\0\0\0\0\0\0\x03\0\0\0\0\0\0\0\0";

// A log with the record of the first flush, which reports key 7, and a closing one, which reports key 8.
const TWO_RECORDS: [u8; 115] =
    *b"LERTL\x01\0\0\x01\x30\0\0\0\x01\x0c\0\0\0\0\0\0\0\x20\0\0\0\0\0\0\0\x01\0\0\0\0\0\0\0\x01\0\0\x01\0\0\0\x07\0\0\0\0\0\0\0\x0c\0\0\0\0\0\0\0\x01\x30\0\0\0\x02\x0d\0\0\0\0\0\0\0\x2d\0\0\0\0\0\0\0\x02\0\0\0\0\0\0\0\x01\0\0\x01\0\0\0\x08\0\0\0\0\0\0\0\x0d\0\0\0\0\0\0\0\0";

// What was read of a log: the answer, the reports, and the directory.
#[derive(Drop)]
struct Found {
    answer: Result<LogPoint, ReopenFault>,
    reports: Vec<Report>,
    directory: Directory,
}

// Reads the log of a bay into a store and a directory.
fn read_into<B: Bay>(
    rt: &impl Abort,
    bay: &mut B,
    store: &mut ReportStore<PlainTable>,
    directory: &mut Directory,
) -> Result<LogPoint, ReopenFault>
    requires same { store.old.settings ≡ SMALL }
    requires empty { store.old.reports ≡ [] }
{
    let mut buffer = [0; 549];
    read_whole_log(
        bay,
        &settings_of(rt, SMALL),
        0,
        2,
        store,
        directory,
        &mut buffer,
    )
}

fn read(rt: &impl Abort, alloc: Global, bytes: &[u8]) -> Found {
    let mut bay = with_file(rt, alloc, LOG, bytes);
    let mut store: ReportStore<PlainTable> = ReportStore::new(
        alloc,
        &settings_of(rt, SMALL),
    ).expect(rt, "memory");
    let mut directory = Directory::new();
    let answer = read_into(rt, &mut bay, &mut store, &mut directory);
    Found {
        answer,
        reports: store.list().to_vec(alloc).expect(rt, "memory"),
        directory,
    }
}

// Whether a whole log ends so, with these reports, and this directory.
fn is_whole(found: &Found, end: LogPoint, reports: &[Report], directory: &[u8]) -> bool {
    found.answer == Ok(end)
        && found.reports.as_slice() == reports
        && found.directory.bytes() == directory
}

fn check_whole(
    rt: &impl Abort,
    alloc: Global,
    bytes: &[u8],
    end: LogPoint,
    reports: &[Report],
    directory: &[u8],
) {
    assert!(rt; is_whole(&read(rt, alloc, bytes), end, reports, directory));
}

// A log is left at this place.
fn check_left(rt: &impl Abort, alloc: Global, bytes: &[u8], at: u64) {
    assert!(rt;
        read(rt, alloc, bytes).answer == Err(ReopenFault::Malformed { file: LOG, at }),
        "at {at}"
    );
}

// Whole logs of cones whose files are of version 2, with their end, their reports, and their directory. What the frames
// weigh isn't read there.
const WHOLE: [(&[u8], LogPoint, &[Report], &[u8]); 3] = [
    (
        b"LERTL\x01\0\0\0\x01",
        LogPoint {
            n0: 0,
            offset: 32,
            first: 1,
            closed: false,
            log_end: 8,
            version: 2,
            weight: 0,
        },
        &[],
        &[0, 0],
    ),
    (
        &CLOSED,
        LogPoint {
            n0: 3,
            offset: 32,
            first: 1,
            closed: true,
            log_end: 60,
            version: 2,
            weight: 0,
        },
        &[Report { key: 7, at: 3 }],
        &[0, 0],
    ),
    (
        &TWO_RECORDS,
        LogPoint {
            n0: 13,
            offset: 45,
            first: 2,
            closed: true,
            log_end: 114,
            version: 2,
            weight: 0,
        },
        &[Report { key: 7, at: 12 }, Report { key: 8, at: 13 }],
        &[1, 0, 0],
    ),
];

#[test]
fn whole_logs_are_read(rt: HostRuntime) {
    for row in &WHOLE {
        let (bytes, end, reports, directory) = *row;
        check_whole(&rt, rt.alloc(), bytes, end, reports, directory);
    }
}

// How many bytes are there of the closed log, and where it is left.
const CUT: [(usize, u64); 4] = [(3, 3), (8, 8), (60, 60), (50, 50)];

fn check_cut(rt: &impl Abort, alloc: Global, len: usize, at: u64) {
    let bytes = CLOSED.get(..len).expect(rt, "the log is so long");
    check_left(rt, alloc, bytes, at);
}

fn check_all_cut(rt: &impl Abort, alloc: Global) {
    for row in &CUT {
        let (len, at) = *row;
        check_cut(rt, alloc, len, at);
    }
}

// Logs of which these bytes are others, and where each is left.
const OTHERS: [(&[u8], &[(usize, u8)], u64); 6] = [
    // Another header, a log that was opened again, and a third kind of records.
    (&CLOSED, &[(0, b'l')], 0),
    (&CLOSED, &[(60, 1)], 60),
    (&CLOSED, &[(13, 3)], 13),
    // A key that was listed before stands before a position that is too great.
    (&TWO_RECORDS, &[(98, 7)], 98),
    (&TWO_RECORDS, &[(98, 7), (106, 14)], 98),
    (&TWO_RECORDS, &[(106, 14)], 106),
];

fn check_changed(rt: &impl Abort, alloc: Global, bytes: &[u8], others: &[(usize, u8)], at: u64) {
    let log = changed(rt, alloc, bytes, others);
    check_left(rt, alloc, &log, at);
}

fn check_all_changed(rt: &impl Abort, alloc: Global) {
    for row in &OTHERS {
        let (bytes, others, at) = *row;
        check_changed(rt, alloc, bytes, others, at);
    }
}

#[test]
fn a_log_leaves_its_format_at_a_place(rt: HostRuntime) {
    check_all_cut(&rt, rt.alloc());
    check_all_changed(&rt, rt.alloc());
}
