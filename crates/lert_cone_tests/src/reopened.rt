//! Files that are read again: what a cone has of them, and why one isn't made.

use crate::cones::{SMALL, changed, empty_bay, settings_of};
use lert_bay::{Bay, FRAMES, JOURNAL, LOG, MemBay};
use lert_cone::{Cone, ConeRoom, ConeState};
use lert_plain::PlainTable;
use lert_recover::{ReopenFault, reopen};
use std::alloc::Global;
use std::process::Abort;

// The journal of a packet of three keys 7, which the first version had without weights, of that and another one, and of one
// that reaches the first flush.
const THREE: [u8; 73] =
    *b"LERTJ\x02\0\0\x03\0\0\0\x20\0\0\0\x04\0\0\0\x08\0\0\0\x03\x02\x02\0\0\0\0\0\x01\x23\0\0\0\0\0\0\0\0\0\0\0\x07\0\0\0\0\0\0\0\x01\x07\0\0\0\0\0\0\0\x01\x07\0\0\0\0\0\0\0\x01\0";

const FIRST_THREE: [u8; 70] =
    *b"LERTJ\x01\0\0\x03\0\0\0\x20\0\0\0\x04\0\0\0\x08\0\0\0\x03\x02\x02\0\0\0\0\0\x01\x20\0\0\0\0\0\0\0\0\0\0\0\x07\0\0\0\0\0\0\0\x07\0\0\0\0\0\0\0\x07\0\0\0\0\0\0\0\0";

const SIX: [u8; 113] =
    *b"LERTJ\x02\0\0\x03\0\0\0\x20\0\0\0\x04\0\0\0\x08\0\0\0\x03\x02\x02\0\0\0\0\0\x01\x23\0\0\0\0\0\0\0\0\0\0\0\x07\0\0\0\0\0\0\0\x01\x07\0\0\0\0\0\0\0\x01\x07\0\0\0\0\0\0\0\x01\x01\x23\0\0\0\0\0\0\0\0\0\0\0\x08\0\0\0\0\0\0\0\x01\x09\0\0\0\0\0\0\0\x01\x0a\0\0\0\0\0\0\0\x01\0";

const TWELVE: [u8; 154] =
    *b"LERTJ\x02\0\0\x03\0\0\0\x20\0\0\0\x04\0\0\0\x08\0\0\0\x03\x02\x02\0\0\0\0\0\x01\x74\0\0\0\0\0\0\0\0\0\0\0\x07\0\0\0\0\0\0\0\x01\x07\0\0\0\0\0\0\0\x01\x07\0\0\0\0\0\0\0\x01\x01\0\0\0\0\0\0\0\x01\x02\0\0\0\0\0\0\0\x01\x03\0\0\0\0\0\0\0\x01\x04\0\0\0\0\0\0\0\x01\x05\0\0\0\0\0\0\0\x01\x06\0\0\0\0\0\0\0\x01\x08\0\0\0\0\0\0\0\x01\x09\0\0\0\0\0\0\0\x01\x0a\0\0\0\0\0\0\0\x01\0";

// A log without a record, one that was closed after three keys 7, and one with the record of the first flush.
const BEGUN: [u8; 9] = *b"LERTL\x01\0\0\0";

const CLOSED: [u8; 61] =
    *b"LERTL\x01\0\0\x01/\0\0\0\x02\x03\0\0\0\0\0\0\0 \0\0\0\0\0\0\0\x01\0\0\0\0\0\0\0\0\0\x01\0\0\0\x07\0\0\0\0\0\0\0\x03\0\0\0\0\0\0\0\0";

const FLUSHED: [u8; 62] =
    *b"LERTL\x01\0\0\x010\0\0\0\x01\x0c\0\0\0\0\0\0\0 \0\0\0\0\0\0\0\x01\0\0\0\0\0\0\0\x01\0\0\x01\0\0\0\x07\0\0\0\0\0\0\0\x03\0\0\0\0\0\0\0\0";

// Journals of one packet of a key 7, as heavy as there is room for, 3 * 32, and by one heavier, and of two packets that are
// too heavy together by one.
const FULL: [u8; 55] =
    *b"LERTJ\x02\0\0\x03\0\0\0\x20\0\0\0\x04\0\0\0\x08\0\0\0\x03\x02\x02\0\0\0\0\0\x01\x11\0\0\0\0\0\0\0\0\0\0\0\x07\0\0\0\0\0\0\0\x60\0";

const OVER: [u8; 55] =
    *b"LERTJ\x02\0\0\x03\0\0\0\x20\0\0\0\x04\0\0\0\x08\0\0\0\x03\x02\x02\0\0\0\0\0\x01\x11\0\0\0\0\0\0\0\0\0\0\0\x07\0\0\0\0\0\0\0\x61\0";

const OVER_IN_TWO: [u8; 77] =
    *b"LERTJ\x02\0\0\x03\0\0\0\x20\0\0\0\x04\0\0\0\x08\0\0\0\x03\x02\x02\0\0\0\0\0\x01\x11\0\0\0\0\0\0\0\0\0\0\0\x07\0\0\0\0\0\0\0\x5a\x01\x11\0\0\0\0\0\0\0\0\0\0\0\x08\0\0\0\0\0\0\0\x07\0";

// The files of a cone behind its first flush that weighs 96 too: the journal, whose first four keys are 1 and weigh 22 each,
// the log, and the frame that counts them.
const HEAVY: [u8; 154] =
    *b"LERTJ\x02\0\0\x03\0\0\0\x20\0\0\0\x04\0\0\0\x08\0\0\0\x03\x02\x02\0\0\0\0\0\x01\x74\0\0\0\0\0\0\0\0\0\0\0\x01\0\0\0\0\0\0\0\x16\x01\0\0\0\0\0\0\0\x16\x01\0\0\0\0\0\0\0\x16\x01\0\0\0\0\0\0\0\x16\x02\0\0\0\0\0\0\0\x01\x03\0\0\0\0\0\0\0\x01\x04\0\0\0\0\0\0\0\x01\x05\0\0\0\0\0\0\0\x01\x06\0\0\0\0\0\0\0\x01\x08\0\0\0\0\0\0\0\x01\x09\0\0\0\0\0\0\0\x01\x0a\0\0\0\0\0\0\0\x01\0";

const HEAVY_LOG: [u8; 62] =
    *b"LERTL\x01\0\0\x01\x30\0\0\0\x01\x0c\0\0\0\0\0\0\0\x20\0\0\0\0\0\0\0\x01\0\0\0\0\0\0\0\x01\0\0\x01\0\0\0\x01\0\0\0\0\0\0\0\x01\0\0\0\0\0\0\0\0";

const HEAVY_FRAME: [u8; 44] =
    *b"\0\0\0\0\0\x20\0\0\x03\0\0\0\x04\0\0\0\0\0\0\0\x2c\xcb\xc2\x34\xfc\xbc\x56\0\x56\0\0\0\0\0\0\0\x2c\xcb\xc2\x34\xfc\xbc\x56\0";

fn bay(rt: &impl Abort, alloc: Global, files: &[&[u8]; 3]) -> MemBay {
    let mut bay = empty_bay(rt, alloc);
    bay.load(JOURNAL, files[0]).expect(rt, "memory");
    bay.load(LOG, files[1]).expect(rt, "memory");
    bay.load(FRAMES, files[2]).expect(rt, "memory");
    bay
}

// What there is to see of a cone that was reopened, or why there is none.
#[derive(Clone, Copy, PartialEq, Eq)]
struct Answer {
    state: Option<ConeState>,
    events: u64,
    reports: u64,
    fault: Option<ReopenFault>,
}

// Opens a bay again, and answers what there is to see, and the bay.
fn reopened<B: Bay>(rt: &impl Abort, alloc: Global, bay: B) -> (Answer, B)
where
    B: Drop,
{
    let settings = settings_of(rt, SMALL);
    let room: ConeRoom<PlainTable> = ConeRoom::new(alloc, &settings).expect(rt, "memory");
    match reopen(room, 0, bay) {
        Ok(cone) => (answer_of(&cone), cone.into_bay()),
        Err(refused) => (is_refused(refused.fault), refused.bay),
    }
}

fn answer_over(rt: &impl Abort, alloc: Global, files: &[&[u8]; 3]) -> Answer {
    let (answer, _bay) = reopened(rt, alloc, bay(rt, alloc, files));
    answer
}

fn answer_of<B: Bay>(cone: &Cone<B, PlainTable>) -> Answer {
    is_open(cone.state(), cone.events(), cone.reports().len() as u64)
}

fn is_open(state: ConeState, events: u64, reports: u64) -> Answer {
    Answer {
        state: Some(state),
        events,
        reports,
        fault: None,
    }
}

fn is_refused(fault: ReopenFault) -> Answer {
    Answer {
        state: None,
        events: 0,
        reports: 0,
        fault: Some(fault),
    }
}

fn is_left(file: u8, at: u64) -> Answer {
    is_refused(ReopenFault::Malformed { file, at })
}

// These files make a cone, of which this is to be seen.
fn check_made(
    rt: &impl Abort,
    alloc: Global,
    files: &[&[u8]; 3],
    state: ConeState,
    events: u64,
    reports: u64,
) {
    let answer = answer_over(rt, alloc, files);
    assert!(rt;
        answer == is_open(state, events, reports),
        "of {events} keys"
    );
}

// A file leaves its format at this byte.
fn check_left(rt: &impl Abort, alloc: Global, files: &[&[u8]; 3], file: u8, at: u64) {
    let answer = answer_over(rt, alloc, files);
    assert!(rt; answer == is_left(file, at), "file {file} at {at}");
}

// The files, and the state of the cone that they make, its keys and reports.
const MAKE: [([&[u8]; 3], ConeState, u64, u64); 7] = [
    ([&THREE, &BEGUN, &[]], ConeState::Running, 3, 1),
    ([&THREE, &CLOSED, &[]], ConeState::Finished, 3, 1),
    ([&FIRST_THREE, &BEGUN, &[]], ConeState::Running, 3, 1),
    ([&FIRST_THREE, &CLOSED, &[]], ConeState::Finished, 3, 1),
    ([&FULL, &BEGUN, &[]], ConeState::Running, 1, 1),
    (
        [&HEAVY, &HEAVY_LOG, &HEAVY_FRAME],
        ConeState::Running,
        12,
        1,
    ),
    ([&TWELVE, &BEGUN, &[]], ConeState::Running, 12, 1),
];

fn check_all_made(rt: &impl Abort, alloc: Global) {
    for row in &MAKE {
        let (files, state, events, reports) = row;
        check_made(rt, alloc, files, *state, *events, *reports);
    }
}

// The files, and which of them leaves its format, and where.
const LEAVE: [([&[u8]; 3], u8, u64); 5] = [
    ([&THREE, &[], &[]], LOG, 0),
    ([&TWELVE, &FLUSHED, &[]], FRAMES, 0),
    // The log was closed after three keys: a record goes past them.
    ([&SIX, &CLOSED, &[]], JOURNAL, 72),
    // The packet with which the weight is too great is left at its length.
    ([&OVER, &BEGUN, &[]], JOURNAL, 33),
    ([&OVER_IN_TWO, &BEGUN, &[]], JOURNAL, 55),
];

fn check_all_left(rt: &impl Abort, alloc: Global) {
    for row in &LEAVE {
        let (files, file, at) = row;
        check_left(rt, alloc, files, *file, *at);
    }
}

// Other bytes in the journal of three keys, and where each is left: a letter, a third version, the first one though there
// are weights, one of many callers, and a weight of 0.
const OTHERS: [(usize, u8, u64); 5] = [
    (4, b'L', 4),
    (5, 3, 5),
    (5, 1, 33),
    (37, 64, 37),
    (53, 0, 53),
];

fn check_other(rt: &impl Abort, alloc: Global, place: usize, byte: u8, at: u64) {
    let journal = changed(rt, alloc, &THREE, &[(place, byte)]);
    check_left(rt, alloc, &[&journal, &BEGUN, &[]], JOURNAL, at);
}

fn check_others(rt: &impl Abort, alloc: Global) {
    for row in &OTHERS {
        let (place, byte, at) = *row;
        check_other(rt, alloc, place, byte, at);
    }
}

// A frame that counts one more is too heavy with the eight keys behind it, and so are all twelve keys behind the frame, where
// the log says that the first one has position 5.
fn check_heavy(rt: &impl Abort, alloc: Global) {
    let heavier = changed(rt, alloc, &HEAVY_FRAME, &[(28, 87)]);
    check_left(rt, alloc, &[&HEAVY, &HEAVY_LOG, &heavier], JOURNAL, 33);
    let misnamed = changed(rt, alloc, &HEAVY_LOG, &[(30, 5)]);
    check_left(rt, alloc, &[&HEAVY, &misnamed, &HEAVY_FRAME], JOURNAL, 33);
}

// The log was closed after three keys, which are missing.
fn check_missing(rt: &impl Abort, alloc: Global) {
    check_left(rt, alloc, &[&THREE[..32], &CLOSED, &[]], JOURNAL, 32);
}

#[test]
fn files_make_a_cone_or_leave_their_format(rt: HostRuntime) {
    check_all_made(&rt, rt.alloc());
    check_all_left(&rt, rt.alloc());
    check_others(&rt, rt.alloc());
    check_heavy(&rt, rt.alloc());
    check_missing(&rt, rt.alloc());
}

// The bay of the twelve keys once it was opened again, which made their flush.
fn flushed(rt: &impl Abort, alloc: Global) -> MemBay {
    let (_answer, bay) = reopened(rt, alloc, bay(rt, alloc, &[&TWELVE, &BEGUN, &[]]));
    bay
}

// With its frames the flush is read again, and with less than these it isn't.
fn check_frames(rt: &impl Abort, alloc: Global, frames: &[u8]) {
    let cut = frames.get(..10).expect(rt, "a frame was written");
    let whole = ConeState::Running;
    check_made(rt, alloc, &[&TWELVE, &FLUSHED, frames], whole, 12, 1);
    check_left(rt, alloc, &[&TWELVE, &FLUSHED, cut], FRAMES, 10);
}

#[test]
fn a_flush_that_the_run_did_not_come_to(rt: HostRuntime) {
    let first = flushed(&rt, rt.alloc());
    assert!(rt; first.bytes(LOG) == FLUSHED.as_slice());
    check_frames(&rt, rt.alloc(), first.bytes(FRAMES));
}

// Offsets of the journal that a log names, and where the journal leaves its format then. Byte 33 is no open gate and
// 153 a closed one, before which the log's twelve keys are missing. There the journal ends.
const NAMED: [(u8, u64); 4] = [(33, 33), (153, 153), (154, 154), (200, 154)];

fn check_named(rt: &impl Abort, alloc: Global, frames: &[u8], offset: u8, at: u64) {
    let log = changed(rt, alloc, &FLUSHED, &[(22, offset)]);
    check_left(rt, alloc, &[&TWELVE, &log, frames], JOURNAL, at);
}

fn check_all_named(rt: &impl Abort, alloc: Global, frames: &[u8]) {
    for row in &NAMED {
        let (offset, at) = *row;
        check_named(rt, alloc, frames, offset, at);
    }
}

#[test]
fn a_log_that_names_no_record_of_the_journal(rt: HostRuntime) {
    let first = flushed(&rt, rt.alloc());
    check_all_named(&rt, rt.alloc(), first.bytes(FRAMES));
}

fn check_failing(rt: &impl Abort, alloc: Global, call: u64) {
    let mut failing = bay(rt, alloc, &[&THREE, &CLOSED, &[]]);
    failing.fail_at(call);
    let (answer, refused) = reopened(rt, alloc, failing);
    assert!(rt; answer == is_refused(ReopenFault::Failed));
    assert!(rt; refused.bytes(JOURNAL) == THREE.as_slice());
}

#[test]
fn a_call_that_fails_is_told(rt: HostRuntime) {
    for call in 1..9 {
        check_failing(&rt, rt.alloc(), call);
    }
}
