//! What a recovery makes of the files that a run left.

use crate::checks::{SEVENS_TEXT, ends, ran, recovered, whole_row};
use lert_bay::{FRAMES, JOURNAL};
use lert_top::{MemPlace, Status};
use lert_trials::{
    Ended, Files, Row, SMALL, long_form, recover_form, run_at, run_before_failing, trace,
    trace_with,
};
use std::alloc::Global;
use std::process::Abort;
use std::random::RandomSource;
use std::sync::Wait;
use std::thread::Threads;

// What a run of the long form left of one cone, over a trace, where no call fails.
fn left_by_run(
    rt: &(impl Abort + Threads + Wait + Sync + RandomSource),
    alloc: Global,
    trace: &[u8],
    status: Status,
    text: &str,
) -> Files {
    let ended = ran(rt, alloc, &whole_row(&long_form(SMALL), 1, trace));
    ends(rt, &ended, status, text);
    let Ended { files, .. } = ended;
    files
}

// Recovers files, wants the status and the text, and answers what it left of the files.
fn check(
    rt: &(impl Abort + Threads + Wait + Sync + RandomSource),
    alloc: Global,
    files: &Files,
    status: Status,
    text: &str,
) -> Files {
    let ended = recovered(rt, alloc, &SMALL, files);
    ends(rt, &ended, status, text);
    let Ended { files, .. } = ended;
    files
}

// Wants a refusal, and the files as they were.
fn is_refused(rt: &impl Abort, ended: &Ended, files: &Files, status: Status) {
    ends(rt, ended, status, "");
    assert!(rt; ended.files.are(files), "the files");
}

// Recovers files with these numbers, wants this refusal, and the files as they were.
fn check_refused(
    rt: &(impl Abort + Threads + Wait + Sync + RandomSource),
    alloc: Global,
    numbers: &[&str; 8],
    files: &Files,
    status: Status,
) {
    let ended = recovered(rt, alloc, numbers, files);
    is_refused(rt, &ended, files, status);
}

/// What a run over the keys 7, 7, 7 left, with this write of the text failing, or none where it is 0.
pub fn sevens(
    rt: &(impl Abort + Threads + Wait + Sync + RandomSource),
    alloc: Global,
    failing_write: u64,
) -> Files {
    let trace = trace(alloc, &[7, 7, 7]).expect(rt, "memory");
    let row = Row {
        words: &long_form(SMALL),
        cones: 1,
        trace: &trace,
        failing_read: 0,
        failing_write,
    };
    let ended = ran(rt, alloc, &row);
    let (status, text) = match failing_write {
        0 => (Status::Done, SEVENS_TEXT),
        _ => (Status::OutFault, ""),
    };
    ends(rt, &ended, status, text);
    let Ended { files, .. } = ended;
    files
}

/// Changes one byte of a file.
pub fn change(rt: &impl Abort, bytes: &mut [u8], at: usize, byte: u8) {
    assert!(rt; at < bytes.len(), "such a place");
    bytes[at] = byte;
}

#[test]
fn a_finished_run_is_recovered_with_its_text(rt: HostRuntime) {
    let files = sevens(&rt, rt.alloc(), 0);
    check(&rt, rt.alloc(), &files, Status::Done, SEVENS_TEXT);
}

#[test]
fn a_run_whose_text_was_not_written_is_recovered_with_it(rt: HostRuntime) {
    let files = sevens(&rt, rt.alloc(), 1);
    check(&rt, rt.alloc(), &files, Status::Done, SEVENS_TEXT);
}

#[test]
fn a_run_that_was_full_is_recovered_open(rt: HostRuntime) {
    let full = Status::CapacityFull {
        cone: 0,
        n: 64,
        len: 8,
    };
    let trace = trace_with(rt.alloc(), 72, &[]).expect(&rt, "memory");
    let left = left_by_run(&rt, rt.alloc(), &trace, full, "");
    let text = "cone 0 events 64 reports 0 open\ntotal events 64 reports 0\n";
    check(&rt, rt.alloc(), &left, Status::Done, text);
}

// Runs over these bytes, of which this read fails, or none where it is 0, and recovers what was left.
fn check_stopped(
    rt: &(impl Abort + Threads + Wait + Sync + RandomSource),
    alloc: Global,
    bytes: &[u8],
    failing_read: u64,
    status: Status,
    text: &str,
) {
    let row = Row {
        words: &long_form(SMALL),
        cones: 1,
        trace: bytes,
        failing_read,
        failing_write: 0,
    };
    let ended = ran(rt, alloc, &row);
    assert!(rt; ended.ended_with(status), "the status");
    check(rt, alloc, &ended.files, Status::Done, text);
}

#[test]
fn a_run_that_its_trace_stopped_is_recovered_open_without_a_rest(rt: HostRuntime) {
    // Of ten whole keys eight are a packet, and two wait for theirs.
    let whole = trace_with(rt.alloc(), 10, &[]).expect(&rt, "memory");
    let mut cut = trace_with(rt.alloc(), 11, &[]).expect(&rt, "memory");
    cut.truncate(93);
    let bad = Status::BadTrace { trace: 0, at: 88 };
    let text = "cone 0 events 8 reports 0 open\ntotal events 8 reports 0\n";
    check_stopped(&rt, rt.alloc(), &cut, 0, bad, text);
    let failed = Status::TraceFault { trace: 0 };
    check_stopped(&rt, rt.alloc(), &whole, 2, failed, text);
}

// Wants this status, and the files as they were.
fn has_files(rt: &impl Abort, ended: &Ended, files: &Files, status: Status) {
    assert!(rt; ended.ended_with(status), "the status");
    assert!(rt; ended.files.are(files), "the files");
}

// What comes of a run or a recovery of two cones: the first one has these files, and the bay of the second one fails.
fn before_failing(
    rt: &(impl Abort + Threads + Wait + Sync + RandomSource),
    alloc: Global,
    words: &[&str],
    files: &Files,
) -> Ended {
    let bytes = trace(alloc, &[7]).expect(rt, "memory");
    run_before_failing(rt, alloc, words, &bytes, files, 1).expect(rt, "memory")
}

// Files of which the journal is a byte, and the others are empty.
fn one_byte(rt: &impl Abort, alloc: Global) -> Files {
    let mut files = Files::new(alloc);
    files.journal.push(0).expect(rt, "memory");
    files
}

#[test]
fn the_first_cone_that_is_refused_is_named_though_a_later_one_fails(rt: HostRuntime) {
    let halves = ["3", "3", "2", "4", "2", "1", "32", "8"];
    let files = one_byte(&rt, rt.alloc());
    let run = before_failing(&rt, rt.alloc(), &long_form(halves), &files);
    has_files(&rt, &run, &files, Status::NotFresh { cone: 0 });
    let recovery = before_failing(&rt, rt.alloc(), &recover_form(halves), &files);
    has_files(&rt, &recovery, &files, left_at(JOURNAL, 0));
}

#[test]
fn reports_of_a_flush_and_of_keys_behind_it_are_recovered(rt: HostRuntime) {
    // Key 7 is due at the flush at 16, key 8 at its third place behind that, and the cone is full.
    let trace = trace_with(
        rt.alloc(),
        72,
        &[(1, 7), (2, 7), (13, 7), (61, 8), (62, 8), (63, 8)],
    )
    .expect(&rt, "memory");
    let full = Status::CapacityFull {
        cone: 0,
        n: 64,
        len: 8,
    };
    let left = left_by_run(&rt, rt.alloc(), &trace, full, "");
    let text = "cone 0 events 64 reports 2 open\n7 16\n8 63\ntotal events 64 reports 2\n";
    let again = check(&rt, rt.alloc(), &left, Status::Done, text);
    // A recovery leaves the files as it found them, and may be repeated.
    assert!(rt; again.are(&left), "the files");
}

#[test]
fn the_last_records_name_the_frames_of_the_bins(rt: HostRuntime) {
    let trace = trace_with(rt.alloc(), 32, &[]).expect(&rt, "memory");
    let text = "cone 0 events 32 reports 0 closed\ntotal events 32 reports 0\n";
    let left = left_by_run(&rt, rt.alloc(), &trace, Status::Done, text);
    // The record of the flush at 32 and the closing one: both stand behind 32 keys, where level 1 has its bins in its frames 2
    // and 3, and level 2 has one in its frame 0. Level 0 begins at position 25, the first of the fourth packet, whose gate stands
    // at 32 + 3 * 85 = 287. The gates of both are open, and the one behind them is closed.
    let records = [
        1, 34, 0, 0, 0, 1, 32, 0, 0, 0, 0, 0, 0, 0, 31, 1, 0, 0, 0, 0, 0, 0, 25, 0, 0, 0, 0, 0, 0,
        0, 2, 2, 3, 1, 0, 0, 0, 0, 0, 1, 34, 0, 0, 0, 2, 32, 0, 0, 0, 0, 0, 0, 0, 31, 1, 0, 0, 0,
        0, 0, 0, 25, 0, 0, 0, 0, 0, 0, 0, 2, 2, 3, 1, 0, 0, 0, 0, 0, 0,
    ];
    assert!(rt; left.log.ends_with(&records));
}

#[test]
fn files_of_other_settings_are_refused(rt: HostRuntime) {
    let numbers = ["4", "3", "2", "4", "2", "0", "32", "8"];
    let files = sevens(&rt, rt.alloc(), 0);
    let other = Status::OtherSettings { cone: 0 };
    check_refused(&rt, rt.alloc(), &numbers, &files, other);
}

/// That the file of cone 0 leaves its format at a place.
pub fn left_at(file: u8, at: u64) -> Status {
    Status::Malformed { cone: 0, file, at }
}

#[test]
fn as_much_weight_as_there_is_room_for_is_recovered(rt: HostRuntime) {
    // Two keys 7 weigh 1, and the third one 94. It is reported at the third position as before.
    let mut files = sevens(&rt, rt.alloc(), 0);
    change(&rt, &mut files.journal, 71, 94);
    check(&rt, rt.alloc(), &files, Status::Done, SEVENS_TEXT);
}

// The journal of the keys 7, 7, 7 that the first version had, without weights.
const FIRST_JOURNAL: &[u8] =
    b"LERTJ\x01\0\0\x03\0\0\0\x20\0\0\0\x04\0\0\0\x08\0\0\0\x03\x02\x02\0\0\0\0\0\x01\x20\0\0\0\0\0\0\0\0\0\0\0\x07\0\0\0\0\0\0\0\x07\0\0\0\0\0\0\0\x07\0\0\0\0\0\0\0\0";

#[test]
fn the_files_of_the_first_version_are_recovered_with_their_text(rt: HostRuntime) {
    let mut files = sevens(&rt, rt.alloc(), 0);
    files.journal.clear();
    files
        .journal
        .extend_from_slice(FIRST_JOURNAL)
        .expect(&rt, "memory");
    let again = check(&rt, rt.alloc(), &files, Status::Done, SEVENS_TEXT);
    assert!(rt; again.are(&files), "the files");
}

#[test]
fn a_log_whose_closing_record_has_a_closed_gate_is_recovered_open(rt: HostRuntime) {
    let mut files = sevens(&rt, rt.alloc(), 0);
    change(&rt, &mut files.log, 8, 0);
    let text = "cone 0 events 3 reports 1 open\n7 3\ntotal events 3 reports 1\n";
    check(&rt, rt.alloc(), &files, Status::Done, text);
}

#[test]
fn a_broken_frame_is_named_by_its_place(rt: HostRuntime) {
    let trace = trace_with(rt.alloc(), 16, &[]).expect(&rt, "memory");
    let text = "cone 0 events 16 reports 0 closed\ntotal events 16 reports 0\n";
    let mut left = left_by_run(&rt, rt.alloc(), &trace, Status::Done, text);
    // The flush at 16 wrote the second frame of level 1, behind the 20 + 32 * 8 bytes of the first one. More slots of its
    // block than the eight events of its bin take are left at their field, behind eight bytes.
    change(&rt, &mut left.frames, 284, 33);
    check_refused(&rt, rt.alloc(), &SMALL, &left, left_at(FRAMES, 284));
}

#[test]
fn empty_files_are_no_journal(rt: HostRuntime) {
    let files = Files::new(rt.alloc());
    check_refused(&rt, rt.alloc(), &SMALL, &files, left_at(JOURNAL, 0));
}

#[test]
fn a_directory_without_the_bays_is_a_fault_of_the_place(rt: HostRuntime) {
    let mut place = MemPlace::new(rt.alloc()).expect(&rt, "memory");
    let words = recover_form(SMALL);
    let ended = run_at(&rt, rt.alloc(), &words, &mut place, 0).expect(&rt, "memory");
    ends(&rt, &ended, Status::PlaceFault, "");
}
