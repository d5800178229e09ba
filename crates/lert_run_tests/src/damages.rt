//! The files of a run with one change, of which each is refused at the place where it leaves its format.

use crate::checks::recovered;
use crate::recoveries::{change, left_at, sevens};
use lert_bay::{JOURNAL, LOG};
use lert_top::Status;
use lert_trials::{Ended, Files, SMALL};
use std::alloc::Global;
use std::process::Abort;
use std::random::RandomSource;
use std::sync::Wait;
use std::thread::Threads;

// One change of a file: a byte at a place, or an end before its own.
#[derive(Clone, Copy)]
enum Damage {
    Byte(usize, u8),
    Cut(usize),
}

fn apply(rt: &impl Abort, bytes: &mut Vec<u8>, damage: Damage) {
    match damage {
        Damage::Byte(at, byte) => change(rt, bytes, at, byte),
        Damage::Cut(len) => {
            assert!(rt; len < bytes.len());
            bytes.truncate(len);
        }
    }
}

// Changes a file.
fn apply_to(rt: &impl Abort, files: &mut Files, file: u8, damage: Damage) {
    match file {
        JOURNAL => apply(rt, &mut files.journal, damage),
        _ => apply(rt, &mut files.log, damage),
    }
}

// Wants a refusal, and the files as they were.
fn refuses(rt: &impl Abort, ended: &Ended, files: &Files, status: Status, what: &str) {
    let is_refused = ended.ended_with(status) && ended.wrote("") && ended.files.are(files);
    assert!(rt; is_refused, "{what}");
}

// Changes what a run over the keys 7, 7, 7 left in a file, and wants this refusal of its recovery, and the files as they were.
fn check_changed(
    rt: &(impl Abort + Threads + Wait + Sync + RandomSource),
    alloc: Global,
    what: &str,
    file: u8,
    damage: Damage,
    status: Status,
) {
    let mut files = sevens(rt, alloc, 0);
    apply_to(rt, &mut files, file, damage);
    let ended = recovered(rt, alloc, &SMALL, &files);
    refuses(rt, &ended, &files, status, what);
}

// The journal is a header of 32 bytes and one packet, whose length stands at 33, its worker at 37 and its trace at 41, and a closed
// gate at 72. Each of its three keys has its weight behind it, the first one at 53 and the last one at 71. The log is a header of 8 bytes and a closing record, whose length stands at 9, its kind at 13, the number of events at 14
// and the position of its one report at 52, and a closed gate at 60.
#[test]
fn a_changed_file_is_named_with_the_first_place_at_which_it_leaves_its_format(rt: HostRuntime) {
    let rows: [(&str, u8, Damage, Status); 20] = [
        (
            "first letter",
            JOURNAL,
            Damage::Byte(0, 0),
            left_at(JOURNAL, 0),
        ),
        (
            "another base",
            JOURNAL,
            Damage::Byte(16, 5),
            Status::OtherSettings { cone: 0 },
        ),
        (
            "a key without its weight",
            JOURNAL,
            Damage::Byte(33, 34),
            left_at(JOURNAL, 33),
        ),
        (
            "a byte more",
            JOURNAL,
            Damage::Byte(33, 36),
            left_at(JOURNAL, 33),
        ),
        (
            "worker above 63",
            JOURNAL,
            Damage::Byte(37, 64),
            left_at(JOURNAL, 37),
        ),
        (
            "trace above 1,023",
            JOURNAL,
            Damage::Byte(42, 4),
            left_at(JOURNAL, 41),
        ),
        (
            "no weight",
            JOURNAL,
            Damage::Byte(53, 0),
            left_at(JOURNAL, 53),
        ),
        (
            "a weight more than 3 * 32",
            JOURNAL,
            Damage::Byte(71, 95),
            left_at(JOURNAL, 33),
        ),
        (
            "weights in a journal of version 1",
            JOURNAL,
            Damage::Byte(5, 1),
            left_at(JOURNAL, 33),
        ),
        (
            "version 3",
            JOURNAL,
            Damage::Byte(5, 3),
            left_at(JOURNAL, 5),
        ),
        ("cut header", JOURNAL, Damage::Cut(20), left_at(JOURNAL, 20)),
        ("cut gate", JOURNAL, Damage::Cut(72), left_at(JOURNAL, 72)),
        ("first letter", LOG, Damage::Byte(0, 0), left_at(LOG, 0)),
        ("no first gate", LOG, Damage::Cut(8), left_at(LOG, 8)),
        ("length 0", LOG, Damage::Byte(9, 0), left_at(LOG, 9)),
        ("kind 3", LOG, Damage::Byte(13, 3), left_at(LOG, 13)),
        (
            "events of the next flush",
            LOG,
            Damage::Byte(14, 12),
            left_at(LOG, 14),
        ),
        (
            "report behind the events",
            LOG,
            Damage::Byte(14, 2),
            left_at(LOG, 52),
        ),
        (
            "more events than keys",
            LOG,
            Damage::Byte(14, 4),
            left_at(JOURNAL, 72),
        ),
        ("cut gate", LOG, Damage::Cut(60), left_at(LOG, 60)),
    ];
    for (what, file, damage, status) in rows {
        check_changed(&rt, rt.alloc(), what, file, damage, status);
    }
}
