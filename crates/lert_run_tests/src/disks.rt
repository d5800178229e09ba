//! What a run finds and leaves on the disks of its cones.

ghost use Rattle.std.specs.Prelude.{◌<◌};

use crate::checks::{SEVENS_TEXT, ends, ran, whole_row};
use lert_bay::MemBay;
use lert_top::Status;
use lert_trials::{Ended, Files, SMALL, bay_of, long_form, run_on, trace, trace_with};
use std::alloc::Global;
use std::process::Abort;
use std::random::RandomSource;
use std::sync::Wait;
use std::thread::Threads;

// The journal of the keys 7, 7, 7: a header, a packet of 35 bytes behind an open gate, and a closed gate.
const SEVENS: [u8; 73] =
    *b"LERTJ\x02\0\0\x03\0\0\0\x20\0\0\0\x04\0\0\0\x08\0\0\0\x03\x02\x02\0\0\0\0\0\x01\x23\0\0\0\0\0\0\0\0\0\0\0\x07\0\0\0\0\0\0\0\x01\x07\0\0\0\0\0\0\0\x01\x07\0\0\0\0\0\0\0\x01\0";

// What comes of the long form with these numbers over a trace, empty bays of so many cones, and this one of the next
// cone.
fn ran_on(
    rt: &(impl Abort + Threads + Wait + Sync + RandomSource),
    alloc: Global,
    numbers: &[&str; 8],
    trace: &[u8],
    empty: u32,
    bay: MemBay,
) -> Ended {
    run_on(rt, alloc, &long_form(*numbers), trace, empty, bay).expect(rt, "memory")
}

// Runs over the keys 7, 7, 7 and the bay of the one cone, wants the status and the text, and answers what the files
// hold then.
fn check_sevens(
    rt: &(impl Abort + Threads + Wait + Sync + RandomSource),
    alloc: Global,
    bay: MemBay,
    status: Status,
    text: &str,
) -> Files {
    let trace = trace(alloc, &[7, 7, 7]).expect(rt, "memory");
    let ended = ran_on(rt, alloc, &SMALL, &trace, 0, bay);
    ends(rt, &ended, status, text);
    let Ended { files, .. } = ended;
    files
}

fn has_journal(rt: &impl Abort, files: &Files, journal: &[u8]) {
    assert!(rt; files.journal.as_slice() == journal, "the journal");
}

// How many keys each packet of a journal has, by its format alone.
fn packets(rt: &impl Abort, alloc: Global, journal: &[u8]) -> Vec<usize> {
    let mut packets = Vec::new(alloc);
    let mut rest = journal.get(32..).unwrap_or(&[]);
    while let [1, a, b, c, d, behind @ ..] = rest {
        let len = u32::from_le_bytes([*a, *b, *c, *d]) as usize;
        packets.push(len.saturating_sub(8) / 9).expect(rt, "memory");
        rest = behind.get(len..).unwrap_or(&[]);
    }
    assert!(rt; matches!(rest, [0]), "a closed gate ends the journal");
    packets
}

// Wants packets of so many keys in a journal.
fn has_packets(rt: &impl Abort, alloc: Global, journal: &[u8], want: &[usize]) {
    let packets = packets(rt, alloc, journal);
    assert!(rt; packets.as_slice() == want, "the packets");
}

// Runs the long form with these numbers over so many keys, each of its own, and wants packets of so many
// keys in the journal.
fn check_packets(
    rt: &(impl Abort + Threads + Wait + Sync + RandomSource),
    alloc: Global,
    numbers: &[&str; 8],
    len: u8,
    status: Status,
    text: &str,
    want: &[usize],
) {
    let trace = trace_with(alloc, len, &[]).expect(rt, "memory");
    let bay = MemBay::new(alloc).expect(rt, "memory");
    let ended = ran_on(rt, alloc, numbers, &trace, 0, bay);
    ends(rt, &ended, status, text);
    has_packets(rt, alloc, &ended.files.journal, want);
}

#[test]
fn a_run_leaves_the_journal_of_its_keys(rt: HostRuntime) {
    let bay = MemBay::new(rt.alloc()).expect(&rt, "memory");
    let files = check_sevens(&rt, rt.alloc(), bay, Status::Done, SEVENS_TEXT);
    has_journal(&rt, &files, &SEVENS);
}

// An empty bay of which this call fails.
fn failing_bay(rt: &impl Abort, alloc: Global, call: u64) -> MemBay {
    let mut bay = MemBay::new(alloc).expect(rt, "memory");
    bay.fail_at(call);
    bay
}

#[test]
fn a_packet_whose_write_fails_stands_behind_a_closed_gate(rt: HostRuntime) {
    // Before the cone is made, and again as it is, the run asks for the three lengths; then it writes and
    // syncs two headers. So its third write, that of the packet, is the bay's call 11.
    let bay = failing_bay(&rt, rt.alloc(), 11);
    let failed = Status::BayFault { cone: 0 };
    let files = check_sevens(&rt, rt.alloc(), bay, failed, "");
    // Half of the 40 bytes are written.
    let mut torn = SEVENS;
    torn[32] = 0;
    has_journal(&rt, &files, &torn[..53]);
}

#[test]
fn a_second_run_refuses_the_files_of_the_first(rt: HostRuntime) {
    let bay = MemBay::new(rt.alloc()).expect(&rt, "memory");
    let first = check_sevens(&rt, rt.alloc(), bay, Status::Done, SEVENS_TEXT);
    let bay = bay_of(rt.alloc(), &first).expect(&rt, "memory");
    let refused = Status::NotFresh { cone: 0 };
    let second = check_sevens(&rt, rt.alloc(), bay, refused, "");
    assert!(rt; second.are(&first), "the files");
}

// The numbers of two cones.
const HALVES: [&str; 8] = ["3", "3", "2", "4", "2", "1", "32", "8"];

// A bay with a byte in one file.
fn bay_with_a_byte(rt: &impl Abort, alloc: Global, file: u8) -> MemBay
    requires { file < 3 }
{
    let mut bay = MemBay::new(alloc).expect(rt, "memory");
    bay.load(file, &[0]).expect(rt, "memory");
    bay
}

#[test]
fn the_first_cone_with_a_byte_is_named(rt: HostRuntime) {
    let trace = trace(rt.alloc(), &[7, 7, 7]).expect(&rt, "memory");
    for file in 0..3 {
        let bay = bay_with_a_byte(&rt, rt.alloc(), file);
        let ended = ran_on(&rt, rt.alloc(), &HALVES, &trace, 1, bay);
        ends(&rt, &ended, Status::NotFresh { cone: 1 }, "");
    }
}

// Wants that a place lacked a bay, where its trace and so many bays came back.
fn ends_lacking(rt: &impl Abort, ended: &Ended, cones: u32) {
    ends(rt, ended, Status::PlaceFault, "");
    assert!(rt; ended.trace && ended.bays == cones, "what came back");
}

#[test]
fn a_cone_without_a_bay_is_a_fault_of_the_place(rt: HostRuntime) {
    let trace = trace(rt.alloc(), &[7, 7, 7]).expect(&rt, "memory");
    let words = long_form(HALVES);
    for cones in 0..2 {
        let ended = ran(&rt, rt.alloc(), &whole_row(&words, cones, &trace));
        ends_lacking(&rt, &ended, cones);
    }
}

#[test]
fn a_cone_takes_as_many_keys_as_its_capacity(rt: HostRuntime) {
    let narrow = ["3", "3", "2", "4", "2", "0", "16", "8"];
    let rows: [(&[&str; 8], u8, Status, &str, &[usize]); 4] = [
        (
            &SMALL,
            71,
            Status::Done,
            "cone 0 events 71 reports 0 closed\ntotal events 71 reports 0\n",
            &[8, 8, 8, 8, 8, 8, 8, 8, 7],
        ),
        (
            &SMALL,
            72,
            Status::CapacityFull {
                cone: 0,
                n: 64,
                len: 8,
            },
            "",
            &[8; 8],
        ),
        (
            &narrow,
            48,
            Status::Done,
            "cone 0 events 48 reports 0 closed\ntotal events 48 reports 0\n",
            &[8; 6],
        ),
        (
            &narrow,
            49,
            Status::CapacityFull {
                cone: 0,
                n: 48,
                len: 1,
            },
            "",
            &[8; 6],
        ),
    ];
    for (numbers, len, status, text, want) in rows {
        check_packets(&rt, rt.alloc(), numbers, len, status, text, want);
    }
}
