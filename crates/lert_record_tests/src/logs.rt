//! The bytes of a log, what a stop at each call of an append leaves, and each place at which a file
//! leaves the format.

use crate::same::assert_same;
use lert_bay::{LOG, MemBay};
use lert_gatelog::{GateLog, LogFault};
use std::alloc::Global;
use std::process::Abort;

// The greatest payload of these logs.
const MOST: u32 = 8;

// The text of the payload "ab", with the closed gate behind it.
const FIRST: [u8; 7] = *b"\x02\0\0\0ab\0";

// The text of the payload "c".
const SECOND: [u8; 6] = *b"\x01\0\0\0c\0";

// How many records stand behind the header of a log with at most two of them.
fn records(bay: &mut MemBay) -> Result<u32, LogFault> {
    let mut log = GateLog::at_gate(LOG, 4, MOST);
    let mut payload = [0; MOST as usize];
    if log.next(bay, &mut payload)?.is_none() {
        return Ok(0);
    }
    if log.next(bay, &mut payload)?.is_none() {
        return Ok(1);
    }
    Ok(2)
}

// A bay whose log holds these bytes.
fn loaded(rt: &impl Abort, alloc: Global, bytes: &[u8]) -> MemBay {
    let mut bay = MemBay::new(alloc).expect(rt, "memory");
    bay.load(LOG, bytes).expect(rt, "memory");
    bay
}

fn records_of(rt: &impl Abort, alloc: Global, bytes: &[u8]) -> Result<u32, LogFault> {
    let mut bay = loaded(rt, alloc, bytes);
    records(&mut bay)
}

// What a crash leaves of a log with one record, where the append of a second one is stopped at a call.
fn stopped(rt: &impl Abort, alloc: Global, call: u64, pick: u64) -> MemBay {
    let mut bay = MemBay::new(alloc).expect(rt, "memory");
    let mut log = GateLog::create(&mut bay, LOG, b"head", MOST).expect(rt, "no fault");
    log.append(&mut bay, &FIRST).expect(rt, "no fault");
    bay.stop_at(call);
    let _ = log.append(&mut bay, &SECOND);
    bay.crashed(pick).expect(rt, "memory")
}

// What is read of a log of two records: three answers, the buffer behind the first one, its first byte behind the second one,
// and the gate behind all.
type Told = ([Option<usize>; 3], [u8; 8], u8, u64);

fn read_two(bay: &mut MemBay) -> Result<Told, LogFault> {
    let mut log = GateLog::at_gate(LOG, 4, MOST);
    let mut payload = [0; MOST as usize];
    let first = log.next(bay, &mut payload)?;
    let behind_first = payload;
    let second = log.next(bay, &mut payload)?;
    let behind_second = payload[0];
    let third = log.next(bay, &mut payload)?;
    Ok((
        [first, second, third],
        behind_first,
        behind_second,
        log.gate(),
    ))
}

// Wants the records "ab" and "c" of a log, and no other.
fn assert_two(rt: &impl Abort, bay: &mut MemBay) {
    let want = ([Some(2), Some(1), None], *b"ab\0\0\0\0\0\0", b'c', 17);
    assert_same(rt, &read_two(bay), &Ok(want), "two records");
}

fn assert_log(rt: &impl Abort, bay: &MemBay, want: &[u8]) {
    assert_same(rt, &bay.bytes(LOG), &want, "a log");
}

#[test]
fn a_log_is_written_and_read(rt: HostRuntime) {
    let mut bay = MemBay::new(rt.alloc()).expect(&rt, "memory");
    let mut log = GateLog::create(&mut bay, LOG, b"head", MOST).expect(&rt, "no fault");
    assert_log(&rt, &bay, b"head\0");
    log.append(&mut bay, &FIRST).expect(&rt, "no fault");
    log.append(&mut bay, &SECOND).expect(&rt, "no fault");
    assert_log(&rt, &bay, b"head\x01\x02\0\0\0ab\x01\x01\0\0\0c\0");
    assert_two(&rt, &mut bay);
}

// How many records stand in a log, or the fault of who counted them.
type Count = Result<u32, LogFault>;

// By call and pick. The gate is one byte, so a pick keeps it or takes it back.
const LEFT: [(u64, [Count; 4]); 5] = [
    (1, [Ok(1), Ok(1), Ok(1), Ok(1)]),
    (2, [Ok(1), Ok(1), Ok(1), Ok(1)]),
    (3, [Ok(1), Ok(1), Ok(1), Ok(1)]),
    (4, [Ok(1), Ok(2), Ok(1), Ok(2)]),
    (5, [Ok(2), Ok(2), Ok(2), Ok(2)]),
];

fn left_by(rt: &impl Abort, alloc: Global, call: u64, pick: u64) -> Count {
    let mut bay = stopped(rt, alloc, call, pick);
    records(&mut bay)
}

fn left_by_each_pick(rt: &impl Abort, alloc: Global, call: u64) -> [Count; 4] {
    [
        left_by(rt, alloc, call, 0),
        left_by(rt, alloc, call, 1),
        left_by(rt, alloc, call, 2),
        left_by(rt, alloc, call, 3),
    ]
}

#[test]
fn a_stop_leaves_the_record_or_not(rt: HostRuntime) {
    for (call, want) in LEFT {
        let found = left_by_each_pick(&rt, rt.alloc(), call);
        assert_same(&rt, &(call, found), &(call, want), "records by pick");
    }
}

// The bytes of a log, and the place at which they leave the format.
const BROKEN: [(&[u8], u64); 6] = [
    (b"hea", 3),
    (b"head", 4),
    (b"head\x01\x02\0", 7),
    (b"head\x01\0\0\0\0\0", 5),
    (b"head\x01\x09\0\0\0abcdefghi\0", 5),
    (b"head\x01\x02\0\0\0a", 10),
];

#[test]
fn a_file_leaves_the_format_at_a_place(rt: HostRuntime) {
    for &(bytes, at) in &BROKEN {
        let answer = records_of(&rt, rt.alloc(), bytes);
        assert_same(&rt, &answer, &Err(LogFault::Malformed { at }), "a place");
    }
}

#[test]
fn a_header_and_its_gate_are_one_write(rt: HostRuntime) {
    let mut bay = MemBay::new(rt.alloc()).expect(&rt, "memory");
    bay.stop_at(2);
    assert!(rt; GateLog::create(&mut bay, LOG, b"head", MOST).is_err());
    assert_log(&rt, &bay, b"head\0");
}

#[test]
fn a_failed_call_is_told(rt: HostRuntime) {
    let mut bay = loaded(&rt, rt.alloc(), b"head\0");
    bay.fail_at(2);
    let answers = [records(&mut bay), records(&mut bay)];
    assert_same(&rt, &answers, &[Err(LogFault::Failed), Ok(0)], "two counts");
}
