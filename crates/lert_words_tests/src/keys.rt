//! Generated keys by vectors, and what a sink has when a write of a trace fails.

use lert_gen::{deal, key_at, write_trace};
use lert_io::{CallList, Failed, MemSink};
use std::alloc::Global;
use std::process::Abort;

#[test]
fn keys_are_those_of_the_vectors(rt: HostRuntime) {
    let keys = [key_at(0, 1), key_at(u64::MAX - 1, 1)];
    assert_eq!(rt; keys, [356, 0x64b5_720b_4b82_5f21]);
}

// A sink of so many bytes, of which this write fails, or none where it is 0.
fn sink(rt: &impl Abort, alloc: Global, room: u64, failing: u64) -> MemSink {
    let mut fails = CallList::new(alloc).expect(rt, "memory");
    fails.push(failing).expect(rt, "memory");
    MemSink::new(alloc, room, &fails).expect(rt, "memory")
}

#[test]
fn a_trace_of_one_key_has_sixteen_bytes(rt: HostRuntime) {
    let mut sink = sink(&rt, rt.alloc(), 100, 0);
    assert_eq!(rt; write_trace(0, 1, &mut sink), Ok(()));
    let bytes = [
        0x4c, 0x45, 0x52, 0x54, 1, 0, 0, 0, 0x64, 1, 0, 0, 0, 0, 0, 0,
    ];
    assert_eq!(rt; sink.bytes(), bytes.as_slice());
}

#[test]
fn a_third_write_that_fails_leaves_two_whole_blocks(rt: HostRuntime) {
    let mut sink = sink(&rt, rt.alloc(), 100_000, 3);
    let wrote = write_trace(7, 5_000, &mut sink);
    assert_eq!(rt; (wrote, sink.bytes().len()), (Err(Failed), 16_384));
}

#[test]
fn six_keys_are_dealt_in_turn(rt: HostRuntime) {
    let traces = deal(rt.alloc(), 1, 6).expect(&rt, "memory");
    let [first, second, third, fourth] = &traces;
    let lens = [first.len(), second.len(), third.len(), fourth.len()];
    assert_eq!(rt; lens, [24, 24, 16, 16]);
}
