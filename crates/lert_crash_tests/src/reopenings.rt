//! What a stop inside a reopening leaves, and where a packet is there behind a stop.

ghost use Rattle.std.specs.Prelude.{◌<◌};

use crate::crashes::{Left, MOST_CALLS, PACKET, go_on, settings, sevens_at, stopped};
use lert_base::Report;
use lert_bay::{LOG, MemBay};
use lert_cone::ConeRoom;
use lert_plain::PlainTable;
use lert_recover::{ReopenFault, reopen};
use std::alloc::Global;
use std::process::Abort;

// What a reopening leaves: the bay, and how many packets the cone has, or why there is none.
#[derive(Drop)]
struct Reopened {
    bay: MemBay,
    packets: Result<usize, ReopenFault>,
}

fn reopen_bay(rt: &impl Abort, alloc: Global, image: MemBay) -> Reopened {
    let room: ConeRoom<PlainTable> = ConeRoom::new(alloc, &settings(rt)).expect(rt, "memory");
    match reopen(room, 0, image) {
        Ok(cone) => Reopened {
            packets: Ok(cone.events() as usize / PACKET),
            bay: cone.into_bay(),
        },
        Err(refused) => Reopened {
            packets: Err(refused.fault),
            bay: refused.bay,
        },
    }
}

fn image_of(rt: &impl Abort, alloc: Global, bay: &MemBay, pick: u64) -> MemBay {
    let copy = bay.copied(alloc).expect(rt, "memory");
    copy.crashed(pick).expect(rt, "memory")
}

// Goes on with each image of what a reopening left, which has just these packets.
fn go_on_with_each(
    rt: &impl Abort,
    alloc: Global,
    keys: &[u64],
    bay: &MemBay,
    packets: usize,
    reports: &[Report],
) {
    for pick in 0..4 {
        let image = image_of(rt, alloc, bay, pick);
        go_on(rt, alloc, keys, image, packets, 0, reports);
    }
}

// Whether a reopening that met no stop wrote a log record. Answers none where it met its stop at this call.
fn record_written(
    rt: &impl Abort,
    image: &MemBay,
    left: &Reopened,
    packets: usize,
    call: u64,
) -> Option<bool> {
    if left.packets == Ok(packets) {
        // It syncs the three files before all else.
        assert!(rt; call > 3);
        return Some(image.bytes(LOG).len() < left.bay.bytes(LOG).len());
    }
    assert_eq!(rt; left.packets, Err(ReopenFault::Failed), "call {call}");
    None
}

// Stops the reopening of an image with these packets at a call, and goes on with what is left. Answers, where it met no stop,
// whether it writes a log record.
fn stop_reopening(
    rt: &impl Abort,
    alloc: Global,
    keys: &[u64],
    image: &MemBay,
    packets: usize,
    call: u64,
    reports: &[Report],
) -> Option<bool> {
    let mut bay = image.copied(alloc).expect(rt, "memory");
    bay.stop_at(call);
    let left = reopen_bay(rt, alloc, bay);
    go_on_with_each(rt, alloc, keys, &left.bay, packets, reports);
    record_written(rt, image, &left, packets, call)
}

// Stops the reopening of an image with these packets at each of its calls, and goes on with what is left. Answers whether it
// writes a log record, as it does where it makes a flush.
fn stop_reopening_at_each_call(
    rt: &impl Abort,
    alloc: Global,
    keys: &[u64],
    image: &MemBay,
    packets: usize,
    reports: &[Report],
) -> bool {
    for call in 1..MOST_CALLS {
        if let Some(writes) = stop_reopening(rt, alloc, keys, image, packets, call, reports) {
            return writes;
        }
    }
    panic!(rt; "no reopening met no stop")
}

// How many packets an image is opened with: those that were taken, and at most one more.
fn packets_of(rt: &impl Abort, alloc: Global, image: &MemBay, taken: usize) -> usize {
    let copy = image.copied(alloc).expect(rt, "memory");
    let owed = reopen_bay(rt, alloc, copy).packets;
    let packets = owed.expect(rt, "what a crash leaves is sound");
    assert!(rt; taken <= packets);
    assert!(rt; packets - taken <= 1);
    packets
}

// Stops the reopening of an image of a cone that was stopped, and answers whether it writes a log record.
fn stop_reopening_of(
    rt: &impl Abort,
    alloc: Global,
    keys: &[u64],
    left: &Left,
    pick: u64,
    reports: &[Report],
) -> bool {
    let image = image_of(rt, alloc, &left.bay, pick);
    let packets = packets_of(rt, alloc, &image, left.packets);
    stop_reopening_at_each_call(rt, alloc, keys, &image, packets, reports)
}

// Stops the reopening of each image of a cone that was stopped, and answers how many of them write a log record.
fn stop_each_reopening(
    rt: &impl Abort,
    alloc: Global,
    keys: &[u64],
    left: &Left,
    reports: &[Report],
) -> u32 {
    let mut flushing = 0u32;
    for pick in 0..4 {
        if stop_reopening_of(rt, alloc, keys, left, pick, reports) {
            flushing = flushing.saturating_add(1);
        }
    }
    flushing
}

// Stops a run over these keys at a call, and each reopening of what it left at each of its own. Answers how many of these
// write a log record, or none where the run met no stop.
fn stop_twice(
    rt: &impl Abort,
    alloc: Global,
    keys: &[u64],
    call: u64,
    reports: &[Report],
) -> Option<u32> {
    match stopped(rt, alloc, keys, call) {
        Some(left) => {
            if left.finished {
                return None;
            }
            Some(stop_each_reopening(rt, alloc, keys, &left, reports))
        }
        None => Some(0),
    }
}

// Stops a run over these keys at each of its calls, and each reopening of what it left at each of its own. Answers how many of
// these write a log record.
fn stop_twice_at_each_call(
    rt: &impl Abort,
    alloc: Global,
    keys: &[u64],
    reports: &[Report],
) -> u32 {
    let mut flushing = 0u32;
    for call in 1..MOST_CALLS {
        match stop_twice(rt, alloc, keys, call, reports) {
            Some(more) => flushing = flushing.saturating_add(more),
            None => return flushing,
        }
    }
    panic!(rt; "no run met no stop")
}

// The first call whose failing lets a cone be made: the first one of its first packet.
fn first_call(rt: &impl Abort, alloc: Global, keys: &[u64]) -> u64
    ensures { result < 1000 }
{
    for call in 1..MOST_CALLS {
        if stopped(rt, alloc, keys, call).is_some() {
            return call;
        }
    }
    panic!(rt; "no cone is made")
}

// How many packets a cone has that is opened over what a crash leaves of a run that stopped at a call.
fn packets_behind(rt: &impl Abort, alloc: Global, keys: &[u64], call: u64, pick: u64) -> usize {
    match stopped(rt, alloc, keys, call) {
        Some(left) => {
            let image = left.bay.crashed(pick).expect(rt, "memory");
            let reopened = reopen_bay(rt, alloc, image);
            reopened.packets.expect(rt, "what a crash leaves is sound")
        }
        None => panic!(rt; "a cone is made"),
    }
}

#[test]
fn a_packet_is_there_once_its_gate_is_synced(rt: HostRuntime) {
    let keys = sevens_at(&rt, rt.alloc(), 16, &[]);
    let first = first_call(&rt, rt.alloc(), &keys);
    // A packet makes a write, a sync, the write of its gate and a sync. The second one is stopped at its gate's write, at the
    // sync behind it, and behind that; by picks that take back all that isn't synced, and nothing.
    let packets = [
        packets_behind(&rt, rt.alloc(), &keys, first + 6, 0),
        packets_behind(&rt, rt.alloc(), &keys, first + 6, 1),
        packets_behind(&rt, rt.alloc(), &keys, first + 7, 0),
        packets_behind(&rt, rt.alloc(), &keys, first + 7, 1),
        packets_behind(&rt, rt.alloc(), &keys, first + 8, 0),
        packets_behind(&rt, rt.alloc(), &keys, first + 8, 1),
    ];
    assert_eq!(rt; packets, [1, 1, 1, 2, 2, 2]);
}

// A stop at each call of the reopenings of a run over so many keys, of which those at these positions are 7. Some of these
// make a flush that the run didn't come to.
fn stop_inside(rt: &impl Abort, alloc: Global, last: u64, places: &[u64], reports: &[Report])
    requires { last < 1000 }
{
    let keys = sevens_at(rt, alloc, last, places);
    let flushing = stop_twice_at_each_call(rt, alloc, &keys, reports);
    assert!(rt; flushing > 0);
}

#[test]
fn a_stop_inside_a_reopening_leaves_what_it_was_to_open(rt: HostRuntime) {
    let sixteenth = [Report { key: 7, at: 16 }];
    stop_inside(&rt, rt.alloc(), 32, &[], &[]);
    stop_inside(&rt, rt.alloc(), 16, &[1, 2, 13], &sixteenth);
}
