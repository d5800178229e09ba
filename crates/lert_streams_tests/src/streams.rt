//! Two tables and two frames in one order.

ghost use Rattle.std.specs.Prelude.{◌≡◌, All, length};

use crate::bins::{SMALL, empty_bay, pieces_of, settings_of, write_frame};
use lert_base::{CountTable, Piece};
use lert_bay::{Bay, FRAMES, MemBay};
use lert_frames::frame_place;
use lert_levels::streams::{BinStreams, StreamRoom};
use lert_merge::{Ahead, Order};
use lert_plain::PlainTable;
use std::alloc::Global;
use std::process::Abort;

// What the tables have, by tail and count.
const YOUNG: [(u64, u64); 4] = [(3, 1), (5, 2), (27, 2), (1 << 60, 1)];

// The events of each frame.
const WIDTH: u64 = 256;

// The place of frame 3 of level 1, which isn't read.
const ELSEWHERE: u64 = 12_720;

// A table of two tails.
fn table_of(rt: &impl Abort, alloc: Global, first: u64, second: u64) -> PlainTable
    ensures { result.room ≡ 128 }
{
    let mut table = PlainTable::new(alloc, 7, 57, 128).expect(rt, "memory");
    table.add(first, 2);
    table.add(second, 1);
    table
}

// The tables of two bins of level 0.
fn tables(rt: &impl Abort, alloc: Global) -> [PlainTable; 2]
    ensures { All (λ table. table.room ≡ 128) result }
{
    [table_of(rt, alloc, 27, 3), table_of(rt, alloc, 5, 1 << 60)]
}

// The tail and the count that come next in an order of streams. Before that bytes are written into the place of a frame
// that isn't read, where that is wanted.
fn next_of(
    rt: &impl Abort,
    order: &mut Order<MemBay, BinStreams<PlainTable>>,
    bay: &mut MemBay,
    is_written: bool,
) -> Option<(u64, u64)> {
    if is_written {
        bay.write_at(FRAMES, ELSEWHERE, &[255; 64])
            .expect(rt, "no fault");
    }
    let next = order.step(bay).expect(rt, "no fault");
    next.map(|(_stream, piece)| (piece.tail, piece.count))
}

// All of them.
fn ordered(
    rt: &impl Abort,
    alloc: Global,
    order: &mut Order<MemBay, BinStreams<PlainTable>>,
    bay: &mut MemBay,
    is_written: bool,
) -> Vec<(u64, u64)> {
    let mut all = Vec::new(alloc);
    for _ in 0..1_000 {
        match next_of(rt, order, bay, is_written) {
            Some(next) => all.push(next).expect(rt, "memory"),
            None => return all,
        }
    }
    panic!(rt; "the order doesn't end");
}

// The order of two tables and of the frames 1 and 2 of level 1.
fn merged(rt: &impl Abort, alloc: Global, bay: &mut MemBay, is_written: bool) -> Vec<(u64, u64)> {
    let young = tables(rt, alloc);
    let room = StreamRoom::new(alloc, &settings_of(rt, SMALL)).expect(rt, "memory");
    let mut streams = room.begin(1, &young);
    streams.read(1, 1, WIDTH);
    streams.read(1, 2, WIDTH);
    let ahead = Ahead::new(alloc, 4).expect(rt, "memory");
    ordered(rt, alloc, &mut Order::new(streams, ahead), bay, is_written)
}

// The same by a plain sort.
fn sorted(rt: &impl Abort, alloc: Global, first: &[Piece], second: &[Piece]) -> Vec<(u64, u64)> {
    let mut all = Vec::from_slice(alloc, &YOUNG).expect(rt, "memory");
    for piece in first {
        all.push((piece.tail, piece.count)).expect(rt, "memory");
    }
    for piece in second {
        all.push((piece.tail, piece.count)).expect(rt, "memory");
    }
    all.sort_unstable();
    all
}

// Whether two tables and two frames come in order, with or without writes into frame 3.
fn is_sorted(rt: &impl Abort, alloc: Global, is_written: bool) -> bool {
    let settings = settings_of(rt, SMALL);
    assert_eq!(rt; frame_place(&settings, 1, 1, 3), ELSEWHERE);
    let first = pieces_of(alloc, &[1, 1, 200], 57, 4, WIDTH).expect(rt, "memory");
    let second = pieces_of(alloc, &[], WIDTH, 6, WIDTH).expect(rt, "memory");
    let mut bay = empty_bay(rt, alloc);
    write_frame(rt, alloc, &mut bay, &settings, 1, 1, &first);
    write_frame(rt, alloc, &mut bay, &settings, 1, 2, &second);
    let all = merged(rt, alloc, &mut bay, is_written);
    all.as_slice() == sorted(rt, alloc, &first, &second).as_slice()
}

#[test]
fn tables_and_frames_come_in_one_order(rt: HostRuntime) {
    assert!(rt; is_sorted(&rt, rt.alloc(), false));
}

#[test]
fn writes_into_another_frames_place_change_nothing(rt: HostRuntime) {
    assert!(rt; is_sorted(&rt, rt.alloc(), true));
}
