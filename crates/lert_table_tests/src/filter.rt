//! A filter of 64 quotients and remainders of 8 bits, slot by slot, and a filter beside a sorted list.

ghost use Rattle.std.specs.Prelude.{◌≡◌, ◌+◌, ◌^◌, ◌<◌, ◌≤◌};

use crate::bits::set_bits;
use lert_base::{CountTable, Piece};
use lert_cqf::Cqf;
use lert_plain::PlainTable;
use std::alloc::Global;
use std::process::Abort;

/// Asserts that the slots from 3 on are `values`, and all others 0.
fn slots_from_three(rt: &impl Abort, slots: &[u64], values: &[u64]) {
    for i in 0..slots.len() {
        let value = if i < 3 {
            0
        } else {
            values.get(i - 3).copied().unwrap_or(0)
        };
        assert_eq!(rt; slots[i], value);
    }
}

/// Asserts that the slots from 3 on are `slots`, that exactly these quotients occur, and that exactly these slots end a run.
fn has_rows(rt: &impl Abort, table: &Cqf, slots: &[u64], occupied: &[u64], run_ends: &[u64]) {
    slots_from_three(rt, table.slots(), slots);
    set_bits(rt, table.occupied(), occupied);
    set_bits(rt, table.run_ends(), run_ends);
}

#[test]
fn a_run_that_grows_moves_the_run_behind_it(rt: HostRuntime) {
    let mut table = Cqf::new(rt.alloc(), 6, 8, 8).expect(&rt, "memory");
    table.add(773, 1);
    table.add(777, 2);
    table.add(1025, 1);
    assert_eq!(rt; table.slots().len(), 96);
    has_rows(&rt, &table, &[5, 9, 9, 1], &[3, 4], &[5, 6]);
    table.add(773, 1);
    has_rows(&rt, &table, &[5, 5, 9, 9, 1], &[3, 4], &[6, 7]);
    assert_eq!(rt; [table.count(773), table.count(774)], [2, 0]);
    table.clear();
    has_rows(&rt, &table, &[], &[], &[]);
    drop(table);
}

#[test]
fn a_cursor_gives_each_group_of_each_run(rt: HostRuntime) {
    let mut table = Cqf::new(rt.alloc(), 6, 8, 8).expect(&rt, "memory");
    table.add(1025, 1);
    table.add(777, 5);
    table.add(773, 1);
    let mut cursor = table.start();
    let pieces = [
        table.step(&mut cursor),
        table.step(&mut cursor),
        table.step(&mut cursor),
        table.step(&mut cursor),
    ];
    assert_eq!(rt;
        pieces,
        [
            Some(Piece {
                tail: 773,
                count: 1
            }),
            Some(Piece {
                tail: 777,
                count: 5
            }),
            Some(Piece {
                tail: 1025,
                count: 1
            }),
            None
        ]
    );
    drop(table);
}

/// A tail below `limit`: of an even draw a skewed one, the seldomer the more bits it has, and of an odd one one of the
/// last 512, so that long runs stand at the end of the slots.
fn drawn_tail(limit: u64, draw: u64) -> u64
    requires { 512 ≤ limit }
    ensures { result < limit }
{
    let mixed = draw.wrapping_mul(0x9e37_79b9_7f4a_7c15);
    if draw % 2 == 0 {
        ((mixed >> 24) & (mixed >> 12)) % limit
    } else {
        limit - 1 - (mixed >> 24) % 512
    }
}

/// What is added by a draw: 1, or from 1 to 255 where it may weigh more.
fn drawn_weight(draw: u64, heavy: bool) -> u64
    ensures some { 1 ≤ result }
    ensures few { result ≤ 255 }
{
    if heavy {
        1 + (draw.wrapping_mul(0x9e37_79b9_7f4a_7c15) >> 40) % 255
    } else {
        1
    }
}

/// Adds the tails of the first `n` draws.
fn add_drawn<T: CountTable>(table: &mut T, limit: u64, n: u64, heavy: bool)
    requires room { T.adds table.old + n ≤ T.room table.old }
    requires limit { limit ≡ 2 ^ (T.quotient_bits table.old + T.width table.old) }
    requires long { 512 ≤ limit }
{
    for draw in 0..n {
        table.add(drawn_tail(limit, draw), drawn_weight(draw, heavy));
    }
}

/// Asserts that two tables give the same pieces.
fn same_pieces<A: CountTable, B: CountTable>(rt: &impl Abort, left: &A, right: &B) {
    let mut in_left = left.start();
    let mut in_right = right.start();
    for _ in 0..=left.adds() {
        let piece = left.step(&mut in_left);
        assert_eq!(rt; piece, right.step(&mut in_right));
        if piece.is_none() {
            return;
        }
    }
    panic!(rt; "more pieces than adds");
}

/// Asserts that two tables count each tail below `limit` the same.
fn same_counts<A: CountTable, B: CountTable>(rt: &impl Abort, left: &A, right: &B, limit: u64) {
    for tail in 0..limit {
        assert_eq!(rt; left.count(tail), right.count(tail));
    }
}

/// Asserts that two tables count the tails of the first `n` draws, and their neighbours, the same.
fn same_counts_of_drawn<A: CountTable, B: CountTable>(
    rt: &impl Abort,
    left: &A,
    right: &B,
    n: u64,
) {
    for draw in 0..n {
        let tail = drawn_tail(1 << 40, draw);
        let counts = [left.count(tail), left.count(tail ^ 1)];
        assert_eq!(rt; counts, [right.count(tail), right.count(tail ^ 1)]);
    }
}

#[test]
fn a_filter_counts_as_a_sorted_list_does(rt: HostRuntime) {
    let mut filter = Cqf::new(rt.alloc(), 10, 8, 100_000).expect(&rt, "memory");
    let mut list = PlainTable::new(rt.alloc(), 10, 8, 100_000).expect(&rt, "memory");
    add_drawn(&mut filter, 1 << 18, 100_000, false);
    add_drawn(&mut list, 1 << 18, 100_000, false);
    same_counts(&rt, &filter, &list, 1 << 18);
    same_pieces(&rt, &filter, &list);
    drop(filter);
}

#[test]
fn so_does_one_of_a_million_quotients(rt: HostRuntime) {
    let mut filter = Cqf::new(rt.alloc(), 20, 20, 20_000).expect(&rt, "memory");
    let mut list = PlainTable::new(rt.alloc(), 20, 20, 20_000).expect(&rt, "memory");
    add_drawn(&mut filter, 1 << 40, 20_000, false);
    add_drawn(&mut list, 1 << 40, 20_000, false);
    same_counts_of_drawn(&rt, &filter, &list, 20_000);
    same_pieces(&rt, &filter, &list);
    let lens = (filter.slots().len(), filter.occupied().len());
    assert_eq!(rt; lens, ((1 << 20) + 80_000, 1 << 20));
    drop(filter);
}

#[test]
fn so_does_one_with_weights(rt: HostRuntime) {
    let mut filter = Cqf::new(rt.alloc(), 10, 8, 20_000).expect(&rt, "memory");
    let mut list = PlainTable::new(rt.alloc(), 10, 8, 20_000).expect(&rt, "memory");
    add_drawn(&mut filter, 1 << 18, 20_000, true);
    add_drawn(&mut list, 1 << 18, 20_000, true);
    same_counts(&rt, &filter, &list, 1 << 18);
    same_pieces(&rt, &filter, &list);
    drop(filter);
}

/// Adds so much to a tail so many times.
fn add_times(table: &mut Cqf, tail: u64, weight: u64, times: u64)
    requires some { 1 ≤ weight }
    requires few { weight ≤ 255 }
    requires room { table.old.adds + times ≤ table.old.room }
    requires below { tail < 2 ^ (table.old.quotient_bits + table.old.width) }
{
    for _ in 0..times {
        table.add(tail, weight);
    }
}

/// Asserts the slots of the tail 773 in a filter that takes so much of it so many times, and has room for no more.
fn adds_make(rt: &impl Abort, alloc: Global, weight: u64, times: u64, slots: &[u64])
    requires some { 1 ≤ weight }
    requires few { weight ≤ 255 }
    requires times { times ≤ 2 ^ 39 }
{
    let mut table = Cqf::new(alloc, 6, 8, times).expect(rt, "memory");
    add_times(&mut table, 773, weight, times);
    has_rows(rt, &table, slots, &[3], &[2 + slots.len() as u64]);
    assert_eq!(rt; table.count(773), weight * times);
    drop(table);
}

#[test]
fn a_group_takes_no_more_than_four_slots_an_add(rt: HostRuntime) {
    let alloc = rt.alloc();
    adds_make(&rt, alloc, 1, 1, &[5]);
    adds_make(&rt, alloc, 1, 2, &[5, 5]);
    adds_make(&rt, alloc, 1, 3, &[5, 1, 5]);
    adds_make(&rt, alloc, 255, 1, &[5, 0, 254, 5]);
    adds_make(&rt, alloc, 255, 2, &[5, 2, 255, 5]);
    adds_make(&rt, alloc, 255, 4, &[5, 0, 6, 2, 5]);
    adds_make(&rt, alloc, 255, 1_013, &[5, 0, 6, 1, 250, 5]);
    adds_make(&rt, alloc, 255, 257_053, &[5, 0, 6, 1, 2, 3, 5]);
}

#[test]
fn a_digit_above_the_room_is_no_remainder(rt: HostRuntime) {
    let mut table = Cqf::new(rt.alloc(), 6, 8, 3).expect(&rt, "memory");
    table.add(773, 255);
    // The run is 5, 0, 254, 5. The count 255 is above the room, so the slot with 254 may be a digit, and is.
    assert_eq!(rt; [table.count(773), table.count(768 + 254)], [255, 0]);
    table.add(768 + 254, 1);
    assert_eq!(rt; [table.count(773), table.count(768 + 254)], [255, 1]);
    table.clear();
    table.add(773, 3);
    table.add(777, 1);
    // The run is 5, 1, 5, 9. No count is above 4, so a slot with 9 is a remainder.
    assert_eq!(rt;
        [table.count(773), table.count(777), table.count(778)],
        [3, 1, 0]
    );
    drop(table);
}
