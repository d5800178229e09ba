//! Small rows, and drawn tails beside a plain count.

ghost use Rattle.std.specs.Prelude.{◌<◌};

use lert_levels::bound::Bound;
use std::process::Abort;
use std::test::Fail;

/// The events of a generation of drawn tails.
const GENERATION: u64 = 8192;

/// Adds a tail so many times.
fn add_times(bound: &mut Bound, tail: u64, times: u64) {
    for _ in 0..times {
        bound.add(tail, 1);
    }
}

/// Asserts the rows: a tail, how often it comes, the turns from then on, a count, and whether it may be reached.
fn holds_rows(rt: &impl Abort, bound: &mut Bound) {
    for (tail, times, turns, count, answer) in [
        (7, 0, 0, 0, true),
        (7, 0, 0, 1, false),
        (7, 3, 0, 3, true),
        (7, 3, 0, 4, false),
        (7, 3, 1, 3, true),
        (7, 3, 1, 4, false),
        (7, 3, 2, 1, false),
        (0, 254, 0, 255, false),
        (0, 255, 0, 255, true),
        (u64::MAX, 256, 0, 1, true),
        (u64::MAX, 256, 1, u64::MAX, true),
        (u64::MAX, 256, 2, 1, false),
    ] {
        bound.clear();
        add_times(bound, tail, times);
        for _ in 0..turns {
            bound.turn();
        }
        assert_eq!(rt;
            bound.may_reach(tail, count),
            answer,
            "{count} of {times} after {turns} turns"
        );
    }
}

/// Asserts the rows: two weights of a tail, a count, and whether it may be reached.
fn holds_weights(rt: &impl Abort, bound: &mut Bound) {
    for (one, other, count, answer) in [
        (1u8, 255u8, 255, true),
        (254, 0, 255, false),
        (200, 54, 254, true),
        (200, 54, 255, false),
        (200, 55, 255, true),
        (255, 255, u64::MAX, true),
    ] {
        bound.clear();
        bound.add(7, one);
        bound.add(7, other);
        assert_eq!(rt;
            bound.may_reach(7, count),
            answer,
            "{count} of {one} and {other}"
        );
    }
}

#[test]
fn weights_add_up_to_a_byte(rt: HostRuntime) -> Result<(), Fail> {
    let mut four = Bound::new(rt.alloc(), 4)?;
    holds_weights(&rt, &mut four);
    Ok(())
}

#[test]
fn both_generations_count(rt: HostRuntime) -> Result<(), Fail> {
    let mut four = Bound::new(rt.alloc(), 4)?;
    holds_rows(&rt, &mut four);
    let mut five = Bound::new(rt.alloc(), 5)?;
    holds_rows(&rt, &mut five);
    // Two in each generation, by two tails of one place.
    five.clear();
    add_times(&mut five, 7, 2);
    five.turn();
    add_times(&mut five, 12, 2);
    assert!(rt; five.may_reach(7, 4));
    assert!(rt; !five.may_reach(7, 5));
    assert!(rt; !five.may_reach(8, 1));
    Ok(())
}

/// A tail below 512, the seldomer the more bits it has.
fn drawn_tail(draw: u64) -> u64
    ensures { result < 512 }
{
    let mixed = draw.wrapping_mul(0x9e37_79b9_7f4a_7c15);
    ((mixed >> 24) & (mixed >> 12)) % 512
}

/// Asserts that each tail may have come as often as it did, and no oftener where it has its place to itself.
fn bounds_counts(rt: &impl Abort, bound: &Bound, alone: bool, before: &[u64], present: &[u64]) {
    for ((tail, old), new) in (0..512).zip(before).zip(present) {
        let times = old.saturating_add(*new);
        assert!(rt; bound.may_reach(tail, times), "{tail} came {times} times");
        if alone && times < 255 {
            assert!(rt;
                !bound.may_reach(tail, times + 1),
                "{tail} came {times} times"
            );
        }
    }
}

/// Adds drawn tails in three generations, beside a plain count of each.
fn add_drawn(rt: &impl Abort, bound: &mut Bound, alone: bool) {
    let mut before = [0u64; 512];
    let mut present = [0u64; 512];
    for draw in 0..3 * GENERATION {
        if draw % GENERATION == 0 {
            bound.turn();
            before = present;
            present = [0; 512];
        }
        let tail = drawn_tail(draw);
        bound.add(tail, 1);
        present[tail as usize] = present[tail as usize].saturating_add(1);
        if draw % 512 == 511 {
            bounds_counts(rt, bound, alone, &before, &present);
        }
    }
}

#[test]
fn drawn_tails_came_at_most_as_often_as_may_be_reached(rt: HostRuntime) -> Result<(), Fail> {
    let mut few = Bound::new(rt.alloc(), 100)?;
    add_drawn(&rt, &mut few, false);
    let mut many = Bound::new(rt.alloc(), 512)?;
    add_drawn(&rt, &mut many, true);
    Ok(())
}
