//! Counts over the bins of level 0, and the bound of them, as tails come and bins are dropped.

ghost use Rattle.std.specs.Prelude.{◌≡◌, ◌+◌, ◌%◌, ◌<◌, ◌≤◌};

use crate::samples::{SMALL, empty_zero, fill, fill_with};
use lert_base::{Numbers, Settings};
use lert_levels::Zero;
use lert_plain::PlainTable;
use std::alloc::Global;
use std::process::Abort;

// The counts of the tails 5, 7 and 9.
fn counts(zero: &Zero<PlainTable>) -> [u64; 3]
    requires { zero.now.settings ≡ SMALL }
{
    [zero.count(5), zero.count(7), zero.count(9)]
}

// Whether they are right as tails come and bins are dropped.
fn are_counted(zero: &mut Zero<PlainTable>) -> bool
    requires settings { zero.old.settings ≡ SMALL }
    requires from { zero.old.from ≡ 0 }
    requires to { zero.old.to ≡ 0 }
{
    let at_first = counts(zero) == [0, 0, 0];
    fill(zero, 0, &[5, 5, 9, 5, 9]);
    let of_two_bins = counts(zero) == [3, 0, 2] && zero.tables().len() == 2;
    zero.drop_oldest();
    let of_one_bin = counts(zero) == [0, 0, 1];
    fill(zero, 5, &[7, 7, 7]);
    let grown = counts(zero) == [0, 3, 1];
    zero.drop_oldest();
    let of_none = counts(zero) == [0, 0, 0];
    fill(zero, 8, &[9]);
    let anew = counts(zero) == [0, 0, 1];
    at_first && of_two_bins && of_one_bin && grown && of_none && anew
}

#[test]
fn counts_are_those_of_the_bins(rt: HostRuntime) {
    assert!(rt; are_counted(&mut empty_zero(&rt, rt.alloc())));
}

// Whether weights add up, in the counts and in the bound, which ends at 255.
fn are_weighed(zero: &mut Zero<PlainTable>) -> bool
    requires settings { zero.old.settings ≡ SMALL }
    requires from { zero.old.from ≡ 0 }
    requires to { zero.old.to ≡ 0 }
{
    fill_with(zero, 0, &[5, 5, 9, 5, 5], 100);
    let counted = counts(zero) == [400, 0, 100];
    let bounded = zero.may_reach(9, 100) && !zero.may_reach(9, 101) && !zero.may_reach(7, 1);
    counted && bounded && zero.may_reach(5, 400)
}

#[test]
fn weights_add_up(rt: HostRuntime) {
    assert!(rt; are_weighed(&mut empty_zero(&rt, rt.alloc())));
}

// The small settings, with a threshold of which a byte of the bound can't say whether a tail weighs as much: 237 units of 13.
const HEAVY: Numbers = Numbers {
    threshold: 3072,
    ..SMALL
};

fn heavy(rt: &impl Abort, alloc: Global) -> Zero<PlainTable>
    ensures settings { result.settings ≡ HEAVY }
    ensures from { result.from ≡ 0 }
    ensures to { result.to ≡ 0 }
{
    let settings = Settings::new(HEAVY).expect(rt, "settings");
    Zero::new(alloc, &settings).expect(rt, "memory")
}

// Adds so many events of the tail 5, each of the weight 255, behind the last one.
fn weigh(zero: &mut Zero<PlainTable>, last: u64, count: u64)
    requires settings { zero.old.settings ≡ HEAVY }
    requires from { zero.old.from ≡ 0 }
    requires last { last ≡ zero.old.to }
    requires tables { last + count ≤ 12 }
    ensures settings { zero.new.settings ≡ HEAVY }
    ensures from { zero.new.from ≡ 0 }
    ensures to { zero.new.to ≡ last + count }
{
    for n in 0..count {
        zero.add(5, 255, last + n + 1);
    }
}

// Whether the bound tells heavy tails apart up to the threshold: eleven events are 220 units, and twelve are 240, though they
// weigh 3,060.
fn are_in_units(zero: &mut Zero<PlainTable>) -> bool
    requires settings { zero.old.settings ≡ HEAVY }
    requires from { zero.old.from ≡ 0 }
    requires to { zero.old.to ≡ 0 }
{
    weigh(zero, 0, 11);
    let below = !zero.may_reach(5, 3072) && zero.may_reach(5, 2805);
    weigh(zero, 11, 1);
    below && zero.may_reach(5, 3072) && zero.count(5) == 3060 && !zero.may_reach(7, 1)
}

#[test]
fn a_bound_in_units_tells_heavy_tails_apart(rt: HostRuntime) {
    assert!(rt; are_in_units(&mut heavy(&rt, rt.alloc())));
}

// Whether tails are refused that never came, or only in a bin that was dropped three drops ago.
fn are_refused(zero: &mut Zero<PlainTable>) -> bool
    requires settings { zero.old.settings ≡ SMALL }
    requires from { zero.old.from ≡ 0 }
    requires to { zero.old.to ≡ 0 }
{
    let at_first = !zero.may_reach(5, 1) && !zero.may_reach(7, 1);
    fill(zero, 0, &[5, 5, 5, 5, 9, 9, 9, 9, 9, 9, 9, 9]);
    let of_three_bins = zero.may_reach(5, 4) && !zero.may_reach(5, 5) && !zero.may_reach(7, 1);
    zero.drop_oldest();
    fill(zero, 12, &[9, 9, 9, 9]);
    zero.drop_oldest();
    fill(zero, 16, &[9, 9, 9, 9]);
    zero.drop_oldest();
    let of_dropped = !zero.may_reach(5, 1) && zero.may_reach(9, 8);
    at_first && of_three_bins && of_dropped
}

#[test]
fn absent_tails_are_refused(rt: HostRuntime) {
    assert!(rt; are_refused(&mut empty_zero(&rt, rt.alloc())));
}

// The tail of the event at a position: below 8, the seldomer the more bits it has.
fn drawn(m: u64) -> u64
    ensures { result < 8 }
{
    let mixed = m.wrapping_mul(0x9e37_79b9_7f4a_7c15);
    ((mixed >> 24) & (mixed >> 12)) % 8
}

// Adds the drawn tails of a bin, whose positions are above `last`.
fn fill_bin(zero: &mut Zero<PlainTable>, last: u64)
    requires settings { zero.old.settings ≡ SMALL }
    requires last { last ≡ zero.old.to }
    requires aligned { zero.old.from % 4 ≡ 0 }
    requires ordered { zero.old.from ≤ last }
    requires tables { last + 4 ≤ zero.old.from + 12 }
    requires positions { last ≤ 67 }
    ensures settings { zero.new.settings ≡ SMALL }
    ensures from { zero.new.from ≡ zero.old.from }
    ensures to { zero.new.to ≡ last + 4 }
{
    let tails = [
        drawn(last + 1),
        drawn(last + 2),
        drawn(last + 3),
        drawn(last + 4),
    ];
    fill(zero, last, &tails);
}

// How often a tail is drawn at the positions above `from`, up to `to`.
fn times_drawn(tail: u64, from: u64, to: u64) -> u64
    requires { to ≤ 71 }
{
    let mut times = 0u64;
    for m in from..to {
        if drawn(m + 1) == tail {
            times = times.saturating_add(1);
        }
    }
    times
}

// Whether each tail may have come as often as it is drawn there.
fn may_reach_drawn(zero: &Zero<PlainTable>, from: u64, to: u64) -> bool
    requires { to ≤ 71 }
{
    for tail in 0..8 {
        if !zero.may_reach(tail, times_drawn(tail, from, to)) {
            return false;
        }
    }
    true
}

// Whether no tail is refused that came as often in the bins, as these come and go over seven generations of the bound.
fn none_is_refused(zero: &mut Zero<PlainTable>) -> bool
    requires settings { zero.old.settings ≡ SMALL }
    requires from { zero.old.from ≡ 0 }
    requires to { zero.old.to ≡ 0 }
{
    fill_bin(zero, 0);
    fill_bin(zero, 4);
    let mut none = true;
    for bin in 2..17 {
        fill_bin(zero, 4 * bin);
        none = none && may_reach_drawn(zero, 4 * bin - 8, 4 * bin + 4);
        zero.drop_oldest();
        none = none && may_reach_drawn(zero, 4 * bin - 4, 4 * bin + 4);
    }
    none
}

#[test]
fn no_tail_that_came_is_refused(rt: HostRuntime) {
    assert!(rt; none_is_refused(&mut empty_zero(&rt, rt.alloc())));
}
