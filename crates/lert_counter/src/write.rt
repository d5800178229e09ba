//! Writing a group.

ghost use Rattle.std.specs.Prelude.{◌≡◌, ℕ, ◌+◌, ◌-◌, ◌^◌, ◌<◌, ◌≤◌, ◌++◌, [], ◌∷◌, List, take, drop, length, All};
ghost use Rattle.lert_counter.specs.Group.{group, counter, IsCount};

use crate::digits::{base_beside, leading_digit, put_digits, slot_of};

/// Digits but the last.
const MORE_DIGITS: u32 = 5;

/// Writes the counter of a remainder above 0.
fn write_counter(width: u32, x: u64, count: u64, into: &mut [u64]) -> usize
    requires narrow { 8 ≤ width }
    requires wide { width ≤ 62 }
    requires remainder { 0 < x }
    requires least { 3 ≤ count }
    requires count { IsCount count }
    requires room { 9 ≤ length into.old }
    ensures front { take result into.new ≡ counter width x count }
    ensures rest { drop result into.new ≡ drop result into.old }
    ensures within { result ≤ 9 }
{
    let base = base_beside(width, x);
    let leading = leading_digit(base, count - 3, MORE_DIGITS);
    into[0] = x;
    let mut start = 1;
    if slot_of(x, leading) > x {
        into[1] = 0;
        start = 2;
    }
    let end = put_digits(x, base, count - 3, MORE_DIGITS, into, start);
    into[end] = x;
    end + 1
}

/// Writes the counter of the remainder 0.
fn write_zero_counter(width: u32, count: u64, into: &mut [u64]) -> usize
    requires narrow { 8 ≤ width }
    requires wide { width ≤ 62 }
    requires least { 4 ≤ count }
    requires count { IsCount count }
    requires room { 9 ≤ length into.old }
    ensures front { take result into.new ≡ counter width 0 count }
    ensures rest { drop result into.new ≡ drop result into.old }
    ensures within { result ≤ 9 }
{
    let base = base_beside(width, 0);
    into[0] = 0;
    let end = put_digits(0, base, count - 4, MORE_DIGITS, into, 1);
    into[end] = 0;
    into[end + 1] = 0;
    end + 2
}

/// Writes the group of `x` and `count` to the front of `into`, and answers its length, at most nine. Its slots are below
/// 2^width where `x` is.
pub fn write_group(width: u32, x: u64, count: u64, into: &mut [u64]) -> usize
    requires narrow { 8 ≤ width }
    requires wide { width ≤ 62 }
    requires count { IsCount count }
    requires room { 9 ≤ length into.old }
    ensures len { result ≡ length (group width x count) }
    ensures front { take result into.new ≡ group width x count }
    ensures rest { drop result into.new ≡ drop result into.old }
    ensures within { result ≤ 9 }

    // The slots are as wide as the remainder.
    ensures below { x < 2 ^ width → All (λ slot. slot < 2 ^ width) (group width x count) }
{
    if count == 1 {
        into[0] = x;
        return 1;
    }
    if count == 2 {
        into[0] = x;
        into[1] = x;
        return 2;
    }
    if x > 0 {
        return write_counter(width, x, count, into);
    }
    if count == 3 {
        into[0] = 0;
        into[1] = 0;
        into[2] = 0;
        return 3;
    }
    write_zero_counter(width, count, into)
}
