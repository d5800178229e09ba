//! One group of a word of run ends.

ghost use Rattle.std.specs.Prelude.{◌≡◌, ℕ, ◌+◌, ◌-◌, ◌^◌, ◌<◌, ◌≤◌, Bool, false, List, length, min, slice_index, slice_index_or, IsTrue, IfSome, MatchResult, Some};
ghost use Rattle.std.specs.Int.{bit_at};
ghost use Rattle.lert_blocks.specs.Grammar.{group_read};
ghost use Rattle.lert_blocks.specs.Walk.{first_bad, if_above};
ghost use Rattle.lert_blocks.specs.Decoding.{AreSlots, AreWhole, IsAlone, IsReach, IsStep, IsLeft};

use crate::decoder::Slots;
use crate::group::front_group;
use lert_counter::Group;

/// The most slots that a group has.
const MOST_SLOTS: usize = 9;

/// The slots to which the groups of a word reach: its 64, and eight behind them.
const NEAR_SLOTS: usize = 72;

/// Greater digits are left to `front_group`, which sees to it that the count isn't too great.
const MOST_DIGIT: u64 = 1 << 32;

/// A group of the word, and whether its last slot ends a run.
#[derive(Clone, Copy)]
pub struct Step {
    pub group: Group,
    pub ends_run: bool,
}

/// Whether the slots from `from` on are all that a group of the word may reach, and none has more than `width` bits.
pub fn are_whole(width: u32, slots: Slots, from: usize) -> bool
    requires narrow { width < 64 }
    requires from { from ≤ length slots.slots.now }
    requires few { length slots.slots.now ≤ min slots.some 72 }
    ensures { IsTrue result → AreWhole width from slots.entry }
{
    slots.slots.len() == slots.some.min(NEAR_SLOTS) && are_narrow(width, &slots.slots[from..])
}

/// Whether no slot has more than `width` bits.
fn are_narrow(width: u32, slots: &[u64]) -> bool
    requires { width < 64 }
    ensures { IsTrue result → (k : ℕ) → k < length slots.now → slice_index slots.now k < 2 ^ width }
{
    let mut union = 0;
    for slot in slots {
        union |= *slot;
    }
    union >> width == 0
}

/// Whether a slot ends a run.
fn is_run_end(slots: Slots, at: usize) -> bool
    requires near { at < 72 }
    requires within { at < slots.some }
    ensures { (ends : List Bool) (more : List ℕ) → AreSlots slots.entry ends more → slice_index_or ends at false ≡ result }
{
    if at < 64 {
        return (slots.ends >> at) & 1 == 1;
    }
    (slots.next_ends >> (at - 64)) & 1 == 1
}

/// The 64 bits of two words from the bit `at` of the first one on.
fn bits_from(word: u64, next: u64, at: usize) -> u64
    requires { at < 64 }
    ensures word { (i : ℕ) → at + i < 64 → bit_at result i ≡ bit_at word (at + i) }
    ensures next { (i : ℕ) → i < 64 → 64 ≤ at + i → bit_at result i ≡ bit_at next (at + i - 64) }
{
    (word >> at) | (next << 1 << (63 - at))
}

/// How many slots the group at a slot may have: those up to the end of its run, at most nine.
fn reach_at(slots: Slots, at: usize) -> usize
    requires word { at < 64 }
    requires within { at < slots.some }
    ensures { IsReach at slots.entry result }
{
    let ends = bits_from(slots.ends, slots.next_ends, at);
    let run = ends.trailing_zeros() as usize + 1;
    run.min(MOST_SLOTS).min(slots.some - at)
}

/// The first of so many slots that isn't there, or has more than `width` bits.
fn first_wrong(width: u32, count: usize, slots: &[u64]) -> Option<usize>
    requires narrow { width < 64 }
    requires count { length slots.now ≤ count }
    ensures { result ≡ first_bad width count slots.now }
{
    for (place, slot) in slots.iter().enumerate() {
        if *slot >> width != 0 {
            return Some(place);
        }
    }
    if slots.len() < count {
        Some(slots.len())
    } else {
        None
    }
}

/// The group at the front of slots of a run, where its remainder is above 0, and its count is two or stands in one
/// digit below the remainder.
fn short_group(slots: &[u64]) -> Option<Group>
    ensures { (width : ℕ) → 8 ≤ width → (slice_index slots.now 0 < 2 ^ width)
        → IfSome result (λ g. group_read width slots.now ≡ Some g) }
{
    if slots.len() < 2 || slots[0] == 0 {
        return None;
    }
    let x = slots[0];
    let digit = slots[1];
    if digit == x {
        return Some(Group {
            x,
            count: 2,
            used: 2,
        });
    }
    if slots.len() > 2 && slots[2] == x && 0 < digit && digit < x && digit < MOST_DIGIT {
        return Some(Group {
            x,
            count: digit + 2,
            used: 3,
        });
    }
    None
}

/// The group at the front of slots, which none follow but those of its run.
fn group_of(width: u32, slots: &[u64]) -> Option<Group>
    requires narrow { 8 ≤ width }
    requires wide { width ≤ 58 }
    requires slots { slice_index slots.now 0 < 2 ^ width }
    ensures { result ≡ group_read width slots.now }
{
    if let Some(group) = short_group(slots) {
        return Some(group);
    }
    front_group(width, slots)
}

/// The group at the front of slots of a run, of which there should be so many, or the one that breaks a rule.
fn judged(width: u32, least: u64, count: usize, slots: &[u64]) -> Result<Group, usize>
    requires narrow { 8 ≤ width }
    requires wide { width ≤ 58 }
    requires some { 1 ≤ count }
    requires count { length slots.now ≤ count }
    ensures { result ≡ if_above least (first_bad width count slots.now) (group_read width slots.now) }
{
    if let Some(place) = first_wrong(width, count, slots) {
        return Err(place);
    }
    let Some(group) = group_of(width, slots) else {
        return Err(0);
    };
    if group.x < least {
        return Err(0);
    }
    Ok(group)
}

/// The group at a slot, whatever it is.
fn any_step(width: u32, least: u64, slots: Slots, at: usize) -> Result<Step, usize>
    requires narrow { 8 ≤ width }
    requires wide { width ≤ 58 }
    requires word { at < 64 }
    requires within { at < slots.some }
    requires there { at ≤ length slots.slots.now }
    requires few { length slots.slots.now ≤ min slots.some 72 }
    ensures { MatchResult result (IsStep width least at slots.entry) (IsLeft width least at slots.entry) }
{
    let count = reach_at(slots, at);
    let end = slots.slots.len().min(at + count);
    match judged(width, least, count, &slots.slots[at..end]) {
        Ok(group) => Ok(Step {
            group,
            ends_run: is_run_end(slots, at + group.used - 1),
        }),
        Err(place) => Err(at + place),
    }
}

/// The slot there, or the greatest number, where there is none.
fn slot_or_most(slots: &[u64], at: usize) -> u64
    ensures { at < length slots.now → result ≡ slice_index slots.now at }
{
    if at < slots.len() {
        slots[at]
    } else {
        u64::MAX
    }
}

/// Below which a slot is alone: the next one, or anything where it ends its run. Both are at hand here, so that
/// no branch depends on where runs end.
fn bound_of(next: u64, ends_run: bool) -> u64
    ensures { ends_run ≡ false → result ≡ next }
{
    if ends_run { u64::MAX } else { next }
}

/// Whether a slot above 0 is a group of its own by the next slot alone: it ends its run, or the next one is greater.
fn stands_alone(slots: &[u64], at: usize, ends_run: bool) -> bool
    requires { at < length slots.now }
    ensures { IsTrue result → IsAlone at slots.now ends_run }
{
    let x = slots[at];
    let bound = bound_of(slot_or_most(slots, at + 1), ends_run);
    0 < x && x < bound
}

/// The group at a slot, or the slot that breaks a rule. Where the slots are whole, most groups are seen at once.
pub fn next_step(
    width: u32,
    least: u64,
    whole: bool,
    slots: Slots,
    at: usize,
) -> Result<Step, usize>
    requires narrow { 8 ≤ width }
    requires wide { width ≤ 58 }
    requires word { at < 64 }
    requires within { at < slots.some }
    requires there { at ≤ length slots.slots.now }
    requires few { length slots.slots.now ≤ min slots.some 72 }
    requires whole { IsTrue whole → AreWhole width at slots }
    ensures { MatchResult result (IsStep width least at slots.entry) (IsLeft width least at slots.entry) }
{
    let ends_run = is_run_end(slots, at);
    if !whole || !stands_alone(slots.slots, at, ends_run) {
        return any_step(width, least, slots, at);
    }
    let x = slots.slots[at];
    if x < least {
        return Err(at);
    }
    Ok(Step {
        group: Group {
            x,
            count: 1,
            used: 1,
        },
        ends_run,
    })
}
