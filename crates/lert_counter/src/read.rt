//! Reading a group.

ghost use Rattle.std.specs.Prelude.{◌≡◌, ℕ, ◌+◌, ◌-◌, ◌*◌, ◌^◌, ◌<◌, ◌≤◌, ◌≢◌, ◌↔◌, ◌++◌, [], ◌∷◌, List, map, take, drop, length};
ghost use Rattle.std.specs.Prelude.{slice_index, IsTrue, IfSome, Some, None, IsSome, IsNone, IfNone, true, false};
ghost use Rattle.lert_counter.specs.Group.{group, written, IsCount, BeginsWith};
ghost use Rattle.lert_counter.specs.Reading.{read_as, number_of, HasTwoZeros, IsReadFrom, IsCounterRead, IsZeroRead, Follows, Spells, SpellsCounter, IsSpelled};

use crate::digits::base_beside;
use crate::group::{GREATEST_COUNT, Group};
use crate::write::write_group;

/// The most digits that a count has.
const DIGITS: usize = 6;

/// The most slots that a group has.
const SLOTS: usize = 9;

/// The number that digits spell, and how many they are.
#[derive(Clone, Copy)]
struct Digits {
    number: u64,
    len: usize,
}

/// The digit that is written as `slot` beside `x`.
fn digit_of(x: u64, slot: u64) -> u64
    requires positive { 0 < slot }
    requires apart { slot ≢ x }
    ensures digit { (d : ℕ) → slot ≡ written x d → result ≡ d }
    ensures slot { slot ≡ written x result }
{
    if x == 0 || slot < x {
        slot - 1
    } else {
        slot - 2
    }
}

/// Reads digits up to the next `x`. None where there is none, or where they spell no number of a count.
fn scan_digits(x: u64, base: u64, slots: &[u64]) -> Option<Digits>
    requires { 0 < base }
    ensures there { (ds back : List ℕ) → length ds ≤ 6 → slots.now ≡ map (written x) ds ++ x ∷ back
        → number_of base ds ≤ 2 ^ 47 → result ≡ Some (record { number = number_of base ds; len = length ds }) }
    ensures read { IfSome result (λ d. Spells base x 0 slots.now d.number d.len) }
    ensures number { IfSome result (λ d. d.number ≤ 2 ^ 47) }
    ensures len { IfSome result (λ d. d.len < length slots.now) }
    ensures stops { IfSome result (λ d. slice_index slots.now d.len ≡ x) }
{
    let mut number = 0u64;
    for (len, slot) in slots.iter().enumerate() {
        if *slot == x {
            return Some(Digits { number, len });
        }
        if *slot == 0 || len == DIGITS {
            return None;
        }
        number = number.checked_mul(base)?.checked_add(digit_of(x, *slot))?;
        if number > GREATEST_COUNT {
            return None;
        }
    }
    None
}

/// The group of `x` and `count`, unless the count is too great.
fn counted(x: u64, count: u64, used: usize) -> Option<Group>
    ensures within { count ≤ 2 ^ 47 → result ≡ Some (record { x = x; count = count; used = used }) }
    ensures shape { IfSome result (λ g. (g.x ≡ x) × (g.count ≡ count) × (count ≤ 2 ^ 47) × (g.used ≡ used)) }
{
    if count > GREATEST_COUNT {
        return None;
    }
    Some(Group { x, count, used })
}

/// The counter of a remainder above 0 that stands at the front of `rest`, if one does. Else what its digits spell,
/// which aren't tested, or None where none are closed, or where they spell no count.
fn scan_counter(width: u32, rest: &[u64]) -> Option<Group>
    requires narrow { 8 ≤ width }
    requires wide { width ≤ 62 }
    requires two { 1 < length rest.now }
    requires remainder { 0 < slice_index rest.now 0 }
    ensures there { (c : ℕ) (back : List ℕ) → 3 ≤ c → c ≤ 2 ^ 47
        → rest.now ≡ group width (slice_index rest.now 0) c ++ back
        → result ≡ Some (read_as width (slice_index rest.now 0) c) }
    ensures shape { IfSome result (λ g. (g.x ≡ slice_index rest.now 0) × (3 ≤ g.count) × (g.count ≤ 2 ^ 47)) }
    ensures read { IfSome result (IsSpelled width rest.now) }
    ensures none { result ≡ None → (count len : ℕ) → ¬ SpellsCounter width rest.now count len }
{
    let x = rest[0];
    let start = if rest[1] == 0 { 2 } else { 1 };
    let slots = &rest[start..];
    let digits = scan_digits(x, base_beside(width, x), slots)?;
    counted(x, digits.number + 3, start + digits.len + 1)
}

/// The counter of 0 that stands at the front of `rest`, if one does; else any guess.
fn scan_zero(width: u32, rest: &[u64]) -> Option<Group>
    requires narrow { 8 ≤ width }
    requires wide { width ≤ 62 }
    requires two { 1 < length rest.now }
    ensures there { (c : ℕ) (back : List ℕ) → 4 ≤ c → c ≤ 2 ^ 47 → rest.now ≡ group width 0 c ++ back
        → result ≡ Some (read_as width 0 c) }
    ensures shape { IfSome result (λ g. (g.x ≡ 0) × (4 ≤ g.count) × (g.count ≤ 2 ^ 47)) }
    ensures zeros { IsSome result → HasTwoZeros (drop 1 rest.now) }
{
    let slots = &rest[1..];
    let digits = scan_digits(0, base_beside(width, 0), slots)?;
    let last = digits.len + 2;
    if last >= rest.len() || rest[last] != 0 {
        return None;
    }
    counted(0, digits.number + 4, last + 1)
}

/// The group that was found, if `rest` begins with its text.
fn checked(width: u32, found: Group, rest: &[u64]) -> Option<Group>
    requires narrow { 8 ≤ width }
    requires wide { width ≤ 62 }
    requires count { IsCount found.count }
    ensures there { BeginsWith rest.now (group width found.x found.count)
        → result ≡ Some (read_as width found.x found.count) }
    ensures read { IfSome result (λ g. (g ≡ read_as width found.x found.count)
        × BeginsWith rest.now (group width found.x found.count)) }
{
    let mut text = [0; SLOTS];
    let used = write_group(width, found.x, found.count, &mut text);
    if !rest.starts_with(&text[..used]) {
        return None;
    }
    Some(Group {
        x: found.x,
        count: found.count,
        used,
    })
}

/// Whether two zeros stand side by side.
fn has_two_zeros(slots: &[u64]) -> bool
    ensures found { result ≡ true → HasTwoZeros slots.now }
    ensures absent { result ≡ false → ¬ HasTwoZeros slots.now }
{
    for i in 1..slots.len() {
        if slots[i - 1] == 0 && slots[i] == 0 {
            return true;
        }
    }
    false
}

/// The group that the first values decide with no digits. None where digits stand behind the first value, or may.
fn short_group(rest: &[u64]) -> Option<Group>
    requires { 0 < length rest.now }
    ensures alone { length rest.now ≡ 1
        → result ≡ Some (record { x = slice_index rest.now 0; count = 1; used = 1 }) }
    ensures above { 1 < length rest.now → 0 < slice_index rest.now 0
        → slice_index rest.now 0 < slice_index rest.now 1
        → result ≡ Some (record { x = slice_index rest.now 0; count = 1; used = 1 }) }
    ensures twice { 1 < length rest.now → 0 < slice_index rest.now 0
        → slice_index rest.now 1 ≡ slice_index rest.now 0
        → result ≡ Some (record { x = slice_index rest.now 0; count = 2; used = 2 }) }
    ensures two_zeros { 1 < length rest.now → slice_index rest.now 0 ≡ 0 → slice_index rest.now 1 ≡ 0
        → (2 < length rest.now → slice_index rest.now 2 ≢ 0)
        → result ≡ Some (record { x = 0; count = 2; used = 2 }) }
    ensures three_zeros { 2 < length rest.now → slice_index rest.now 0 ≡ 0 → slice_index rest.now 1 ≡ 0
        → slice_index rest.now 2 ≡ 0 → result ≡ Some (record { x = 0; count = 3; used = 3 }) }
    ensures below { 1 < length rest.now → slice_index rest.now 1 < slice_index rest.now 0 → result ≡ None }
    ensures zero { 1 < length rest.now → slice_index rest.now 0 ≡ 0 → 0 < slice_index rest.now 1
        → result ≡ None }
    ensures none { IsNone result → (1 < length rest.now)
        × (slice_index rest.now 1 ≢ slice_index rest.now 0) }
    ensures begins { (width : ℕ) → IfSome result (IsReadFrom width rest.now) }
{
    let x = rest[0];
    if rest.len() == 1 || 0 < x && x < rest[1] {
        return Some(Group {
            x,
            count: 1,
            used: 1,
        });
    }
    if rest[1] != x {
        return None;
    }
    if x == 0 && rest.len() > 2 && rest[2] == 0 {
        return Some(Group {
            x,
            count: 3,
            used: 3,
        });
    }
    Some(Group {
        x,
        count: 2,
        used: 2,
    })
}

/// The counter of 0 at the front of `rest`, whose first value is 0.
fn read_zero_counter(width: u32, rest: &[u64]) -> Option<Group>
    requires narrow { 8 ≤ width }
    requires wide { width ≤ 62 }
    requires two { 1 < length rest.now }
    requires first { slice_index rest.now 0 ≡ 0 }
    ensures counter { IsCounterRead width 4 rest.now result }
    ensures zeros { IsSome result → HasTwoZeros (drop 1 rest.now) }
{
    let found = scan_zero(width, rest)?;
    checked(width, found, rest)
}

/// The group at the front of `rest`, whose first value is 0 and whose second is above 0.
fn read_zero(width: u32, rest: &[u64]) -> Option<Group>
    requires narrow { 8 ≤ width }
    requires wide { width ≤ 62 }
    requires two { 1 < length rest.now }
    requires first { slice_index rest.now 0 ≡ 0 }
    requires second { 0 < slice_index rest.now 1 }
    ensures zero { IsZeroRead width rest.now result }
    ensures alone { ¬ HasTwoZeros (drop 1 rest.now)
        → result ≡ Some (record { x = 0; count = 1; used = 1 }) }
{
    if let Some(group) = read_zero_counter(width, rest) {
        return Some(group);
    }
    if has_two_zeros(&rest[..rest.len().min(SLOTS)]) {
        return None;
    }
    Some(Group {
        x: 0,
        count: 1,
        used: 1,
    })
}

/// The group at the front of `rest`, whose second value is below the first.
fn read_counter(width: u32, rest: &[u64]) -> Option<Group>
    requires narrow { 8 ≤ width }
    requires wide { width ≤ 62 }
    requires two { 1 < length rest.now }
    requires below { slice_index rest.now 1 < slice_index rest.now 0 }
    ensures { IsCounterRead width 3 rest.now result }
{
    let found = scan_counter(width, rest)?;
    checked(width, found, rest)
}

/// The group at the front of `rest`. None where `rest` is empty or begins with no group.
pub fn read_group(width: u32, rest: &[u64]) -> Option<Group>
    requires narrow { 8 ≤ width }
    requires wide { width ≤ 62 }
    ensures begins { IfSome result (IsReadFrom width rest.now) }
    ensures empty { length rest.now ≡ 0 → result ≡ None }
    ensures alone { length rest.now ≡ 1
        → result ≡ Some (record { x = slice_index rest.now 0; count = 1; used = 1 }) }

    // The first value is above 0.
    ensures above { 1 < length rest.now → 0 < slice_index rest.now 0
        → slice_index rest.now 0 < slice_index rest.now 1
        → result ≡ Some (record { x = slice_index rest.now 0; count = 1; used = 1 }) }
    ensures twice { 1 < length rest.now → 0 < slice_index rest.now 0
        → slice_index rest.now 1 ≡ slice_index rest.now 0
        → result ≡ Some (record { x = slice_index rest.now 0; count = 2; used = 2 }) }
    ensures counter { 1 < length rest.now → slice_index rest.now 1 < slice_index rest.now 0
        → IsCounterRead width 3 rest.now result }

    // The first value is 0.
    ensures two_zeros { 1 < length rest.now → slice_index rest.now 0 ≡ 0 → slice_index rest.now 1 ≡ 0
        → (2 < length rest.now → slice_index rest.now 2 ≢ 0)
        → result ≡ Some (record { x = 0; count = 2; used = 2 }) }
    ensures three_zeros { 2 < length rest.now → slice_index rest.now 0 ≡ 0 → slice_index rest.now 1 ≡ 0
        → slice_index rest.now 2 ≡ 0 → result ≡ Some (record { x = 0; count = 3; used = 3 }) }
    ensures zero { 1 < length rest.now → slice_index rest.now 0 ≡ 0 → 0 < slice_index rest.now 1
        → IsZeroRead width rest.now result }

    // A group is read wherever it may stand in a run text.
    ensures in_run { (x c : ℕ) (back : List ℕ) → IsCount c → rest.now ≡ group width x c ++ back
        → Follows x back → result ≡ Some (read_as width x c) }
{
    if rest.is_empty() {
        return None;
    }
    if let Some(group) = short_group(rest) {
        return Some(group);
    }
    if rest[0] == 0 {
        return read_zero(width, rest);
    }
    read_counter(width, rest)
}

/// The group at the front of the rest of a run text, which isn't tested. Up to nine slots are read.
///
/// None comes exactly where the second value is below the first, and the first doesn't close digits that
/// spell a count.
pub fn scan_group(width: u32, rest: &[u64]) -> Option<Group>
    requires narrow { 8 ≤ width }
    requires wide { width ≤ 62 }
    requires some { 0 < length rest.now }
    ensures there { (x c : ℕ) (back : List ℕ) → IsCount c → rest.now ≡ group width x c ++ back
        → Follows x back → result ≡ Some (read_as width x c) }
    ensures spelled { 1 < length rest.now → slice_index rest.now 1 < slice_index rest.now 0
        → IfSome result (IsSpelled width rest.now) }
    ensures none { result ≡ None → (1 < length rest.now) × (slice_index rest.now 1 < slice_index rest.now 0)
        × ((count len : ℕ) → ¬ SpellsCounter width rest.now count len) }
{
    if let Some(group) = short_group(rest) {
        return Some(group);
    }
    if rest[0] > 0 {
        return scan_counter(width, rest);
    }
    if let Some(group) = scan_zero(width, rest) {
        return Some(group);
    }
    Some(Group {
        x: 0,
        count: 1,
        used: 1,
    })
}
