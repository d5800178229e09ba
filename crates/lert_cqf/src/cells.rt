//! Writes to a part of a row.

ghost use Rattle.std.specs.Prelude.{◌≡◌, ℕ, ◌+◌, ◌^◌, ◌<◌, ◌≤◌, ◌++◌, List, length, replicate, take, drop, slice_index};
ghost use Rattle.lert_cqf.specs.Rows.{filled_gap};
ghost use Rattle.lert_cqf.specs.Spill.{IsRaisedTo};

/// Moves the values `from..to` one place up; the one at `to` comes to `from`.
pub fn rotate_up(slots: &mut [u64], from: usize, to: usize)
    requires order { from ≤ to }
    requires within { to < length slots.old }
    ensures { slots.new ≡ filled_gap slots.old from to (slice_index slots.old to) }
{
    slots[from..to + 1].rotate_right(1);
}

/// Writes `text` from `at` on. One slot, as most new tails have, is written without a call.
pub fn overwrite(slots: &mut [u64], at: usize, text: &[u64])
    requires { at + length text.now ≤ length slots.old }
    ensures { slots.new ≡ take at slots.old ++ (text.now ++ drop (at + length text.now) slots.old) }
{
    if text.len() == 1 {
        slots[at] = text[0];
    } else {
        slots[at..at + text.len()].copy_from_slice(text);
    }
}

/// Makes the first `count` slots 0.
pub fn clear_first(slots: &mut [u64], count: usize)
    requires { count ≤ length slots.old }
    ensures { slots.new ≡ replicate count 0 ++ drop count slots.old }
{
    slots[..count].fill(0);
}

/// Raises each number by one.
fn raise_all(numbers: &mut [u32])
    requires { (g : ℕ) → g < length numbers.old → slice_index numbers.old g + 1 < 2 ^ 32 }
    ensures { (g : ℕ) → g < length numbers.old → slice_index numbers.new g ≡ slice_index numbers.old g + 1 }
{
    for number in numbers.iter_mut() {
        *number += 1;
    }
}

/// Raises the numbers from `from` on, before `end`, by one.
pub fn raise(numbers: &mut [u32], from: usize, end: usize)
    requires order { from ≤ end }
    requires within { end ≤ length numbers.old }
    requires room { (g : ℕ) → from ≤ g → g < end → slice_index numbers.old g + 1 < 2 ^ 32 }
    ensures { IsRaisedTo numbers.old numbers.new from end }
{
    raise_all(&mut numbers[from..end]);
}
