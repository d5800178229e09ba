//! Room for one more bit.

ghost use Rattle.std.specs.Prelude.{◌≡◌, ℕ, ◌+◌, ◌-◌, ◌*◌, ◌/◌, ◌<◌, ◌≤◌, length};
ghost use Rattle.std.specs.Int.{bit_at};
ghost use Rattle.lert_slotbits.specs.Bits.{row_of, gapped};

use crate::words::{bit_of, moved_up};

/// The part of a gap that lies in one word: the bits `from..to` move one place up as far as they are of word
/// `index`, and `carry` comes in below them.
fn moved_part(word: u64, index: usize, from: u64, to: u64, carry: u64) -> u64
    requires order { from ≤ to }
    requires first { from / 64 ≤ index }
    requires last { index ≤ to / 64 }
    requires carry { carry < 2 }
    ensures below { (i : ℕ) → i < 64 → 64 * index + i < from → bit_at result i ≡ bit_at word i }
    ensures at_first { (i : ℕ) → i < 64 → 64 * index + i ≡ from → bit_at result i ≡ carry }
    ensures carried { from < 64 * index → bit_at result 0 ≡ carry }
    ensures inside { (i : ℕ) → i < 64 → 0 < i → from < 64 * index + i → 64 * index + i ≤ to
        → bit_at result i ≡ bit_at word (i - 1) }
    ensures above { (i : ℕ) → i < 64 → to < 64 * index + i → bit_at result i ≡ bit_at word i }
{
    let start = 64 * index as u64;
    if from <= start && to - start >= 63 {
        // Most words of a wide gap, and with these numbers one shift.
        return moved_up(word, 0, 63, carry);
    }
    let low = from.saturating_sub(start) as u32;
    let high = (to - start).min(63) as u32;
    moved_up(word, low, high, carry)
}

/// Moves the bits `from..to` one place up and clears bit `from`. Each word in between is read and written once.
pub fn open(words: &mut [u64], from: u64, to: u64)
    requires order { from ≤ to }
    requires within { to < 64 * length words.old }
    ensures { row_of words.new ≡ gapped (row_of words.old) from to }
{
    let first = (from / 64) as usize;
    if first == (to / 64) as usize {
        // Most gaps: no bit comes from another word.
        words[first] = moved_up(words[first], (from % 64) as u32, (to % 64) as u32, 0);
        return;
    }
    let mut carry = 0;
    for index in first..(to / 64) as usize + 1 {
        let word = words[index];
        words[index] = moved_part(word, index, from, to, carry);
        carry = bit_of(word, 63);
    }
}
