//! The first bit of a kind.

ghost use Rattle.std.specs.Prelude.{◌≡◌, ℕ, ◌+◌, ◌-◌, ◌*◌, ◌^◌, ◌<◌, ◌≤◌, length, slice_index_or, false, MatchOption, if◌then◌else◌};
ghost use Rattle.std.specs.Int.{bit_at};
ghost use Rattle.lert_slotbits.specs.Bits.{row_of, IsFirst};

/// The word whose set bits are those of `word` that are `on`.
fn marked(word: u64, on: bool) -> u64
    ensures { (i : ℕ) → i < 64 → bit_at result i ≡ (if on then bit_at word i else 1 - bit_at word i) }
{
    if on { word } else { !word }
}

/// The word with its lowest `at` bits cleared.
fn cleared_below(word: u64, at: u32) -> u64
    requires { at < 64 }
    ensures below { (i : ℕ) → i < at → bit_at result i ≡ 0 }
    ensures from { (i : ℕ) → at ≤ i → i < 64 → bit_at result i ≡ bit_at word i }
{
    word >> at << at
}

/// The first place at or behind `from` whose bit is `on`.
pub fn first_bit(words: &[u64], from: u64, on: bool) -> Option<u64>
    requires within { from < 64 * length words.now }
    requires fits { 64 * length words.now < 2 ^ 64 }
    ensures { MatchOption result
        ((k : ℕ) → from ≤ k → k < 64 * length words.now → slice_index_or (row_of words.now) k false ≡ on → ⊥)
        (IsFirst on (row_of words.now) from) }
{
    let mut index = (from / 64) as usize;
    let mut word = cleared_below(marked(words[index], on), (from % 64) as u32);
    while word == 0 {
        index += 1;
        if index == words.len() {
            return None;
        }
        word = marked(words[index], on);
    }
    Some(64 * index as u64 + u64::from(word.trailing_zeros()))
}
