//! Counting set bits.

ghost use Rattle.std.specs.Prelude.{◌≡◌, ℕ, ◌+◌, ◌*◌, ◌^◌, ◌<◌, ◌≤◌, length, take, slice_index_or, false, true, MatchOption, count_ones};
ghost use Rattle.std.specs.Int.{bit_at};
ghost use Rattle.lert_slotbits.specs.Bits.{row_of, word_bits, trues};

use crate::words::{bit_of, lowest};

/// The set bits below place `i`.
pub fn count_before(words: &[u64], i: u64) -> u64
    requires within { i < 64 * length words.now }
    requires fits { 64 * length words.now < 2 ^ 64 }
    ensures { result ≡ trues (take i (row_of words.now)) }
{
    let whole = (i / 64) as usize;
    let mut count = 0;
    for word in &words[..whole] {
        count += u64::from(word.count_ones());
    }
    count + u64::from(lowest(words[whole], (i % 64) as u32).count_ones())
}

/// The place of the set bit of a word that has `k` set bits below it.
fn place_in(word: u64, k: u64) -> u32
    requires { k < trues (word_bits word) }
    ensures within { result < 64 }
    ensures set { slice_index_or (word_bits word) result false ≡ true }
    ensures below { trues (take result (word_bits word)) ≡ k }
{
    let mut left = k;
    for at in 0..64 {
        if bit_of(word, at) == 1 {
            if left == 0 {
                return at;
            }
            left -= 1;
        }
    }
    unreachable!()
}

/// The place of the set bit that has `k` set bits below it.
pub fn place_of(words: &[u64], k: u64) -> Option<u64>
    requires { 64 * length words.now < 2 ^ 64 }
    ensures { MatchOption result
        (trues (row_of words.now) ≤ k)
        (λ place. (place < 64 * length words.now)
        × (slice_index_or (row_of words.now) place false ≡ true)
        × (trues (take place (row_of words.now)) ≡ k)) }
{
    let mut left = k;
    for (index, word) in words.iter().enumerate() {
        let ones = u64::from(word.count_ones());
        if left < ones {
            return Some(64 * index as u64 + u64::from(place_in(*word, left)));
        }
        left -= ones;
    }
    None
}
