//! One bit of a row of words.

ghost use Rattle.std.specs.Prelude.{◌≡◌, ℕ, ◌*◌, ◌<◌, length, slice_index_or, slice_set, false};
ghost use Rattle.lert_slotbits.specs.Bits.{row_of};

use crate::words::{bit_of, with_bit};

/// The bit at place `i`.
pub fn bit_in(words: &[u64], i: u64) -> bool
    requires { i < 64 * length words.now }
    ensures { result ≡ slice_index_or (row_of words.now) i false }
{
    bit_of(words[(i / 64) as usize], (i % 64) as u32) == 1
}

/// Writes the bit at place `i`.
pub fn put_bit(words: &mut [u64], i: u64, on: bool)
    requires { i < 64 * length words.old }
    ensures { row_of words.new ≡ slice_set (row_of words.old) i on }
{
    let index = (i / 64) as usize;
    words[index] = with_bit(words[index], (i % 64) as u32, on);
}
