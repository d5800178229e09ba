//! One of two numbers, chosen with no branch.
//!
//! Which stream has the lesser key can't be guessed: a branch on it would be guessed wrong every other time.

ghost use Rattle.std.specs.Prelude.{◌≡◌, if◌then◌else◌};

// The other number where that is told, else the one.
#[inline]
pub(crate) fn stream_of(is_other: bool, one: u32, other: u32) -> u32
    ensures { result ≡ (if is_other then other else one) }
{
    let mask = (is_other as u32).wrapping_neg();
    one ^ ((one ^ other) & mask)
}

// The other number where that is told, else the one.
#[inline]
pub(crate) fn key_of(is_other: bool, one: u64, other: u64) -> u64
    ensures { result ≡ (if is_other then other else one) }
{
    let mask = (is_other as u64).wrapping_neg();
    one ^ ((one ^ other) & mask)
}
