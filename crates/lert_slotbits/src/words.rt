//! One word of bits: bit 0 is the lowest.

ghost use Rattle.std.specs.Prelude.{◌≡◌, ℕ, ◌+◌, ◌-◌, ◌*◌, ◌/◌, ◌%◌, ◌^◌, ◌<◌, ◌≤◌, ◌≢◌, if◌then◌else◌};
ghost use Rattle.std.specs.Int.{bit_at};

/// The bits of `high` above the lowest `width` bits `low`.
fn joined(high: u64, width: u32, low: u64) -> u64
    requires width { width < 64 }
    requires low { low < 2 ^ width }
    requires high { high < 2 ^ (64 - width) }
    ensures { result ≡ high * 2 ^ width + low }
{
    (high << width) | low
}

/// The lowest `width` bits of a word.
pub fn lowest(word: u64, width: u32) -> u64
    requires { width < 64 }
    ensures { result ≡ word % 2 ^ width }
{
    word & ((1u64 << width) - 1)
}

/// The bits `low..high` one place up, and `carry` at `low`.
pub fn moved_up(word: u64, low: u32, high: u32, carry: u64) -> u64
    requires order { low ≤ high }
    requires high { high < 64 }
    requires carry { carry < 2 }
    ensures below { (i : ℕ) → i < low → bit_at result i ≡ bit_at word i }
    ensures first { bit_at result low ≡ carry }
    ensures inside { (i : ℕ) → low < i → i ≤ high → bit_at result i ≡ bit_at word (i - 1) }
    ensures above { (i : ℕ) → high < i → i < 64 → bit_at result i ≡ bit_at word i }
{
    let above = word >> high >> 1;
    let moved = lowest(word >> low, high - low);
    let upper = joined(joined(above, high - low, moved), 1, carry);
    joined(upper, low, lowest(word, low))
}

/// The word with one bit set or cleared.
pub fn with_bit(word: u64, at: u32, on: bool) -> u64
    requires { at < 64 }
    ensures here { bit_at result at ≡ (if on then 1 else 0) }
    ensures others { (i : ℕ) → i < 64 → i ≢ at → bit_at result i ≡ bit_at word i }
{
    if on {
        word | 1u64 << at
    } else {
        word & !(1u64 << at)
    }
}

/// The bit of a word.
pub fn bit_of(word: u64, at: u32) -> u64
    requires { at < 64 }
    ensures value { result ≡ bit_at word at }
    ensures below { result < 2 }
{
    (word >> at) & 1
}
