//! The two parts of a key: its cone, and its tail there.

ghost use Rattle.std.specs.Prelude.{◌≡◌, ℕ, ◌-◌, ◌^◌, ◌<◌};
ghost use Rattle.lert_spec.specs.Edges.{key_limit, tail_bits};
ghost use Rattle.lert_spec.specs.Mix.{cone_of, tail_of};

use crate::mixer::{mix, unmix};
use lert_base::Settings;

/// The cone that a key belongs to.
pub fn cone_of(settings: &Settings, key: u64) -> u32
    ensures value { result ≡ cone_of settings.now key }
    ensures below { result < 2 ^ settings.now.cone_bits }
{
    // Two shifts, since one by 64 is none.
    let cone_bits = settings.numbers().cone_bits;
    (mix(key) >> 32 >> (32 - cone_bits)) as u32
}

/// The tail of a key in its cone.
pub fn tail_of(settings: &Settings, key: u64) -> u64
    ensures value { result ≡ tail_of settings.now key }
    ensures below { result < 2 ^ tail_bits settings.now }
{
    mix(key) & (u64::MAX >> settings.numbers().cone_bits)
}

/// The key with this cone and this tail: the only one.
pub fn key_of(settings: &Settings, cone: u32, tail: u64) -> u64
    requires cone { cone < 2 ^ settings.now.cone_bits }
    requires tail { tail < 2 ^ tail_bits settings.now }
    ensures cone { cone_of settings.now result ≡ cone }
    ensures tail { tail_of settings.now result ≡ tail }
    ensures only { (k : ℕ) → k < key_limit settings.now →
        cone_of settings.now k ≡ cone → tail_of settings.now k ≡ tail → result ≡ k }
{
    let cone_bits = settings.numbers().cone_bits;
    unmix((u64::from(cone) << 32 << (32 - cone_bits)) | tail)
}
