//! The mixer and its inverse.

ghost use Rattle.std.specs.Prelude.{◌≡◌, ℕ, ◌^◌, ◌<◌};
ghost use Rattle.lert_spec.specs.Mix.{mix, folded, scaled};

// A number with its 31 highest bits laid over its lowest. Folding twice gives the number back.
fn fold(n: u64) -> u64
    ensures { result ≡ folded n }
{
    n ^ (n >> 33)
}

/// The mixed value of a key.
pub fn mix(k: u64) -> u64
    ensures { result ≡ mix k }
{
    let k = fold(k).wrapping_mul(0xff51_afd7_ed55_8ccd);
    let k = fold(k).wrapping_mul(0xc4ce_b9fe_1a85_ec53);
    fold(k)
}

/// The key with this mixed value: the only one.
pub fn unmix(m: u64) -> u64
    ensures mixed { mix result ≡ m }
    ensures only { (k : ℕ) → k < 2 ^ 64 → mix k ≡ m → result ≡ k }
{
    let m = fold(m).wrapping_mul(0x9cb4_b2f8_1293_37db);
    let m = fold(m).wrapping_mul(0x4f74_430c_22a5_4005);
    fold(m)
}
