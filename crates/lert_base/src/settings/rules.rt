//! The rules of the settings, in the order in which they are tried.

ghost use Rattle.std.specs.Prelude.{◌≡◌, ℕ, ◌+◌, ◌≤◌, length, IfNone, not};
ghost use Rattle.std.specs.List.{position_from};
ghost use Rattle.lert_spec.specs.Edges.{span, offset};
ghost use Rattle.lert_spec.specs.Limits.{limits_kept, sums_kept, lies, IsValid, IsInLimits};

use lert_spec::Numbers;

/// A rule of the settings that is broken, counted from 1: the first one.
#[derive(Clone, Copy, Debug, PartialEq, Eq)]
pub struct BadSetting {
    pub rule: u8,
}

// A number lies from `least` to `most`.
fn lies(least: u64, most: u64, n: u64) -> bool
    ensures { result ≡ lies least most n }
{
    least <= n && n <= most
}

// The number of the first rule that isn't kept, the first of them having the number `first`.
fn first_false(first: u8, kept: &[bool]) -> Option<u8>
    requires { first + length kept.now ≤ 255 }
    ensures { result ≡ position_from not first kept.now }
{
    for (place, kept) in kept.iter().enumerate() {
        if !*kept {
            return Some(first + place as u8);
        }
    }
    None
}

/// The first of the rules 1 to 8 that is broken.
pub fn broken_limit(numbers: &Numbers) -> Option<u8>
    ensures value { result ≡ position_from not 1 (limits_kept numbers.now) }
    ensures none { IfNone result (IsInLimits numbers.now) }
{
    first_false(
        1,
        &[
            lies(1, 4_294_967_295, numbers.threshold),
            lies(2, 16, numbers.bins),
            lies(2, 16, numbers.ratio),
            lies(4, 65_536, numbers.base),
            lies(1, 8, numbers.levels),
            lies(0, 8, numbers.cone_bits),
            lies(1, 4_194_304, numbers.room),
            lies(1, 1_024, numbers.packet),
        ],
    )
}

/// The first of the rules 9 to 11 that is broken, `end` being the offset and the span of the oldest level together.
pub fn broken_sum(numbers: &Numbers, end: u64) -> Option<u8>
    requires limits { IsInLimits numbers.now }
    requires end { end ≡ offset numbers.now numbers.now.levels + span numbers.now numbers.now.levels }
    ensures value { result ≡ position_from not 9 (sums_kept numbers.now) }
    ensures none { IfNone result (IsValid numbers.now) }
{
    let cones = 1 << numbers.cone_bits;
    first_false(
        9,
        &[
            cones * numbers.bins * numbers.base <= 1 << 23,
            cones * numbers.room <= 1 << 24,
            end <= 1 << 31,
        ],
    )
}
