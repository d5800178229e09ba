//! The spans and the offsets of all levels that settings may have.

ghost use Rattle.std.specs.Prelude.{◌≡◌};
ghost use Rattle.lert_spec.specs.Limits.{IsInLimits};
ghost use Rattle.lert_base.specs.Computed.{spans_of, offsets_of};

use lert_spec::Numbers;

/// The spans of the levels from 0 to 8.
pub fn spans_of(numbers: &Numbers) -> [u64; 9]
    requires { IsInLimits numbers.now }
    ensures { result ≡ spans_of numbers.now }
{
    let mut spans = [numbers.base; 9];
    for level in 1..9 {
        spans[level] = spans[level - 1] * numbers.ratio;
    }
    spans
}

/// The offsets of the levels from 0 to 8.
pub fn offsets_of(numbers: &Numbers, spans: &[u64; 9]) -> [u64; 9]
    requires limits { IsInLimits numbers.now }
    requires spans { spans.now ≡ spans_of numbers.now }
    ensures { result ≡ offsets_of numbers.now }
{
    let mut offsets = [0; 9];
    let mut sum = 0;
    for level in 0..9 {
        sum += spans[level];
        offsets[level] = (numbers.bins - 1) * sum;
    }
    offsets
}
