//! How often a remainder stands in a run whose counts are all below it.

ghost use Rattle.std.specs.Prelude.{◌≡◌, ℕ, ◌<◌, ◌≤◌, ◌^◌, List};
ghost use Rattle.lert_runs.specs.RunText.{IsTextOf, CountsBelow, count_in};
ghost use Rattle.lert_runs.specs.Search.{count_behind};

/// How often `x` stands in a run text each of whose counts is below `x`. Then no digit is as great as `x`, and the
/// first slot that is `x` begins its group, so that no group before it is read.
pub fn count_above_all(run: &[u64], x: u64) -> u64
    requires { x < 2 ^ 63 }
    ensures { (width : ℕ) (ps : List (ℕ × ℕ)) → x < 2 ^ width → IsTextOf width run.now ps → CountsBelow x ps
        → result ≡ count_in ps x }
{
    let mut at = 0;
    while at < run.len() {
        if run[at] == x {
            return count_behind(&run[at + 1..], x);
        }
        at += 1;
    }
    0
}

// How often `x` occurs whose group begins before these slots.
fn count_behind(rest: &[u64], x: u64) -> u64
    requires { x < 2 ^ 63 }
    ensures { result ≡ count_behind rest.now x }
{
    let Some(next) = rest.first() else {
        return 1;
    };
    if x < *next {
        return 1;
    }
    if *next == x { 2 } else { *next + 2 }
}
