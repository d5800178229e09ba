//! How a run grows.

ghost use Rattle.std.specs.Prelude.{◌≡◌, ℕ, ◌+◌, ◌^◌, ◌≤◌, List, replicate};
ghost use Rattle.lert_runs.specs.Growth.{IsGrowthOf};
ghost use Rattle.lert_runs.specs.RunText.{count_in, IsTextOf};

use crate::place::find;
use lert_counter::write_group;

/// The first `len` values of `text` are to stand in place of the `old` values from `start` on.
#[derive(Clone, Copy, Debug, PartialEq, Eq)]
pub struct Growth {
    pub start: usize,
    pub old: usize,
    pub text: [u64; 9],
    pub len: usize,
}

impl Growth {
    /// Nothing in place of nothing.
    pub fn none() -> Growth
        ensures { result ≡ record { start = 0; old = 0; text = replicate 9 0; len = 0 } }
    {
        Growth {
            start: 0,
            old: 0,
            text: [0; 9],
            len: 0,
        }
    }
}

/// Puts into `into` what a run text needs so that the count of `x` rises by `n`: where that is 0, nothing in place of
/// nothing. The run isn't written. It is put there since a growth that is returned is copied.
pub fn grown(width: u32, run: &[u64], x: u64, n: u64, into: &mut Growth)
    requires narrow { 8 ≤ width }
    requires wide { width ≤ 62 }
    requires run_text { (ps : List (ℕ × ℕ)) × IsTextOf width run.now ps × (count_in ps x + n ≤ 2 ^ 47) }
    ensures grown { 1 ≤ n → (ps : List (ℕ × ℕ)) → IsTextOf width run.now ps
        → IsGrowthOf width x n run.now ps into.new }
    ensures still { n ≡ 0 → into.new ≡ record { start = 0; old = 0; text = into.new.text; len = 0 } }
{
    if n == 0 {
        *into = Growth::none();
        return;
    }
    let place = find(width, run, x);
    into.start = place.start;
    into.old = place.used;
    into.len = write_group(width, x, place.count + n, &mut into.text);
}
