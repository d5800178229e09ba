//! Where a remainder stands in a run.

ghost use Rattle.std.specs.Prelude.{◌≡◌, ℕ, ◌≤◌, List};
ghost use Rattle.lert_runs.specs.Place.{IsPlaceOf};
ghost use Rattle.lert_runs.specs.RunText.{IsTextOf};

use crate::halves::walk_begin;
use lert_counter::scan_group;

/// Where the group of a remainder stands, or with no slots and no count where it belongs.
#[derive(Clone, Copy, Debug, PartialEq, Eq)]
pub struct Place {
    pub start: usize,
    pub used: usize,
    pub count: u64,
}

impl Place {
    /// The place where a group would begin.
    fn absent(start: usize) -> Place
        ensures { result ≡ record { start = start; used = 0; count = 0 } }
    {
        Place {
            start,
            used: 0,
            count: 0,
        }
    }
}

/// The place of `x` in a run text. A short run is read up to there, a long one searched by halves first, and at most
/// nine slots from there on are read.
pub fn find(width: u32, run: &[u64], x: u64) -> Place
    requires narrow { 8 ≤ width }
    requires wide { width ≤ 62 }
    requires run_text { (ps : List (ℕ × ℕ)) × IsTextOf width run.now ps }
    ensures { (ps : List (ℕ × ℕ)) → IsTextOf width run.now ps → IsPlaceOf width x ps result }
{
    let mut start = walk_begin(width, run, x);
    while start < run.len() {
        let rest = &run[start..];
        let Some(group) = scan_group(width, rest) else {
            return Place::absent(start);
        };
        if x < group.x {
            return Place::absent(start);
        }
        if group.x == x {
            return Place {
                start,
                used: group.used,
                count: group.count,
            };
        }
        start += group.used;
    }
    Place::absent(start)
}
