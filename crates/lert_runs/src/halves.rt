//! Search by halves in a long run.

ghost use Rattle.std.specs.Prelude.{◌≡◌, ℕ, List};
ghost use Rattle.lert_runs.specs.Halves.{IsBefore};
ghost use Rattle.lert_runs.specs.RunText.{IsTextOf};

use crate::begins::first_begin;

/// The most slots that are read group by group.
const SHORT: usize = 32;

/// Where a walk to `x` may begin in a run text: only groups of lesser remainders stand before that place.
pub(crate) fn walk_begin(width: u32, run: &[u64], x: u64) -> usize
    ensures { (ps : List (ℕ × ℕ)) → IsTextOf width run.now ps → IsBefore width x ps result }
{
    if run.len() <= SHORT {
        return 0;
    }
    search_by_halves(width, run, x)
}

/// Such a place from which it isn't far to `x`, unless few places tell that a group begins there: so it is only near
/// remainders whose counts are greater than they are. It is a function of its own, so that it costs short runs nothing.
#[inline(never)]
fn search_by_halves(width: u32, run: &[u64], x: u64) -> usize
    ensures { (ps : List (ℕ × ℕ)) → IsTextOf width run.now ps → IsBefore width x ps result }
{
    let mut low = 0;
    let mut high = run.len();
    while high - low > SHORT {
        let at = first_begin(width, run, low + (high - low) / 2, high);
        if at == high {
            return low;
        }
        if run[at] <= x {
            low = at;
        } else {
            high = at;
        }
    }
    low
}
