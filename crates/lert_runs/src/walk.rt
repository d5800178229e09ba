//! Walks over a run, group by group.

ghost use Rattle.std.specs.Prelude.{◌≡◌, ℕ, ◌+◌, ◌≤◌, ◌↔◌, List, ◌∷◌, ◌++◌, length, Some, None, true, IsTrue};
ghost use Rattle.lert_counter.specs.Reading.{read_as};
ghost use Rattle.lert_runs.specs.RunText.{run_text, IsTextOf, IsRunText};

use lert_counter::{Group, read_group, scan_group};

/// The group that begins at `at` in a run text; None at its end.
pub fn group_at(width: u32, run: &[u64], at: usize) -> Option<Group>
    requires narrow { 8 ≤ width }
    requires wide { width ≤ 62 }
    requires within { at ≤ length run.now }
    requires begins { (done : List (ℕ × ℕ)) × (rest : List (ℕ × ℕ)) × IsTextOf width run.now (done ++ rest)
        × (at ≡ length (run_text width done)) }
    ensures there { (done : List (ℕ × ℕ)) (p : ℕ × ℕ) (rest : List (ℕ × ℕ))
        → IsTextOf width run.now (done ++ p ∷ rest) → at ≡ length (run_text width done)
        → result ≡ Some (read_as width p.0 p.1) }
    ensures end { (result ≡ None) ↔ (at ≡ length run.now) }
{
    if at == run.len() {
        return None;
    }
    scan_group(width, &run[at..])
}

/// Whether `run` is a run text, all of whose remainders have at most `width` bits.
pub fn read_all(width: u32, run: &[u64]) -> bool
    requires narrow { 8 ≤ width }
    requires wide { width ≤ 62 }
    ensures { IsTrue result ↔ IsRunText width run.now }
{
    let limit = 1u64 << width;
    let mut at = 0;
    let mut last = 0;
    while at < run.len() {
        let rest = &run[at..];
        let Some(group) = read_group(width, rest) else {
            return false;
        };
        if group.x >= limit {
            return false;
        }
        if at > 0 && group.x <= last {
            return false;
        }
        at += group.used;
        last = group.x;
    }
    true
}
