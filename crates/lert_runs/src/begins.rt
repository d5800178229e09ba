//! Where a group surely begins, as the slots around tell it.

ghost use Rattle.std.specs.Prelude.{◌≡◌, ℕ, ◌+◌, ◌<◌, ◌≤◌, List, length, slice_index, IsTrue};
ghost use Rattle.lert_runs.specs.Begins.{Rises, IsClosed, IsUncut};

/// The least width by which no count has two digits.
const ONE_DIGIT: u32 = 48;

/// The most slots of a group behind its first one.
const BEHIND: usize = 8;

/// Whether the slot at `at` is greater than the one before it, which isn't 0, and isn't the one before that. Within a
/// group of one digit none is so: each is at most the one before it, or that is 0, or the digit alone lies between two.
fn rises(run: &[u64], at: usize) -> bool
    requires behind { 2 ≤ at }
    requires within { at < length run.now }
    ensures { IsTrue result → Rises run.now at }
{
    let before = run[at - 1];
    0 < before && before < run[at] && run[at - 2] != run[at]
}

/// Whether a slot stands at a place from `from` up to `to`.
fn recurs(run: &[u64], slot: u64, from: usize, to: usize) -> bool
    requires { to ≤ length run.now }
    ensures { IsTrue result → (k : ℕ) × (from ≤ k) × (k < to) × (slice_index run.now k ≡ slot) }
{
    for k in from..to {
        if run[k] == slot {
            return true;
        }
    }
    false
}

/// Whether no group that begins at `i` goes on at `at`: the slot there is above 0, and the next is greater, or it
/// stands again before `at`.
fn is_closed(run: &[u64], i: usize, at: usize) -> bool
    requires order { i < at }
    requires within { at < length run.now }
    ensures { IsTrue result → IsClosed run.now i at }
{
    let slot = run[i];
    0 < slot && (slot < run[i + 1] || recurs(run, slot, i + 1, at))
}

/// Whether that is so of each slot from which a group could reach `at`.
fn are_closed(run: &[u64], at: usize) -> bool
    requires behind { 8 ≤ at }
    requires within { at < length run.now }
    ensures { IsTrue result → (i : ℕ) → i < at → at ≤ i + 8 → IsClosed run.now i at }
{
    for i in at - BEHIND..at {
        if !is_closed(run, i, at) {
            return false;
        }
    }
    true
}

/// Whether a group surely begins at `at`, where the slots are a run text.
fn begins(width: u32, run: &[u64], at: usize) -> bool
    requires behind { 8 ≤ at }
    requires within { at < length run.now }
    ensures { IsTrue result → IsUncut width run.now at }
{
    if width < ONE_DIGIT {
        are_closed(run, at)
    } else {
        rises(run, at)
    }
}

/// The first place from `from` on at which a group surely begins, or `to` where none does before it.
pub(crate) fn first_begin(width: u32, run: &[u64], from: usize, to: usize) -> usize
    requires behind { 8 ≤ from }
    requires order { from ≤ to }
    requires within { to ≤ length run.now }
    ensures from { from ≤ result }
    ensures to { result ≤ to }
    ensures begins { result < to → IsUncut width run.now result }
{
    for at in from..to {
        if begins(width, run, at) {
            return at;
        }
    }
    to
}
