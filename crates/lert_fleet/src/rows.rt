//! What is done to every cone in turn.

ghost use Rattle.std.specs.Prelude.{◌≡◌, ℕ, ◌+◌, ◌≤◌, List, [], ◌++◌, length, map, reverse, vec_capacity, All, IfOk, IfErr};
ghost use Rattle.crossbeam_utils.specs.Padded.{padded_value};
ghost use Rattle.lert_base.specs.Packet.{Packet};
ghost use Rattle.lert_conelock.specs.Sight.{first_pass};
ghost use Rattle.lert_fleet.specs.Cones.{IsFleetOf};
ghost use Rattle.lert_fleet.specs.Each.{EachTwo};
ghost use Rattle.lert_fleet.specs.Rows.{IsWholePass, WereClosed};

use crossbeam_utils::CachePadded;
use lert_base::Held;
use lert_conelock::{ConeLock, Pass};
use std::alloc::Global;

/// The locks of all cones, in the cones' order, no two on one cache line.
pub type Locks<S> = Vec<CachePadded<ConeLock<S>>>;

/// The passes of all cones, in the same order.
pub type Passes<S> = Vec<Pass<S>>;

/// Puts a lock round each state, the last one first, in empty lists with room for all. A refusal is
/// want of memory, and hands the states back, the first one first.
pub fn lock_each<S: Held>(
    alloc: Global,
    mut states: Vec<S>,
    numbers: u32,
    mut locks: Locks<S>,
    mut passes: Passes<S>,
) -> Result<(Locks<S>, Passes<S>, Vec<S>), Vec<S>>
where
    S: Send,
    requires numbers { (1 ≤ numbers) × (numbers ≤ 64) }
    requires opened { All (λ state. (h : List Packet) × S.stands_for state h) states.items }
    requires none { (locks.items ≡ []) × (passes.items ≡ []) }
    requires room { (length states.items ≤ vec_capacity locks)
        × (length states.items ≤ vec_capacity passes) }
    ensures locks { IfOk result (λ made.
        IsFleetOf (reverse states.items) numbers (map padded_value made.0.items)) }
    ensures passes { IfOk result (λ made.
        made.1.items ≡ map first_pass (map padded_value made.0.items)) }
    ensures emptied { IfOk result (λ made. (made.2.items ≡ [])
        × (vec_capacity made.2 ≡ vec_capacity states)) }
    ensures back { IfErr result (λ back. back.items ≡ reverse states.items) }
{
    while let Some(state) = states.pop() {
        match ConeLock::new(alloc, state, numbers) {
            Ok((lock, pass)) => {
                locks.push_reserved(CachePadded::new(lock));
                passes.push_reserved(pass);
            }
            Err(state) => {
                states.push_reserved(state);
                return Err(close_each(locks, passes, states));
            }
        }
    }
    Ok((locks, passes, states))
}

/// Closes each lock, and puts the states before those of a list, which has room for them and is turned
/// round.
pub fn close_each<S: Held>(mut locks: Locks<S>, mut passes: Passes<S>, mut states: Vec<S>) -> Vec<S>
    requires whole { EachTwo IsWholePass (map padded_value locks.items) passes.items }
    requires room { length states.items + length locks.items ≤ vec_capacity states }
    ensures { WereClosed S.Held (map padded_value locks.items) passes.items states.items
        result.items }
{
    while let Some(lock) = locks.pop() {
        let Some(pass) = passes.pop() else {
            unreachable!()
        };
        states.push_reserved(lock.into_inner().close(pass));
    }
    locks.destroy_empty();
    passes.destroy_empty();
    states.reverse();
    states
}
