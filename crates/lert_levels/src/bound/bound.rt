//! The bound.

ghost use Rattle.std.specs.Prelude.{◌≡◌, ℕ, ◌+◌, ◌%◌, ◌<◌, ◌≤◌, ◌==◌, if◌then◌else◌, false, length, map, min, nat_le, replicate, slice_set, IfOk};
ghost use Rattle.lert_levels.specs.bound.Bytes.{nothing, pair_of, risen, turned};
ghost use Rattle.lert_levels.specs.bound.Covers.{CoversCounts};

use crate::bound::pair::Pair;
use crate::bound::place::place_of;
use lert_io::OutOfMemory;
use std::alloc::Global;
use std::marker::Model;

/// Two bytes for each of some places, seen as their list. A tail's place is its remainder by their number.
#[derive(Drop)]
pub struct Bound {
    pairs: Vec<Pair>,
}

impl Model for Bound {
    ghost use Rattle.std.specs.Prelude.{◌≤◌, List, length};
    ghost use Rattle.lert_levels.specs.declared.bound.pair.Pair.{Pair};

    ghost Value = { List Pair };

    ghost view = { λ bound. bound.pairs.items };

    ghost invariant = { λ bound. 1 ≤ length bound.pairs.items };
}

impl Bound {
    /// No event. It takes two bytes a place, and its only error is want of memory.
    pub fn new(alloc: Global, places: usize) -> Result<Bound, OutOfMemory>
        requires { 1 ≤ places }
        ensures bytes { IfOk result (λ bound. bound ≡ replicate places nothing) }
        ensures counts { IfOk result (λ bound. CoversCounts bound (λ _. 0) (λ _. 0)) }
    {
        let pairs = vec![in alloc; Pair::NONE; places]?;
        Ok(Bound { pairs })
    }

    /// So much more of this tail.
    pub fn add(&mut self, tail: u64, weight: u8)
        ensures bytes { self.new ≡ slice_set self.old (tail % length self.old) (risen weight (pair_of self.old tail)) }
        ensures counts { (before present : ℕ → ℕ) → CoversCounts self.old before present
            → CoversCounts self.new before (λ other. present other + (if other == tail then weight else 0)) }
    {
        let place = place_of(tail, self.pairs.len() as u64) as usize;
        let pair = &mut self.pairs[place];
        pair.present = pair.present.saturating_add(weight);
    }

    /// The present generation becomes the one before, which is forgotten, and a new one begins.
    pub fn turn(&mut self)
        ensures bytes { self.new ≡ map turned self.old }
        ensures counts { (before present : ℕ → ℕ) → CoversCounts self.old before present
            → CoversCounts self.new present (λ _. 0) }
    {
        turn_all(&mut self.pairs);
    }

    /// Forgets each event.
    pub fn clear(&mut self)
        ensures bytes { self.new ≡ replicate (length self.old) nothing }
        ensures counts { CoversCounts self.new (λ _. 0) (λ _. 0) }
    {
        self.pairs.fill(Pair::NONE);
    }

    /// Whether this tail can weigh `count` in the two generations, where 255 and more are not told apart.
    pub fn may_reach(&self, tail: u64, count: u64) -> bool
        ensures bytes { result ≡ nat_le (min count 255) ((pair_of self.now tail).before + (pair_of self.now tail).present) }
        ensures counts { (before present : ℕ → ℕ) → CoversCounts self.now before present → result ≡ false
            → before tail + present tail < count }
    {
        let place = place_of(tail, self.pairs.len() as u64) as usize;
        let pair = &self.pairs[place];
        u64::from(pair.before) + u64::from(pair.present) >= count.min(255)
    }
}

/// Turns each pair.
fn turn_all(pairs: &mut [Pair])
    ensures { pairs.new ≡ map turned pairs.old }
{
    for pair in pairs.iter_mut() {
        *pair = Pair {
            before: pair.present,
            present: 0,
        };
    }
}
