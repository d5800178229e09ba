//! A row of numbers that are raised side by side.

ghost use Rattle.std.specs.Prelude.{◌≡◌, ℕ, ◌+◌, ◌/◌, ◌^◌, ◌<◌, ◌≤◌, List, length, replicate, slice_index, IfOk};
ghost use Rattle.lert_cqf.specs.Rows.{IsRaised};
ghost use Rattle.lert_cqf.specs.Spill.{AreRaised};

use crate::cells::raise;
use lert_io::OutOfMemory;
use std::alloc::Global;
use std::marker::Model;

/// Neighbours whose numbers have a part in common.
const BLOCK: usize = 64;

/// So many are always raised one by one.
const FEW: usize = 256;

/// A row of numbers, each the sum of one of its own and one of its block: many of them side by side are raised by
/// writing one for each block.
#[derive(Drop)]
pub struct Spill {
    own: Vec<u32>,
    common: Vec<u32>,
    // Whether a block was raised since the last `clear`. Else nothing but `own` is read.
    far: bool,
    // The raises since the last `clear`, wrapping.
    raises: usize,
}

impl Model for Spill {
    ghost use Rattle.std.specs.Prelude.{◌≡◌, ℕ, ◌+◌, ◌/◌, List, length, slice_index, false};
    ghost use Rattle.lert_cqf.specs.Spill.{sums};

    ghost Value = { List ℕ };

    ghost view = { λ s. sums s.own.items s.common.items };

    ghost invariant = { λ s. (length s.common.items ≡ length s.own.items / 64 + 1)
        × (s.far ≡ false → (block : ℕ) → slice_index s.common.items block ≡ 0) };
}

impl Spill {
    /// `len` numbers, all 0.
    pub fn new(alloc: Global, len: usize) -> Result<Spill, OutOfMemory>
        ensures { IfOk result (λ s. s ≡ replicate len 0) }
    {
        let own = vec![in alloc; 0; len]?;
        let common = vec![in alloc; 0; len / BLOCK + 1]?;
        Ok(Spill {
            own,
            common,
            far: false,
            raises: 0,
        })
    }

    /// The count of numbers.
    pub fn len(&self) -> usize
        ensures { result ≡ length self.now }
    {
        self.own.len()
    }

    /// The number at a place.
    pub fn get(&self, place: usize) -> u64
        requires { place < length self.now }
        ensures { result ≡ slice_index self.now place }
    {
        let own = u64::from(self.own[place]);
        if !self.far {
            return own;
        }
        own + u64::from(self.common[place / BLOCK])
    }

    /// Raises the numbers from `from` up to `to` by one.
    pub fn raise(&mut self, from: usize, to: usize)
        requires order { from ≤ to + 1 }
        requires within { to < length self.old }
        requires room { (g : ℕ) → g < length self.old → slice_index self.old g + 1 < 2 ^ 32 }
        ensures { IsRaised self.old self.new from to }
    {
        self.raises = self.raises.wrapping_add(1);
        if to + 1 - from > FEW {
            self.raise_wide(from, to);
        } else {
            raise(&mut self.own, from, to + 1);
        }
    }

    /// The same of many numbers: by blocks where the row is less than half full, and behind the first such raise up to
    /// the next `clear`. Keys that nobody chose fill a table evenly, and raise as many only once it is nearly full: so
    /// they never pay for a second part.
    #[cold]
    #[inline(never)]
    fn raise_wide(&mut self, from: usize, to: usize)
        requires far { from + 64 ≤ to }
        requires within { to < length self.old }
        requires room { (g : ℕ) → g < length self.old → slice_index self.old g + 1 < 2 ^ 32 }
        ensures { IsRaised self.old self.new from to }
    {
        if self.far || self.raises < self.own.len() / 2 {
            raise_far(&mut self.own, &mut self.common, from, to);
            self.far = true;
        } else {
            raise(&mut self.own, from, to + 1);
        }
    }

    /// Makes all numbers 0.
    pub fn clear(&mut self)
        ensures { self.new ≡ replicate (length self.old) 0 }
    {
        self.own.fill(0);
        self.common.fill(0);
        self.far = false;
        self.raises = 0;
    }
}

/// Raises what the blocks between `from` and `to` have in common, and one by one what is left at both ends.
fn raise_far(own: &mut [u32], common: &mut [u32], from: usize, to: usize)
    requires far { from + 64 ≤ to }
    requires within { to < length own.old }
    requires blocks { length common.old ≡ length own.old / 64 + 1 }
    requires room { (g : ℕ) → g < length own.old
        → slice_index own.old g + slice_index common.old (g / 64) + 1 < 2 ^ 32 }
    ensures { AreRaised own.old common.old own.new common.new from to }
{
    let first = (from + BLOCK - 1) / BLOCK;
    let last = (to + 1) / BLOCK;
    raise(own, from, first * BLOCK);
    raise(common, first, last);
    raise(own, last * BLOCK, to + 1);
}
