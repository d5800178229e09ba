//! The tables of level 0 of one cone.

ghost use Rattle.std.specs.Prelude.{◌<◌, vec_len};

use crate::bin::{Bin, Shape};
use lert_io::OutOfMemory;
use std::alloc::Global;

/// So many tables take events in turn.
const BINS: u32 = 4;

/// Four tables, of which the newest takes the events. Once it is full, the oldest is cleared and is the
/// newest from then on.
#[derive(Drop)]
pub struct Window {
    bins: Vec<Bin>,
    newest: usize,
    ghost within: { newest < vec_len bins },
}

impl Window {
    pub fn new(alloc: Global, shape: Shape) -> Result<Window, OutOfMemory> {
        let mut bins = Vec::new(alloc);
        for _ in 0..BINS {
            bins.push(Bin::new(alloc, shape)?)?;
        }
        Ok(Window { bins, newest: 0 })
    }

    /// Adds the tail, and answers how often the four tables have it.
    fn take(&mut self, tail: u64) -> u64 {
        if self.bins[self.newest].is_full() {
            self.turn();
        }
        self.bins[self.newest].add(tail);
        let mut sum = 0u64;
        for bin in &self.bins {
            sum = sum.wrapping_add(bin.count(tail));
        }
        sum
    }

    /// Clears the oldest table, which is the newest from then on.
    fn turn(&mut self) {
        let oldest = self.newest + 1;
        self.newest = if oldest == self.bins.len() { 0 } else { oldest };
        self.bins[self.newest].clear();
    }

    /// Takes each tail, and answers the sum of all counts.
    pub fn take_all(&mut self, tails: &[u64]) -> u64 {
        let mut sum = 0u64;
        for tail in tails {
            sum = sum.wrapping_add(self.take(*tail));
        }
        sum
    }
}
