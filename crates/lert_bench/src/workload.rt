//! The filters of a workload, and the loops over them.

use crate::bin::{Bin, Shape};
use crate::window::Window;
use lert_io::OutOfMemory;
use std::alloc::Global;

/// So many events go to a cone before the next one has its turn.
const TURN: usize = 1024;

/// A loop over tails.
#[derive(Clone, Copy)]
pub enum Workload {
    /// The window of one cone takes each tail.
    OneCone,
    /// The windows of sixteen cones take the tails in turns.
    SixteenCones,
    /// A table that has all tails counts each.
    Hits,
    /// A table that has all tails counts each other tail, whose bits are the other ones.
    Misses,
}

impl Workload {
    pub fn named(name: &str) -> Option<Workload> {
        match name {
            "one" => Some(Workload::OneCone),
            "sixteen" => Some(Workload::SixteenCones),
            "hits" => Some(Workload::Hits),
            "misses" => Some(Workload::Misses),
            _ => None,
        }
    }

    /// The numbers of its filters.
    pub fn shape(self) -> Shape {
        match self {
            Workload::OneCone => Shape {
                quotient_bits: 12,
                width: 52,
                room: 4096,
                greatest: 0xffff_ffff_ffff_ffff,
            },
            Workload::SixteenCones => Shape {
                quotient_bits: 12,
                width: 48,
                room: 4096,
                greatest: 0x0fff_ffff_ffff_ffff,
            },
            Workload::Hits | Workload::Misses => Shape {
                quotient_bits: 20,
                width: 44,
                room: 1_048_576,
                greatest: 0xffff_ffff_ffff_ffff,
            },
        }
    }

    /// The filters as they are when the loop begins.
    pub fn prepare(self, alloc: Global, tails: &[u64]) -> Result<Ready, OutOfMemory> {
        let shape = self.shape();
        match self {
            Workload::OneCone => Ready::windows(alloc, shape, 1),
            Workload::SixteenCones => Ready::windows(alloc, shape, 16),
            Workload::Hits => Ok(Ready::Table {
                filled: Bin::with(alloc, shape, tails)?,
                flip: 0,
            }),
            Workload::Misses => Ok(Ready::Table {
                filled: Bin::with(alloc, shape, tails)?,
                flip: shape.greatest,
            }),
        }
    }
}

/// The filters of a workload.
#[derive(Drop)]
pub enum Ready {
    Windows(Vec<Window>),
    /// Tails are counted with the bits of `flip` turned.
    Table { filled: Bin, flip: u64 },
}

impl Ready {
    fn windows(alloc: Global, shape: Shape, cones: u32) -> Result<Ready, OutOfMemory> {
        let mut windows = Vec::new(alloc);
        for _ in 0..cones {
            windows.push(Window::new(alloc, shape)?)?;
        }
        Ok(Ready::Windows(windows))
    }

    /// The sum of the counts that the loop asks for.
    pub fn run(&mut self, tails: &[u64]) -> u64 {
        match self {
            Ready::Windows(windows) => take_turns(windows, tails),
            Ready::Table { filled, flip } => sum_of_counts(filled, *flip, tails),
        }
    }
}

/// Gives the tails to the windows in turns.
fn take_turns(windows: &mut [Window], tails: &[u64]) -> u64 {
    let mut sum = 0u64;
    let mut cone = 0;
    for turn in tails.chunks(TURN) {
        if cone >= windows.len() {
            cone = 0;
        }
        if let Some(window) = windows.get_mut(cone) {
            sum = sum.wrapping_add(window.take_all(turn));
        }
        cone += 1;
    }
    sum
}

fn sum_of_counts(bin: &Bin, flip: u64, tails: &[u64]) -> u64 {
    let mut sum = 0u64;
    for tail in tails {
        sum = sum.wrapping_add(bin.count(*tail ^ flip));
    }
    sum
}
