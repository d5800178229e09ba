//! What is decoded of a frame, and what is to come of it.

ghost use Rattle.std.specs.Prelude.{length};
ghost use Rattle.lert_frames.specs.Standing.{IsStanding};

use crate::window::Window;
use lert_blocks::Walk;

/// The present block, as far as it isn't decoded.
#[derive(Clone, Copy, Debug, PartialEq, Eq)]
pub struct Present {
    /// Its first quotient.
    pub first: u64,
    /// How many slots it has from the present word of run ends on: 0 where it is decoded.
    pub some: u64,
    /// How many of these are decoded: a group may reach into the next word.
    pub from: usize,
    pub walk: Walk,
}

/// The blocks behind the present one.
#[derive(Clone, Copy, Debug, PartialEq, Eq)]
pub struct Ahead {
    /// The number of the next block, and how many come from there on.
    pub next: u64,
    pub blocks: u64,
    /// The most slots that they may have together.
    pub most: u64,
}

/// A frame as it is decoded, from front to back.
#[derive(Drop)]
pub struct Decoder {
    // The bits of a remainder.
    pub(crate) width: u32,
    pub(crate) block: Present,
    pub(crate) ahead: Ahead,
    // The slots to come of the present block, and behind them the next blocks.
    pub(crate) window: Window,
    // The words to come of the present block's run ends.
    pub(crate) ends: Window,
    // A word's slots, and the eight behind them.
    pub(crate) slots: Vec<u64>,
    ghost standing: { IsStanding width block ahead window ends (length slots.items) },
}
