//! Blocks of 64 quotients: how a frame holds the pieces of a bin in slots, as a quotient filter does.
//!
//! The one contract is the text of blocks (`specs/Text.antt`), and what bytes say as blocks
//! (`specs/Frame.antt`): the pieces of a text are read back from it, and what is read is the text of what
//! was found. `decode` reads the slots of one word of run ends, and a `Block` is filled piece by piece and
//! laid as text. No bay is known here, and only `Block::new` takes memory. Frames stand on it.
#![tactic(auto)]

mod block;
mod decoder;
mod group;
mod step;

pub use block::{BLOCK_SLOTS, Block, lay_numbers};
pub use decoder::{Slots, Walk, decode};
