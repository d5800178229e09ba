//! Bins as frames of slots: the pieces of a bin in the file of frames, at a place of their own.
//!
//! The one contract is the frame text: what a `FrameWriter` was given stands at the frame's place then, and
//! only this place was written; a `FrameReader` gives the pieces of the text there one by one, or the exact
//! byte at which the file leaves it. Both work through fixed buffers. The levels of a cone stand on it.
#![tactic(auto)]

mod closing;
mod decoder;
mod ending;
mod fields;
mod filling;
mod long;
mod moving;
mod outlet;
mod place;
mod read;
mod reader;
mod run_ends;
mod slots;
mod step;
mod window;
mod writer;

pub use place::frame_place;
pub use reader::FrameReader;
pub use writer::FrameWriter;
