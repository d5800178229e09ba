//! The disk of a cone: three files on one clock, and what a crash at any moment may leave of them.
//!
//! The one contract is that of the trait `Bay`: what each call makes of the files as a read gives
//! them, and of the images that a crash may leave, exactly. Everything that LERT promises about a
//! machine that stops rests on it: gated records, frames, cones and recovery are generic over it.
//! `MemBay` is a bay in memory that tells everything and can crash, for tests and generated traces; `fields` lays
//! numbers and bytes into a buffer that is to be written.
#![tactic(auto)]

mod bay;
mod extent;
pub mod fields;
mod laws;
mod mem_bay;
mod mem_file;
mod overwrite;
mod past;
mod plan;
mod writes;

pub use bay::{Bay, FRAMES, JOURNAL, LOG};
pub use extent::Extent;
pub use laws::torn_since_a_sync;
pub use mem_bay::MemBay;
