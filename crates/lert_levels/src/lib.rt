//! The levels of a cone: level 0 in memory, the older ones as frames in the file of frames.
//!
//! A flush moves bins on to older levels and a scan counts all of them; a directory brings the bins back, and a check reads
//! their frames. How a flush does it is read in this order: the bins as streams (`streams`), the pieces of these in one
//! order (that of lert_merge), the merge which takes them (`flush`), and the new bins as they are written (`landing`).
//! `rows` has level 0 and the rows of bins, and `bound` spares level 0 most of its counts.
#![tactic(auto)]

pub mod bound;
pub mod flush;
pub mod landing;
mod levels;
mod merger;
mod parts;
mod reading;
pub mod rows;
mod secure;
pub mod streams;

pub use levels::Levels;
pub use rows::{FlushFault, Zero};
