//! Level 0 in memory, and the rows of bins on disk.
//!
//! Level 0 counts each tail in a table a bin, and keeps a bound of all of them, which refuses most tails at two bytes.
//! A row has the bins of a level, oldest first, each in a frame of its own. The rows move on through a flush and are named by
//! a directory, and their frames are checked. Bins are read as `streams` and written as `landing`s.

mod bin_at;
mod check;
mod directory;
mod extent;
mod fault;
mod named;
mod row;
mod rows;
mod sync;
mod zero;

pub(crate) use bin_at::BinAt;
pub(crate) use check::check_rows;
pub(crate) use directory::lay_directory;
pub use fault::FlushFault;
pub(crate) use named::restore_rows;
pub(crate) use row::Row;
pub(crate) use rows::{arrival, begins, empty_rows, move_rows};
pub(crate) use sync::sync_frames;
pub use zero::Zero;
