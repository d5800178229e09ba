//! The bins of a flush: those of level 0, in memory, and behind them frames on disk, as one set of streams.
//!
//! The one contract is that of `BinStreams` as `Streams` and as `Bins`: a table gives its pieces and never fails, a
//! frame those of its text in the file, and writes outside of the places that are read change nothing.
//! All memory is that of `StreamRoom`, which is made once. The flushes of a cone stand on it.

mod cursor;
mod reading;
mod room;
mod streams;

pub use room::StreamRoom;
pub use streams::BinStreams;
