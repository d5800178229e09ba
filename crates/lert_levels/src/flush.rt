//! The merge of a flush, which writes the new bins while it runs.
//!
//! The one contract is that of `merge_bins`: the pieces of some bins come in one order, their sums go to a taker of totals,
//! and those of a level's part to the landing of that level. The bins on disk read the file of frames while other places of
//! it are written, which is what `Bins` asks of them. Neither this nor `merge_all`, which lands nothing, takes memory.
//! The streams of a cone's bins and the levels stand on it.

mod bins;
mod merge;
mod put;
mod scan;

pub(crate) use bins::Bins;
pub(crate) use merge::merge_bins;
pub(crate) use scan::merge_all;
