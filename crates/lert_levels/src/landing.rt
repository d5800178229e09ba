//! Bins that are written while a merge runs.
//!
//! The one contract is that of `Landing`: pieces come one by one in ascending tails, equal ones as often as their streams have
//! them, and when it ends, the table of their sums stands in its frame, and only the frame's place was written. `Landings` are
//! those of several levels side by side, and `add_total` hands the sums to a taker of totals. No piece takes memory.
//! The merge of a flush and the levels stand on it.

mod landing;
mod landings;
mod sum;
mod totals;

pub use landing::Landing;
pub use landings::{add_to, end_all};
pub use sum::Sum;
pub use totals::{add_total, end_totals};
