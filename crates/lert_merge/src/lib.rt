//! The merge of several streams: their pieces in one order, and the sums of these.
//!
//! The one contract is that of `Merge`: each tail that stands in one of the streams comes once, in ascending order,
//! with the sum of its counts and the share of each stream in it, whether the streams' context tells their pieces or
//! not. It adds up what an `Order` gives (`order`), which finds the least tail by a tree of losers (`tree`). It takes no
//! memory: `Heads` has what it reads ahead, and serves one merge after another. A flush takes the steps of the order
//! alone, one by one.
#![tactic(auto)]

mod heads;
mod merge;
pub mod order;
mod sums;
pub mod tree;

pub use heads::Heads;
pub use merge::Merge;
pub use order::{Ahead, Order, Streams};
