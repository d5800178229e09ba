//! Regions of a census: exact sums of the weights of all keys of one cone, in memory.
//!
//! A `Region` is a table of counts under a lock's rule: it takes packets, and stands for those that could have made it.
//! The one contract is that of its cursor: for each list of packets that the region stands for it gives the tally of
//! their items, each key once with what all its items weigh, in ascending mixed values. The tallies of all regions,
//! joined in their order, are that of all items (`laws`); so a command that prints them stands on this crate.
#![tactic(auto)]

mod cursor;
mod held;
pub mod laws;
mod region;

pub use cursor::RegionCursor;
pub use held::RegionTerms;
pub use region::Region;
