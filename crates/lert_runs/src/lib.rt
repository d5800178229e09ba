//! Runs: the groups of one quotient, in ascending remainders.
//!
//! A run is a list of slots that holds the groups of `lert_counter` one behind the other. `find` and `grown`
//! answer where a remainder stands and what has to be written to raise its count, without writing it; a long run
//! is searched by halves.
//! `count_above_all` answers a count with no walk over the groups before it. `read_all` tells run texts from
//! all other lists, and `group_at` walks over one. Nothing here allocates.
#![tactic(auto)]

mod begins;
mod grow;
mod halves;
mod place;
mod search;
mod walk;

pub use grow::{Growth, grown};
pub use place::{Place, find};
pub use search::count_above_all;
pub use walk::{group_at, read_all};
