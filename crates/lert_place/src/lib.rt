//! Places of traces and bays.
//!
//! The one contract is that of the trait `Place`: what was asked, what was handed out, and what came back.
//! `MemPlace` meets it in memory, and `PairPlace` with two sources that meet, for tests. The top call opens what it needs at a place, and puts it back there.
#![tactic(auto)]

mod handed;
mod ledger;
mod lent;
mod mem_place;
mod opening;
mod pair_place;
mod place;

pub use mem_place::MemPlace;
pub use opening::{Opening, Wanted};
pub use pair_place::PairPlace;
pub use place::Place;
