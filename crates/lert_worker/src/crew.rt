//! A crew of workers over one fleet: readers and states in, readers and states out.
//!
//! The one contract is that of `run_crew`, for states of any kind: each worker read its share of the traces as far as its end says,
//! and each state stands, behind whatever list it stood for, for what the workers brought it, each worker's packets in
//! their order. What knows the states, as a cone, stands on it.

mod hiring;
mod reading;
mod running;
mod sharing;

pub use running::{Crewed, run_crew};
