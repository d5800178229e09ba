//! Generated keys: from a seed and a number, as many keys of a skewed trace as one likes.
//!
//! The one contract is that of `key_at`: the key of each event as defined. `write_trace` writes them as a trace, through one
//! buffer and with no memory taken, and `deal` deals them to four traces in memory. `gen` and `drill` of the program stand on
//! them.
#![tactic(auto)]

mod dealing;
mod key;
mod writing;

pub use dealing::deal;
pub use key::key_at;
pub use writing::write_trace;
