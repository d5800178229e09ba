//! The journal of a cone: which packets it took, in their order.
//!
//! The one contract is that of `append_entry`: in every image of each of its moments the journal has
//! the packets from before, or those and the new one, and after Ok it has the new one. `read_entry` gives
//! them back in their order, and names the exact place where a record leaves the format, as `place_left` does of
//! a payload alone; what its items weigh is counted by `weight_behind`. A header reads back as the cone and the eight numbers that it was written from. `lert_cone` and
//! `lert_recover` stand on it.
#![tactic(auto)]

mod entries;
mod header;
mod payload;

pub use entries::{append_entry, read_entry};
pub use header::{HEADER_LEN, header_left, read_header, write_header};
pub use payload::{place_left, weight_behind};
