//! Rings of keys and their weights on their way to the cones, one for each cone.
//!
//! The one contract is a list of items for each cone: a key is put with its weight behind the others of its
//! cone, and a ring's items go into an entry in the order in which they came. After each push the caller is
//! told whether the ring may go, or has to. The readers of traces stand on it.
#![tactic(auto)]

mod buffers;
mod transfer;

pub use buffers::{Buffers, Fill};
