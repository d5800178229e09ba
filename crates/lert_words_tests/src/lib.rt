//! Tests of the words of a command line and of generated keys.
//!
//! They are rows whose answers were worked out by hand, a sink that fails between two blocks, and a reader of words by hand,
//! proved against the same definition, beside which `read_line` is put. No crate stands on this one.
#![tactic(auto)]

mod by_hand;
#[cfg(test)]
mod keys;
#[cfg(test)]
mod lines;
#[cfg(test)]
mod readers;
mod word;

pub use by_hand::{Given, HandFault, read_given};
