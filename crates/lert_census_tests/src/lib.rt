//! Tests of the regions of a census, by sums that were worked out by hand.
//!
//! No crate stands on this one.
#![tactic(auto)]

#[cfg(test)]
mod regions;
