//! Tests of level 0 and of the levels on disk, through their public calls.
//!
//! Their expected values come from worked examples, and not from a clause. No crate stands on this
//! one.
#![tactic(auto)]

#[cfg(test)]
mod cut;
#[cfg(test)]
mod levels;
#[cfg(test)]
mod samples;
#[cfg(test)]
mod totals;
#[cfg(test)]
mod zero;
