//! Tests of what counts in memory: bit rows, groups, runs, filters, sorted lists, lists of keys, the mixer and the
//! rings.
//!
//! They are vectors from outside, and each public call once. No crate stands on this one.
#![tactic(auto)]

#[cfg(test)]
mod bits;
#[cfg(test)]
mod filter;
#[cfg(test)]
mod groups;
#[cfg(test)]
mod keys;
#[cfg(test)]
mod mixed;
#[cfg(test)]
mod plain;
#[cfg(test)]
mod rings;
#[cfg(test)]
mod runs;
