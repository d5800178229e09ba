//! Tests of frames of slots on a disk in memory: the bytes of a small one, what is read back, each place at which a
//! file leaves a frame, and which calls fail. And of their blocks: the bytes of a small one, and counts of all lengths.
//!
//! Their expected values come from worked examples, and not from a clause. No crate stands on this one.
#![tactic(auto)]

#[cfg(test)]
mod bins;
#[cfg(test)]
mod blocks;
#[cfg(test)]
mod cuts;
#[cfg(test)]
mod faults;
#[cfg(test)]
mod frames;
#[cfg(test)]
mod versions;
