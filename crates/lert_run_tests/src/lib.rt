//! Tests of runs over one trace and bays in memory, on worked examples and on faults, of what a run finds and leaves
//! on the disks of its cones, and of what a recovery makes of the files that a run left.
//!
//! Their expected values come from worked examples, and not from a clause. No crate stands on this
//! one.
#![tactic(auto)]

#[cfg(test)]
mod checks;
#[cfg(test)]
mod damages;
#[cfg(test)]
mod disks;
#[cfg(test)]
mod recoveries;
#[cfg(test)]
mod runs;
