//! Tests of runs and recoveries over two cones in which each call on a trace, a bay, the place and the sink fails in turn. No crate
//! stands on this one.
#![tactic(auto)]

#[cfg(test)]
mod bays;
#[cfg(test)]
mod faults;
#[cfg(test)]
mod openings;
#[cfg(test)]
mod orders;
#[cfg(test)]
mod plays;
#[cfg(test)]
mod sinks;
#[cfg(test)]
mod steps;
#[cfg(test)]
mod traces;
#[cfg(test)]
mod walk;
