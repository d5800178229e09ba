//! Tests of the disk in memory and of records: gated logs, journals of packets, traces, and the lines of the statuses.
//!
//! They are what a crash leaves by each pick, what a failed call and a stop leave, bytes from outside, and each place at
//! which a file leaves its format. Their expected values come from worked examples, and not from a clause. No crate
//! stands on this one.
#![tactic(auto)]

#[cfg(test)]
mod bays;
#[cfg(test)]
mod headers;
#[cfg(test)]
mod logs;
#[cfg(test)]
mod packets;
#[cfg(test)]
mod places;
#[cfg(test)]
mod same;
#[cfg(test)]
mod statuses;
#[cfg(test)]
mod traces;
