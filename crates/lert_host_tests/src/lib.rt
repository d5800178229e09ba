//! Tests of places: bays over real files, in folders of their own where they run, openings that are refused, and bays
//! in memory; and of words that are no text.
//!
//! No crate stands on this one.
#![tactic(auto)]

#[cfg(test)]
mod memory;
#[cfg(test)]
mod openings;
#[cfg(test)]
mod places;
#[cfg(test)]
mod refused;
#[cfg(test)]
mod words;
