//! Tests of the reports of a cone and of the text of its log.
//!
//! Their expected values come from worked examples, and not from a clause. No crate stands on this one.
#![tactic(auto)]

#[cfg(test)]
mod directory;
#[cfg(test)]
mod log;
#[cfg(test)]
mod settings;
#[cfg(test)]
mod store;
