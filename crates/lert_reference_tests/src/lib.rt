//! Tests of the definitions: each slow program on worked examples, and the settings beside them.
//!
//! Their expected values come from worked examples, and not from a clause. No crate stands on this one.
#![tactic(auto)]

#[cfg(test)]
mod counts;
#[cfg(test)]
mod items;
#[cfg(test)]
mod lines;
#[cfg(test)]
mod reports;
#[cfg(test)]
mod settings;
#[cfg(test)]
mod timely;
#[cfg(test)]
mod traces;
