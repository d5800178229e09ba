//! Tests of one cone over its files: the bytes that it leaves, which record of the journal its log names, when keys are
//! reported, how it fills, and what failed calls leave. And of reopening it: whole logs and headers of journals, and
//! the files of stopped runs, on worked examples and on broken bytes, and how much of a journal it reads.
//!
//! No crate stands on this one.
#![tactic(auto)]

#[cfg(test)]
mod cones;
#[cfg(test)]
mod faults;
#[cfg(test)]
mod files;
#[cfg(test)]
mod garbled;
#[cfg(test)]
mod journal_headers;
#[cfg(test)]
mod logs;
#[cfg(test)]
mod newest;
#[cfg(test)]
mod records;
#[cfg(test)]
mod reopened;
#[cfg(test)]
mod reports;
#[cfg(test)]
mod weights;
