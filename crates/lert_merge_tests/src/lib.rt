//! Tests of what merges stand on, and of merges. The tree of losers: keys that are drawn, equal keys, the greatest
//! key, and trees of one to 65 streams. The order of streams and their sums: small tables by number, drawn streams
//! with equal, least and greatest tails, and a stream that refuses in the middle of a tail. And a stream of two pieces.
//!
//! What is expected is what a plain scan of all keys, or a plain sort of all pieces, finds. No crate stands on this
//! one.
#![tactic(auto)]

#[cfg(test)]
mod plain;
#[cfg(test)]
mod sorted;
#[cfg(test)]
mod sums;
#[cfg(test)]
mod tree;
#[cfg(test)]
mod two;
