//! Tests of bins on a disk in memory, of those that a flush reads and of those that land. Read as streams: two tables
//! and two frames in one order beside a plain sort, and beside writes into the place of another frame. Landed piece by
//! piece: their bytes beside those of a writer alone, a frame beside them, and calls that fail. And bounds of how often
//! a tail came, by rows and beside a plain count.
//!
//! No crate stands on this one.
#![tactic(auto)]

#[cfg(test)]
mod bins;
#[cfg(test)]
mod bound;
#[cfg(test)]
mod landing;
#[cfg(test)]
mod landings;
#[cfg(test)]
mod steps;
#[cfg(test)]
mod streams;
