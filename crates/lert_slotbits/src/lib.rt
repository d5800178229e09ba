//! Rows of bits.
//!
//! A `Bits` is seen as its list of truth values. It stores 64 to a word, and beside reading and writing one
//! it counts, finds and moves whole stretches a word at a time: `open_gap` is what a table needs when a slot
//! comes in between. Only `new` takes memory, an eighth of a byte a bit.
#![tactic(auto)]

mod bits;
mod count;
mod gap;
mod row;
mod scan;
mod words;

pub use bits::Bits;
