//! A count table as one sorted list, reserved when it is made.
//!
//! Its one contract is `CountTable`. A look-up is a binary search, an `add` of a new tail moves the pieces
//! behind it. It serves tests and small tables; the quotient filter has the same contract.
#![tactic(auto)]

mod table;

pub use table::{PlainCursor, PlainTable};
