//! Count tables as counting quotient filters.
//!
//! `Cqf` is a `CountTable` whose counts stand in slots of words: each quotient has a run of groups, at its home
//! slot or right behind the run before it. Its slots, its occupied quotients and its run ends are the layout of
//! its pieces, whatever the order of the adds. Only `new` takes memory. An `add` moves the slots up to the next
//! free one, a `count` reads one run.
#![tactic(auto)]

mod cells;
mod changes;
mod cursor;
mod rows;
mod spill;
mod table;

pub use cursor::CqfCursor;
pub use table::Cqf;
