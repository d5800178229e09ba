//! The definitions that LERT's contracts cite, over plain lists of items, keys, positions and bytes, and their laws.
//!
//! Nothing here knows a table, a level in memory, a file or a thread. The one contract is that of
//! `reports_come_in_time`: the reports that the definition makes keep the time bound. `lert_reference` has a plain slow
//! program beside the definitions. Every other crate's contracts are stated with these words.
#![tactic(auto)]

mod common;
mod item;
pub mod laws;
mod numbers;
mod piece;
mod report;

pub use common::agreed;
pub use item::Item;
pub use numbers::Numbers;
pub use piece::Piece;
pub use report::Report;
