//! A plain slow program beside the definitions of `lert_spec`, so that they can be tried on worked examples.
//!
//! The one contract of each is that it computes its definition; `reports::look` and `closing` say too that what they make
//! is in time. No program stands on this crate: its tests do, and those that compare a faster body with the definition.
#![tactic(auto)]

pub mod counts;
pub mod edges;
pub mod lines;
pub mod parts;
pub mod reports;
pub mod timely;
pub mod traces;
