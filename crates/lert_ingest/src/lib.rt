//! Traces read into cones by workers: traces and cones in, traces and cones out.
//!
//! The one contract is that of `ingest_rest`, of readers part way and cones that stand for lists: with Ok each trace was read to its
//! end, and each cone stands for its list and behind it for a weave of the items of all traces that were still to come; with a fault
//! each journal is a weave of beginnings there, and the fault is the first of a fixed order, shown by the traces and the bays. `ingest`
//! is its case of traces from their beginnings and of new cones. A run over a place stands on it: it opens these before, and finishes,
//! prints and puts them back behind.
#![tactic(auto)]

mod crews;
mod faults;
mod readers;
mod status;

pub use crews::{Ingested, IngestedRest, ingest, ingest_rest};
pub use status::Status;
