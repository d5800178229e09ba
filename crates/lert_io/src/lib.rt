//! The outside of LERT as values: where bytes come from, where they go, and how a call fails.
//!
//! The one contract is that of the traits: an object tells its content or nothing, and a call on it
//! fails only where the object's count of faults rose in that call. Everything that reads or writes
//! is generic over these traits, so its theorems hold for every source and every sink. The sources
//! and sinks in memory are for tests and for commands that work on generated traces; two paired sources show that two
//! threads ran at once.
#![tactic(auto)]

mod call_list;
mod copy;
mod faulty;
mod mem_sink;
mod mem_source;
mod paired_source;
mod seen;
mod sink;
mod source;
mod steady_source;

pub use call_list::CallList;
pub use faulty::{Failed, Faulty, OutOfMemory};
pub use mem_sink::MemSink;
pub use mem_source::MemSource;
pub use paired_source::PairedSource;
pub use seen::Seen;
pub use sink::{Sink, write_all};
pub use source::Source;
pub use steady_source::SteadySource;
