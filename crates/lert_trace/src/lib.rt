//! The trace reader: items out of the bytes of a trace, with weights or without, one at a time.
//!
//! The one contract is that of `TraceReader::next`: over a source that tells its bytes it gives the
//! items that stand wholly in them, in order and up to a limit, ends exactly where they are a trace,
//! and else names the place at which they leave the format. It takes no memory, and calls its source
//! at most once for 450 items where that fills what it is given. The workers and the top call read
//! their traces through it.
#![tactic(auto)]

mod fault;
mod header;
mod reader;
mod window;

pub use fault::TraceFault;
pub use reader::{MOST_ITEMS, TraceReader};
