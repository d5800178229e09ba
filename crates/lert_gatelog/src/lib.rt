//! Files of gated records: each record is in the file or isn't, whenever the machine stops.
//!
//! The one contract is that of `append`: in every image of each of its moments the open records are
//! those from before, or those and the new one, and after Ok they have the new one. `next` reads them
//! back in their order, and names the exact place where a file leaves the format. The journal and the
//! log of a cone are such files.
#![tactic(auto)]

mod durable;
mod fault;
mod gate_log;

pub use fault::LogFault;
pub use gate_log::GateLog;
