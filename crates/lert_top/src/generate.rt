//! A trace of generated keys.

ghost use Rattle.std.specs.Prelude.{◌≤◌};
ghost use Rattle.lert_top.specs.Generated.{TraceShows};

use lert_gen::write_trace;
use lert_ingest::Status;
use lert_io::{Failed, Sink};

/// Writes a trace of the keys of the first events of a seed. Its only fault is the sink's, which took a beginning of the trace
/// then. It takes no memory.
pub fn gen_to<K: Sink>(seed: u64, events: u64, out: &mut K) -> Status
    requires few { events ≤ 4294967296 }
    ensures shows { TraceShows K.taken K.faults seed events out.old out.new result }
{
    match write_trace(seed, events, out) {
        Ok(()) => Status::Done,
        Err(Failed) => Status::OutFault,
    }
}
