//! How a worker ends.

use lert_base::ConeFault;
use lert_trace::TraceFault;

/// How a worker ended.
#[derive(Clone, Copy, Debug, PartialEq, Eq)]
pub enum WorkerEnd {
    /// It read all its traces to their ends, and each cone took its items. A worker that didn't run yet has this end too.
    Ran,
    /// This trace can't be read on.
    Trace { trace: u32, fault: TraceFault },
    /// This cone refused a packet.
    Cone { cone: u32, fault: ConeFault },
}
