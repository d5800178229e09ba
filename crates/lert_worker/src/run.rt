//! Runs of a worker.

ghost use Rattle.std.specs.Prelude.{◌≡◌};
ghost use Rattle.lert_worker.specs.Outbox.{IsResting, MaySend};
ghost use Rattle.lert_worker.specs.Ran.{AreGiven, HasRun, MayRun};
ghost use Rattle.lert_worker.specs.Runs.{HasEnded};

use crate::end::WorkerEnd;
use crate::outbox::Outbox;
use crate::parts::Worker;
use crate::sending::send_trace;
use lert_base::{ConeFault, Held};
use lert_fleet::{Fleet, FleetPass};
use lert_io::Source;
use lert_trace::TraceReader;
use std::collections::VecDeque;
use std::sync::Wait;

/// Reads each trace of a worker to its end, and brings its items to the cones of a fleet.
///
/// A cone's items wait in its ring. As soon as the ring holds one, two or three packets, it goes as one packet if no other
/// caller holds the cone's lock just then; with four packets, and with what is left at the end of a trace, it waits for the
/// lock. A trace that can't be read on and a packet that is refused end the run at once, and the items in the rings are
/// dropped. Takes no memory.
pub fn run_worker<S: Source, H: Held<Refusal = ConeFault>, R: Wait>(
    rt: &R,
    fleet: &Fleet<H>,
    worker: &mut Worker<S, H>,
)
    requires { MayRun H.Held fleet.now worker.old }
    ensures { HasRun S.remaining S.faults S.mark fleet.now worker.old worker.new }
{
    worker.end = run_traces(
        rt,
        fleet,
        &mut worker.pass,
        &mut worker.outbox,
        &worker.traces,
        &mut worker.readers,
    );
}

// Reads traces one after the other, each to its end, up to the first that doesn't end so.
fn run_traces<S: Source, H: Held<Refusal = ConeFault>, R: Wait>(
    rt: &R,
    fleet: &Fleet<H>,
    pass: &mut FleetPass<H>,
    outbox: &mut Outbox,
    traces: &VecDeque<u32>,
    readers: &mut VecDeque<TraceReader<S>>,
) -> WorkerEnd
    requires may { MaySend H.Held fleet.now pass.old outbox.old }
    requires resting { IsResting outbox.old }
    requires given { AreGiven traces.now.items readers.old.items }
    ensures may { MaySend H.Held fleet.now pass.new outbox.new }
    ensures resting { IsResting outbox.new }
    ensures settings { outbox.new.settings ≡ outbox.old.settings }
    ensures by { outbox.new.entry.by ≡ outbox.old.entry.by }
    ensures hi { pass.new.hi ≡ pass.old.hi }
    ensures ended { HasEnded S.remaining S.faults S.mark outbox.old.settings outbox.old.entry.by traces.now.items
        readers.old.items pass.old readers.new.items pass.new result }
{
    for place in 0..traces.len() {
        outbox.entry.trace = traces[place];
        match send_trace(rt, fleet, pass, outbox, &mut readers[place]) {
            WorkerEnd::Ran => {}
            end => return end,
        }
    }
    WorkerEnd::Ran
}
