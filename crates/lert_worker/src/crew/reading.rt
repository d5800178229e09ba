//! Runs of workers that have their readers.

ghost use Rattle.std.specs.Prelude.{◌≡◌, ◌≤◌, [], length, vec_capacity, All};
ghost use Rattle.std.specs.VecDeque.{deque_capacity};
ghost use Rattle.lert_worker.specs.Ran.{MayRun};
ghost use Rattle.lert_worker.specs.crew.Ready.{HasCrewRun, ends_of};
ghost use Rattle.lert_worker.specs.crew.Sharing.{AreShared};

use crate::crew::sharing::take_readers;
use crate::end::WorkerEnd;
use crate::halves::run_all;
use crate::parts::Worker;
use lert_base::{ConeFault, Held};
use lert_fleet::Fleet;
use lert_io::Source;
use lert_trace::TraceReader;
use std::collections::VecDeque;
use std::sync::Wait;
use std::thread::Threads;

/// Has workers read their shares of the first so many traces, on several threads, and takes the readers back, into an empty list
/// with room for all. Answers them in the order of their traces, and how the workers ended, in an empty list with room for that.
/// Takes no memory.
pub fn read_all<S: Source + Send, H: Held<Refusal = ConeFault> + Send, R: Threads + Wait + Sync>(
    rt: &R,
    fleet: &Fleet<H>,
    crew: &mut [Worker<S, H>],
    count: u32,
    room: VecDeque<TraceReader<S>>,
    ends: Vec<WorkerEnd>,
) -> (VecDeque<TraceReader<S>>, Vec<WorkerEnd>)
where
    H::Reply: Send,
    requires some { 1 ≤ length crew.old }
    requires may { All (MayRun H.Held fleet.now) crew.old }
    requires shared { AreShared count crew.old }
    requires empty { room.items ≡ [] }
    requires room { count ≤ deque_capacity room }
    requires no_end { ends.items ≡ [] }
    requires ends { length crew.old ≤ vec_capacity ends }
    ensures { HasCrewRun S.remaining S.faults S.mark fleet.now count crew.old crew.new result.0.items result.1.items }
{
    run_all(rt, fleet, crew);
    let ends = list_ends(crew, ends);
    (take_readers(crew, count, room), ends)
}

// How workers ended, in their order, in an empty list with room for that.
fn list_ends<S: Source, H: Held<Refusal = ConeFault>>(
    crew: &[Worker<S, H>],
    mut ends: Vec<WorkerEnd>,
) -> Vec<WorkerEnd>
    requires empty { ends.items ≡ [] }
    requires room { length crew.now ≤ vec_capacity ends }
    ensures { result.items ≡ ends_of crew.now }
{
    for by in 0..crew.len() {
        ends.push_reserved(crew[by].end());
    }
    ends
}
