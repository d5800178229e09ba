//! Two workers over a fleet.

ghost use Rattle.std.specs.Prelude.{◌≡◌, ℕ, ◌+◌, ◌<◌, ◌≤◌, ◌^◌, [], ◌∷◌, List, All, length};
ghost use Rattle.lert_base.specs.Packet.{Packet};
ghost use Rattle.lert_worker_tests.specs.Pairs.{ArePasses, HaveBothRun, IsStarted, MayBothRun};

use crate::callers::fleet_of_two;
use lert_base::{ConeFault, Held, Settings};
use lert_fleet::{Fleet, FleetPass};
use lert_io::Source;
use lert_trace::{MOST_ITEMS, TraceReader};
use lert_worker::{Worker, WorkerEnd, run_all, run_worker};
use std::alloc::Global;
use std::process::Abort;
use std::sync::Wait;
use std::thread::Threads;

/// How two workers ended, and the states of the cones.
#[derive(Drop)]
pub struct Outcome<H> {
    pub first: WorkerEnd,
    pub second: WorkerEnd,
    pub states: Vec<H>,
}

/// How two workers run.
#[derive(Clone, Copy, Debug, PartialEq, Eq)]
pub enum Way {
    /// On two threads.
    AtOnce,
    /// One after the other.
    InTurn,
}

/// Runs two workers of the traces 0 and 1 over the cones with these states.
pub fn run_pair<
    S: Source + Send,
    H: Held<Refusal = ConeFault> + Send,
    R: Threads + Wait + Sync + Abort,
>(
    rt: &R,
    alloc: Global,
    settings: &Settings,
    states: Vec<H>,
    sources: (S, S),
    way: Way,
) -> Outcome<H>
where
    S: Drop,
    H: Drop,
    H::Reply: Send,
    requires cones { length states.items ≡ 2 ^ settings.now.cone_bits }
    requires few { (1 ≤ length states.items) × (length states.items ≤ 256) }
    requires opened { All (λ state. (h : List Packet) × H.stands_for state h) states.items }
    requires fits { (state : H) (packet : Packet) → H.fits (H.terms state) packet }
{
    let (fleet, first, second) = fleet_of_two(rt, alloc, states);
    let first = start(rt, alloc, settings, 0, first, sources.0);
    let second = start(rt, alloc, settings, 1, second, sources.1);
    let (first, second) = run(rt, &fleet, first, second, way);
    let (first_end, first) = stop(first);
    let (second_end, second) = stop(second);
    Outcome {
        first: first_end,
        second: second_end,
        states: close(fleet, first, second),
    }
}

/// A worker with the trace of its own number.
pub fn start<S: Source, H: Held<Refusal = ConeFault>>(
    rt: &impl Abort,
    alloc: Global,
    settings: &Settings,
    number: u32,
    pass: FleetPass<H>,
    source: S,
) -> Worker<S, H>
where
    S: Drop,
    requires { number ≤ 63 }
    ensures { IsStarted number settings.now pass result }
{
    let mut worker = match Worker::new(alloc, number, settings, pass) {
        Ok(worker) => worker,
        Err(_pass) => panic!(rt; "memory"),
    };
    match worker.give(number, TraceReader::new(source, MOST_ITEMS)) {
        Ok(()) => worker,
        Err(_refused) => panic!(rt; "memory"),
    }
}

// Both, at once or in turn.
fn run<S: Source + Send, H: Held<Refusal = ConeFault> + Send, R: Threads + Wait + Sync>(
    rt: &R,
    fleet: &Fleet<H>,
    mut first: Worker<S, H>,
    mut second: Worker<S, H>,
    way: Way,
) -> (Worker<S, H>, Worker<S, H>)
where
    H::Reply: Send,
    requires { MayBothRun H.Held fleet.now first second }
    ensures { HaveBothRun S.remaining S.faults S.mark fleet.now first second result.0 result.1 }
{
    match way {
        Way::AtOnce => run_at_once(rt, fleet, first, second),
        Way::InTurn => {
            run_worker(rt, fleet, &mut first);
            run_worker(rt, fleet, &mut second);
            (first, second)
        }
    }
}

fn run_at_once<S: Source + Send, H: Held<Refusal = ConeFault> + Send, R: Threads + Wait + Sync>(
    rt: &R,
    fleet: &Fleet<H>,
    first: Worker<S, H>,
    second: Worker<S, H>,
) -> (Worker<S, H>, Worker<S, H>)
where
    H::Reply: Send,
    requires { MayBothRun H.Held fleet.now first second }
    ensures { HaveBothRun S.remaining S.faults S.mark fleet.now first second result.0 result.1 }
{
    let mut workers = [first, second];
    run_all(rt, fleet, &mut workers);
    both_of(workers)
}

// Out of a slice that was lent.
fn both_of<W>(workers: [W; 2]) -> (W, W)
    ensures { workers ≡ result.0 ∷ result.1 ∷ [] }
{
    let [first, second] = workers;
    (first, second)
}

/// How a worker with one trace ended, and its pass.
pub fn stop<S: Source, H: Held<Refusal = ConeFault>>(
    mut worker: Worker<S, H>,
) -> (WorkerEnd, FleetPass<H>)
where
    S: Drop,
    requires { length worker.traces ≡ 1 }
    ensures end { result.0 ≡ worker.end }
    ensures pass { result.1 ≡ worker.pass }
{
    let _reader = worker.take_back();
    (worker.end(), worker.into_pass())
}

// The states, once both passes are joined.
fn close<H: Held<Refusal = ConeFault>>(
    fleet: Fleet<H>,
    mut first: FleetPass<H>,
    second: FleetPass<H>,
) -> Vec<H>
    requires passes { ArePasses fleet first second }
    ensures { length result.items ≡ length fleet }
{
    fleet.join(&mut first, second);
    fleet.close(first)
}
