//! Four workers over a fleet.

ghost use Rattle.std.specs.Prelude.{◌≡◌, ◌+◌, ◌<◌, ◌≤◌, ◌^◌, [], ◌∷◌, List, All, length};
ghost use Rattle.lert_base.specs.Packet.{Packet};
ghost use Rattle.lert_fleet.specs.Cones.{IsPassOf};
ghost use Rattle.lert_worker_tests.specs.Fours.{AreBack, AreHired, IsBack, IsHired};

use crate::crew::{start, stop};
use lert_base::{ConeFault, Held, Settings};
use lert_fleet::{Fleet, FleetPass};
use lert_io::Source;
use lert_worker::{Worker, WorkerEnd, run_all};
use std::alloc::Global;
use std::process::Abort;
use std::sync::Wait;
use std::thread::Threads;

/// Runs four workers of the traces 0 to 3 over the cones with these states, and says how they ended.
pub fn run_four<
    S: Source + Send,
    H: Held<Refusal = ConeFault> + Send,
    R: Threads + Wait + Sync + Abort,
>(rt: &R, alloc: Global, settings: &Settings, states: Vec<H>, sources: [S; 4]) -> [WorkerEnd; 4]
where
    S: Drop,
    H: Drop,
    H::Reply: Send,
    requires cones { length states.items ≡ 2 ^ settings.now.cone_bits }
    requires few { (1 ≤ length states.items) × (length states.items ≤ 256) }
    requires opened { All (λ state. (h : List Packet) × H.stands_for state h) states.items }
    requires fits { (state : H) (packet : Packet) → H.fits (H.terms state) packet }
{
    let Ok((fleet, pass)) = Fleet::new(alloc, states, 4) else {
        panic!(rt; "memory");
    };
    let [first, second, third, fourth] = sources;
    let (first, pass) = hire(rt, alloc, settings, &fleet, 0, pass, first);
    let (second, pass) = hire(rt, alloc, settings, &fleet, 1, pass, second);
    let (third, pass) = hire(rt, alloc, settings, &fleet, 2, pass, third);
    let fourth = start(rt, alloc, settings, 3, pass, fourth);
    let (first, second, third, fourth) = run(rt, &fleet, settings, first, second, third, fourth);
    let (first, pass) = stop(first);
    let (second, pass) = settle(&fleet, pass, second);
    let (third, pass) = settle(&fleet, pass, third);
    let (fourth, pass) = settle(&fleet, pass, fourth);
    let _states = fleet.close(pass);
    [first, second, third, fourth]
}

// A worker with the trace of its own number, and the pass of the numbers above.
fn hire<S: Source, H: Held<Refusal = ConeFault>>(
    rt: &impl Abort,
    alloc: Global,
    settings: &Settings,
    fleet: &Fleet<H>,
    number: u32,
    mut pass: FleetPass<H>,
    source: S,
) -> (Worker<S, H>, FleetPass<H>)
where
    S: Drop,
    requires few { number ≤ 62 }
    requires belongs { IsPassOf pass fleet.now }
    requires range { (pass.lo ≡ number) × (number + 1 < pass.hi) }
    ensures hired { IsHired number settings.now fleet.now result.0 }
    ensures above { IsPassOf result.1 fleet.now × (result.1.lo ≡ number + 1) × (result.1.hi ≡ pass.hi) }
{
    let above = fleet.split(&mut pass, number + 1).expect(rt, "memory");
    (start(rt, alloc, settings, number, pass, source), above)
}

// All of them.
fn run<S: Source + Send, H: Held<Refusal = ConeFault> + Send, R: Threads + Wait + Sync>(
    rt: &R,
    fleet: &Fleet<H>,
    settings: &Settings,
    first: Worker<S, H>,
    second: Worker<S, H>,
    third: Worker<S, H>,
    fourth: Worker<S, H>,
) -> (Worker<S, H>, Worker<S, H>, Worker<S, H>, Worker<S, H>)
where
    H::Reply: Send,
    requires cones { length fleet.now ≡ 2 ^ settings.now.cone_bits }
    requires fits { (state : H) (packet : Packet) → H.fits (H.terms state) packet }
    requires hired { AreHired settings.now fleet.now (first ∷ second ∷ third ∷ fourth ∷ []) }
    ensures back { AreBack fleet.now (result.0 ∷ result.1 ∷ result.2 ∷ result.3 ∷ []) }
{
    let mut workers = [first, second, third, fourth];
    run_all(rt, fleet, &mut workers);
    four_of(workers)
}

// Out of a slice that was lent.
fn four_of<W>(workers: [W; 4]) -> (W, W, W, W)
    ensures { workers ≡ result.0 ∷ result.1 ∷ result.2 ∷ result.3 ∷ [] }
{
    let [first, second, third, fourth] = workers;
    (first, second, third, fourth)
}

// How a worker with one trace ended, and the pass with its own behind it.
fn settle<S: Source, H: Held<Refusal = ConeFault>>(
    fleet: &Fleet<H>,
    mut pass: FleetPass<H>,
    worker: Worker<S, H>,
) -> (WorkerEnd, FleetPass<H>)
where
    S: Drop,
    requires belongs { IsPassOf pass fleet.now }
    requires back { IsBack pass.hi fleet.now worker }
    ensures joined { IsPassOf result.1 fleet.now × (result.1.lo ≡ pass.lo) × (result.1.hi ≡ pass.hi + 1) }
{
    let (end, own) = stop(worker);
    fleet.join(&mut pass, own);
    (end, pass)
}
