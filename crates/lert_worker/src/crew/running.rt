//! Runs of a crew of workers.

ghost use Rattle.std.specs.Prelude.{◌≡◌, ◌^◌, ◌≤◌, ℕ, [], All, List, length, min, vec_capacity, IfErr, IfOk, Some, slice_get};
ghost use Rattle.std.specs.VecDeque.{deque_capacity};
ghost use Rattle.lert_base.specs.Packet.{Packet};
ghost use Rattle.lert_conelock.specs.Sight.{LockSight};
ghost use Rattle.lert_worker.specs.crew.Crewed.{HasCrewed};
ghost use Rattle.lert_worker.specs.crew.Passes.{IsPassFrom, IsQuiet};
ghost use Rattle.lert_worker.specs.crew.Ready.{AllFit, firsts_of};

use crate::crew::hiring::{dismiss_all, line_up, make_crew};
use crate::crew::reading::read_all;
use crate::crew::sharing::{give_readers, pour, take_readers};
use crate::end::WorkerEnd;
use lert_base::{ConeFault, Held, Settings};
use lert_fleet::{Fleet, FleetPass};
use lert_io::{OutOfMemory, Source};
use lert_trace::TraceReader;
use std::alloc::Global;
use std::collections::VecDeque;
use std::sync::Wait;
use std::thread::Threads;

/// What a crew hands back.
pub struct Crewed<S: Source, H> {
    /// The readers, in the order of their traces.
    pub readers: VecDeque<TraceReader<S>>,
    /// The states, in their order.
    pub states: Vec<H>,
    /// How each worker ended, in the order of their numbers.
    pub ends: Result<Vec<WorkerEnd>, OutOfMemory>,
}

/// Has 1 to 64 workers read what the readers of 1 to 1,024 traces have still to give into the states of a fleet, one for each cone
/// of the settings, on several threads.
///
/// Trace t is read by worker t modulo their number; workers that would read none aren't made. Each state is one that some list makes,
/// and each packet of some items of its cone may be applied to it. The memory of locks, workers, rings and lists is taken before
/// anything is read, and where it is wanting nothing is: then readers and states are as they were.
pub fn run_crew<S: Source + Send, H: Held<Refusal = ConeFault> + Send, R: Threads + Wait + Sync>(
    rt: &R,
    alloc: Global,
    settings: &Settings,
    workers: u32,
    readers: VecDeque<TraceReader<S>>,
    states: Vec<H>,
) -> Crewed<S, H>
where
    H::Reply: Send,
    requires least { 1 ≤ workers }
    requires most { workers ≤ 64 }
    requires some { 1 ≤ length readers.items }
    requires few { length readers.items ≤ 1024 }
    requires number { length states.items ≡ 2 ^ settings.now.cone_bits }
    requires opened { All (λ state. (h : List Packet) × H.stands_for state h) states.items }
    requires fits { AllFit H.Held settings.now states.items }
    ensures busy { IfOk result.ends (λ ends. length ends.items ≡ min workers (length readers.items)) }
    ensures ran { IfOk result.ends (λ ends. HasCrewed S.remaining S.faults S.mark H.Held settings.now
        readers.items result.readers.items states.items result.states.items ends.items) }
    ensures readers_back { IfErr result.ends (λ _. result.readers.items ≡ readers.items) }
    ensures states_back { IfErr result.ends (λ _. result.states.items ≡ states.items) }
{
    let _valid = settings.numbers(); // so there are 1 to 256 states
    let crew = busy_workers(workers, readers.len());
    let Ok(room) = VecDeque::with_capacity(alloc, readers.len()) else {
        return Crewed {
            readers,
            states,
            ends: Err(OutOfMemory),
        };
    };
    let Ok(ends) = Vec::with_capacity(alloc, crew as usize) else {
        room.destroy_empty();
        return Crewed {
            readers,
            states,
            ends: Err(OutOfMemory),
        };
    };
    match Fleet::new(alloc, states, crew) {
        Ok((fleet, pass)) => run_fleet(rt, alloc, settings, crew, fleet, pass, readers, room, ends),
        Err(states) => {
            room.destroy_empty();
            Crewed {
                readers,
                states,
                ends: Err(OutOfMemory),
            }
        }
    }
}

// How many of the workers have a trace to read.
fn busy_workers(workers: u32, traces: usize) -> u32
    ensures { result ≡ min workers traces }
{
    if traces < workers as usize {
        traces as u32
    } else {
        workers
    }
}

// The same over a fleet of the states, with a pass of all its numbers, with an empty list with room for all readers, and with one
// for the ends of all workers.
fn run_fleet<S: Source + Send, H: Held<Refusal = ConeFault> + Send, R: Threads + Wait + Sync>(
    rt: &R,
    alloc: Global,
    settings: &Settings,
    workers: u32,
    fleet: Fleet<H>,
    pass: FleetPass<H>,
    mut readers: VecDeque<TraceReader<S>>,
    room: VecDeque<TraceReader<S>>,
    ends: Vec<WorkerEnd>,
) -> Crewed<S, H>
where
    H::Reply: Send,
    requires least { 1 ≤ workers }
    requires most { workers ≤ 64 }
    requires some { 1 ≤ length readers.items }
    requires few { length readers.items ≤ 1024 }
    requires number { length fleet ≡ 2 ^ settings.now.cone_bits }
    requires fits { AllFit H.Held settings.now (firsts_of fleet) }
    requires numbers { (cone : ℕ) (lock : LockSight H) → slice_get fleet cone ≡ Some lock → lock.numbers ≡ workers }
    requires pass { IsPassFrom fleet 0 workers pass }
    requires quiet { IsQuiet pass }
    requires empty { room.items ≡ [] }
    requires room { length readers.items ≤ deque_capacity room }
    requires no_end { ends.items ≡ [] }
    requires ends { workers ≤ vec_capacity ends }
    ensures busy { IfOk result.ends (λ ends. length ends.items ≡ workers) }
    ensures ran { IfOk result.ends (λ ends. HasCrewed S.remaining S.faults S.mark H.Held settings.now
        readers.items result.readers.items (firsts_of fleet) result.states.items ends.items) }
    ensures readers_back { IfErr result.ends (λ _. result.readers.items ≡ readers.items) }
    ensures states_back { IfErr result.ends (λ _. result.states.items ≡ firsts_of fleet) }
{
    let count = readers.len() as u32;
    let mut crew = match make_crew(alloc, settings, &fleet, pass, workers) {
        Ok(crew) => line_up(&fleet, settings, crew),
        Err(pass) => {
            room.destroy_empty();
            return Crewed {
                readers,
                states: fleet.close(pass),
                ends: Err(OutOfMemory),
            };
        }
    };
    if let Err(given) = give_readers(&mut crew, &mut readers) {
        let back = take_readers(&mut crew, given, room);
        let pass = dismiss_all(&fleet, crew);
        return Crewed {
            readers: pour(back, readers),
            states: fleet.close(pass),
            ends: Err(OutOfMemory),
        };
    }
    readers.destroy_empty();
    let (readers, ends) = read_all(rt, &fleet, &mut crew, count, room, ends);
    let pass = dismiss_all(&fleet, crew);
    Crewed {
        readers,
        states: fleet.close(pass),
        ends: Ok(ends),
    }
}
