//! Readers that are given to workers, and taken back.

ghost use Rattle.std.specs.Prelude.{◌≡◌, ℕ, ◌+◌, ◌%◌, ◌<◌, ◌≤◌, [], ◌∷◌, ◌++◌, drop, length, All, List, Some, slice_get, IfErr, OnOk};
ghost use Rattle.std.specs.VecDeque.{deque_capacity};
ghost use Rattle.lert_worker.specs.crew.Sharing.{AreFree, AreManned, AreShared, IsGiven, IsTaken, WereTaken};
ghost use Rattle.lert_worker.specs.Ran.{Working};

use crate::parts::{GiveRefused, Worker};
use lert_base::{ConeFault, Held};
use lert_io::Source;
use lert_trace::TraceReader;
use std::collections::VecDeque;

/// Gives the readers of 1 to 1,024 traces to workers that have none: that of trace t to worker t modulo their number. A refusal is
/// want of memory, and says how many were given; the others are left in their list.
pub fn give_readers<S: Source, H: Held<Refusal = ConeFault>>(
    crew: &mut [Worker<S, H>],
    readers: &mut VecDeque<TraceReader<S>>,
) -> Result<(), u32>
    requires some { 1 ≤ length crew.old }
    requires few { length readers.old.items ≤ 1024 }
    requires free { AreFree crew.old }
    ensures given { OnOk result (AreManned (length readers.old.items) readers.old.items crew.old crew.new) }
    ensures emptied { OnOk result (readers.new.items ≡ []) }
    ensures some_given { IfErr result (λ given. AreManned given readers.old.items crew.old crew.new) }
    ensures rest { IfErr result (λ given. readers.new.items ≡ drop given readers.old.items) }
    ensures refused { IfErr result (λ given. given < length readers.old.items) }
{
    let count = readers.len() as u32;
    for trace in 0..count {
        let Some(reader) = readers.pop_front() else {
            unreachable!()
        };
        if let Err(reader) = give_one(crew, trace, reader) {
            readers.push_front_reserved(reader);
            return Err(trace);
        }
    }
    Ok(())
}

// Gives the reader of a trace to its worker. A refusal is want of memory, hands the reader back, and changes nothing.
fn give_one<S: Source, H: Held<Refusal = ConeFault>>(
    crew: &mut [Worker<S, H>],
    trace: u32,
    reader: TraceReader<S>,
) -> Result<(), TraceReader<S>>
    requires some { 1 ≤ length crew.old }
    requires most { trace ≤ 1023 }
    requires above { (by : ℕ) (worker : Working S H) → slice_get crew.old by ≡ Some worker → All (λ other. other < trace) worker.traces }
    ensures given { OnOk result (IsGiven trace reader crew.old crew.new) }
    ensures back { IfErr result (λ back. back ≡ reader) }
    ensures unchanged { IfErr result (λ _. crew.new ≡ crew.old) }
{
    let by = trace as usize % crew.len(); // so that a worker's traces ascend
    let worker = &mut crew[by];
    match worker.give(trace, reader) {
        Ok(()) => Ok(()),
        Err(GiveRefused { reader }) => Err(reader),
    }
}

/// Takes the readers of the first so many traces back from workers that have their shares of these, into an empty list with room for
/// all, in the order of the traces. Takes no memory.
pub fn take_readers<S: Source, H: Held<Refusal = ConeFault>>(
    crew: &mut [Worker<S, H>],
    count: u32,
    mut readers: VecDeque<TraceReader<S>>,
) -> VecDeque<TraceReader<S>>
    requires some { 1 ≤ length crew.old }
    requires shared { AreShared count crew.old }
    requires empty { readers.items ≡ [] }
    requires room { count ≤ deque_capacity readers }
    ensures taken { WereTaken count crew.old crew.new result.items }
    ensures capacity { deque_capacity result ≡ deque_capacity readers }
{
    for trace in 0..count {
        readers.push_back_reserved(take_one(crew, trace));
    }
    readers
}

// Takes the first reader of a trace's worker back, which is that of this trace.
fn take_one<S: Source, H: Held<Refusal = ConeFault>>(
    crew: &mut [Worker<S, H>],
    trace: u32,
) -> TraceReader<S>
    requires some { 1 ≤ length crew.old }
    requires first { (worker : Working S H) → slice_get crew.old (trace % length crew.old) ≡ Some worker → (rest : List ℕ) × (worker.traces ≡ trace ∷ rest) }
    ensures { IsTaken trace result crew.old crew.new }
{
    let by = trace as usize % crew.len();
    let worker = &mut crew[by];
    match worker.take_back() {
        Some((_trace, reader)) => reader,
        None => unreachable!(),
    }
}

/// Puts what is left of a list behind another one, which has room for all. Takes no memory.
pub fn pour<T>(mut list: VecDeque<T>, mut rest: VecDeque<T>) -> VecDeque<T>
    requires { length list.items + length rest.items ≤ deque_capacity list }
    ensures { result.items ≡ list.items ++ rest.items }
{
    while let Some(next) = rest.pop_front() {
        list.push_back_reserved(next);
    }
    rest.destroy_empty();
    list
}
