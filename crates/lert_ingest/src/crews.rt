//! Traces read into cones by workers.

ghost use Rattle.std.specs.Prelude.{◌≡◌, ◌^◌, ◌≤◌, ℕ, List, length, Ok, Err, OnOk, IfErr, IfOk};
ghost use Rattle.lert_ingest.specs.Back.{AreSeen};
ghost use Rattle.lert_ingest.specs.Bays.{AreLater, bays_of};
ghost use Rattle.lert_base.specs.Packet.{Packet};
ghost use Rattle.lert_ingest.specs.Cones.{AreHeld, AreNew, mades_of};
ghost use Rattle.lert_ingest.specs.Ingest.{HasIngestedBehind, answer_of, first_of_all};
ghost use Rattle.lert_ingest.specs.Past.{past_of};
ghost use Rattle.lert_ingest.specs.Readers.{AreReadable, given_of, opened_of, sources_of};
ghost use Rattle.lert_ingest.specs.Stops.{AreIngested, IsExact, StopShows};
ghost use Rattle.lert_ingest.specs.Traces.{AreTracesLater};

use crate::faults::{earlier, first_of_cones, first_of_ends};
use crate::readers::{close_readers, open_readers};
use crate::status::Status;
use lert_base::{CountTable, Settings};
use lert_bay::Bay;
use lert_cone::Cone;
use lert_io::{OutOfMemory, Source};
use lert_trace::TraceReader;
use lert_worker::{Crewed, WorkerEnd, run_crew};
use std::alloc::Global;
use std::collections::VecDeque;
use std::sync::Wait;
use std::thread::Threads;

/// Traces, cones, and the answer of reading the ones into the others.
pub type Ingested<S, B, T> = (VecDeque<S>, Vec<Cone<B, T>>, Result<(), Status>);

/// Readers, cones, and the answer of reading on.
pub type IngestedRest<S, B, T> = (
    VecDeque<TraceReader<S>>,
    Vec<Cone<B, T>>,
    Result<(), Status>,
);

/// Reads 1 to 1,024 traces into cones that were just made, one for each number of the settings, by 1 to 64 workers on several threads.
///
/// Trace t is read by worker t modulo their number; those that would read none aren't made. Answers the traces and the cones in
/// their order. With Ok all was read, and the cones take more packets. Of several faults that of the lowest trace is answered; else
/// the lowest bad trace; else the lowest trace with more than 2^36 items; else the lowest cone that its bay broke; else the lowest
/// that a read broke; else the lowest that is full; else the lowest whose weight is. The memory of locks, workers and rings is taken
/// before the first byte of a trace is read, and where it is wanting none is.
pub fn ingest<S: Source + Send, B: Bay + Send, T: CountTable + Send, R: Threads + Wait + Sync>(
    rt: &R,
    alloc: Global,
    settings: &Settings,
    workers: u32,
    traces: VecDeque<S>,
    cones: Vec<Cone<B, T>>,
) -> Ingested<S, B, T>
where
    T::Cursor: Send,
    requires least { 1 ≤ workers }
    requires most { workers ≤ 64 }
    requires some { 1 ≤ length traces.items }
    requires few { length traces.items ≤ 1024 }
    requires number { length cones.items ≡ 2 ^ settings.now.cone_bits }
    requires new_cones { AreNew B.files B.leaves B.faults settings.now cones.items }
    ensures later { AreLater B.files B.faults B.mark (bays_of cones.items) (bays_of result.1.items) }
    ensures traces_later { AreTracesLater S.faults S.mark traces.items result.0.items }
    ensures read { OnOk result.2 (AreIngested S.remaining B.files B.leaves B.faults settings.now workers traces.items result.0.items result.1.items) }
    ensures stopped { IfErr result.2 (StopShows S.remaining S.faults B.files B.faults settings.now workers
        traces.items result.0.items (bays_of cones.items) (bays_of result.1.items)) }
    ensures exact { IsExact S.remaining S.faults B.files B.faults settings.now workers
        traces.items result.0.items (bays_of cones.items) (bays_of result.1.items) (result.2 ≡ Ok tt) (λ status. result.2 ≡ Err status) }
{
    let Ok(room) = VecDeque::with_capacity(alloc, traces.len()) else {
        return (traces, cones, Err(Status::OutOfMemory));
    };
    let (readers, emptied) = open_readers(traces, room);
    let (readers, cones, answer) = ingest_rest(rt, alloc, settings, workers, readers, cones);
    (close_readers(readers, emptied), cones, answer)
}

/// Reads what 1 to 1,024 readers have still to give into running cones, one for each number of the settings, by 1 to 64 workers on
/// several threads, as `ingest` does: the readers have its limit and met no fault, and the cones take packets of all weights.
///
/// Answers readers and cones in their order. Whatever lists the cones stood for, with Ok each stands for its list and behind it for a
/// weave of what was still to come, and takes both together; the answer and its fault are those of `ingest`, over the traces as they
/// were opened and the bays with which the cones were made.
pub fn ingest_rest<S: Source + Send, B: Bay + Send, T: CountTable + Send, R: Threads + Wait + Sync>(
    rt: &R,
    alloc: Global,
    settings: &Settings,
    workers: u32,
    readers: VecDeque<TraceReader<S>>,
    cones: Vec<Cone<B, T>>,
) -> IngestedRest<S, B, T>
where
    T::Cursor: Send,
    requires least { 1 ≤ workers }
    requires most { workers ≤ 64 }
    requires some { 1 ≤ length readers.items }
    requires few { length readers.items ≤ 1024 }
    requires number { length cones.items ≡ 2 ^ settings.now.cone_bits }
    requires readable { AreReadable readers.items }
    requires held { (before : ℕ → List Packet) × AreHeld B.files B.leaves B.faults settings.now before cones.items }
    ensures opened { opened_of result.0.items ≡ opened_of readers.items }
    ensures ingested { (before : ℕ → List Packet) → AreHeld B.files B.leaves B.faults settings.now before cones.items →
        HasIngestedBehind (past_of settings.now (given_of readers.items) before) S.remaining S.faults S.mark B.files B.leaves B.faults B.mark
        settings.now workers (opened_of readers.items) (sources_of readers.items) (sources_of result.0.items)
        (mades_of cones.items) cones.items result.1.items result.2 }
{
    let _ = first_of_cones(&cones); // so each bay is a later one than its cone was made with
    let Crewed {
        readers,
        states: cones,
        ends,
    } = run_crew(rt, alloc, settings, workers, readers, cones);
    let answer = answer(ends, &cones);
    (readers, cones, answer)
}

// The answer, by how the workers ended, where any began, and by the cones that came back.
fn answer<B: Bay, T: CountTable>(
    ends: Result<Vec<WorkerEnd>, OutOfMemory>,
    cones: &[Cone<B, T>],
) -> Result<(), Status>
    requires { length cones.now ≤ 256 }
    ensures judged { IfOk ends (λ ends. result ≡ answer_of (first_of_all ends.items cones.now)) }
    ensures seen { IfOk ends (λ _. AreSeen B.files B.faults B.mark cones.now) }
    ensures none_began { IfErr ends (λ _. result ≡ Err Status.OutOfMemory) }
{
    match ends {
        Ok(ends) => judge(&ends, cones),
        Err(OutOfMemory) => Err(Status::OutOfMemory),
    }
}

// The answer, by the first fault of how all workers ended and of the cones that came back.
fn judge<B: Bay, T: CountTable>(ends: &[WorkerEnd], cones: &[Cone<B, T>]) -> Result<(), Status>
    requires { length cones.now ≤ 256 }
    ensures judged { result ≡ answer_of (first_of_all ends.now cones.now) }
    ensures seen { AreSeen B.files B.faults B.mark cones.now }
{
    answer_of(earlier(first_of_ends(ends), first_of_cones(cones)))
}

// The answer, by the first fault.
fn answer_of(first: Option<Status>) -> Result<(), Status>
    ensures { result ≡ answer_of first }
{
    match first {
        None => Ok(()),
        Some(status) => Err(status),
    }
}
