//! Runs over several traces by workers.

ghost use Rattle.std.specs.Prelude.{◌≡◌, ◌≢◌, ◌⊎◌, ◌^◌, ◌<◌, ◌≤◌, ℕ, All, List, [], length, slice_get};
ghost use Rattle.std.specs.VecDeque.{deque_capacity};
ghost use Rattle.lert_args.specs.Names.{names_of};
ghost use Rattle.lert_args.specs.Word.{word_at};
ghost use Rattle.lert_io.specs.Fault.{HasRisen, IsFaultless};
ghost use Rattle.lert_ingest.specs.Bays.{AreLater, AreToldFresh, bays_of};
ghost use Rattle.lert_ingest.specs.Cones.{AreNew};
ghost use Rattle.lert_ingest.specs.Stops.{AreTaken, AreWeaving, IsExact};
ghost use Rattle.lert_ingest.specs.Traces.{AreTracesLater};
ghost use Rattle.lert_place.specs.Openings.{AreReturned, AreReturnedSame};
ghost use Rattle.lert_spec.specs.declared.item.Item.{Item};
ghost use Rattle.lert_top.specs.cones.Asked.{IsAsked, IsAskedForBays};
ghost use Rattle.lert_top.specs.cones.Closed.{AreClosedInEach, AreReturnedClosed};
ghost use Rattle.lert_top.specs.cones.Finish.{EndShows};
ghost use Rattle.lert_top.specs.runs.Ran.{HasPutBack, IsDone};
ghost use Rattle.lert_top.specs.runs.Run.{HasRun, MadeShows, RunShows};

use crate::cones::{
    bring_back, find_stale, finish_cones, make_cones, open_bays, print_cones, put_back_bays,
};
use crate::runs::traces::{open_traces, put_back_traces};
use lert_base::{Settings, Words};
use lert_bay::Bay;
use lert_cone::Cone;
use lert_cqf::Cqf;
use lert_ingest::{Status, ingest};
use lert_io::{Failed, OutOfMemory, Sink, Source};
use lert_place::Place;
use lert_text::Page;
use std::alloc::Global;
use std::collections::VecDeque;
use std::random::RandomSource;
use std::sync::Wait;
use std::thread::Threads;

/// What a line asks of a run beside its settings: how many workers, 1 to 64, and the places of the directory's name and of the
/// 1 to 1,024 traces' names in the words, from 0.
#[derive(Clone, Copy)]
pub struct Job<'a> {
    pub workers: u32,
    pub dir: usize,
    pub traces: &'a [usize],
}

/// Runs over the traces of names and the bays of the cones in a directory.
///
/// It opens the traces in their order and then the bays, looks whether these are empty, writes their headers, has workers read
/// the traces to their ends into the cones, closes the cones, prints, and puts all back, in this order, and stops at the
/// first fault; what was opened is put back in each case.
pub fn run_line<P: Place, K: Sink, R: Threads + Wait + Sync + RandomSource>(
    rt: &R,
    alloc: Global,
    settings: &Settings,
    words: &Words,
    job: Job<'_>,
    place: &mut P,
    out: &mut K,
) -> Status
    requires least { 1 ≤ job.workers }
    requires most { job.workers ≤ 64 }
    requires some { 1 ≤ length job.traces.now }
    requires few { length job.traces.now ≤ 1024 }
    requires dir { job.dir < length words.now }
    requires within { All (λ number. number < length words.now) job.traces.now }
    requires asked { P.asked place.old ≡ [] }
    ensures asked { IsAsked (names_of words.now job.entry.traces.now) (word_at words.now job.entry.dir) (2 ^ settings.now.cone_bits) (P.asked place.new) result }
    ensures place_fault { result ≡ Status.PlaceFault → HasRisen (P.faults place.old) (P.faults place.new) × (out.new ≡ out.old)
        × AreReturnedSame (P.handed_traces place.new) (P.returned_trace place.new) × AreReturnedSame (P.handed_bays place.new) (P.returned_bay place.new) }
    ensures no_usage { (rule : ℕ) → result ≡ Status.Usage rule → ⊥ }
    ensures returned { AreReturned P.Trace.mark (P.handed_traces place.new) (P.returned_trace place.new)
        × AreReturned P.Bay.mark (P.handed_bays place.new) (P.returned_bay place.new) }
    ensures ran { result ≢ Status.PlaceFault → (backs : List P.Trace) × (bays : List P.Bay)
        × HasPutBack P.Trace.faults P.Trace.mark P.Bay.files P.Bay.faults P.Bay.mark (P.handed_traces place.new) backs (P.returned_trace place.new)
        (P.handed_bays place.new) bays (P.returned_bay place.new)
        × (result ≢ Status.OutOfMemory → length (P.handed_traces place.new) ≡ length job.entry.traces.now)
        × HasRun P.Trace.remaining P.Trace.faults K.taken K.faults P.Bay.files P.Bay.faults settings.now job.entry.workers
        (P.handed_traces place.new) backs out.old out.new (P.handed_bays place.new) bays result }
    // With Done a crash leaves of each bay that was put back a closed journal, whenever it comes.
    ensures closed { result ≡ Status.Done → AreReturnedClosed P.Bay.files P.Bay.leaves settings.now (P.returned_bay place.new) }
{
    let opened = match open_traces(alloc, place, words, job.traces) {
        Ok(opened) => opened,
        Err(status) => return status,
    };
    let dir = words.word(job.dir);
    let (opened, status) = run_traces(rt, alloc, settings, job.workers, dir, place, opened, out);
    put_back_traces(place, opened);
    status
}

// Runs over traces that were opened, and gives them back. It opens the bays, and puts them back.
fn run_traces<P: Place, K: Sink, R: Threads + Wait + Sync + RandomSource>(
    rt: &R,
    alloc: Global,
    settings: &Settings,
    workers: u32,
    dir: &str,
    place: &mut P,
    traces: VecDeque<P::Trace>,
    out: &mut K,
) -> (VecDeque<P::Trace>, Status)
    requires least { 1 ≤ workers }
    requires most { workers ≤ 64 }
    requires some { 1 ≤ length traces.items }
    requires few { length traces.items ≤ 1024 }
    requires none { P.handed_bays place.old ≡ [] }
    ensures asked { IsAskedForBays dir.now (2 ^ settings.now.cone_bits) (P.asked place.old) (P.asked place.new) result.1 }
    ensures place_fault { result.1 ≡ Status.PlaceFault → HasRisen (P.faults place.old) (P.faults place.new) × (out.new ≡ out.old)
        × (result.0.items ≡ traces.items) × AreReturnedSame (P.handed_bays place.new) (P.returned_bay place.new) }
    ensures returned { AreReturned P.Bay.mark (P.handed_bays place.new) (P.returned_bay place.new) }
    ensures ran { result.1 ≢ Status.PlaceFault → (bays : List P.Bay)
        × ((cone : ℕ) → cone < length bays → P.returned_bay place.new cone ≡ slice_get bays cone)
        × AreLater P.Bay.files P.Bay.faults P.Bay.mark (P.handed_bays place.new) bays
        × HasRun P.Trace.remaining P.Trace.faults K.taken K.faults P.Bay.files P.Bay.faults settings.now workers
        traces.items result.0.items out.old out.new (P.handed_bays place.new) bays result.1 }
    ensures later { AreTracesLater P.Trace.faults P.Trace.mark traces.items result.0.items }
    ensures never_falls { P.faults place.old ≤ P.faults place.new }
    ensures no_usage { (rule : ℕ) → result.1 ≡ Status.Usage rule → ⊥ }
    ensures handed { P.handed_traces place.new ≡ P.handed_traces place.old }
    ensures closed { result.1 ≡ Status.Done → AreReturnedClosed P.Bay.files P.Bay.leaves settings.now (P.returned_bay place.new) }
{
    let mut bays = match open_bays(alloc, place, dir, settings.cones()) {
        Ok(bays) => bays,
        Err(status) => return (traces, status),
    };
    let (traces, status) = run_bays(rt, alloc, settings, workers, traces, &mut bays, out);
    put_back_bays(place, bays);
    (traces, status)
}

// Runs over traces and bays that were opened.
fn run_bays<S: Source + Send, B: Bay + Send, K: Sink, R: Threads + Wait + Sync + RandomSource>(
    rt: &R,
    alloc: Global,
    settings: &Settings,
    workers: u32,
    traces: VecDeque<S>,
    bays: &mut VecDeque<B>,
    out: &mut K,
) -> (VecDeque<S>, Status)
    requires least { 1 ≤ workers }
    requires most { workers ≤ 64 }
    requires some { 1 ≤ length traces.items }
    requires few { length traces.items ≤ 1024 }
    requires number { length bays.old.items ≡ 2 ^ settings.now.cone_bits }
    requires small { length bays.old.items < 2 ^ 32 }
    requires room { length bays.old.items ≤ deque_capacity bays.old }
    ensures later { AreLater B.files B.faults B.mark bays.old.items bays.new.items }
    ensures traces_later { AreTracesLater S.faults S.mark traces.items result.0.items }
    ensures shows { RunShows S.remaining S.faults K.taken K.faults B.files B.faults settings.now workers traces.items result.0.items
        out.old out.new bays.old.items bays.new.items result.1 }
    ensures exact { AreToldFresh B.files bays.old.items → IsExact S.remaining S.faults B.files B.faults settings.now workers
        traces.items result.0.items bays.old.items bays.new.items (IsDone K.faults out.old out.new result.1) (λ status. result.1 ≡ status) }
    ensures closed { result.1 ≡ Status.Done → AreClosedInEach B.files B.leaves settings.now bays.new.items }
{
    if let Err(status) = find_stale(bays) {
        return (traces, status);
    }
    let cones = match make_cones(rt, alloc, settings, workers, bays) {
        Ok(cones) => cones,
        Err(status) => return (traces, status),
    };
    let (cones, traces, status) = run_cones(rt, alloc, settings, workers, traces, cones, out);
    bring_back(cones, bays);
    (traces, status)
}

// Runs over traces that were opened and cones without a packet, and gives all back.
fn run_cones<S: Source + Send, B: Bay + Send, K: Sink, R: Threads + Wait + Sync>(
    rt: &R,
    alloc: Global,
    settings: &Settings,
    workers: u32,
    traces: VecDeque<S>,
    cones: Vec<Cone<B, Cqf>>,
    out: &mut K,
) -> (Vec<Cone<B, Cqf>>, VecDeque<S>, Status)
    requires least { 1 ≤ workers }
    requires most { workers ≤ 64 }
    requires some { 1 ≤ length traces.items }
    requires few { length traces.items ≤ 1024 }
    requires number { length cones.items ≡ 2 ^ settings.now.cone_bits }
    requires new_cones { AreNew B.files B.leaves B.faults settings.now cones.items }
    ensures later { AreLater B.files B.faults B.mark (bays_of cones.items) (bays_of result.0.items) }
    ensures traces_later { AreTracesLater S.faults S.mark traces.items result.1.items }
    ensures shows { MadeShows S.remaining S.faults K.taken K.faults B.files B.faults settings.now workers traces.items result.1.items
        out.old out.new (bays_of cones.items) (bays_of result.0.items) result.2 }
    ensures exact { IsExact S.remaining S.faults B.files B.faults settings.now workers traces.items result.1.items
        (bays_of cones.items) (bays_of result.0.items) (IsDone K.faults out.old out.new result.2) (λ status. result.2 ≡ status) }
    ensures closed { result.2 ≡ Status.Done → AreClosedInEach B.files B.leaves settings.now (bays_of result.0.items) }
{
    // The page's memory is taken before the first item is read, so that a run that was read can't want it.
    let mut page = match Page::new(alloc) {
        Ok(page) => page,
        Err(OutOfMemory) => return (cones, traces, Status::OutOfMemory),
    };
    let (traces, mut cones, read) = ingest(rt, alloc, settings, workers, traces, cones);
    if let Err(status) = read {
        return (cones, traces, status);
    }
    let status = finish_and_print(&mut page, settings, &mut cones, out);
    (cones, traces, status)
}

// Finishes cones that took all items, and prints them.
fn finish_and_print<B: Bay, K: Sink>(
    page: &mut Page,
    settings: &Settings,
    cones: &mut Vec<Cone<B, Cqf>>,
    out: &mut K,
) -> Status
    requires empty { page.old ≡ [] }
    requires number { length cones.old.items ≡ 2 ^ settings.now.cone_bits }
    requires weaving { (workers : ℕ) × ((traces : List (List Item)) × AreWeaving B.files B.leaves B.faults settings.now workers traces cones.old.items) }
    ensures later { AreLater B.files B.faults B.mark (bays_of cones.old.items) (bays_of cones.new.items) }
    ensures shows { (workers : ℕ) (traces : List (List Item)) → AreWeaving B.files B.leaves B.faults settings.now workers traces cones.old.items → AreTaken B.files settings.now traces (bays_of cones.old.items) →
        EndShows K.taken K.faults B.files B.faults settings.now workers traces out.old out.new (bays_of cones.old.items) (bays_of cones.new.items) result }
    ensures closed { result ≡ Status.Done → AreClosedInEach B.files B.leaves settings.now (bays_of cones.new.items) }
{
    let _valid = settings.numbers();
    if let Err(status) = finish_cones(cones) {
        return status;
    }
    match print_cones(page, out, settings, cones) {
        Ok(()) => Status::Done,
        Err(Failed) => Status::OutFault,
    }
}
