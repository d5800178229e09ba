//! The top call.

ghost use Rattle.std.specs.Prelude.{◌≡◌, ◌≢◌, ◌⊎◌, ◌^◌, ◌<◌, ℕ, List, [], length, slice_get, Some, None};
ghost use Rattle.lert_args.specs.Command.{command, usage};
ghost use Rattle.lert_args.specs.Names.{names_of};
ghost use Rattle.lert_args.specs.Word.{word_at};
ghost use Rattle.lert_top.specs.drills.Drilled.{DrillShows};
ghost use Rattle.lert_ingest.specs.Bays.{AreLater};
ghost use Rattle.lert_io.specs.Fault.{HasRisen};
ghost use Rattle.lert_place.specs.Openings.{AreReturned, AreReturnedSame};
ghost use Rattle.lert_top.specs.cones.Asked.{IsAsked, IsAskedForBays};
ghost use Rattle.lert_top.specs.cones.Closed.{AreReturnedClosed};
ghost use Rattle.lert_top.specs.runs.Ran.{HasPutBack};
ghost use Rattle.lert_top.specs.runs.Run.{HasRun};
ghost use Rattle.lert_spec.specs.declared.numbers.Numbers.{Numbers};
ghost use Rattle.lert_top.specs.Generated.{TraceShows};
ghost use Rattle.lert_top.specs.recovery.Moments.{AreReturnedSpared};
ghost use Rattle.lert_top.specs.recovery.Recovered.{HasRecovered};

use crate::drills::drill;
use crate::generate::gen_to;
use crate::recovery::recover_to;
use crate::runs::{Job, run_line};
use lert_args::{Line, LineFault, read_line};
use lert_base::Words;
use lert_ingest::Status;
use lert_io::Sink;
use lert_place::Place;
use std::alloc::Global;
use std::random::RandomSource;
use std::sync::Wait;
use std::thread::Threads;

/// Does what the line asks for. Of the random bytes that it takes of the system nothing depends but how long it takes.
///
/// `run` reports each key that weighs as much as the line's threshold says, in all traces together, soon after it does. It
/// opens the line's traces in their order and then the bays of all cones in its directory, looks whether these are empty,
/// writes their headers, has the line's workers read the traces to their ends into the cones, each packet of which goes to the
/// cone's journal, closes the cones, prints, and puts all back, in this order, and stops at the first fault; what was opened is
/// put back in each case. Nothing is written to the sink before all traces were read to their ends. What it holds in memory is
/// the cones with their locks, for each worker that has a trace 4P items for each cone and 4P more, where P is the line's packet,
/// the traces with their readers, and a page of text.
///
/// `recover` opens what runs left, as `recover_to` does; `gen` writes a trace of generated keys, as `gen_to` does; `drill` does
/// what a run does over generated keys and bays in memory, and prints a summary.
pub fn run<P: Place, K: Sink, R: Threads + Wait + Sync + RandomSource>(
    rt: &R,
    alloc: Global,
    words: &Words,
    place: &mut P,
    out: &mut K,
) -> Status
    requires asked { P.asked place.old ≡ [] }
    // The words alone decide a usage fault, in whose place only want of memory may come. Nothing is asked or written then.
    ensures usage { (rule : ℕ) → result ≡ Status.Usage rule → usage words.now ≡ Some rule }
    ensures at_usage { (rule : ℕ) → usage words.now ≡ Some rule →
        ((result ≡ Status.Usage rule) ⊎ (result ≡ Status.OutOfMemory)) × (place.new ≡ place.old) × (out.new ≡ out.old) }
    // Otherwise the place is asked for the line's traces, then for the bays of the cones, and for nothing else.
    ensures asked { (settings : Numbers) (workers dir : ℕ) (traces : List ℕ) → command words.now ≡ Some (Line.Run settings workers dir traces) → usage words.now ≡ None →
        IsAsked (names_of words.now traces) (word_at words.now dir) (2 ^ settings.cone_bits) (P.asked place.new) result }
    ensures place_fault { result ≡ Status.PlaceFault → HasRisen (P.faults place.old) (P.faults place.new) × (out.new ≡ out.old)
        × AreReturnedSame (P.handed_traces place.new) (P.returned_trace place.new) × AreReturnedSame (P.handed_bays place.new) (P.returned_bay place.new) }
    // What was opened is put back, whatever the status, which says what came of it.
    ensures returned { usage words.now ≡ None → AreReturned P.Trace.mark (P.handed_traces place.new) (P.returned_trace place.new)
        × AreReturned P.Bay.mark (P.handed_bays place.new) (P.returned_bay place.new) }
    ensures ran { (settings : Numbers) (workers dir : ℕ) (traces : List ℕ) → command words.now ≡ Some (Line.Run settings workers dir traces) → usage words.now ≡ None →
        result ≢ Status.PlaceFault → (backs : List P.Trace) × (bays : List P.Bay)
        × HasPutBack P.Trace.faults P.Trace.mark P.Bay.files P.Bay.faults P.Bay.mark (P.handed_traces place.new) backs (P.returned_trace place.new)
        (P.handed_bays place.new) bays (P.returned_bay place.new)
        × (result ≢ Status.OutOfMemory → length (P.handed_traces place.new) ≡ length traces)
        × HasRun P.Trace.remaining P.Trace.faults K.taken K.faults P.Bay.files P.Bay.faults settings workers
        (P.handed_traces place.new) backs out.old out.new (P.handed_bays place.new) bays result }
    ensures closed { (settings : Numbers) (workers dir : ℕ) (traces : List ℕ) → command words.now ≡ Some (Line.Run settings workers dir traces) →
        usage words.now ≡ None → result ≡ Status.Done → AreReturnedClosed P.Bay.files P.Bay.leaves settings (P.returned_bay place.new) }
    // A line of a recovery asks for the bays of the cones alone.
    ensures asked_again { (settings : Numbers) (dir : ℕ) → command words.now ≡ Some (Line.Recover settings dir) → usage words.now ≡ None →
        IsAskedForBays (word_at words.now dir) (2 ^ settings.cone_bits) [] (P.asked place.new) result }
    ensures recovered { (settings : Numbers) (dir : ℕ) → command words.now ≡ Some (Line.Recover settings dir) → usage words.now ≡ None → result ≢ Status.PlaceFault →
        (backs : List P.Bay) × ((cone : ℕ) → cone < length backs → P.returned_bay place.new cone ≡ slice_get backs cone)
        × AreLater P.Bay.files P.Bay.faults P.Bay.mark (P.handed_bays place.new) backs
        × HasRecovered K.taken K.faults P.Bay.files P.Bay.faults settings out.old out.new (P.handed_bays place.new) backs result }
    ensures each_moment { (settings : Numbers) (dir : ℕ) → command words.now ≡ Some (Line.Recover settings dir) → usage words.now ≡ None →
        result ≢ Status.PlaceFault → AreReturnedSpared P.Bay.Bay settings (P.handed_bays place.new) (P.returned_bay place.new) }
    // The lines that generate keys ask for nothing.
    ensures generated { (seed events : ℕ) → command words.now ≡ Some (Line.Gen seed events) → usage words.now ≡ None → (place.new ≡ place.old)
        × (((result ≡ Status.OutOfMemory) × (out.new ≡ out.old)) ⊎ TraceShows K.taken K.faults seed events out.old out.new result) }
    ensures drilled { (settings : Numbers) (workers seed events : ℕ) → command words.now ≡ Some (Line.Drill settings workers seed events) → usage words.now ≡ None →
        (place.new ≡ place.old) × DrillShows K.taken K.faults settings seed events out.old out.new result }
{
    let line = match read_line(alloc, words) {
        Ok(line) => line,
        Err(LineFault::Usage { rule }) => return Status::Usage { rule },
        Err(LineFault::OutOfMemory) => return Status::OutOfMemory,
    };
    match line {
        Line::Run {
            settings,
            workers,
            dir,
            traces,
        } => {
            let job = Job {
                workers,
                dir,
                traces: traces.as_slice(),
            };
            run_line(rt, alloc, &settings, words, job, place, out)
        }
        Line::Recover { settings, dir } => {
            recover_to(rt, alloc, &settings, words.word(dir), place, out)
        }
        Line::Gen { seed, events } => gen_to(seed, events, out),
        Line::Drill {
            settings,
            workers,
            seed,
            events,
        } => drill(rt, alloc, &settings, workers, seed, events, out),
    }
}
