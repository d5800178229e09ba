//! The traces of a run: opened, and put back.

ghost use Rattle.std.specs.Prelude.{◌≡◌, ◌⊎◌, ℕ, ◌^◌, ◌<◌, ◌≤◌, ◌++◌, [], ◌∷◌, All, false, length, slice_get, take, Some, IfOk, IfErr, OnOk};
ghost use Rattle.lert_args.specs.Names.{names_of};
ghost use Rattle.lert_ingest.specs.Bays.{AreMarked};
ghost use Rattle.lert_io.specs.Fault.{HasRisen};
ghost use Rattle.lert_place.specs.Openings.{AreReturned, AreReturnedSame};
ghost use Rattle.lert_top.specs.cones.Asked.{IsNameRefused, traces_opened};

use lert_base::Words;
use lert_ingest::Status;
use lert_io::Failed;
use lert_place::Place;
use std::alloc::Global;
use std::collections::VecDeque;

/// Opens the traces whose names are the words with these numbers, in their order. Where an opening fails, what was opened is
/// put back as it was, and the status is `PlaceFault`. The only other refusal is want of memory, before the first opening.
pub fn open_traces<P: Place>(
    alloc: Global,
    place: &mut P,
    words: &Words,
    traces: &[usize],
) -> Result<VecDeque<P::Trace>, Status>
    requires none { P.handed_traces place.old ≡ [] }
    requires within { All (λ number. number < length words.now) traces.now }
    requires few { length traces.now < 2 ^ 32 }
    ensures opened { IfOk result (λ opened. P.handed_traces place.new ≡ opened.items) }
    ensures number { IfOk result (λ opened. length opened.items ≡ length traces.now) }
    ensures marked { IfOk result (λ opened. AreMarked P.Trace.mark opened.items) }
    ensures asked { OnOk result (P.asked place.new ≡ P.asked place.old ++ traces_opened (names_of words.now traces.now)) }
    ensures refused { IfErr result (λ status. ((status ≡ Status.OutOfMemory) × (place.new ≡ place.old))
        ⊎ ((status ≡ Status.PlaceFault) × HasRisen (P.faults place.old) (P.faults place.new)
        × IsNameRefused (names_of words.now traces.now) (P.asked place.old) (P.asked place.new)
        × AreReturned P.Trace.mark (P.handed_traces place.new) (P.returned_trace place.new)
        × AreReturnedSame (P.handed_traces place.new) (P.returned_trace place.new))) }
    ensures never_falls { P.faults place.old ≤ P.faults place.new }
    ensures bays { P.handed_bays place.new ≡ P.handed_bays place.old }
{
    let Ok(mut opened) = VecDeque::with_capacity(alloc, traces.len()) else {
        return Err(Status::OutOfMemory);
    };
    for number in traces {
        match place.open_trace(words.word(*number)) {
            Ok(trace) => opened.push_back_reserved(trace),
            Err(Failed) => {
                put_back_traces(place, opened);
                return Err(Status::PlaceFault);
            }
        }
    }
    Ok(opened)
}

/// Puts traces back that were handed out, each under its number.
pub fn put_back_traces<P: Place>(place: &mut P, mut traces: VecDeque<P::Trace>)
    requires small { length traces.items < 2 ^ 32 }
    requires handed { length traces.items ≡ length (P.handed_traces place.old) }
    requires marked { AreMarked P.Trace.mark traces.items }
    ensures returned { (trace : ℕ) → trace < length traces.items → P.returned_trace place.new trace ≡ slice_get traces.items trace }
    ensures returned_bays { (number : ℕ) → P.returned_bay place.new number ≡ P.returned_bay place.old number }
    ensures asked { P.asked place.new ≡ P.asked place.old }
    ensures traces { P.handed_traces place.new ≡ P.handed_traces place.old }
    ensures bays { P.handed_bays place.new ≡ P.handed_bays place.old }
    ensures faults { P.faults place.new ≡ P.faults place.old }
{
    while let Some(trace) = traces.pop_back() {
        place.put_back_trace(traces.len() as u32, trace);
    }
    traces.destroy_empty();
}
