//! The bays of a run: opened, looked at, and put back.

ghost use Rattle.std.specs.Prelude.{◌≡◌, ◌⊎◌, ℕ, ◌^◌, ◌<◌, ◌≤◌, ◌++◌, [], ◌∷◌, length, slice_get, Some, IfOk, IfErr, OnOk};
ghost use Rattle.std.specs.VecDeque.{deque_capacity};
ghost use Rattle.lert_io.specs.Fault.{HasRisen};
ghost use Rattle.lert_place.specs.Openings.{AreReturned, AreReturnedSame, bay_refused, bays_opened};
ghost use Rattle.lert_spec.specs.declared.numbers.Numbers.{Numbers};
ghost use Rattle.lert_ingest.specs.Bays.{AreFresh, AreKept, AreLater, AreMarked};
ghost use Rattle.lert_top.specs.cones.Unmade.{IsUnmade};

use lert_bay::Bay;
use lert_cone::is_fresh;
use lert_ingest::Status;
use lert_io::Failed;
use lert_place::Place;
use std::alloc::Global;
use std::collections::VecDeque;

/// Opens the bays of so many cones in a directory, in ascending order. Where an opening fails, what was
/// opened is put back as it was, and the status is `PlaceFault`. The only other refusal is want of memory, before the
/// first opening.
pub fn open_bays<P: Place>(
    alloc: Global,
    place: &mut P,
    dir: &str,
    cones: u32,
) -> Result<VecDeque<P::Bay>, Status>
    requires none { P.handed_bays place.old ≡ [] }
    ensures opened { IfOk result (λ bays. P.handed_bays place.new ≡ bays.items) }
    ensures number { IfOk result (λ bays. length bays.items ≡ cones) }
    ensures room { IfOk result (λ bays. cones ≤ deque_capacity bays) }
    ensures marked { IfOk result (λ bays. AreMarked P.Bay.mark bays.items) }
    ensures asked { OnOk result (P.asked place.new ≡ P.asked place.old ++ bays_opened dir.now cones) }
    ensures refused { IfErr result (λ status. ((status ≡ Status.OutOfMemory) × (place.new ≡ place.old))
        ⊎ ((status ≡ Status.PlaceFault) × HasRisen (P.faults place.old) (P.faults place.new)
        × ((number : ℕ) × (number < cones) × (P.asked place.new ≡ P.asked place.old ++ (bays_opened dir.now number ++ bay_refused dir.now number ∷ [])))
        × AreReturned P.Bay.mark (P.handed_bays place.new) (P.returned_bay place.new)
        × AreReturnedSame (P.handed_bays place.new) (P.returned_bay place.new))) }
    ensures never_falls { P.faults place.old ≤ P.faults place.new }
    ensures traces { P.handed_traces place.new ≡ P.handed_traces place.old }
{
    let Ok(mut bays) = VecDeque::with_capacity(alloc, cones as usize) else {
        return Err(Status::OutOfMemory);
    };
    for cone in 0..cones {
        match place.open_bay(dir, cone) {
            Ok(bay) => bays.push_back_reserved(bay),
            Err(Failed) => {
                put_back_bays(place, bays);
                return Err(Status::PlaceFault);
            }
        }
    }
    Ok(bays)
}

/// Puts bays back that were handed out, each under its number.
pub fn put_back_bays<P: Place>(place: &mut P, mut bays: VecDeque<P::Bay>)
    requires small { length bays.items < 2 ^ 32 }
    requires handed { length bays.items ≡ length (P.handed_bays place.old) }
    requires marked { AreMarked P.Bay.mark bays.items }
    ensures returned { (cone : ℕ) → cone < length bays.items → P.returned_bay place.new cone ≡ slice_get bays.items cone }
    ensures returned_traces { (number : ℕ) → P.returned_trace place.new number ≡ P.returned_trace place.old number }
    ensures asked { P.asked place.new ≡ P.asked place.old }
    ensures traces { P.handed_traces place.new ≡ P.handed_traces place.old }
    ensures bays { P.handed_bays place.new ≡ P.handed_bays place.old }
    ensures faults { P.faults place.new ≡ P.faults place.old }
{
    while let Some(bay) = bays.pop_back() {
        place.put_back_bay(bays.len() as u32, bay);
    }
    bays.destroy_empty();
}

/// Looks whether the files of all bays are empty, in ascending order, up to the first that aren't. It changes none.
pub fn find_stale<B: Bay>(bays: &mut VecDeque<B>) -> Result<(), Status>
    requires small { length bays.old.items < 2 ^ 32 }
    ensures room { deque_capacity bays.new ≡ deque_capacity bays.old }
    ensures later { AreLater B.files B.faults B.mark bays.old.items bays.new.items }
    ensures fresh { OnOk result (AreFresh B.files bays.old.items) }
    ensures fresh_now { OnOk result (AreFresh B.files bays.new.items) }
    ensures kept { AreKept B.files bays.old.items bays.new.items }
    ensures unmade { IfErr result (λ status. (s : Numbers) → IsUnmade B.files B.faults s bays.old.items bays.new.items status) }
{
    for cone in 0..bays.len() {
        match is_fresh(&mut bays[cone]) {
            Ok(true) => {}
            Ok(false) => return Err(Status::NotFresh { cone: cone as u32 }),
            Err(Failed) => return Err(Status::BayFault { cone: cone as u32 }),
        }
    }
    Ok(())
}
