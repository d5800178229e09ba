//! What runs left of all cones in a directory, opened and printed.

ghost use Rattle.std.specs.Prelude.{◌≡◌, ◌≢◌, ◌^◌, ◌<◌, ◌≤◌, ℕ, List, [], length, slice_get};
ghost use Rattle.std.specs.VecDeque.{deque_capacity};
ghost use Rattle.lert_io.specs.Fault.{HasRisen};
ghost use Rattle.lert_top.specs.cones.Asked.{IsAskedForBays};
ghost use Rattle.lert_place.specs.Openings.{AreReturned, AreReturnedSame, bays_granted};
ghost use Rattle.lert_ingest.specs.Bays.{AreLater};
ghost use Rattle.lert_top.specs.recovery.Moments.{AreReread, AreReturnedSpared};
ghost use Rattle.lert_top.specs.recovery.Recovered.{HasRecovered, RecoveryShows};

use crate::cones::{bring_back, open_bays, print_cones, put_back_bays};
use crate::recovery::reopened_cones::reopen_cones;
use lert_base::Settings;
use lert_bay::Bay;
use lert_ingest::Status;
use lert_io::{Failed, OutOfMemory, Sink};
use lert_place::Place;
use lert_text::Page;
use std::alloc::Global;
use std::collections::VecDeque;
use std::random::RandomSource;

/// Opens what runs with these settings left of all cones in a directory, and prints it. It opens the bays, takes the memory of
/// all cones, reopens these in ascending order, up to the first that is refused, prints, and puts the bays back, whatever the
/// status. It finishes no cone, changes no journal, and leaves files sound that were so. Files of other settings, and files that
/// leave their format before the records of the journal, it leaves as they were, byte for byte, and where the memory is wanting all
/// bays; in any case a log in its format keeps its records as a beginning. Of a journal it reads the header and the records from
/// the one on that the cone's log names; damage before that isn't found. Nothing is written to the sink before all cones are open.
pub fn recover_to<P: Place, K: Sink, R: RandomSource>(
    rt: &R,
    alloc: Global,
    settings: &Settings,
    dir: &str,
    place: &mut P,
    out: &mut K,
) -> Status
    requires no_bay { bays_granted (P.asked place.old) ≡ 0 }
    // The place is asked for the bays of the cones, and for nothing else.
    ensures asked { IsAskedForBays dir.now (2 ^ settings.now.cone_bits) (P.asked place.old) (P.asked place.new) result }
    ensures place_fault { result ≡ Status.PlaceFault → HasRisen (P.faults place.old) (P.faults place.new) × (out.new ≡ out.old)
        × AreReturnedSame (P.handed_bays place.new) (P.returned_bay place.new) }
    // What was opened is put back, whatever the status, which says what came of it.
    ensures returned { AreReturned P.Bay.mark (P.handed_bays place.new) (P.returned_bay place.new) }
    ensures recovered { result ≢ Status.PlaceFault → (backs : List P.Bay) ×
        ((cone : ℕ) → cone < length backs → P.returned_bay place.new cone ≡ slice_get backs cone)
        × AreLater P.Bay.files P.Bay.faults P.Bay.mark (P.handed_bays place.new) backs
        × HasRecovered K.taken K.faults P.Bay.files P.Bay.faults settings.now out.old out.new (P.handed_bays place.new) backs result }
    // A stop at any moment of it leaves what another recovery may open, and, of files that are refused before the records of their
    // journal, what was there.
    ensures each_moment { result ≢ Status.PlaceFault → AreReturnedSpared P.Bay.Bay settings.now (P.handed_bays place.new) (P.returned_bay place.new) }
    ensures no_usage { (rule : ℕ) → result ≡ Status.Usage rule → ⊥ }
    ensures traces { P.handed_traces place.new ≡ P.handed_traces place.old }
{
    let mut bays = match open_bays(alloc, place, dir, settings.cones()) {
        Ok(bays) => bays,
        Err(status) => return status,
    };
    let status = recover_bays(rt, alloc, settings, &mut bays, out);
    put_back_bays(place, bays);
    status
}

// Opens cones over bays that were opened, and prints them.
fn recover_bays<B: Bay, K: Sink, R: RandomSource>(
    rt: &R,
    alloc: Global,
    settings: &Settings,
    bays: &mut VecDeque<B>,
    out: &mut K,
) -> Status
    requires number { length bays.old.items ≡ 2 ^ settings.now.cone_bits }
    requires room { length bays.old.items ≤ deque_capacity bays.old }
    ensures reread { AreReread B.Bay settings.now bays.old.items bays.new.items }
    ensures shows { RecoveryShows K.taken K.faults B.files B.faults settings.now out.old out.new bays.old.items bays.new.items result }
{
    // Its clause says that the numbers are valid.
    let _valid = settings.numbers();
    let mut page = match Page::new(alloc) {
        Ok(page) => page,
        Err(OutOfMemory) => return Status::OutOfMemory,
    };
    let cones = match reopen_cones(rt, alloc, settings, bays) {
        Ok(cones) => cones,
        Err(status) => return status,
    };
    let printed = print_cones(&mut page, out, settings, cones.as_slice());
    bring_back(cones, bays);
    match printed {
        Ok(()) => Status::Done,
        Err(Failed) => Status::OutFault,
    }
}
