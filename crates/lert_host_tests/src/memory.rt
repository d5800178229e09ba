//! Bays at a place in memory.

ghost use Rattle.std.specs.Prelude.{◌≡◌, []};

use crate::openings::{open, opens};
use lert_bay::{Bay, JOURNAL, MemBay};
use lert_place::{MemPlace, Place};
use std::alloc::Global;
use std::process::Abort;

// A bay whose journal holds `old`, and whose second call fails.
fn failing_bay(rt: &impl Abort, alloc: Global) -> MemBay {
    let mut bay = MemBay::new(alloc).expect(rt, "memory");
    bay.load(JOURNAL, b"old").expect(rt, "memory");
    bay.fail_at(2);
    bay
}

// A place of one bay, that of cone 1 in "d".
fn place_of(rt: &impl Abort, alloc: Global, bay: MemBay) -> MemPlace
    ensures { result.ledger.bays.handed ≡ [] }
{
    let mut place = MemPlace::new(alloc).expect(rt, "memory");
    place.add_bay("d", 1, bay).expect(rt, "memory");
    place
}

// Writes to a bay, and wants its next call to fail.
fn change<B: Bay>(rt: &impl Abort, bay: &mut B)
    ensures { B.mark bay.new ≡ B.mark bay.old }
{
    bay.write_at(JOURNAL, 0, b"new").expect(rt, "a write");
    assert!(rt; bay.sync(JOURNAL).is_err());
}

// Opens the bay, changes it, and puts it back.
fn change_first<P: Place>(rt: &impl Abort, place: &mut P)
    requires { P.handed_bays place.old ≡ [] }
{
    let mut bay = place.open_bay("d", 1).expect(rt, "a bay");
    change(rt, &mut bay);
    place.put_back_bay(0, bay);
}

// Wants a bay as it was added, with its second call failing.
fn assert_old(rt: &impl Abort, bay: &mut MemBay) {
    assert_eq!(rt; bay.bytes(JOURNAL), b"old".as_slice());
    assert_eq!(rt; bay.len(JOURNAL), Ok(3));
    assert!(rt; bay.len(JOURNAL).is_err());
}

// Wants the first bay as it was changed, and that no other one was put back.
fn assert_put_back(rt: &impl Abort, place: &MemPlace) {
    assert_eq!(rt;
        place.bay(0).map(|bay| bay.bytes(JOURNAL)),
        Some(b"new".as_slice())
    );
    assert!(rt; place.bay(1).is_none());
}

#[test]
fn a_bay_that_was_added_stays_as_it_was(rt: HostRuntime) {
    let bay = failing_bay(&rt, rt.alloc());
    let mut place = place_of(&rt, rt.alloc(), bay);
    change_first(&rt, &mut place);
    let mut second = open(&rt, &mut place, "d", 1);
    assert_old(&rt, &mut second);
    assert_put_back(&rt, &place);
}

// Whether a place opens the bay of cone 0 in "d", of cone 1 in "e" and in "", and of cone 1 in "d".
fn open_four<P: Place>(place: &mut P) -> [bool; 4]
where
    P::Bay: Drop,
{
    [
        opens(place, "d", 0),
        opens(place, "e", 1),
        opens(place, "", 1),
        opens(place, "d", 1),
    ]
}

#[test]
fn a_bay_that_was_not_added_is_not_opened(rt: HostRuntime) {
    let bay = MemBay::new(rt.alloc()).expect(&rt, "memory");
    let mut place = place_of(&rt, rt.alloc(), bay);
    assert_eq!(rt; open_four(&mut place), [false, false, false, true]);
}
