//! Openings that a place of real files refuses: of a cone that another one has, and each one where a stream is closed.

use crate::openings::{open, opens};
use crate::places::{clear, makes_folder, removes, writes};
use lert_host::FilePlace;
use lert_place::Place;
use std::fs;
use std::fs::File;
use std::process::Abort;
use std::rt::Files;

fn is_there<R: Files<File = File> + AllocGlobal>(rt: &R, path: &str) -> bool {
    fs::metadata(rt, path).is_ok()
}

// Whether the second place opens a cone that the first one has, another cone, and the first cone when it is let go.
fn open_beside<P: Place, Q: Place>(rt: &impl Abort, first: &mut P, second: &mut Q) -> [bool; 3]
where
    P::Bay: Drop,
    Q::Bay: Drop,
{
    let [held, other] = open_while_held(rt, first, second);
    [held, other, opens(second, "bay_held", 0)]
}

fn open_while_held<P: Place, Q: Place>(rt: &impl Abort, first: &mut P, second: &mut Q) -> [bool; 2]
where
    P::Bay: Drop,
    Q::Bay: Drop,
{
    let _bay = open(rt, first, "bay_held", 0);
    [opens(second, "bay_held", 0), opens(second, "bay_held", 1)]
}

fn open_both<R: Files<File = File> + AllocGlobal + Abort>(rt: &R) -> [bool; 3] {
    clear(rt, "bay_held");
    open_beside(rt, &mut FilePlace::new(rt), &mut FilePlace::new(rt))
}

#[test]
fn a_bay_is_of_one_place_at_a_time(rt: HostRuntime) {
    assert_eq!(rt; open_both(&rt), [false, true, true]);
    assert!(rt; removes(&rt, "bay_held"));
}

// Whether a bay is opened whose journal another open file has locked.
fn open_locked<R: Files<File = File> + AllocGlobal + Abort>(rt: &R) -> bool {
    let journal = File::open(rt, "bay_locked/cone-000.journal").expect(rt, "a journal");
    journal.try_lock().expect(rt, "a lock");
    opens(&mut FilePlace::new(rt), "bay_locked", 0)
}

fn makes_journal<R: Files<File = File> + AllocGlobal>(rt: &R) -> bool {
    clear(rt, "bay_locked");
    makes_folder(rt, "bay_locked") && writes(rt, "bay_locked/cone-000.journal", b"kept")
}

#[test]
fn a_refused_bay_makes_no_file(rt: HostRuntime) {
    assert!(rt; makes_journal(&rt));
    assert!(rt; !open_locked(&rt));
    assert!(rt; !is_there(&rt, "bay_locked/cone-000.log"));
    assert!(rt; !is_there(&rt, "bay_locked/cone-000.frames"));
    assert!(rt; removes(&rt, "bay_locked"));
}

// Whether a place opens a trace and a bay.
fn opens_both<P: Place>(place: &mut P) -> [bool; 2]
where
    P::Trace: Drop,
    P::Bay: Drop,
{
    let trace = place.open_trace("bay_none/trace").is_ok();
    [trace, opens(place, "bay_none/d", 0)]
}

fn makes_trace<R: Files<File = File> + AllocGlobal>(rt: &R) -> bool {
    clear(rt, "bay_none");
    makes_folder(rt, "bay_none") && writes(rt, "bay_none/trace", b"LERT")
}

#[test]
fn a_place_that_refuses_opens_and_makes_nothing(rt: HostRuntime) {
    assert!(rt; makes_trace(&rt));
    assert_eq!(rt; opens_both(&mut FilePlace::refusing(&rt)), [false, false]);
    assert!(rt; !is_there(&rt, "bay_none/d"));
    assert_eq!(rt; opens_both(&mut FilePlace::new(&rt)), [true, true]);
    assert!(rt; removes(&rt, "bay_none"));
}
