//! When keys are reported, and how a cone fills.

ghost use Rattle.std.specs.Prelude.{◌≡◌};

use crate::cones::{
    check_end, check_given, check_listed, check_state, created, empty_bay, give_all, sevens_at,
    small,
};
use lert_base::{Report, Settings};
use lert_bay::Bay;
use lert_cone::{Cone, ConeFault, ConeState};
use lert_plain::PlainTable;
use std::alloc::Global;
use std::process::Abort;

// A cone over this bay, which is empty, takes these keys, one a packet. It has the first reports then, and the others
// behind its end. Answers the bay that it leaves.
fn reported<B: Bay>(
    rt: &impl Abort,
    alloc: Global,
    bay: B,
    keys: &[u64],
    early: &[Report],
    closing: &[Report],
) -> B
where
    B: Drop,
{
    let settings = small(rt, 32);
    let mut cone = created(rt, alloc, &settings, bay);
    check_reports(rt, alloc, &settings, &mut cone, keys, early, closing);
    cone.into_bay()
}

fn check_reports<B: Bay>(
    rt: &impl Abort,
    alloc: Global,
    settings: &Settings,
    cone: &mut Cone<B, PlainTable>,
    keys: &[u64],
    early: &[Report],
    closing: &[Report],
)
    requires eight { settings.now.packet ≡ 8 }
    requires settings { cone.old.listing.settings ≡ settings.now }
    requires cone { cone.old.listing.cone ≡ 0 }
{
    give_all(rt, alloc, settings, cone, keys);
    check_listed(rt, cone, early);
    check_end(rt, cone, Ok(closing.len() as u64));
    check_listed(rt, cone, closing);
}

// How many keys, at which positions they are 7, where that key is reported last, and what is reported before the end.
const ROWS: [(u64, &[u64], u64, &[Report]); 5] = [
    (16, &[1, 2, 13], 16, &[Report { key: 7, at: 16 }]),
    (16, &[1, 2, 16], 16, &[Report { key: 7, at: 16 }]),
    (40, &[1, 2, 33], 40, &[Report { key: 7, at: 40 }]),
    (35, &[1, 33, 34, 35], 35, &[Report { key: 7, at: 35 }]),
    (34, &[1, 2, 33], 34, &[]),
];

fn check_row(rt: &impl Abort, alloc: Global, last: u64, places: &[u64], at: u64, early: &[Report]) {
    assert!(rt; last < 1_000);
    let keys = sevens_at(rt, alloc, last, places);
    let bay = empty_bay(rt, alloc);
    let _bay = reported(rt, alloc, bay, &keys, early, &[Report { key: 7, at }]);
}

#[test]
fn a_key_is_reported_at_the_first_flush_whose_window_holds_it(rt: HostRuntime) {
    for row in &ROWS {
        let (last, places, at, early) = *row;
        check_row(&rt, rt.alloc(), last, places, at, early);
    }
}

#[test]
fn reports_of_one_flush_stand_in_the_order_of_mixed_values(rt: HostRuntime) {
    const M: u64 = u64::MAX;
    let keys = [
        1, 1, M, M, 1_001, 1_002, 1_003, 1_004, 1_005, 1_006, 1_007, 1_008, 1, M, 1_009, 1_010,
    ];
    let reports = [Report { key: M, at: 16 }, Report { key: 1, at: 16 }];
    let bay = empty_bay(&rt, rt.alloc());
    let _bay = reported(&rt, rt.alloc(), bay, &keys, &reports, &reports);
}

// A cone over this bay, which is empty, with a room of so many reports, takes so many keys, one a packet, and no more.
// Answers the bay that it leaves.
fn filled<B: Bay>(rt: &impl Abort, alloc: Global, bay: B, room: u64, keys: &[u64]) -> B
where
    B: Drop,
{
    let settings = small(rt, room);
    let mut cone = created(rt, alloc, &settings, bay);
    check_full(rt, alloc, &settings, &mut cone, keys);
    cone.into_bay()
}

fn check_full<B: Bay>(
    rt: &impl Abort,
    alloc: Global,
    settings: &Settings,
    cone: &mut Cone<B, PlainTable>,
    keys: &[u64],
)
    requires eight { settings.now.packet ≡ 8 }
    requires settings { cone.old.listing.settings ≡ settings.now }
    requires cone { cone.old.listing.cone ≡ 0 }
{
    let n = keys.len() as u64;
    give_all(rt, alloc, settings, cone, keys);
    let full = ConeFault::CapacityFull { n, len: 1 };
    check_given(rt, alloc, settings, cone, &[901], Err(full));
    check_state(rt, cone, ConeState::Running, n);
    check_listed(rt, cone, &[]);
}

// How many reports a room has, and how many keys a cone takes then.
const ROOMS: [(u64, u64); 2] = [(32, 71), (16, 48)];

fn check_room(rt: &impl Abort, alloc: Global, room: u64, most: u64) {
    assert!(rt; most < 1_000);
    let keys = sevens_at(rt, alloc, most, &[]);
    let _bay = filled(rt, alloc, empty_bay(rt, alloc), room, &keys);
}

#[test]
fn a_full_cone_refuses_the_next_packet(rt: HostRuntime) {
    for row in &ROOMS {
        let (room, most) = *row;
        check_room(&rt, rt.alloc(), room, most);
    }
}
