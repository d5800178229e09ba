//! What a cone takes of items with weights, and what it refuses for them, leaving all as it was: one whose files are of the
//! second version, and one that was opened again over files of the first.

ghost use Rattle.std.specs.Prelude.{◌≡◌, ◌*◌, ◌<◌, ◌≤◌, length};
ghost use Rattle.lert_spec.specs.Mix.{cone_of};
ghost use Rattle.lert_base.specs.Entries.{packet_of};
ghost use Rattle.lert_journal.specs.Payload.{IsJournaled};
ghost use Rattle.lert_cone.specs.History.{most_version};

use crate::cones::{
    check_end, check_given, check_listed, check_state, created, empty_bay, small, take,
};
use lert_base::{Entry, Item, KeyList, Report, Settings};
use lert_bay::{Bay, FRAMES, JOURNAL, LOG, MemBay};
use lert_cone::{Acked, Cone, ConeFault, ConeRoom, ConeState};
use lert_mixer::cone_of;
use lert_plain::PlainTable;
use lert_recover::reopen;
use std::alloc::Global;
use std::process::Abort;

// The files of cones of the first version: journals without a packet, with room for one report, and of three keys 7, with room
// for 32, and a log without a record.
const OLD_EMPTY: &[u8] =
    b"LERTJ\x01\0\0\x03\0\0\0\x01\0\0\0\x04\0\0\0\x08\0\0\0\x03\x02\x02\0\0\0\0\0\0";

const OLD_SEVENS: &[u8] =
    b"LERTJ\x01\0\0\x03\0\0\0\x20\0\0\0\x04\0\0\0\x08\0\0\0\x03\x02\x02\0\0\0\0\0\x01\x20\0\0\0\0\0\0\0\0\0\0\0\x07\0\0\0\0\0\0\0\x07\0\0\0\0\0\0\0\x07\0\0\0\0\0\0\0\0";

const BEGUN: &[u8] = b"LERTL\x01\0\0\0";

// An entry with these items, all of the only cone.
fn entry(rt: &impl Abort, alloc: Global, settings: &Settings, items: &[Item]) -> Entry
    requires some { 0 < length items.now }
    requires few { length items.now ≤ 4 * settings.now.packet }
    ensures { IsJournaled most_version settings.now 0 (packet_of result) }
{
    let mut list = KeyList::with_room(alloc, items.len()).expect(rt, "memory");
    for item in items {
        assert_fits(rt, settings, *item);
        list.push(item.key, item.weight);
    }
    Entry::new(0, 0, list)
}

// Asserts that an item is of the only cone, and weighs something.
fn assert_fits(rt: &impl Abort, settings: &Settings, item: Item)
    ensures own { cone_of settings.now item.key ≡ 0 }
    ensures some { 1 ≤ item.weight }
    ensures most { item.weight ≤ 255 }
{
    assert!(rt; cone_of(settings, item.key) == 0);
    assert!(rt; 1 <= item.weight);
}

// The only cone answers these items in one packet so.
fn check_answer<B: Bay>(
    rt: &impl Abort,
    alloc: Global,
    settings: &Settings,
    cone: &mut Cone<B, PlainTable>,
    items: &[Item],
    wanted: Result<Acked, ConeFault>,
)
    requires eight { settings.now.packet ≡ 8 }
    requires settings { cone.old.listing.settings ≡ settings.now }
    requires cone { cone.old.listing.cone ≡ 0 }
    ensures settings { cone.new.listing.settings ≡ settings.now }
    ensures cone { cone.new.listing.cone ≡ 0 }
{
    let len = items.len();
    assert!(rt; 0 < len && len <= 32);
    let packet = entry(rt, alloc, settings, items);
    assert!(rt; cone.admit(&packet) == wanted);
}

// The cone has these keys, which weigh 1 each.
fn check_weight<B: Bay>(rt: &impl Abort, cone: &Cone<B, PlainTable>, events: u64) {
    check_state(rt, cone, ConeState::Running, events);
    check_listed(rt, cone, &[]);
    assert!(rt; cone.weight() == events);
}

// A cone that takes a weight of 3 takes these keys and refuses these items, if any, and then takes a key more. Its files are
// new ones, or old ones without a packet. Answers the bay that it leaves.
fn left(
    rt: &impl Abort,
    alloc: Global,
    is_new: bool,
    keys: &[u64],
    refused: Option<(&[Item], ConeFault)>,
) -> MemBay {
    if is_new {
        left_by_new(rt, alloc, keys, refused)
    } else {
        left_by_old(rt, alloc, keys, refused)
    }
}

fn left_by_new(
    rt: &impl Abort,
    alloc: Global,
    keys: &[u64],
    refused: Option<(&[Item], ConeFault)>,
) -> MemBay {
    let settings = small(rt, 1);
    let mut cone = created(rt, alloc, &settings, empty_bay(rt, alloc));
    check_row(rt, alloc, &settings, &mut cone, keys, refused);
    cone.into_bay()
}

fn left_by_old(
    rt: &impl Abort,
    alloc: Global,
    keys: &[u64],
    refused: Option<(&[Item], ConeFault)>,
) -> MemBay {
    let settings = small(rt, 1);
    let mut cone = opened(rt, alloc, &settings, OLD_EMPTY);
    check_row(rt, alloc, &settings, &mut cone, keys, refused);
    cone.into_bay()
}

// The cone of this journal, and of a log without a record.
fn opened(
    rt: &impl Abort,
    alloc: Global,
    settings: &Settings,
    journal: &[u8],
) -> Cone<MemBay, PlainTable>
    ensures settings { result.listing.settings ≡ settings.now }
    ensures cone { result.listing.cone ≡ 0 }
{
    let mut bay = empty_bay(rt, alloc);
    bay.load(JOURNAL, journal).expect(rt, "memory");
    bay.load(LOG, BEGUN).expect(rt, "memory");
    let room = ConeRoom::new(alloc, settings).expect(rt, "memory");
    match reopen(room, 0, bay) {
        Ok(cone) => cone,
        Err(_) => panic!(rt; "the files are sound"),
    }
}

fn check_row<B: Bay>(
    rt: &impl Abort,
    alloc: Global,
    settings: &Settings,
    cone: &mut Cone<B, PlainTable>,
    keys: &[u64],
    refused: Option<(&[Item], ConeFault)>,
)
    requires eight { settings.now.packet ≡ 8 }
    requires settings { cone.old.listing.settings ≡ settings.now }
    requires cone { cone.old.listing.cone ≡ 0 }
{
    let n = keys.len() as u64;
    assert!(rt; n < 32);
    if 0 < n {
        take(rt, alloc, settings, cone, keys);
    }
    if let Some((items, fault)) = refused {
        check_answer(rt, alloc, settings, cone, items, Err(fault));
    }
    check_weight(rt, cone, n);
    let acked = Acked {
        from: n + 1,
        to: n + 1,
        reports: 0,
    };
    check_given(rt, alloc, settings, cone, &[30], Ok(acked));
    check_weight(rt, cone, n + 1);
}

// The keys that a cone has, the items of a packet, and how it refuses them.
type Row = (&'static [u64], &'static [Item], ConeFault);

const TOO_MANY: [Row; 2] = [
    (
        &[],
        &[
            Item { key: 7, weight: 2 },
            Item { key: 8, weight: 2 },
            Item { key: 9, weight: 2 },
            Item { key: 10, weight: 2 },
        ],
        ConeFault::CapacityFull { n: 0, len: 4 },
    ),
    (
        &[5, 6],
        &[Item { key: 7, weight: 1 }, Item { key: 8, weight: 1 }],
        ConeFault::CapacityFull { n: 2, len: 2 },
    ),
];

const TOO_HEAVY: [Row; 2] = [
    (
        &[],
        &[Item { key: 7, weight: 2 }, Item { key: 8, weight: 2 }],
        ConeFault::WeightFull { weight: 0, more: 4 },
    ),
    (
        &[5],
        &[Item { key: 7, weight: 3 }],
        ConeFault::WeightFull { weight: 1, more: 3 },
    ),
];

// How a journal without weights refuses some, for which there is room.
const TOO_NEW: [Row; 3] = [
    (
        &[],
        &[Item { key: 9, weight: 2 }],
        ConeFault::OldJournal { place: 1 },
    ),
    (
        &[],
        &[Item { key: 9, weight: 1 }, Item { key: 8, weight: 2 }],
        ConeFault::OldJournal { place: 2 },
    ),
    (
        &[5],
        &[Item { key: 7, weight: 2 }],
        ConeFault::OldJournal { place: 1 },
    ),
];

// Two bays have the same files.
fn are_same(one: &MemBay, other: &MemBay) -> bool {
    one.bytes(JOURNAL) == other.bytes(JOURNAL)
        && one.bytes(LOG) == other.bytes(LOG)
        && one.bytes(FRAMES) == other.bytes(FRAMES)
}

fn check_left(
    rt: &impl Abort,
    alloc: Global,
    is_new: bool,
    keys: &[u64],
    items: &[Item],
    fault: ConeFault,
) {
    let tried = left(rt, alloc, is_new, keys, Some((items, fault)));
    let plain = left(rt, alloc, is_new, keys, None);
    assert!(rt; are_same(&tried, &plain));
}

fn check_rows(rt: &impl Abort, alloc: Global, is_new: bool, rows: &[Row]) {
    for row in rows {
        let (keys, items, fault) = *row;
        check_left(rt, alloc, is_new, keys, items, fault);
    }
}

#[test]
fn a_packet_that_is_refused_for_its_weights_leaves_all(rt: HostRuntime) {
    for is_new in [true, false] {
        check_rows(&rt, rt.alloc(), is_new, &TOO_MANY);
        check_rows(&rt, rt.alloc(), is_new, &TOO_HEAVY);
    }
    check_rows(&rt, rt.alloc(), false, &TOO_NEW);
}

// The cone takes two items of key 7, which weigh 3 together, and no more than its threshold, and ends.
fn check_weighed<B: Bay>(
    rt: &impl Abort,
    alloc: Global,
    settings: &Settings,
    cone: &mut Cone<B, PlainTable>,
)
    requires eight { settings.now.packet ≡ 8 }
    requires settings { cone.old.listing.settings ≡ settings.now }
    requires cone { cone.old.listing.cone ≡ 0 }
{
    let items = [Item { key: 7, weight: 1 }, Item { key: 7, weight: 2 }];
    let acked = Acked {
        from: 1,
        to: 2,
        reports: 1,
    };
    check_answer(rt, alloc, settings, cone, &items, Ok(acked));
    assert!(rt; cone.weight() == 3);
    check_state(rt, cone, ConeState::Running, 2);
    check_end(rt, cone, Ok(1));
    check_listed(rt, cone, &[Report { key: 7, at: 2 }]);
}

#[test]
fn a_key_is_reported_once_its_weights_add_up(rt: HostRuntime) {
    let settings = small(&rt, 32);
    let mut cone = created(&rt, rt.alloc(), &settings, empty_bay(&rt, rt.alloc()));
    check_weighed(&rt, rt.alloc(), &settings, &mut cone);
}

// A cone of three keys 7, whose journal has no weights, refuses one of 2, and takes one of 1.
fn check_old<B: Bay>(
    rt: &impl Abort,
    alloc: Global,
    settings: &Settings,
    cone: &mut Cone<B, PlainTable>,
)
    requires eight { settings.now.packet ≡ 8 }
    requires settings { cone.old.listing.settings ≡ settings.now }
    requires cone { cone.old.listing.cone ≡ 0 }
{
    let heavy = [Item { key: 9, weight: 2 }];
    let refusal = Err(ConeFault::OldJournal { place: 1 });
    check_answer(rt, alloc, settings, cone, &heavy, refusal);
    let acked = Acked {
        from: 4,
        to: 4,
        reports: 1,
    };
    check_given(rt, alloc, settings, cone, &[9], Ok(acked));
    assert!(rt; cone.weight() == 4);
}

#[test]
fn a_journal_of_the_first_version_takes_no_weights(rt: HostRuntime) {
    let settings = small(&rt, 32);
    let mut cone = opened(&rt, rt.alloc(), &settings, OLD_SEVENS);
    check_old(&rt, rt.alloc(), &settings, &mut cone);
}
