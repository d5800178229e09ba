//! What a reopening reads of a journal: the header, and the records from the one on that the log's last record names.

ghost use Rattle.std.specs.Prelude.{◌≡◌, ◌<◌};
ghost use Rattle.lert_base.specs.Entries.{packet_of};
ghost use Rattle.lert_journal.specs.Payload.{IsJournaled};
ghost use Rattle.lert_cone.specs.History.{most_version};

use crate::cones::{changed, check_listed, check_state, empty_bay, settings_of};
use lert_base::{Entry, KeyList, Numbers, Report, Settings};
use lert_bay::{Bay, JOURNAL, MemBay};
use lert_cone::{Cone, ConeRoom, ConeState};
use lert_mixer::cone_of;
use lert_plain::PlainTable;
use lert_recover::{ReopenFault, reopen};
use std::alloc::Global;
use std::process::Abort;

const LONG: Numbers = Numbers {
    threshold: 3,
    bins: 3,
    ratio: 2,
    base: 4,
    levels: 6,
    cone_bits: 0,
    room: 512,
    packet: 1,
};

// A record of one key takes 22 bytes: behind a header of 32 those of 1,000 keys end at 22,032, where a closed gate
// stands. The last flush came with key 1,000. Behind it level 0 holds the keys from 993 on: the bins have four keys,
// and 992 is the last multiple of four with eight keys behind it at least. The record of key 993 begins at 32 + 992 *
// 22.
const JOURNAL_LEN: usize = 22_033;

const NAMED: usize = 21_856;

// The header, the records of eight keys, and the closed gate. The contract allows 22 * (3 * 4 + 8 * 1) + 64 = 504.
const READ: u64 = 32 + 8 * 22 + 1;

// These two come three times, the second one twice among the keys that aren't read again.
const EARLY: u64 = 5_000;

const LATE: u64 = 6_000;

// The edge of level 5 moves at 504 + 4 * 128 = 1,016: the flush there goes down to level 6, and counts from the first
// key on.
const FIRST_REPORT: Report = Report { key: EARLY, at: 3 };

const SECOND_REPORT: Report = Report {
    key: LATE,
    at: 1_016,
};

// Which keys a cone takes: each one once, or some that are reported.
#[derive(Clone, Copy)]
enum Keys {
    Fillers,
    Reported,
}

fn key_at(keys: Keys, m: u64) -> u64
    requires { m < 2_000 }
{
    match keys {
        Keys::Fillers => 1_000 + m,
        Keys::Reported => reported_key(m),
    }
}

fn reported_key(m: u64) -> u64 {
    match m {
        1..=3 => EARLY,
        10 | 20 | 1_001 => LATE,
        _ => m,
    }
}

// What is reported of these keys once there are 1,000, and 1,016.
fn reports_of(keys: Keys) -> (&'static [Report], &'static [Report]) {
    match keys {
        Keys::Fillers => (&[], &[]),
        Keys::Reported => (&[FIRST_REPORT], &[FIRST_REPORT, SECOND_REPORT]),
    }
}

// The packet of a key of the only cone.
fn packet(rt: &impl Abort, alloc: Global, key: u64) -> Entry
    ensures { IsJournaled most_version LONG 0 (packet_of result) }
{
    let settings = settings_of(rt, LONG);
    assert!(rt; cone_of(&settings, key) == 0);
    let mut list = KeyList::with_room(alloc, 1).expect(rt, "memory");
    list.push(key, 1);
    Entry::new(0, 0, list)
}

// Gives the only cone the keys of these positions, each in a packet of its own.
fn give<B: Bay>(
    rt: &impl Abort,
    alloc: Global,
    cone: &mut Cone<B, PlainTable>,
    keys: Keys,
    first: u64,
    last: u64,
)
    requires settings { cone.old.listing.settings ≡ LONG }
    requires cone { cone.old.listing.cone ≡ 0 }
    requires end { last < 2_000 }
{
    for m in first..last + 1 {
        let packet = packet(rt, alloc, key_at(keys, m));
        assert!(rt; cone.admit(&packet).is_ok());
    }
}

// What a cone over this bay leaves that took 1,000 keys and was stopped.
fn left<B: Bay>(rt: &impl Abort, alloc: Global, bay: B, keys: Keys) -> B
where
    B: Drop,
{
    let room = ConeRoom::new(alloc, &settings_of(rt, LONG)).expect(rt, "memory");
    match Cone::create(room, 0, bay) {
        Ok(mut cone) => {
            give(rt, alloc, &mut cone, keys, 1, 1_000);
            cone.into_bay()
        }
        Err(_) => panic!(rt; "the files are empty"),
    }
}

fn left_in_memory(rt: &impl Abort, alloc: Global, keys: Keys) -> MemBay {
    left(rt, alloc, empty_bay(rt, alloc), keys)
}

// Opens a bay again: why no cone was made, and the bay. A cone that is made has the 1,000 keys, with their report, and
// goes on to the second one.
fn reopened<B: Bay>(rt: &impl Abort, alloc: Global, bay: B, keys: Keys) -> (Option<ReopenFault>, B)
where
    B: Drop,
{
    let room = ConeRoom::new(alloc, &settings_of(rt, LONG)).expect(rt, "memory");
    match reopen(room, 0, bay) {
        Ok(mut cone) => {
            check_rest(rt, alloc, &mut cone, keys);
            (None, cone.into_bay())
        }
        Err(refused) => (Some(refused.fault), refused.bay),
    }
}

fn check_rest<B: Bay>(rt: &impl Abort, alloc: Global, cone: &mut Cone<B, PlainTable>, keys: Keys)
    requires settings { cone.old.listing.settings ≡ LONG }
    requires cone { cone.old.listing.cone ≡ 0 }
{
    let (first, second) = reports_of(keys);
    check_state(rt, cone, ConeState::Running, 1_000);
    check_listed(rt, cone, first);
    give(rt, alloc, cone, keys, 1_001, 1_016);
    check_listed(rt, cone, second);
}

// What there is to see of a reopening: the journal's length, the bytes of it that were read before and behind, and why
// no cone was made.
#[derive(Clone, Copy)]
struct Seen {
    len: usize,
    before: u64,
    behind: u64,
    fault: Option<ReopenFault>,
}

fn stopped_and_reopened(rt: &impl Abort, alloc: Global, keys: Keys) -> Seen {
    let bay = left_in_memory(rt, alloc, keys);
    let len = bay.bytes(JOURNAL).len();
    let before = bay.bytes_read(JOURNAL);
    let (fault, bay) = reopened(rt, alloc, bay, keys);
    Seen {
        len,
        before,
        behind: bay.bytes_read(JOURNAL),
        fault,
    }
}

fn check_read(rt: &impl Abort, alloc: Global, keys: Keys) {
    let seen = stopped_and_reopened(rt, alloc, keys);
    assert!(rt; seen.len == JOURNAL_LEN && seen.fault.is_none());
    // A packet that is admitted reads nothing of it.
    assert_eq!(rt; seen.behind, seen.before.saturating_add(READ));
}

#[test]
fn a_reopening_reads_the_newest_bins_alone(rt: HostRuntime) {
    for keys in [Keys::Fillers, Keys::Reported] {
        check_read(&rt, rt.alloc(), keys);
    }
}

// A copy of a bay with another byte in the journal.
fn damaged(rt: &impl Abort, alloc: Global, bay: &MemBay, at: usize, byte: u8) -> MemBay {
    let journal = changed(rt, alloc, bay.bytes(JOURNAL), &[(at, byte)]);
    let mut copy = bay.copied(alloc).expect(rt, "memory");
    copy.load(JOURNAL, &journal).expect(rt, "memory");
    copy
}

// A place of the journal, the byte there that is another one, and where the journal leaves its format then.
const DAMAGES: [(usize, u8, Option<u64>); 9] = [
    // The first gate is closed, the second record has no byte, and key 10 is another one.
    (32, 0, None),
    (55, 0, None),
    (32 + 9 * 22 + 13, 255, None),
    // The last byte that isn't read, a weight that may be 0 there, and in the first record that is: its gate is closed, so
    // that keys are missing, its length is too great, there is no such caller, and its key weighs nothing.
    (NAMED - 1, 255, None),
    (NAMED - 1, 0, None),
    (NAMED, 0, Some(NAMED as u64)),
    (NAMED + 2, 255, Some(NAMED as u64 + 1)),
    (NAMED + 5, 64, Some(NAMED as u64 + 5)),
    (NAMED + 21, 0, Some(NAMED as u64 + 21)),
];

fn left_at(at: u64) -> ReopenFault {
    ReopenFault::Malformed { file: JOURNAL, at }
}

fn check_damage(
    rt: &impl Abort,
    alloc: Global,
    bay: &MemBay,
    place: usize,
    byte: u8,
    left: Option<u64>,
) {
    let (fault, _bay) = reopened(
        rt,
        alloc,
        damaged(rt, alloc, bay, place, byte),
        Keys::Reported,
    );
    assert!(rt; fault == left.map(left_at), "at {place}");
}

fn check_damages(rt: &impl Abort, alloc: Global, bay: &MemBay) {
    for row in &DAMAGES {
        let (place, byte, left) = *row;
        check_damage(rt, alloc, bay, place, byte, left);
    }
}

#[test]
fn damage_before_the_newest_bins_is_not_found(rt: HostRuntime) {
    let bay = left_in_memory(&rt, rt.alloc(), Keys::Reported);
    check_damages(&rt, rt.alloc(), &bay);
}
