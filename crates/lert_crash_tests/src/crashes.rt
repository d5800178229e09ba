//! What a stop at any call of a cone's life leaves, and what it is opened again as.

ghost use Rattle.std.specs.Prelude.{◌≡◌, ◌*◌, ◌<◌, ◌≤◌, length};
ghost use Rattle.lert_spec.specs.Mix.{cone_of};
ghost use Rattle.lert_base.specs.Entries.{packet_of};
ghost use Rattle.lert_journal.specs.Payload.{IsJournaled};
ghost use Rattle.lert_cone.specs.History.{most_version};

use lert_base::{Entry, KeyList, Numbers, Report, Settings};
use lert_bay::{JOURNAL, MemBay};
use lert_cone::{Cone, ConeRoom, ConeState};
use lert_mixer::cone_of;
use lert_plain::PlainTable;
use lert_recover::reopen;
use std::alloc::Global;
use std::process::Abort;

const SMALL: Numbers = Numbers {
    threshold: 3,
    bins: 3,
    ratio: 2,
    base: 4,
    levels: 2,
    cone_bits: 0,
    room: 32,
    packet: 8,
};

// How many keys a packet has here.
pub(crate) const PACKET: usize = 8;

// A number above that of the calls of each run here.
pub(crate) const MOST_CALLS: u64 = 1_000;

// The images of a crash that are tried: the four by which all writes have one fate, and some by which each one has its own. Their last
// two bits are laid over the two before them for the first write of a file, over those before these for the second, and so on.
pub(crate) const PICKS: [u64; 8] = [
    0,
    1,
    2,
    3,
    // The first write alone is kept, or taken back.
    0b01_00,
    0b01_01,
    // The second one is kept, or the halves of two.
    0b01_00_00,
    0b11_10_01_00,
];

// A cone that was stopped: how many packets it took before, and whether it was finished.
#[derive(Drop)]
pub(crate) struct Left {
    pub bay: MemBay,
    pub packets: usize,
    pub finished: bool,
}

pub(crate) fn settings(rt: &impl Abort) -> Settings
    ensures { result ≡ SMALL }
{
    Settings::new(SMALL).expect(rt, "settings")
}

// The packet of these keys, all of the only cone.
fn packet(rt: &impl Abort, alloc: Global, keys: &[u64]) -> Entry
    requires some { 0 < length keys.now }
    requires few { length keys.now ≤ 8 }
    ensures { IsJournaled most_version SMALL 0 (packet_of result) }
{
    let settings = settings(rt);
    let mut list = KeyList::with_room(alloc, keys.len()).expect(rt, "memory");
    for key in keys {
        assert_own(rt, &settings, *key);
        list.push(*key, 1);
    }
    Entry::new(0, 0, list)
}

// Asserts that a key is of the only cone.
fn assert_own(rt: &impl Abort, settings: &Settings, key: u64)
    ensures { cone_of settings.now key ≡ 0 }
{
    assert!(rt; cone_of(settings, key) == 0);
}

// Gives the packets from one on to the only cone, until it refuses one, and answers how many it has then.
fn give(
    rt: &impl Abort,
    alloc: Global,
    cone: &mut Cone<MemBay, PlainTable>,
    keys: &[u64],
    first: usize,
) -> usize
    requires settings { cone.old.listing.settings ≡ SMALL }
    requires cone { cone.old.listing.cone ≡ 0 }
    ensures settings { cone.new.listing.settings ≡ SMALL }
    ensures cone { cone.new.listing.cone ≡ 0 }
{
    for at in first..keys.len() / PACKET {
        let packet = packet(rt, alloc, &keys[PACKET * at..PACKET * (at + 1)]);
        if cone.admit(&packet).is_err() {
            return at;
        }
    }
    keys.len() / PACKET
}

// Whether the only cone is finished at once.
fn is_finished(cone: &mut Cone<MemBay, PlainTable>) -> bool
    requires settings { cone.old.listing.settings ≡ SMALL }
    requires cone { cone.old.listing.cone ≡ 0 }
{
    cone.finish().is_ok()
}

// Gives all packets to the only cone, and finishes it: how many it took, and whether it was finished.
fn give_all(
    rt: &impl Abort,
    alloc: Global,
    cone: &mut Cone<MemBay, PlainTable>,
    keys: &[u64],
) -> (usize, bool)
    requires settings { cone.old.listing.settings ≡ SMALL }
    requires cone { cone.old.listing.cone ≡ 0 }
{
    let packets = give(rt, alloc, cone, keys, 0);
    (packets, is_finished(cone))
}

// A cone over empty files whose bay stops at a call, or none, where that keeps it from being made.
pub(crate) fn stopped(rt: &impl Abort, alloc: Global, keys: &[u64], call: u64) -> Option<Left> {
    let mut bay = MemBay::new(alloc).expect(rt, "memory");
    bay.stop_at(call);
    let room = ConeRoom::new(alloc, &settings(rt)).expect(rt, "memory");
    match Cone::create(room, 0, bay) {
        Ok(mut cone) => {
            let (packets, finished) = give_all(rt, alloc, &mut cone, keys);
            Some(Left {
                bay: cone.into_bay(),
                packets,
                finished,
            })
        }
        Err(refused) => {
            drop(refused);
            None
        }
    }
}

// The header of the journal of these settings, and what stands in it before the eight keys of a packet, each with its weight: the open
// gate, how many bytes come, the caller and the trace.
const HEADER: [u8; 32] =
    *b"LERTJ\x02\0\0\x03\0\0\0\x20\0\0\0\x04\0\0\0\x08\0\0\0\x03\x02\x02\0\0\0\0\0";

const BEFORE_KEYS: [u8; 13] = *b"\x01\x50\0\0\0\0\0\0\0\0\0\0\0";

// The journal of these keys, up to the gate behind its last packet.
fn journal_of(rt: &impl Abort, alloc: Global, keys: &[u64]) -> Vec<u8> {
    let mut text = Vec::from_slice(alloc, &HEADER).expect(rt, "memory");
    for packet in keys.chunks(PACKET) {
        push_packet(rt, &mut text, packet);
    }
    text
}

fn push_packet(rt: &impl Abort, text: &mut Vec<u8>, keys: &[u64]) {
    text.extend_from_slice(&BEFORE_KEYS).expect(rt, "memory");
    for key in keys {
        text.extend_from_slice(&key.to_le_bytes())
            .expect(rt, "memory");
        text.push(1).expect(rt, "memory");
    }
}

// Whether a journal has just these keys, in packets of eight.
fn has_keys(rt: &impl Abort, alloc: Global, journal: &[u8], keys: &[u64]) -> bool {
    let text = journal_of(rt, alloc, keys);
    journal.starts_with(&text) && journal.get(text.len()).copied() != Some(1)
}

// Opens what a crash leaves, and goes on to the end. It has the packets that were taken, and at most so many more, and its journal has
// the keys of these.
pub(crate) fn go_on(
    rt: &impl Abort,
    alloc: Global,
    keys: &[u64],
    image: MemBay,
    taken: usize,
    more: usize,
    reports: &[Report],
) {
    let journal = image.bytes(JOURNAL).to_vec(alloc).expect(rt, "memory");
    let room = ConeRoom::new(alloc, &settings(rt)).expect(rt, "memory");
    match reopen(room, 0, image) {
        Ok(mut cone) => {
            let opened = keys.get(..cone.events() as usize);
            let opened = opened.expect(rt, "there are so many keys");
            assert!(rt; has_keys(rt, alloc, &journal, opened));
            check_rest(rt, alloc, &mut cone, keys, taken, more, reports);
            let bay = cone.into_bay();
            assert!(rt; has_keys(rt, alloc, bay.bytes(JOURNAL), keys));
        }
        Err(_) => panic!(rt; "what a crash leaves is sound"),
    }
}

// Goes on with a cone to the end, which has the packets that were taken, and at most so many more.
fn check_rest(
    rt: &impl Abort,
    alloc: Global,
    cone: &mut Cone<MemBay, PlainTable>,
    keys: &[u64],
    taken: usize,
    more: usize,
    reports: &[Report],
)
    requires settings { cone.old.listing.settings ≡ SMALL }
    requires cone { cone.old.listing.cone ≡ 0 }
{
    let packets = cone.events() as usize / PACKET;
    assert_eq!(rt; cone.events() as usize % PACKET, 0);
    assert!(rt; taken <= packets);
    assert!(rt; packets - taken <= more);
    if cone.state() == ConeState::Running {
        assert_eq!(rt; give(rt, alloc, cone, keys, packets), keys.len() / PACKET);
        assert!(rt; is_finished(cone));
    }
    check_end(rt, cone, keys, reports);
}

// Wants a finished cone with these keys and reports.
fn check_end(rt: &impl Abort, cone: &Cone<MemBay, PlainTable>, keys: &[u64], reports: &[Report]) {
    assert_eq!(rt; cone.state(), ConeState::Finished);
    assert_eq!(rt; cone.events() as usize, keys.len());
    assert_eq!(rt; cone.reports().list(), reports);
}

// Keys 1 to `last` of which those at these positions are 7, and each other is a key of its own.
pub(crate) fn sevens_at(rt: &impl Abort, alloc: Global, last: u64, places: &[u64]) -> Vec<u64>
    requires { last < 1000 }
{
    let mut keys = Vec::new(alloc);
    for m in 1..last + 1 {
        let key = if places.contains(&m) { 7 } else { 1_000 + m };
        keys.push(key).expect(rt, "memory");
    }
    keys
}

// Stops a run over these keys at a call, and goes on with an image of what it left, where it made a cone. Answers whether it
// met no stop.
fn meets_no_stop(
    rt: &impl Abort,
    alloc: Global,
    keys: &[u64],
    call: u64,
    pick: u64,
    reports: &[Report],
) -> bool {
    match stopped(rt, alloc, keys, call) {
        Some(left) => {
            let Left {
                bay,
                packets,
                finished,
            } = left;
            if !finished {
                let image = bay.crashed(pick).expect(rt, "memory");
                go_on(rt, alloc, keys, image, packets, 1, reports);
            }
            finished
        }
        None => false,
    }
}

// Stops a run over these keys at each of its calls, and goes on with each of some images. Answers the number of the first
// call behind its last one.
fn stop_at_each_call(rt: &impl Abort, alloc: Global, keys: &[u64], reports: &[Report]) -> u64 {
    for call in 1..MOST_CALLS {
        for pick in PICKS {
            if meets_no_stop(rt, alloc, keys, call, pick, reports) {
                return call;
            }
        }
    }
    panic!(rt; "no run met no stop")
}

// A stop at each call of a run over so many keys, of which those at these positions are 7. A packet alone makes four calls.
fn stop_anywhere(rt: &impl Abort, alloc: Global, last: u64, places: &[u64], reports: &[Report])
    requires { last < 1000 }
{
    let keys = sevens_at(rt, alloc, last, places);
    let calls = stop_at_each_call(rt, alloc, &keys, reports);
    assert!(rt; calls > 4 * last / 8);
}

#[test]
fn a_stop_at_any_call_loses_no_packet_that_was_taken(rt: HostRuntime) {
    let sixteenth = [Report { key: 7, at: 16 }];
    stop_anywhere(&rt, rt.alloc(), 32, &[], &[]);
    stop_anywhere(&rt, rt.alloc(), 16, &[1, 2, 13], &sixteenth);
}
