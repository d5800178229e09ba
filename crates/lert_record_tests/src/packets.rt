//! The bytes of a journal of one packet of each version, and what a stop at each call of an append leaves of its packets.

ghost use Rattle.std.specs.Prelude.{◌≡◌, ◌+◌, ◌*◌, ◌≤◌, [], ◌∷◌, length};
ghost use Rattle.lert_journal.specs.Payload.{item_len};
ghost use Rattle.lert_spec.specs.Items.{IsVersion, AreOfVersion};

use crate::same::assert_same;
use lert_base::{Entry, KeyList, Numbers, Settings};
use lert_bay::{JOURNAL, MemBay};
use lert_gatelog::{GateLog, LogFault};
use lert_journal::{HEADER_LEN, append_entry, read_entry, write_header};
use std::alloc::Global;
use std::process::Abort;

// One cone, with at most 32 keys in a packet.
pub(crate) const ALONE: Numbers = Numbers {
    threshold: 3,
    bins: 3,
    ratio: 2,
    base: 4,
    levels: 2,
    cone_bits: 0,
    room: 32,
    packet: 8,
};

// The greatest payload of its journal, and of one of the second version.
const MOST: u32 = 264;

const MOST_WEIGHED: u32 = 296;

// The journal of one packet of three keys 7.
const TEXT: [u8; 73] =
    *b"LERTJ\x02\0\0\x03\0\0\0\x20\0\0\0\x04\0\0\0\x08\0\0\0\x03\x02\x02\0\0\0\0\0\x01\x23\0\0\0\0\0\0\0\0\0\0\0\x07\0\0\0\0\0\0\0\x01\x07\0\0\0\0\0\0\0\x01\x07\0\0\0\0\0\0\0\x01\0";

// That of the first version.
const FIRST: [u8; 70] =
    *b"LERTJ\x01\0\0\x03\0\0\0\x20\0\0\0\x04\0\0\0\x08\0\0\0\x03\x02\x02\0\0\0\0\0\x01\x20\0\0\0\0\0\0\0\0\0\0\0\x07\0\0\0\0\0\0\0\x07\0\0\0\0\0\0\0\x07\0\0\0\0\0\0\0\0";

// The journal of one packet of three keys 7 that weigh 1, 2 and 255.
const WEIGHED: [u8; 73] =
    *b"LERTJ\x02\0\0\x03\0\0\0\x20\0\0\0\x04\0\0\0\x08\0\0\0\x03\x02\x02\0\0\0\0\0\x01\x23\0\0\0\0\0\0\0\0\0\0\0\x07\0\0\0\0\0\0\0\x01\x07\0\0\0\0\0\0\0\x02\x07\0\0\0\0\0\0\0\xff\0";

pub(crate) fn settings_of(rt: &impl Abort, numbers: Numbers) -> Settings
    ensures { result ≡ numbers }
{
    Settings::new(numbers).expect(rt, "settings")
}

// The greatest payload where a packet has at most 32 keys.
fn most_of(version: u8) -> u32
    requires { IsVersion version }
    ensures value { result ≡ 8 + 32 * item_len version }
    ensures most { result ≤ 296 }
{
    if version == 1 { MOST } else { MOST_WEIGHED }
}

// An entry of three keys 7 that weigh 1, and as much as it is told.
fn sevens(rt: &impl Abort, alloc: Global, second: u8, third: u8) -> Entry
    requires second { 1 ≤ second }
    requires third { 1 ≤ third }
    ensures some { length result.keys.items ≡ 3 }
    ensures items { result.keys.items ≡ record { key = 7; weight = 1 } ∷ record { key = 7; weight = second } ∷ record { key = 7; weight = third } ∷ [] }
{
    let mut keys = KeyList::with_room(alloc, 3).expect(rt, "memory");
    keys.push(7, 1);
    keys.push(7, second);
    keys.push(7, third);
    Entry::new(0, 0, keys)
}

// An entry of no keys, to read into.
pub(crate) fn blank(rt: &impl Abort, alloc: Global, room: usize) -> Entry
    ensures { result.keys.room ≡ room }
{
    Entry::new(9, 9, KeyList::with_room(alloc, room).expect(rt, "memory"))
}

// The header of cone 0 in a journal of a version.
pub(crate) fn header_of(settings: &Settings, version: u8) -> [u8; HEADER_LEN] {
    let mut header = [0; HEADER_LEN];
    write_header(settings, 0, &mut header);
    header[5] = version;
    header
}

// What a crash leaves of a journal with one packet, where the append of a second one is stopped at a call.
fn stopped(rt: &impl Abort, alloc: Global, settings: &Settings, call: u64, pick: u64) -> MemBay {
    let mut header = [0; HEADER_LEN];
    write_header(settings, 0, &mut header);
    let mut bay = MemBay::new(alloc).expect(rt, "memory");
    let mut log = GateLog::create(&mut bay, JOURNAL, &header, MOST_WEIGHED).expect(rt, "no fault");
    let entry = sevens(rt, alloc, 1, 1);
    let mut buffer = [255; MOST_WEIGHED as usize + 5];
    append_entry(&mut log, &mut bay, &entry, &mut buffer, 2).expect(rt, "no fault");
    bay.stop_at(call);
    let _ = append_entry(&mut log, &mut bay, &entry, &mut buffer, 2);
    bay.crashed(pick).expect(rt, "memory")
}

// How many packets a journal has, or the fault of who counted them.
type Count = Result<u32, LogFault>;

// By call and pick. Up to the write of the gate, the third call, the packet isn't there, and behind its
// sync, the fourth, it is. Between the two the gate may be as it was.
const LEFT: [(u64, [Count; 4]); 5] = [
    (1, [Ok(1), Ok(1), Ok(1), Ok(1)]),
    (2, [Ok(1), Ok(1), Ok(1), Ok(1)]),
    (3, [Ok(1), Ok(1), Ok(1), Ok(1)]),
    (4, [Ok(1), Ok(2), Ok(1), Ok(2)]),
    (5, [Ok(2), Ok(2), Ok(2), Ok(2)]),
];

fn left_by(rt: &impl Abort, alloc: Global, settings: &Settings, call: u64, pick: u64) -> Count
    requires { settings.now.packet ≡ 8 }
{
    let mut bay = stopped(rt, alloc, settings, call, pick);
    let mut entry = blank(rt, alloc, 32);
    count_packets(settings, &mut bay, &mut entry)
}

fn left_by_each_pick(rt: &impl Abort, alloc: Global, settings: &Settings, call: u64) -> [Count; 4]
    requires { settings.now.packet ≡ 8 }
{
    [
        left_by(rt, alloc, settings, call, 0),
        left_by(rt, alloc, settings, call, 1),
        left_by(rt, alloc, settings, call, 2),
        left_by(rt, alloc, settings, call, 3),
    ]
}

// How many packets a journal with at most two of them has.
fn count_packets(settings: &Settings, bay: &mut MemBay, entry: &mut Entry) -> Count
    requires packet { settings.now.packet ≡ 8 }
    requires room { entry.old.keys.room ≡ 32 }
{
    let mut log = GateLog::at_gate(JOURNAL, HEADER_LEN as u64, MOST_WEIGHED);
    let mut buffer = [0; MOST_WEIGHED as usize];
    if !read_entry(&mut log, bay, settings, 0, entry, &mut buffer, 2)? {
        return Ok(0);
    }
    if !read_entry(&mut log, bay, settings, 0, entry, &mut buffer, 2)? {
        return Ok(1);
    }
    Ok(2)
}

// A journal of a version behind the append of one packet of three keys, and its gate.
fn appended(
    rt: &impl Abort,
    alloc: Global,
    settings: &Settings,
    version: u8,
    entry: &Entry,
) -> (MemBay, u64)
    requires version { IsVersion version }
    requires some { length entry.now.keys.items ≡ 3 }
    requires weighed { AreOfVersion version entry.now.keys.items }
{
    let header = header_of(settings, version);
    let mut bay = MemBay::new(alloc).expect(rt, "memory");
    let mut log = GateLog::create(&mut bay, JOURNAL, &header, most_of(version)).expect(
        rt, "no fault",
    );
    let mut buffer = [255; MOST_WEIGHED as usize + 5];
    append_entry(&mut log, &mut bay, entry, &mut buffer, version).expect(rt, "no fault");
    (bay, log.gate())
}

// Asserts that an entry is of caller 0 and trace 0, with three keys 7 of these weights.
fn assert_is_sevens(rt: &impl Abort, entry: &Entry, weights: &[u8; 3]) {
    assert_same(rt, &(entry.by, entry.trace), &(0, 0), "whose it is");
    assert_same(
        rt,
        &entry.keys.as_slice(),
        &[7, 7, 7].as_slice(),
        "its keys",
    );
    assert_same(
        rt,
        &entry.keys.weights(),
        &weights.as_slice(),
        "its weights",
    );
}

// Asserts that a journal has one packet of three keys 7 of these weights, and its gate there.
fn assert_sevens(
    rt: &impl Abort,
    alloc: Global,
    settings: &Settings,
    version: u8,
    bay: &mut MemBay,
    weights: &[u8; 3],
    gate: u64,
)
    requires version { IsVersion version }
    requires packet { settings.now.packet ≡ 8 }
{
    let mut log = GateLog::at_gate(JOURNAL, 32, most_of(version));
    let mut read = blank(rt, alloc, 32);
    let mut buffer = [255; MOST_WEIGHED as usize];
    let answer = read_entry(&mut log, bay, settings, 0, &mut read, &mut buffer, version);
    assert_same(rt, &(answer, log.gate()), &(Ok(true), gate), "a packet");
    assert_is_sevens(rt, &read, weights);
    let answer = read_entry(&mut log, bay, settings, 0, &mut read, &mut buffer, version);
    assert_same(rt, &answer, &Ok(false), "a packet more");
}

#[test]
fn a_packet_is_written_and_read(rt: HostRuntime) {
    let settings = settings_of(&rt, ALONE);
    let entry = sevens(&rt, rt.alloc(), 1, 1);
    let (mut bay, gate) = appended(&rt, rt.alloc(), &settings, 2, &entry);
    assert_same(&rt, &bay.bytes(JOURNAL), &TEXT.as_slice(), "a journal");
    assert_same(&rt, &gate, &72, "its gate");
    assert_sevens(&rt, rt.alloc(), &settings, 2, &mut bay, &[1, 1, 1], 72);
}

#[test]
fn a_packet_of_the_first_version_is_written_and_read(rt: HostRuntime) {
    let settings = settings_of(&rt, ALONE);
    let entry = sevens(&rt, rt.alloc(), 1, 1);
    let (mut bay, gate) = appended(&rt, rt.alloc(), &settings, 1, &entry);
    assert_same(&rt, &bay.bytes(JOURNAL), &FIRST.as_slice(), "a journal");
    assert_same(&rt, &gate, &69, "its gate");
    assert_sevens(&rt, rt.alloc(), &settings, 1, &mut bay, &[1, 1, 1], 69);
}

#[test]
fn a_packet_with_weights_is_written_and_read(rt: HostRuntime) {
    let settings = settings_of(&rt, ALONE);
    let entry = sevens(&rt, rt.alloc(), 2, 255);
    let (mut bay, gate) = appended(&rt, rt.alloc(), &settings, 2, &entry);
    assert_same(&rt, &bay.bytes(JOURNAL), &WEIGHED.as_slice(), "a journal");
    assert_same(&rt, &gate, &72, "its gate");
    assert_sevens(&rt, rt.alloc(), &settings, 2, &mut bay, &[1, 2, 255], 72);
}

#[test]
fn a_stop_leaves_the_packet_or_not(rt: HostRuntime) {
    let settings = settings_of(&rt, ALONE);
    for (call, want) in LEFT {
        let found = left_by_each_pick(&rt, rt.alloc(), &settings, call);
        assert_same(&rt, &(call, found), &(call, want), "packets by pick");
    }
}
