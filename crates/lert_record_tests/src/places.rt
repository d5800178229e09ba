//! Each place at which the first record of a journal leaves the format, of both versions, and what its items weigh.

ghost use Rattle.std.specs.Prelude.{◌≡◌, ◌+◌, ◌*◌, ◌≤◌};
ghost use Rattle.lert_journal.specs.Payload.{item_len};
ghost use Rattle.lert_spec.specs.Items.{IsVersion};

use crate::packets::{ALONE, blank, header_of, settings_of};
use crate::same::assert_same;
use lert_base::{Entry, Numbers, Settings};
use lert_bay::{JOURNAL, MemBay};
use lert_gatelog::{GateLog, LogFault};
use lert_journal::{HEADER_LEN, place_left, read_entry, weight_behind};
use std::alloc::Global;
use std::process::Abort;

// Two cones, with at most four keys in a packet. Key 0 is of cone 0, and key 1 of cone 1.
const HALVES: Numbers = Numbers {
    cone_bits: 1,
    packet: 1,
    ..ALONE
};

// The greatest payload of their journals, and of those of the second version.
const MOST_OF_HALVES: u32 = 40;

const MOST_WEIGHED_OF_HALVES: u32 = 44;

// The greatest payload where one has at most four.
fn most_of_halves(version: u8) -> u32
    requires { IsVersion version }
    ensures value { result ≡ 8 + 4 * item_len version }
    ensures most { result ≤ 44 }
{
    if version == 1 {
        MOST_OF_HALVES
    } else {
        MOST_WEIGHED_OF_HALVES
    }
}

// What is answered at the first gate of a journal of cone 0 of two with these bytes behind its header.
fn first_answer(
    rt: &impl Abort,
    alloc: Global,
    settings: &Settings,
    version: u8,
    bytes: &[u8],
) -> Result<bool, LogFault>
    requires version { IsVersion version }
    requires packet { settings.now.packet ≡ 1 }
{
    let text = text_of(rt, alloc, settings, version, bytes);
    let mut bay = loaded(rt, alloc, text.as_slice());
    let mut entry = blank(rt, alloc, 4);
    read_first(settings, version, &mut bay, &mut entry)
}

// The header of cone 0, and these bytes behind it.
fn text_of(
    rt: &impl Abort,
    alloc: Global,
    settings: &Settings,
    version: u8,
    bytes: &[u8],
) -> Vec<u8> {
    let header = header_of(settings, version);
    let mut text = Vec::from_slice(alloc, &header).expect(rt, "memory");
    text.extend_from_slice(bytes).expect(rt, "memory");
    text
}

fn loaded(rt: &impl Abort, alloc: Global, text: &[u8]) -> MemBay {
    let mut bay = MemBay::new(alloc).expect(rt, "memory");
    bay.load(JOURNAL, text).expect(rt, "memory");
    bay
}

fn read_first(
    settings: &Settings,
    version: u8,
    bay: &mut MemBay,
    entry: &mut Entry,
) -> Result<bool, LogFault>
    requires version { IsVersion version }
    requires packet { settings.now.packet ≡ 1 }
    requires room { entry.old.keys.room ≡ 4 }
{
    let mut log = GateLog::at_gate(JOURNAL, HEADER_LEN as u64, most_of_halves(version));
    let mut buffer = [0; MOST_WEIGHED_OF_HALVES as usize];
    read_entry(&mut log, bay, settings, 0, entry, &mut buffer, version)
}

// The bytes behind a header of the first of two cones, the place at which they leave the format, and why.
const BROKEN: [(&[u8], u64, &str); 11] = [
    (b"", 32, "no gate"),
    (b"\x01\x10\0", 35, "a cut length"),
    (b"\x01\0\0\0\0\0", 33, "no payload"),
    (b"\x01\x30\0\0\0", 33, "five keys where four are the most"),
    (b"\x01\x08\0\0\0\0\0\0\0\0\0\0\0\0", 33, "no key"),
    (
        b"\x01\x14\0\0\0\x40\0\0\0\0\0\0\0\0\0\0\0\0\0\0\0\0\0\0\0\0",
        33,
        "half a key",
    ),
    (
        b"\x01\x10\0\0\0\x40\0\0\0\0\0\0\0\0\0\0\0\0\0\0",
        52,
        "a cut payload",
    ),
    (
        b"\x01\x10\0\0\0\x40\0\0\0\0\x04\0\0\0\0\0\0\0\0\0\0\0",
        37,
        "a caller past the last",
    ),
    (
        b"\x01\x10\0\0\0\x3f\0\0\0\0\x04\0\0\x01\0\0\0\0\0\0\0\0",
        41,
        "a trace past the last",
    ),
    (
        b"\x01\x10\0\0\0\x3f\0\0\0\xff\x03\0\0\x01\0\0\0\0\0\0\0\0",
        45,
        "a key of the other cone",
    ),
    (
        b"\x01\x18\0\0\0\0\0\0\0\0\0\0\0\0\0\0\0\0\0\0\0\x01\0\0\0\0\0\0\0\0",
        53,
        "another one behind one of this cone",
    ),
];

#[test]
fn a_record_leaves_the_format_at_a_place(rt: HostRuntime) {
    let settings = settings_of(&rt, HALVES);
    for &(bytes, at, why) in &BROKEN {
        let answer = first_answer(&rt, rt.alloc(), &settings, 1, bytes);
        assert_same(&rt, &answer, &Err(LogFault::Malformed { at }), why);
    }
}

// The same of journals of the second version.
const BROKEN_WEIGHED: [(&[u8], u64, &str); 9] = [
    (
        b"\x01\x10\0\0\0\0\0\0\0\0\0\0\0\0\0\0\0\0\0\0\0\0",
        33,
        "a payload of the first version",
    ),
    (
        b"\x01\x12\0\0\0\0\0\0\0\0\0\0\0\0\0\0\0\0\0\0\0\x01\x01\0",
        33,
        "an item and a byte",
    ),
    (b"\x01\x35\0\0\0", 33, "five items where four are the most"),
    (b"\x01\x08\0\0\0\0\0\0\0\0\0\0\0\0", 33, "no item"),
    (
        b"\x01\x11\0\0\0\0\0\0\0\0\0\0\0\0\0\0\0\0\0\0\0\0\0",
        53,
        "a key that weighs nothing",
    ),
    (
        b"\x01\x11\0\0\0\0\0\0\0\0\0\0\0\x01\0\0\0\0\0\0\0\0\0",
        45,
        "a key of the other cone that weighs nothing",
    ),
    (
        b"\x01\x1a\0\0\0\0\0\0\0\0\0\0\0\0\0\0\0\0\0\0\0\x01\x01\0\0\0\0\0\0\0\x02\0",
        54,
        "a key of the other cone behind one of this",
    ),
    (
        b"\x01\x1a\0\0\0\0\0\0\0\0\0\0\0\0\0\0\0\0\0\0\0\xff\0\0\0\0\0\0\0\0\0\0",
        62,
        "one that weighs nothing behind one of this cone",
    ),
    (
        b"\x01\x2c\0\0\0\0\0\0\0\0\0\0\0\0\0\0\0\0\0\0\0\x01\0\0\0\0\0\0\0\0\x01\0\0\0\0\0\0\0\0\x01\x01\0\0\0\0\0\0\0\x01\0",
        72,
        "the last of four",
    ),
];

#[test]
fn a_record_with_weights_leaves_the_format_at_a_place(rt: HostRuntime) {
    let settings = settings_of(&rt, HALVES);
    for &(bytes, at, why) in &BROKEN_WEIGHED {
        let answer = first_answer(&rt, rt.alloc(), &settings, 2, bytes);
        assert_same(&rt, &answer, &Err(LogFault::Malformed { at }), why);
    }
}

#[test]
fn a_payload_has_at_most_four_times_as_many_items_as_the_settings_name(rt: HostRuntime) {
    let settings = settings_of(&rt, HALVES);
    let found = [
        place_left(&settings, 0, &[0; 40], 1),
        place_left(&settings, 0, &[0; 48], 1),
        place_left(&settings, 0, &[0; 44], 2),
        place_left(&settings, 0, &[0; 53], 2),
    ];
    // Four keys 0 of the first version are a packet. With the second one they weigh nothing.
    let want = [None, Some(0), Some(20), Some(0)];
    assert_same(&rt, &found, &want, "four and five keys 0");
}

// Three keys 7 without weights, and three that weigh 1, 2 and 255.
const SEVENS: &[u8] = b"\0\0\0\0\0\0\0\0\x07\0\0\0\0\0\0\0\x07\0\0\0\0\0\0\0\x07\0\0\0\0\0\0\0";

const WEIGHED_SEVENS: &[u8] =
    b"\0\0\0\0\0\0\0\0\x07\0\0\0\0\0\0\0\x01\x07\0\0\0\0\0\0\0\x02\x07\0\0\0\0\0\0\0\xff";

// A payload, its version, how many items stand in front, and what those behind them weigh.
const WEIGHTS: [(&[u8], u8, u64, u64); 10] = [
    (SEVENS, 1, 0, 3),
    (SEVENS, 1, 2, 1),
    (SEVENS, 1, 3, 0),
    (SEVENS, 1, 4, 0),
    (WEIGHED_SEVENS, 2, 0, 258),
    (WEIGHED_SEVENS, 2, 1, 257),
    (WEIGHED_SEVENS, 2, 2, 255),
    (WEIGHED_SEVENS, 2, 3, 0),
    (WEIGHED_SEVENS, 2, u64::MAX, 0),
    (b"", 2, 0, 0),
];

#[test]
fn items_of_a_payload_are_weighed_behind_the_first_ones(rt: HostRuntime) {
    for &(payload, version, skip, weight) in &WEIGHTS {
        let found = (version, skip, weight_behind(payload, version, skip));
        assert_same(&rt, &found, &(version, skip, weight), "a weight");
    }
}
