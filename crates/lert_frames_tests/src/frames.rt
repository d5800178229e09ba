//! The bytes of a small frame, each place at which a file leaves it, and which pieces come back.

ghost use Rattle.std.specs.Prelude.{◌≡◌, ◌≤◌, ◌^◌};
ghost use Rattle.lert_spec.specs.Items.{IsVersion};
ghost use Rattle.lert_spec.specs.Table.{total, AreGiven};

use crate::bins::{
    SMALL, WIDE, bounded, checked, come_all, empty_bay, pieces_of, reader_of, settings_of,
    width_of, write_frame,
};
use lert_base::{Piece, PieceFault, Settings};
use lert_bay::FRAMES;
use lert_frames::frame_place;
use std::alloc::Global;
use std::process::Abort;

// The text of one tail twice, whose quotient is 45.
pub const ONE: [u8; 36] =
    *b"\0\0\0\0\0\x20\0\0\x02\0\0\0\x02\0\0\0\0\0\0\0\x2c\xcb\xc2\x34\xfc\xbc\x56\0\x2c\xcb\xc2\x34\xfc\xbc\x56\0";

// A block whose quotient 45 has a run of the slots 5, 5, 3, 7, 9, 11 and 13.
const RUN: [u8; 76] =
    *b"\0\0\0\0\0\x20\0\0\x07\0\0\0\x40\0\0\0\0\0\0\0\x05\0\0\0\0\0\0\0\x05\0\0\0\0\0\0\0\x03\0\0\0\0\0\0\0\x07\0\0\0\0\0\0\0\x09\0\0\0\0\0\0\0\x0b\0\0\0\0\0\0\0\x0d\0\0\0\0\0\0\0";

// Counts at which a group gets another slot in narrow bins, or nearly.
const COUNTS: [u64; 7] = [1, 2, 3, 255, 256, 257, 65_536];

const TWICE: Piece = Piece {
    tail: 0xb456_bcfc_34c2_cb2c,
    count: 2,
};

// A byte of that text that is changed, to what, the bin's width, and where the text is left then.
const BROKEN: [(usize, u8, u64, u64); 15] = [
    // two quotients have a run, or none has
    (5, 0x60, 2, 12),
    (5, 0, 2, 12),
    // more slots than a bin may have, none, and fewer than the run ends
    (8, 17, 2, 8),
    (10, 1, 2, 8),
    (8, 0, 2, 8),
    (8, 1, 2, 12),
    // a run end one slot early, one too many, and one behind the last slot
    (12, 1, 2, 12),
    (12, 3, 2, 12),
    (12, 4, 2, 12),
    (12, 6, 2, 12),
    // a slot of 59 bits, the first and the second
    (27, 4, 2, 20),
    (35, 4, 2, 28),
    // a slot that closes no digits
    (28, 0x2b, 2, 20),
    // another sum
    (30, 0xc2, 3, 0),
    (30, 0xc2, 1, 0),
];

// The places of frame 1 of level 1, and of frames 0 and 1 of level 2.
fn places_of(settings: &Settings, version: u8) -> [u64; 3]
    requires version { IsVersion version }
    requires levels { settings.now.levels ≡ 2 }
    requires bins { settings.now.bins ≡ 3 }
{
    [
        frame_place(settings, version, 1, 1),
        frame_place(settings, version, 2, 0),
        frame_place(settings, version, 2, 1),
    ]
}

#[test]
fn frames_stand_at_their_places(rt: HostRuntime) {
    let settings = settings_of(&rt, SMALL);
    let first = places_of(&settings, 1);
    let second = places_of(&settings, 2);
    assert_eq!(rt; first, [148, 592, 868]);
    assert_eq!(rt; second, [276, 1_104, 1_644]);
}

// Whether frame 1 of level 1 is written as that text, and read.
fn is_read(rt: &impl Abort, alloc: Global) -> bool {
    let settings = settings_of(rt, SMALL);
    let mut bay = empty_bay(rt, alloc);
    write_frame(rt, alloc, &mut bay, &settings, 1, 1, 1, &[TWICE]);
    let mut reader = reader_of(rt, alloc, &settings);
    reader.start(1, 1, 2);
    bay.bytes(FRAMES).len() == 184
        && bay.bytes(FRAMES).ends_with(&ONE)
        && come_all(&mut reader, &mut bay, &[TWICE], false)
}

#[test]
fn a_frame_is_written_and_read(rt: HostRuntime) {
    assert!(rt; is_read(&rt, rt.alloc()));
}

// Whether frame 1 of level 2 is read by a reader of level 1.
fn is_read_from_another_level(rt: &impl Abort, alloc: Global) -> bool {
    let settings = settings_of(rt, SMALL);
    let mut bay = empty_bay(rt, alloc);
    write_frame(rt, alloc, &mut bay, &settings, 1, 2, 1, &[TWICE]);
    let mut reader = reader_of(rt, alloc, &settings);
    reader.start_at(1, 2, 1, 2);
    come_all(&mut reader, &mut bay, &[TWICE], false)
}

#[test]
fn a_reader_goes_to_another_level(rt: HostRuntime) {
    assert!(rt; is_read_from_another_level(&rt, rt.alloc()));
}

// The place at which a file of these bytes leaves the frame of a bin of this width.
fn left_at(rt: &impl Abort, alloc: Global, bytes: &[u8], width: u64) -> Option<u64> {
    match checked(rt, alloc, SMALL, 1, bytes, width) {
        Ok(_) => None,
        Err(PieceFault::Malformed { at }) => Some(at),
        Err(PieceFault::Failed) => panic!(rt; "no call fails"),
    }
}

// The one where a byte of the text is another.
fn left_with(rt: &impl Abort, alloc: Global, place: usize, byte: u8, width: u64) -> Option<u64> {
    let mut bytes = ONE;
    if place < bytes.len() {
        bytes[place] = byte;
    }
    left_at(rt, alloc, &bytes, width)
}

#[test]
fn a_file_leaves_a_frame_at_a_place(rt: HostRuntime) {
    assert_eq!(rt; left_at(&rt, rt.alloc(), &ONE, 2), None);
    for (place, byte, width, at) in BROKEN {
        let left = left_with(&rt, rt.alloc(), place, byte, width);
        assert!(rt; left == Some(at), "byte {place} is {byte}");
    }
    for len in 0..ONE.len() {
        let left = left_at(&rt, rt.alloc(), &ONE[..len], 2);
        assert!(rt; left == Some(len as u64), "{len} bytes");
    }
}

// The place at which that run is left, with another last byte.
fn left_in_run(rt: &impl Abort, alloc: Global, last: u8) -> Option<u64> {
    let mut bytes = RUN;
    bytes[75] = last;
    left_at(rt, alloc, &bytes, 7)
}

#[test]
fn a_slot_that_is_too_great_counts_before_a_group_that_may_have_it(rt: HostRuntime) {
    // The third slot doesn't ascend. With 2^58 more the last one has 59 bits.
    assert_eq!(rt; left_in_run(&rt, rt.alloc(), 0), Some(36));
    assert_eq!(rt; left_in_run(&rt, rt.alloc(), 4), Some(68));
}

// Whether pieces of a frame of level 1 are read as they were written.
fn come_back(rt: &impl Abort, alloc: Global, pieces: &[Piece]) -> bool
    requires given { AreGiven (2 ^ 64) pieces.now }
    requires fits { total pieces.now ≤ 262144 }
{
    let settings = settings_of(rt, WIDE);
    let width = bounded(rt, &settings, width_of(pieces));
    let mut bay = empty_bay(rt, alloc);
    write_frame(rt, alloc, &mut bay, &settings, 1, 1, 2, pieces);
    let mut reader = reader_of(rt, alloc, &settings);
    reader.start(1, 2, width);
    come_all(&mut reader, &mut bay, pieces, false)
}

// The width of so many pieces, which are so far apart, where they come back.
fn width_back(rt: &impl Abort, alloc: Global, counts: &[u64], len: u64, gap: u64) -> Option<u64>
    requires { 1 ≤ gap }
{
    let pieces = pieces_of(alloc, counts, len, gap, 262_144).expect(rt, "memory");
    if pieces.len() as u64 == len && come_back(rt, alloc, &pieces) {
        Some(width_of(&pieces))
    } else {
        None
    }
}

#[test]
fn long_runs_and_sparse_frames_come_back(rt: HostRuntime) {
    // Of one quotient: a block in memory, one that is written in parts, one whose run ends fill several buffers; and
    // one piece in every second quotient.
    for (len, gap) in [
        (500, 1),
        (700, 1),
        (5_000, 3),
        (100_000, 1),
        (131_072, 1u64 << 47),
    ] {
        let width = width_back(&rt, rt.alloc(), &[], len, gap.max(1));
        assert!(rt; width == Some(len), "{len} pieces");
    }
}

#[test]
fn counts_come_back(rt: HostRuntime) {
    // Beside the remainders 0 to 6 of one quotient, of as many, and beside 0 and the greatest ones.
    for gap in [1u64, (1 << 46) + 1, (1 << 46) - 1] {
        let width = width_back(&rt, rt.alloc(), &COUNTS, 7, gap.max(1));
        assert!(rt; width == Some(66_310), "{gap} apart");
    }
    assert_eq!(rt;
        width_back(&rt, rt.alloc(), &[262_144], 1, 1),
        Some(262_144)
    );
}
