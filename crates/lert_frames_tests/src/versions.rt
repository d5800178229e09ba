//! Frames of both versions: which counts a bin of a width may have, and how many slots.

ghost use Rattle.std.specs.Prelude.{◌≤◌, ◌^◌};
ghost use Rattle.lert_spec.specs.Items.{IsVersion};
ghost use Rattle.lert_spec.specs.Table.{total, AreGiven};

use crate::bins::{
    SMALL, WIDE, bounded, checked, come_all, empty_bay, pieces_of, reader_of, settings_of,
    version_of, width_of, write_frame,
};
use crate::frames::ONE;
use lert_base::{Piece, PieceFault};
use lert_frames::frame_place;
use std::alloc::Global;
use std::process::Abort;

// Up to four counts, behind which come zeros: of the last ones 256 items make the greatest, and two make 256.
const FEW: [u64; 4] = [1, 255, 0, 0];

const MANY: [u64; 4] = [1, 255, 256, 65_026];

// A version, counts, a bin's width, and whether they are those of such a bin.
const BINS: [(u8, [u64; 4], u64, bool); 16] = [
    // with version 1 they add up to the width
    (1, FEW, 256, true),
    (1, FEW, 255, false),
    (1, FEW, 257, false),
    (1, FEW, 2, false),
    (1, MANY, 65_538, true),
    (1, MANY, 65_537, false),
    (1, MANY, 65_539, false),
    // with version 2 they cost no more than the width, and reach it
    (2, FEW, 256, true),
    (2, FEW, 2, true),
    (2, FEW, 1, false),
    (2, FEW, 257, false),
    (2, MANY, 260, true),
    (2, MANY, 65_538, true),
    (2, MANY, 259, false),
    (2, MANY, 1, false),
    (2, MANY, 65_539, false),
];

// How a check of frame 1 of level 1 answers that has these pieces.
fn answer_of(
    rt: &impl Abort,
    alloc: Global,
    version: u8,
    pieces: &[Piece],
    width: u64,
) -> Result<u64, PieceFault>
    requires version { IsVersion version }
    requires given { AreGiven (2 ^ 64) pieces.now }
    requires fits { total pieces.now ≤ 262144 }
{
    let settings = settings_of(rt, WIDE);
    let width = bounded(rt, &settings, width);
    let mut bay = empty_bay(rt, alloc);
    write_frame(rt, alloc, &mut bay, &settings, version, 1, 1, pieces);
    let mut reader = reader_of(rt, alloc, &settings);
    let answer = reader.check(&mut bay, version, 1, width);
    reader.start(version, 1, width);
    let come = come_all(&mut reader, &mut bay, pieces, false);
    assert!(rt; come == answer.is_ok());
    answer
}

// Whether such a frame is left nowhere, and its counts add up to what they do, or at its first byte.
fn is_answered(
    rt: &impl Abort,
    alloc: Global,
    version: u8,
    counts: &[u64],
    width: u64,
    is_bin: bool,
) -> bool
    requires { IsVersion version }
{
    let pieces = pieces_of(alloc, counts, 4, 1 << 40, 262_144).expect(rt, "memory");
    let at = frame_place(&settings_of(rt, WIDE), version, 1, 1);
    let expected = if is_bin {
        Ok(width_of(&pieces))
    } else {
        Err(PieceFault::Malformed { at })
    };
    answer_of(rt, alloc, version, &pieces, width) == expected
}

#[test]
fn a_frame_has_the_counts_of_a_bin(rt: HostRuntime) {
    for (version, counts, width, is_bin) in BINS {
        let known = version_of(&rt, version);
        let answered = is_answered(&rt, rt.alloc(), known, &counts, width, is_bin);
        assert!(rt; answered, "version {version}, width {width}");
    }
}

// A version, a number of slots, and where the text of a frame of 8 items is left that has one run end, at its second
// slot: at the word of run ends, or at the number where a bin may not have so many.
const SLOTS: [(u8, u8, u64); 4] = [(1, 16, 12), (1, 17, 8), (2, 32, 12), (2, 33, 8)];

// The answer where the text has this number of slots.
fn slots_answer(rt: &impl Abort, alloc: Global, version: u8, slots: u8) -> Result<u64, PieceFault>
    requires { IsVersion version }
{
    let mut bytes = ONE;
    bytes[8] = slots;
    checked(rt, alloc, SMALL, version, &bytes, 2)
}

#[test]
fn a_frame_has_as_many_slots_as_a_bin_may_have(rt: HostRuntime) {
    for (version, slots, at) in SLOTS {
        let known = version_of(&rt, version);
        let answer = slots_answer(&rt, rt.alloc(), known, slots);
        assert!(rt;
            answer == Err(PieceFault::Malformed { at }),
            "{slots} slots"
        );
    }
}
