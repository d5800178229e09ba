//! What stands in the file of frames once bins landed.

ghost use Rattle.std.specs.Prelude.{◌≤◌, ◌^◌};
ghost use Rattle.lert_spec.specs.Table.{total, AreGiven};

use crate::bins::{WIDE, bytes_of, empty_bay, pieces_of, settings_of, write_frame};
use crate::landings::{EVENTS, both, land, one};
use crate::steps::{Step, steps_of, steps_of_both};
use lert_base::Piece;
use lert_bay::{FRAMES, MemBay};
use lert_io::Failed;
use std::alloc::Global;
use std::process::Abort;

// Counts at which a group of slots gets another slot in narrow bins, or nearly.
const COUNTS: [u64; 6] = [1, 2, 3, 255, 256, 257];

// How many pieces, and how far they are apart: over all blocks, or all in one block that is written in parts.
const SPREADS: [(u64, u64); 3] = [(7, 1), (3_000, 1 << 52), (3_000, 1)];

// The file of frames behind a landing at frame 1 of level 1.
fn landed(rt: &impl Abort, alloc: Global, steps: &[Step]) -> Vec<u8> {
    let mut bay = empty_bay(rt, alloc);
    land(rt, &mut one(rt, alloc), &mut bay, steps).expect(rt, "no fault");
    bytes_of(rt, alloc, &bay)
}

// The one behind a writer there.
fn written(rt: &impl Abort, alloc: Global, pieces: &[Piece]) -> Vec<u8>
    requires given { AreGiven (2 ^ 64) pieces.now }
    requires fits { total pieces.now ≤ EVENTS }
{
    let mut bay = empty_bay(rt, alloc);
    write_frame(rt, alloc, &mut bay, &settings_of(rt, WIDE), 1, 1, pieces);
    bytes_of(rt, alloc, &bay)
}

// Whether a landing of the events of so many pieces writes the bytes that a writer writes of the sums.
fn lands_as_written(rt: &impl Abort, alloc: Global, len: u64, gap: u64) -> bool
    requires { 1 ≤ gap }
{
    let pieces = pieces_of(alloc, &COUNTS, len, gap, EVENTS).expect(rt, "memory");
    let steps = steps_of(rt, alloc, &pieces);
    pieces.len() as u64 == len
        && pieces.len() < steps.len()
        && landed(rt, alloc, &steps).as_slice() == written(rt, alloc, &pieces).as_slice()
}

#[test]
fn a_landing_of_equal_tails_writes_the_frame_of_their_sums(rt: HostRuntime) {
    for (len, gap) in SPREADS {
        assert!(rt;
            lands_as_written(&rt, rt.alloc(), len, gap.max(1)),
            "{gap} apart"
        );
    }
}

// The file of frames behind writers alone: a named frame of level 1, and one more of each level.
fn all_written(
    rt: &impl Abort,
    alloc: Global,
    named: &[Piece],
    first: &[Piece],
    second: &[Piece],
) -> Vec<u8>
    requires named { AreGiven (2 ^ 64) named.now }
    requires named_fits { total named.now ≤ EVENTS }
    requires first { AreGiven (2 ^ 64) first.now }
    requires first_fits { total first.now ≤ EVENTS }
    requires second { AreGiven (2 ^ 64) second.now }
    requires second_fits { total second.now ≤ EVENTS }
{
    let settings = settings_of(rt, WIDE);
    let mut bay = empty_bay(rt, alloc);
    write_frame(rt, alloc, &mut bay, &settings, 1, 0, named);
    write_frame(rt, alloc, &mut bay, &settings, 1, 1, first);
    write_frame(rt, alloc, &mut bay, &settings, 2, 3, second);
    bytes_of(rt, alloc, &bay)
}

// What becomes of the files where a call fails: none did and the bins landed, or one did.
#[derive(Clone, Copy)]
enum Outcome {
    Landed,
    Failed,
    Wrong,
}

// Lands two bins.
fn land_both(
    rt: &impl Abort,
    alloc: Global,
    bay: &mut MemBay,
    steps: &[Step],
) -> Result<(), Failed> {
    land(rt, &mut both(rt, alloc), bay, steps)
}

// Lands two bins beside a named frame, of these bytes. The named frame has to be as it was; where a call failed, the
// bins are to land in the end.
fn outcome_of(
    rt: &impl Abort,
    alloc: Global,
    bay: &mut MemBay,
    named: &[u8],
    steps: &[Step],
    expected: &[u8],
) -> Outcome {
    let has_landed = land_both(rt, alloc, bay, steps).is_ok();
    if !bay.bytes(FRAMES).starts_with(named) {
        return Outcome::Wrong;
    }
    let outcome = if has_landed {
        Outcome::Landed
    } else {
        land_both(rt, alloc, bay, steps).expect(rt, "no fault");
        Outcome::Failed
    };
    if bay.bytes(FRAMES) == expected {
        outcome
    } else {
        Outcome::Wrong
    }
}

// Lands them beside the frame of these pieces, with this call failing.
fn landed_beside(
    rt: &impl Abort,
    alloc: Global,
    named: &[Piece],
    steps: &[Step],
    expected: &[u8],
    call: u64,
) -> Outcome
    requires given { AreGiven (2 ^ 64) named.now }
    requires fits { total named.now ≤ EVENTS }
{
    let mut bay = empty_bay(rt, alloc);
    write_frame(rt, alloc, &mut bay, &settings_of(rt, WIDE), 1, 0, named);
    let before = bytes_of(rt, alloc, &bay);
    bay.fail_at(call);
    outcome_of(rt, alloc, &mut bay, &before, steps, expected)
}

// More calls than the frames here take.
const CALLS: u64 = 40;

// How many calls fail one after the other and leave all as it should be, up to the first that doesn't come.
fn calls_failed(
    rt: &impl Abort,
    alloc: Global,
    named: &[Piece],
    steps: &[Step],
    expected: &[u8],
) -> Option<u64>
    requires given { AreGiven (2 ^ 64) named.now }
    requires fits { total named.now ≤ EVENTS }
{
    for call in 1..CALLS {
        match landed_beside(rt, alloc, named, steps, expected, call) {
            Outcome::Landed => return Some(call - 1),
            Outcome::Failed => {}
            Outcome::Wrong => return None,
        }
    }
    None
}

// The same for bins whose pieces are so far apart.
fn calls_failed_at(rt: &impl Abort, alloc: Global, gap: u64) -> Option<u64>
    requires { 1 ≤ gap }
{
    let named = pieces_of(alloc, &[5, 1, 9], 500, 3, EVENTS).expect(rt, "memory");
    let first = pieces_of(alloc, &COUNTS, 3_000, gap, EVENTS).expect(rt, "memory");
    let second = pieces_of(alloc, &[2, 2, 300], 3_000, gap, EVENTS).expect(rt, "memory");
    let steps = steps_of_both(rt, alloc, &first, &second);
    let expected = all_written(rt, alloc, &named, &first, &second);
    calls_failed(rt, alloc, &named, &steps, &expected)
}

#[test]
fn bins_land_beside_a_named_frame_whichever_call_fails(rt: HostRuntime) {
    for (gap, least) in [(1 << 52, 8), (1u64, 16)] {
        let calls = calls_failed_at(&rt, rt.alloc(), gap);
        assert!(rt; calls.is_some_and(|calls| least <= calls), "{gap} apart");
    }
}
