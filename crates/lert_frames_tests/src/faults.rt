//! Calls of the bay that fail while a frame is written or read.

ghost use Rattle.std.specs.Prelude.{◌≡◌, ◌≤◌, ◌^◌};
ghost use Rattle.lert_spec.specs.Table.{total, AreGiven};

use crate::bins::{
    MIDDLE, bay_of, bounded, check, come_all, empty_bay, pieces_of, reader_of, settings_of,
    text_of, width_of, write,
};
use lert_base::{Piece, PieceFault};
use lert_bay::{FRAMES, MemBay};
use lert_frames::{FrameWriter, frame_place};
use std::alloc::Global;
use std::process::Abort;

// More calls than the frames here take.
const CALLS: u64 = 24;

// Whether two files are the same from a place on.
fn are_same_from(one: &[u8], other: &[u8], place: usize) -> bool {
    if one.len() != other.len() {
        return false;
    }
    for at in place..one.len() {
        if one[at] != other[at] {
            return false;
        }
    }
    true
}

// Writes frame 0 with this call failing, beside frame 1. Where one does, frame 1 has to be as it was, and frame 0 whole
// once it is written anew: whether they are.
fn written_beside(
    rt: &impl Abort,
    alloc: Global,
    writer: &mut FrameWriter,
    bay: &mut MemBay,
    pieces: &[Piece],
    call: u64,
) -> Option<bool>
    requires settings { writer.old.settings ≡ MIDDLE }
    requires level { writer.old.level ≡ 1 }
    requires given { AreGiven (2 ^ 64) pieces.now }
    requires fits { total pieces.now ≤ 8192 }
{
    let beside = frame_place(&settings_of(rt, MIDDLE), 1, 1, 1) as usize;
    let before = Vec::from_slice(alloc, bay.bytes(FRAMES)).expect(rt, "memory");
    bay.fail_at(call);
    writer.start(1, 0);
    if write(writer, bay, pieces).is_ok() {
        return None;
    }
    let is_kept = are_same_from(bay.bytes(FRAMES), &before, beside);
    writer.start(1, 0);
    write(writer, bay, pieces).expect(rt, "no fault");
    let is_whole = bay
        .bytes(FRAMES)
        .starts_with(&text_of(rt, alloc, MIDDLE, pieces));
    Some(is_kept && is_whole && are_same_from(bay.bytes(FRAMES), &before, beside))
}

// The same, once the writer wrote frame 1.
fn written_anew(rt: &impl Abort, alloc: Global, pieces: &[Piece], call: u64) -> Option<bool>
    requires given { AreGiven (2 ^ 64) pieces.now }
    requires fits { total pieces.now ≤ 8192 }
{
    let settings = settings_of(rt, MIDDLE);
    let mut bay = empty_bay(rt, alloc);
    let mut writer = FrameWriter::new(alloc, &settings, 1, 1).expect(rt, "memory");
    write(&mut writer, &mut bay, pieces).expect(rt, "no fault");
    written_beside(rt, alloc, &mut writer, &mut bay, pieces, call)
}

// How many calls of writing a frame fail and leave all as it should be, one after the other, up to the first that
// doesn't come. The frame has 3,000 pieces that are so far apart.
fn calls_written(rt: &impl Abort, alloc: Global, gap: u64) -> Option<u64>
    requires { 1 ≤ gap }
{
    let pieces = pieces_of(alloc, &[], 3_000, gap, 8_192).expect(rt, "memory");
    for call in 1..CALLS {
        match written_anew(rt, alloc, &pieces, call) {
            None => return Some(call - 1),
            Some(true) => {}
            Some(false) => return None,
        }
    }
    None
}

// How far 3,000 pieces are apart that each occur once, and how many calls it takes at least to write them, each of
// 8,192 bytes: their blocks are in memory, or they are of one quotient, so that their slots are written, read and
// written.
const WRITTEN: [(u64, u64); 2] = [(1 << 52, 4), (1, 9)];

#[test]
fn after_a_failed_call_a_frame_is_written_anew(rt: HostRuntime) {
    for (gap, least) in WRITTEN {
        let calls = calls_written(&rt, rt.alloc(), gap.max(1)).unwrap_or(0);
        assert!(rt; least <= calls, "{calls} calls");
    }
}

// Whether a check is answered by `Failed` where this call fails, and one behind it so.
fn fails_once(
    rt: &impl Abort,
    alloc: Global,
    bytes: &[u8],
    width: u64,
    call: u64,
    answer: Result<u64, PieceFault>,
) -> bool {
    let settings = settings_of(rt, MIDDLE);
    let width = bounded(rt, &settings, width);
    let mut bay = bay_of(rt, alloc, bytes);
    let mut reader = reader_of(rt, alloc, &settings);
    bay.fail_at(call);
    let first = check(&mut reader, &mut bay, 1, width);
    first == Err(PieceFault::Failed) && check(&mut reader, &mut bay, 1, width) == answer
}

// How many calls of a check that answers so are answered by `Failed`, one after the other, with the right answer
// behind.
fn calls_checked(
    rt: &impl Abort,
    alloc: Global,
    bytes: &[u8],
    width: u64,
    answer: Result<u64, PieceFault>,
) -> u64 {
    for call in 1..CALLS {
        if !fails_once(rt, alloc, bytes, width, call, answer) {
            return call - 1;
        }
    }
    CALLS
}

// Whether each of these pieces comes in its turn, though this call fails.
fn come_though(rt: &impl Abort, alloc: Global, bytes: &[u8], pieces: &[Piece], call: u64) -> bool {
    let settings = settings_of(rt, MIDDLE);
    let width = bounded(rt, &settings, width_of(pieces));
    let mut bay = bay_of(rt, alloc, bytes);
    let mut reader = reader_of(rt, alloc, &settings);
    reader.start(1, 0, width);
    bay.fail_at(call);
    come_all(&mut reader, &mut bay, pieces, true)
}

// Whether they come whichever call fails.
fn come_always(rt: &impl Abort, alloc: Global, bytes: &[u8], pieces: &[Piece]) -> bool {
    for call in 1..CALLS {
        if !come_though(rt, alloc, bytes, pieces, call) {
            return false;
        }
    }
    true
}

// Whether calls of a reader of 3,000 pieces, whose text is so long, are answered so: at least four fail where it is
// whole, more where its last byte is cut, and its pieces come.
fn are_answered(rt: &impl Abort, alloc: Global, gap: u64, len: usize) -> bool
    requires { 1 ≤ gap }
{
    let pieces = pieces_of(alloc, &[], 3_000, gap, 8_192).expect(rt, "memory");
    let file = text_of(rt, alloc, MIDDLE, &pieces);
    let width = width_of(&pieces);
    let text = file.get(..len).unwrap_or(&[]);
    let reads = calls_checked(rt, alloc, text, width, Ok(width));
    let less = len.saturating_sub(1);
    let cut = file.get(..less).unwrap_or(&[]);
    let fault = Err(PieceFault::Malformed { at: less as u64 });
    let calls = calls_checked(rt, alloc, cut, width, fault);
    4 <= reads && reads < calls && calls < CALLS && come_always(rt, alloc, text, &pieces)
}

// How far 3,000 pieces are apart that each occur once, and how long the text of their frame is: 12 bytes for each of
// 128 blocks, and eight for each slot and each word of run ends, of which 94 blocks have one, or one block 47.
const READ: [(u64, usize); 2] = [(1 << 52, 26_288), (1, 25_912)];

#[test]
fn a_failed_call_of_a_reader_is_answered_and_made_again(rt: HostRuntime) {
    for (gap, len) in READ {
        assert!(rt;
            are_answered(&rt, rt.alloc(), gap.max(1), len),
            "{gap} apart"
        );
    }
}
