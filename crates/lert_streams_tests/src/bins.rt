//! Settings, pieces and frames of them, as the tests share them.

ghost use Rattle.std.specs.Prelude.{◌≡◌, ◌≤◌, ◌^◌, [], IfOk};
ghost use Rattle.lert_frames.specs.Place.{tail_limit};
ghost use Rattle.lert_spec.specs.Edges.{span};
ghost use Rattle.lert_spec.specs.Table.{total, AreGiven};

use lert_base::{Numbers, Piece, Settings};
use lert_bay::{FRAMES, MemBay};
use lert_frames::FrameWriter;
use lert_io::Failed;
use std::alloc::{AllocError, Global};
use std::process::Abort;

/// Bins of 256 and of 512 events in levels 1 and 2.
pub const SMALL: Numbers = Numbers {
    threshold: 3,
    bins: 3,
    ratio: 2,
    base: 128,
    levels: 2,
    cone_bits: 0,
    room: 32,
    packet: 8,
};

/// Bins of 16,384 and of 32,768 events in levels 1 and 2, and as many quotients.
pub const WIDE: Numbers = Numbers {
    base: 8_192,
    ..SMALL
};

pub fn settings_of(rt: &impl Abort, numbers: Numbers) -> Settings
    ensures { result ≡ numbers }
{
    Settings::new(numbers).expect(rt, "settings")
}

pub fn empty_bay(rt: &impl Abort, alloc: Global) -> MemBay {
    MemBay::new(alloc).expect(rt, "memory")
}

/// The bytes of the file of frames.
pub fn bytes_of(rt: &impl Abort, alloc: Global, bay: &MemBay) -> Vec<u8> {
    Vec::from_slice(alloc, bay.bytes(FRAMES)).expect(rt, "memory")
}

/// At most so many pieces, whose tails begin at 0 and are so far apart. The first ones have these counts, as far as
/// they add up to `most`, and the others 1.
pub fn pieces_of(
    alloc: Global,
    counts: &[u64],
    len: u64,
    gap: u64,
    most: u64,
) -> Result<Vec<Piece>, AllocError>
    requires gap { 1 ≤ gap }
    requires most { most ≤ 2 ^ 40 }
    ensures given { IfOk result (λ pieces. AreGiven (2 ^ 64) pieces.items) }
    ensures fits { IfOk result (λ pieces. total pieces.items ≤ most) }
{
    let mut pieces = Vec::new(alloc);
    let mut tail = 0u64;
    let mut left = most;
    for number in 0..len {
        let count = counts.get(number as usize).copied().unwrap_or(1).min(left);
        if count == 0 {
            break;
        }
        pieces.push(Piece { tail, count })?;
        left -= count;
        let Some(next) = tail.checked_add(gap) else {
            return Ok(pieces);
        };
        tail = next;
    }
    Ok(pieces)
}

// Puts pieces into a frame that a writer began, and ends it.
fn write(writer: &mut FrameWriter, bay: &mut MemBay, pieces: &[Piece]) -> Result<(), Failed>
    requires none { writer.old.put ≡ [] }
    requires given { AreGiven (tail_limit writer.old.settings) pieces.now }
    requires fits { total pieces.now ≤ span writer.old.settings writer.old.level }
{
    for piece in pieces {
        writer.put(bay, *piece)?;
    }
    writer.end(bay)
}

/// Writes a frame by a writer alone.
pub fn write_frame(
    rt: &impl Abort,
    alloc: Global,
    bay: &mut MemBay,
    settings: &Settings,
    level: u32,
    frame: u32,
    pieces: &[Piece],
)
    requires first { 1 ≤ level }
    requires last { level ≤ settings.now.levels }
    requires frame { frame ≤ settings.now.bins }
    requires given { AreGiven (tail_limit settings.now) pieces.now }
    requires fits { total pieces.now ≤ span settings.now level }
{
    let mut writer = FrameWriter::new(alloc, settings, level, frame).expect(rt, "memory");
    write(&mut writer, bay, pieces).expect(rt, "no fault");
}
