//! Settings, pieces and frames of them, as the tests share them.

ghost use Rattle.std.specs.Prelude.{◌≡◌, ◌≤◌, ◌^◌, [], IfOk};
ghost use Rattle.lert_frames.specs.Place.{tail_limit};
ghost use Rattle.lert_spec.specs.Items.{IsVersion};
ghost use Rattle.lert_spec.specs.Edges.{span};
ghost use Rattle.lert_spec.specs.Table.{total, AreGiven};

use lert_base::{Numbers, Piece, PieceFault, Pieces, Settings};
use lert_bay::{FRAMES, MemBay};
use lert_frames::{FrameReader, FrameWriter};
use lert_io::Failed;
use std::alloc::{AllocError, Global};
use std::process::Abort;

/// Bins of 4, 8 and 16 events, four places a level, and 64 quotients in each.
pub const SMALL: Numbers = Numbers {
    threshold: 3,
    bins: 3,
    ratio: 2,
    base: 4,
    levels: 2,
    cone_bits: 0,
    room: 32,
    packet: 8,
};

/// Bins of 8,192 events in level 1, and as many quotients.
pub const MIDDLE: Numbers = Numbers {
    base: 4_096,
    levels: 1,
    ..SMALL
};

/// Bins of 262,144 events in level 1, and as many quotients.
pub const WIDE: Numbers = Numbers {
    base: 65_536,
    ratio: 4,
    levels: 1,
    ..SMALL
};

pub fn settings_of(rt: &impl Abort, numbers: Numbers) -> Settings
    ensures { result ≡ numbers }
{
    Settings::new(numbers).expect(rt, "settings")
}

pub fn empty_bay(rt: &impl Abort, alloc: Global) -> MemBay {
    MemBay::new(alloc).expect(rt, "memory")
}

/// One whose file of frames has these bytes.
pub fn bay_of(rt: &impl Abort, alloc: Global, bytes: &[u8]) -> MemBay {
    let mut bay = empty_bay(rt, alloc);
    bay.load(FRAMES, bytes).expect(rt, "memory");
    bay
}

/// A reader of level 1.
pub fn reader_of(rt: &impl Abort, alloc: Global, settings: &Settings) -> FrameReader
    requires { 1 ≤ settings.now.levels }
    ensures settings { result.settings ≡ settings.now }
    ensures level { result.level ≡ 1 }
{
    FrameReader::new(alloc, settings, 1).expect(rt, "memory")
}

/// At most so many pieces, whose tails begin at 0 and are so far apart. The first ones have these counts, as far as
/// they add up to `most`, and the others 1.
pub fn pieces_of(
    alloc: Global,
    counts: &[u64],
    len: u64,
    gap: u64,
    most: u64,
) -> Result<Vec<Piece>, AllocError>
    requires gap { 1 ≤ gap }
    requires most { most ≤ 2 ^ 40 }
    ensures given { IfOk result (λ pieces. AreGiven (2 ^ 64) pieces.items) }
    ensures fits { IfOk result (λ pieces. total pieces.items ≤ most) }
{
    let mut pieces = Vec::new(alloc);
    let mut tail = 0u64;
    let mut left = most;
    for number in 0..len {
        let count = counts.get(number as usize).copied().unwrap_or(1).min(left);
        if count == 0 {
            break;
        }
        pieces.push(Piece { tail, count })?;
        left -= count;
        let Some(next) = tail.checked_add(gap) else {
            return Ok(pieces);
        };
        tail = next;
    }
    Ok(pieces)
}

/// A version that files may have.
pub fn version_of(rt: &impl Abort, version: u8) -> u8
    ensures { IsVersion result }
{
    assert!(rt; 1 <= version && version <= 2);
    version
}

/// A width that a bin of level 1 may have.
pub fn bounded(rt: &impl Abort, settings: &Settings, width: u64) -> u64
    requires { 1 ≤ settings.now.levels }
    ensures some { 1 ≤ result }
    ensures most { result ≤ span settings.now 1 }
{
    assert!(rt; 1 <= width && width <= settings.span(1));
    width
}

/// What the counts of pieces add up to.
pub fn width_of(pieces: &[Piece]) -> u64 {
    let mut width = 0u64;
    for piece in pieces {
        width = width.saturating_add(piece.count);
    }
    width
}

/// Puts pieces into a frame that a writer began, and ends it. Their counts cost no more than they add up to.
pub fn write(writer: &mut FrameWriter, bay: &mut MemBay, pieces: &[Piece]) -> Result<(), Failed>
    requires none { writer.old.put ≡ [] }
    requires given { AreGiven (tail_limit writer.old.settings) pieces.now }
    requires fits { total pieces.now ≤ span writer.old.settings writer.old.level }
    ensures settings { writer.new.settings ≡ writer.old.settings }
    ensures level { writer.new.level ≡ writer.old.level }
{
    for piece in pieces {
        writer.put(bay, *piece)?;
    }
    writer.end(bay)
}

/// Writes a frame by a writer of its own.
pub fn write_frame(
    rt: &impl Abort,
    alloc: Global,
    bay: &mut MemBay,
    settings: &Settings,
    version: u8,
    level: u32,
    frame: u32,
    pieces: &[Piece],
)
    requires version { IsVersion version }
    requires first { 1 ≤ level }
    requires last { level ≤ settings.now.levels }
    requires frame { frame ≤ settings.now.bins }
    requires given { AreGiven (tail_limit settings.now) pieces.now }
    requires fits { total pieces.now ≤ span settings.now level }
{
    let mut writer = FrameWriter::new(alloc, settings, level, frame).expect(rt, "memory");
    writer.start(version, frame);
    write(&mut writer, bay, pieces).expect(rt, "no fault");
}

/// How a check of frame 0 answers.
pub fn check(
    reader: &mut FrameReader,
    bay: &mut MemBay,
    version: u8,
    width: u64,
) -> Result<u64, PieceFault>
    requires version { IsVersion version }
    requires some { 1 ≤ width }
    requires width { width ≤ span reader.old.settings reader.old.level }
    ensures settings { reader.new.settings ≡ reader.old.settings }
    ensures level { reader.new.level ≡ reader.old.level }
{
    reader.check(bay, version, 0, width)
}

// What a reader gives next.
fn next_of(reader: &mut FrameReader, bay: &mut MemBay) -> Result<Option<Piece>, PieceFault> {
    reader.next(bay)
}

// What it gives next, by a second call where the first one fails.
fn next_again(reader: &mut FrameReader, bay: &mut MemBay) -> Result<Option<Piece>, PieceFault> {
    let first = next_of(reader, bay);
    if first == Err(PieceFault::Failed) {
        next_of(reader, bay)
    } else {
        first
    }
}

/// Whether a reader gives just these pieces. A call may fail and be made again, where that is said.
pub fn come_all(
    reader: &mut FrameReader,
    bay: &mut MemBay,
    pieces: &[Piece],
    may_fail: bool,
) -> bool {
    for number in 0..pieces.len() + 1 {
        let piece = pieces.get(number).copied();
        let next = if may_fail {
            next_again(reader, bay)
        } else {
            next_of(reader, bay)
        };
        if next != Ok(piece) {
            return false;
        }
    }
    true
}

/// How a check of frame 0 of level 1 answers over a file of these bytes.
pub fn checked(
    rt: &impl Abort,
    alloc: Global,
    numbers: Numbers,
    version: u8,
    bytes: &[u8],
    width: u64,
) -> Result<u64, PieceFault>
    requires version { IsVersion version }
    requires levels { 1 ≤ numbers.levels }
{
    let settings = settings_of(rt, numbers);
    let width = bounded(rt, &settings, width);
    let mut bay = bay_of(rt, alloc, bytes);
    check(
        &mut reader_of(rt, alloc, &settings),
        &mut bay,
        version,
        width,
    )
}

/// The file of frame 0 of level 1 alone, in version 1. The frame's text stands at its front; behind it may stand slots that were
/// moved.
pub fn text_of(rt: &impl Abort, alloc: Global, numbers: Numbers, pieces: &[Piece]) -> Vec<u8>
    requires levels { 1 ≤ numbers.levels }
    requires given { AreGiven (tail_limit numbers) pieces.now }
    requires fits { total pieces.now ≤ span numbers 1 }
{
    let mut bay = empty_bay(rt, alloc);
    write_frame(
        rt,
        alloc,
        &mut bay,
        &settings_of(rt, numbers),
        1,
        1,
        0,
        pieces,
    );
    Vec::from_slice(alloc, bay.bytes(FRAMES)).expect(rt, "memory")
}
