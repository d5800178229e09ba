//! A frame of pieces that is written whole, and one that is read whole: the first one of the last level.

ghost use Rattle.std.specs.Prelude.{◌≡◌, ◌≤◌, []};
ghost use Rattle.lert_frames.specs.Place.{tail_limit};
ghost use Rattle.lert_spec.specs.Edges.{span};
ghost use Rattle.lert_spec.specs.Table.{total, AreGiven};

use anyhow::{Context, Result, bail};
use lert_base::{Piece, PieceFault, Pieces, Settings};
use lert_bay::Bay;
use lert_frames::{FrameReader, FrameWriter};
use lert_io::Failed;
use std::alloc::Global;

// The version of the frames that a cone writes, whose items have weights.
const VERSION: u8 = 2;

/// The oldest level.
pub fn last_level(settings: &Settings) -> u32
    ensures { result ≡ settings.now.levels }
{
    settings.numbers().levels as u32
}

/// What the counts of pieces add up to.
pub fn width_of(pieces: &[Piece]) -> u64 {
    let mut width = 0u64;
    for piece in pieces {
        width = width.saturating_add(piece.count);
    }
    width
}

/// Writes a frame of these pieces.
pub fn write_frame<B: Bay>(
    alloc: Global,
    settings: &Settings,
    bay: &mut B,
    pieces: &[Piece],
) -> Result<()>
    requires levels { 1 ≤ settings.now.levels }
    requires given { AreGiven (tail_limit settings.now) pieces.now }
    requires fits { total pieces.now ≤ span settings.now settings.now.levels }
{
    let Ok(mut writer) = FrameWriter::new(alloc, settings, last_level(settings), 0) else {
        bail!("out of memory");
    };
    writer.start(VERSION, 0);
    write_all(&mut writer, bay, pieces)
        .ok()
        .context("a write failed")
}

/// The sum over the pieces of a frame of a bin of this width, in order, of which there are at most so many.
pub fn read_frame<B: Bay>(
    alloc: Global,
    settings: &Settings,
    bay: &mut B,
    width: u64,
    most: usize,
) -> Result<u64>
    requires levels { 1 ≤ settings.now.levels }
{
    let level = last_level(settings);
    if width == 0 || width > settings.span(level) {
        bail!("no such bin");
    }
    let mut reader = FrameReader::new(alloc, settings, level)
        .ok()
        .context("out of memory")?;
    reader.start(VERSION, 0, width);
    let sum = sum_up(&mut reader, bay, most);
    drop(reader);
    sum.ok().context("a frame that isn't one")
}

// Puts pieces into a frame that a writer began, and ends it.
fn write_all<B: Bay>(writer: &mut FrameWriter, bay: &mut B, pieces: &[Piece]) -> Result<(), Failed>
    requires none { writer.old.put ≡ [] }
    requires given { AreGiven (tail_limit writer.old.settings) pieces.now }
    requires fits { total pieces.now ≤ span writer.old.settings writer.old.level }
{
    for piece in pieces {
        writer.put(bay, *piece)?;
    }
    writer.end(bay)
}

// The sum over the pieces of a frame that a reader began.
fn sum_up<B: Bay>(reader: &mut FrameReader, bay: &mut B, most: usize) -> Result<u64, PieceFault> {
    let mut sum = 0u64;
    for _ in 0..=most {
        let Some(piece) = reader.next(bay)? else {
            break;
        };
        sum = sum.rotate_left(1) ^ piece.tail ^ piece.count.rotate_left(32);
    }
    Ok(sum)
}
