//! Drawn pieces as a frame of the last level, written into a file and read back.

ghost use Rattle.std.specs.Prelude.{◌≡◌, ◌≤◌, ◌^◌, IfOk};
ghost use Rattle.lert_frames.specs.Place.{tail_limit};
ghost use Rattle.lert_spec.specs.Edges.{span};
ghost use Rattle.lert_spec.specs.Table.{total, AreGiven};

use crate::drawn::{Kind, pieces};
use crate::frame::{last_level, read_frame, width_of, write_frame};
use crate::random::Random;
use crate::timed::{Line, Timed};
use anyhow::{Context, Result, bail};
use lert_base::{Numbers, Piece, Settings};
use lert_host::{FileBay, FilePlace};
use lert_place::Place;
use std::alloc::Global;
use std::fs::File;
use std::rt::{Clock, Files};
use std::time::Instant;

/// Settings whose last level has frames of 2^20 quotients, or of 2^22.
fn settings_of(kind: Kind) -> Result<Settings>
    ensures levels { IfOk result (λ s. 1 ≤ s.levels) }
    ensures cones { IfOk result (λ s. s.cone_bits ≡ 0) }
{
    let (ratio, levels) = match kind {
        Kind::Near | Kind::Distinct => (16, 1),
        Kind::Skewed => (8, 2),
    };
    let numbers = Numbers {
        threshold: 24,
        bins: 2,
        ratio,
        base: 65_536,
        levels,
        cone_bits: 0,
        room: 65_536,
        packet: 1024,
    };
    Settings::new(numbers).ok().context("no settings")
}

/// So many drawn pieces, of which a bin has room for so many events.
fn prepare(alloc: Global, kind: Kind, len: u32, seed: u64, room: u64) -> Result<Vec<Piece>>
    ensures given { IfOk result (λ pieces. AreGiven (2 ^ 64) pieces.items) }
    ensures fits { IfOk result (λ pieces. total pieces.items ≤ room) }
{
    if u64::from(len) > room || room > u64::from(u32::MAX) {
        bail!("too many pieces");
    }
    let pieces = pieces(&mut Random::new(seed), alloc, kind, len, room)?;
    Ok(pieces)
}

/// The frames of cone 0 in a directory.
fn open_frames<R: Files<File = File> + AllocGlobal>(rt: &R, dir: &str) -> Result<FileBay> {
    let mut place = FilePlace::new(rt);
    place.open_bay(dir, 0).ok().context("no files")
}

/// Draws the pieces, writes them as a frame and reads them back, and sums up what was read.
pub fn time_frame<R: Clock + Files<File = File> + AllocGlobal>(
    rt: &R,
    kind: Kind,
    dir: &str,
    len: u32,
    seed: u64,
) -> Result<Timed> {
    let settings = settings_of(kind)?;
    let room = settings.span(last_level(&settings));
    let pieces = prepare(rt.alloc(), kind, len, seed, room)?;
    time_file(rt, &settings, dir, &pieces)
}

fn time_file<R: Clock + Files<File = File> + AllocGlobal>(
    rt: &R,
    settings: &Settings,
    dir: &str,
    pieces: &[Piece],
) -> Result<Timed>
    requires levels { 1 ≤ settings.now.levels }
    requires given { AreGiven (tail_limit settings.now) pieces.now }
    requires fits { total pieces.now ≤ span settings.now settings.now.levels }
{
    let mut bay = open_frames(rt, dir)?;
    time_bay(rt, settings, &mut bay, pieces)
}

/// How long it takes to write the frame and to read it, and the sum over what was read.
fn time_bay<R: Clock + AllocGlobal>(
    rt: &R,
    settings: &Settings,
    bay: &mut FileBay,
    pieces: &[Piece],
) -> Result<Timed>
    requires levels { 1 ≤ settings.now.levels }
    requires given { AreGiven (tail_limit settings.now) pieces.now }
    requires fits { total pieces.now ≤ span settings.now settings.now.levels }
{
    let start = Instant::now(rt)?;
    write_frame(rt.alloc(), settings, bay, pieces)?;
    let written = start.elapsed(rt)?;
    let width = width_of(pieces);
    let start = Instant::now(rt)?;
    let sum = read_frame(rt.alloc(), settings, bay, width, pieces.len())?;
    let read = start.elapsed(rt)?;
    Ok(Timed {
        sums: Line {
            first: pieces.len() as u128,
            second: Some(u128::from(sum)),
        },
        times: Line {
            first: written.as_nanos(),
            second: Some(read.as_nanos()),
        },
    })
}
