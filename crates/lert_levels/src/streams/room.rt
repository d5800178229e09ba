//! The memory.

ghost use Rattle.std.specs.Prelude.{◌≡◌, ℕ, ◌+◌, ◌*◌, ◌<◌, ◌≤◌, ◌^◌, ◌⊎◌, Option, Some, None, List, [], All, vec_capacity, length, map, IfOk, OnOk, IsErrOf, slice_index_or};
ghost use Rattle.lert_bay.specs.declared.bay.TheConstants.{FRAMES};
ghost use Rattle.lert_bay.specs.Files.{Files, IfTold};
ghost use Rattle.lert_bay.specs.Kept.{OnlyReads};
ghost use Rattle.lert_frames.specs.Frame.{frame_left};
ghost use Rattle.lert_frames.specs.Place.{frame_place, frame_len};
ghost use Rattle.lert_spec.specs.Items.{IsVersion};
ghost use Rattle.lert_spec.specs.Edges.{span};
ghost use Rattle.lert_merge.specs.order.Members.{given_at, limit_at};
ghost use Rattle.lert_spec.specs.Table.{costs};
ghost use Rattle.lert_levels.specs.streams.Bin.{of_table, given_of, limit_of, wide_of};
ghost use Rattle.lert_levels.specs.streams.BinSet.{AreSure, Reads};
ghost use Rattle.lert_levels.specs.streams.SetLaws.{to_come_at};
ghost use Rattle.lert_levels.specs.streams.Tables.{AreReadersOf, AreStartedOn, fresh_bin};

use crate::streams::cursor::TableCursor;
use crate::streams::streams::BinStreams;
use lert_base::{CountTable, PieceFault, Settings};
use lert_bay::Bay;
use lert_frames::{FrameReader, frame_place};
use lert_io::OutOfMemory;
use std::alloc::Global;
use std::marker::Model;

/// The memory for reading the bins of a flush, one flush after another: a place for a cursor of each table of level 0,
/// and a reader for each bin on disk. It is seen as its settings.
#[derive(Drop)]
pub struct StreamRoom<T: CountTable> {
    pub(crate) settings: Settings,
    // None is in use.
    pub(crate) cursors: Vec<TableCursor<T>>,
    pub(crate) readers: Vec<FrameReader>,
}

impl<T: CountTable> Model for StreamRoom<T> {
    ghost use Rattle.std.specs.Prelude.{vec_capacity};
    ghost use Rattle.lert_spec.specs.declared.numbers.Numbers.{Numbers};
    ghost use Rattle.lert_levels.specs.streams.Tables.{IsRoom};

    ghost Value = { Numbers };

    ghost view = { λ room. room.settings };

    ghost invariant = { λ room. IsRoom room.settings room.cursors.items (vec_capacity room.cursors) room.readers.items };
}

impl<T: CountTable> StreamRoom<T> {
    /// Room for a table of each bin of level 0, and for each bin of the other levels. Its only error is want of memory:
    /// it takes some 19 KiB for each bin on disk.
    pub fn new(alloc: Global, settings: &Settings) -> Result<StreamRoom<T>, OutOfMemory>
        ensures { IfOk result (λ room. room ≡ settings.now) }
    {
        let numbers = settings.numbers();
        let bins = numbers.bins as usize;
        Ok(StreamRoom {
            settings: *settings,
            cursors: Vec::with_capacity(alloc, bins)?,
            readers: readers_of(alloc, settings, bins * numbers.levels as usize)?,
        })
    }

    /// Begins the streams of tables beside frames of this version: a cursor before the first piece of each, and no frame
    /// yet. It reads nothing.
    pub fn begin<'a>(self, version: u8, tables: &'a [T]) -> BinStreams<'a, T>
        requires version { IsVersion version }
        requires few { length tables.now ≤ self.bins }
        requires rooms { All (λ table. T.room table ≤ 2 ^ 39) tables.now }
        ensures settings { result.settings ≡ self }
        ensures version { result.version ≡ version }
        ensures bins { result.bins ≡ map of_table (map (fresh_bin (λ table. T.quotient_bits table + T.width table) T.pieces) tables.now) }
        ensures spare { result.spare ≡ self.bins * self.levels }
        ensures count { length result.bins ≡ length tables.now }

        // All pieces of a table are to come of it, whether a bay tells its files or not.
        ensures coming { (told : Option Files) (k : ℕ) (d : T) → k < length tables.now →
            to_come_at told result.bins k ≡ Some (T.pieces (slice_index_or tables.now k d)) }
        ensures given { (k : ℕ) → given_at given_of result.bins k ≡ [] }
        ensures limit { (k : ℕ) (d : T) → k < length tables.now → limit_at limit_of result.bins k
            ≡ 2 ^ (T.quotient_bits (slice_index_or tables.now k d) + T.width (slice_index_or tables.now k d)) }
        ensures width { (k : ℕ) (d : T) → k < length tables.now →
            limit_at (wide_of version) result.bins k ≡ costs version (T.pieces (slice_index_or tables.now k d)) }

        // No table reads the file of frames.
        ensures sure { (file : List ℕ) → AreSure result.bins file }
        ensures reads { (from to : ℕ) → ¬ Reads result.bins from to }
    {
        let StreamRoom {
            settings,
            mut cursors,
            readers,
        } = self;
        start_all(tables, &mut cursors);
        BinStreams {
            settings,
            version,
            tables,
            cursors,
            readers,
            frames: 0,
        }
    }

    /// Makes sure of a frame before a flush writes anything. Where its place isn't wholly within the first `len` bytes of
    /// the file of frames, which are there, it reads the frame to its end, by whole buffers of 8,192 bytes.
    pub fn secure<B: Bay>(
        &mut self,
        bay: &mut B,
        len: u64,
        version: u8,
        level: u32,
        frame: u32,
        width: u64,
    ) -> Result<(), PieceFault>
        requires version { IsVersion version }
        requires first { 1 ≤ level }
        requires last { level ≤ self.old.levels }
        requires frame { frame ≤ self.old.bins }
        requires some { 1 ≤ width }
        requires width { width ≤ span self.old level }
        ensures secured { IfTold (B.files bay.old) (λ seen. len ≤ length (seen FRAMES) → OnOk result (
            (frame_place self.old version level frame + frame_len self.old version level ≤ length (seen FRAMES))
            ⊎ (frame_left self.old version level frame width (seen FRAMES) ≡ None))) }
        ensures malformed { IfTold (B.files bay.old) (λ seen. (at : ℕ) → IsErrOf result (PieceFault.Malformed at) →
            frame_left self.old version level frame width (seen FRAMES) ≡ Some at) }
        ensures settings { self.new ≡ self.old }
        ensures only_reads { OnlyReads B.Bay bay.old bay.new (IsErrOf result PieceFault.Failed) }
    {
        let _valid = self.settings.numbers();
        if frame_end(&self.settings, version, level, frame) <= len {
            return Ok(());
        }
        let reader = &mut self.readers[0];
        reader.start_at(version, level, frame, width);
        reader.check(bay, version, frame, width)?;
        Ok(())
    }
}

// So many readers of a cone's frames.
fn readers_of(
    alloc: Global,
    settings: &Settings,
    count: usize,
) -> Result<Vec<FrameReader>, OutOfMemory>
    ensures settings { IfOk result (λ readers. AreReadersOf settings.now readers.items) }
    ensures len { IfOk result (λ readers. length readers.items ≡ count) }
{
    let _valid = settings.numbers();
    let mut readers = Vec::with_capacity(alloc, count)?;
    for _ in 0..count {
        readers.push(FrameReader::new(alloc, settings, 1)?)?;
    }
    Ok(readers)
}

// Starts a cursor on each table.
fn start_all<T: CountTable>(tables: &[T], cursors: &mut Vec<TableCursor<T>>)
    requires none { cursors.old.items ≡ [] }
    requires room { length tables.now ≤ vec_capacity cursors.old }
    requires rooms { All (λ table. T.room table ≤ 2 ^ 39) tables.now }
    ensures started { AreStartedOn (λ table. T.quotient_bits table + T.width table) (λ table cursor. T.left table cursor.place) (λ cursor. cursor.gave)
        (λ table cursor. T.stands table cursor.place) T.pieces tables.now cursors.new.items }
    ensures room { vec_capacity cursors.old ≤ vec_capacity cursors.new }
{
    for table in tables {
        // The room has a place for each table.
        let is_put = cursors.push(TableCursor::start(table)).is_ok();
        prove!(is_put);
    }
}

// The first byte behind a frame's place.
fn frame_end(settings: &Settings, version: u8, level: u32, frame: u32) -> u64
    requires version { IsVersion version }
    requires first { 1 ≤ level }
    requires last { level ≤ settings.now.levels }
    requires frame { frame ≤ settings.now.bins }
    ensures { result ≡ frame_place settings.now version level frame + frame_len settings.now version level }
{
    let _valid = settings.numbers();
    // All places of a level are of one length.
    let len = frame_place(settings, version, level, 1) - frame_place(settings, version, level, 0);
    frame_place(settings, version, level, frame) + len
}
