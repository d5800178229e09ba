//! The streams.

ghost use Rattle.std.specs.Prelude.{◌≡◌, ℕ, ◌+◌, ◌≤◌, ◌<◌, ◌⊎◌, ◌↔◌, List, [], Option, None, length, IsErrOf};
ghost use Rattle.lert_bay.specs.Files.{Files};
ghost use Rattle.lert_bay.specs.Kept.{OnlyReads};
ghost use Rattle.lert_spec.specs.Edges.{span};
ghost use Rattle.lert_frames.specs.Frame.{frame_left};
ghost use Rattle.lert_frames.specs.Place.{frame_place, frame_len, tail_limit};
ghost use Rattle.lert_merge.specs.order.Members.{given_at, limit_at};
ghost use Rattle.lert_merge.specs.order.Untouched.{IsUntouched};
ghost use Rattle.lert_levels.specs.streams.Asked.{Asked, Begins, frame_to_come, FrameLeavesAt};
ghost use Rattle.lert_levels.specs.streams.Bin.{given_of, limit_of, version_of, wide_of};
ghost use Rattle.lert_levels.specs.streams.BinSet.{AreSure, Reads};
ghost use Rattle.lert_levels.specs.streams.SetLaws.{to_come_at, LeavesIn};

use crate::streams::cursor::TableCursor;
use crate::streams::room::StreamRoom;
use lert_base::{CountTable, Piece, PieceFault, Pieces, Settings};
use lert_bay::Bay;
use lert_frames::FrameReader;
use std::marker::Model;

/// The bins of a flush: tables, and behind them the frames that `read` began. It is seen as the set of these, and how
/// many more frames can be begun.
///
/// No call takes memory: `StreamRoom` has all of it, and `into_room` gives it back.
#[derive(Drop)]
pub struct BinStreams<'a, T: CountTable> {
    pub(crate) settings: Settings,
    pub(crate) version: u8,
    pub(crate) tables: &'a [T],
    // One on each table.
    pub(crate) cursors: Vec<TableCursor<T>>,
    // The first ones read the frames, the others are free.
    pub(crate) readers: Vec<FrameReader>,
    pub(crate) frames: usize,
}

impl<'a, T: CountTable> Model for BinStreams<'a, T> {
    ghost use Rattle.std.specs.Prelude.{length, ◌+◌, ◌-◌, vec_capacity};
    ghost use Rattle.lert_levels.specs.streams.BinSet.{BinSet};
    ghost use Rattle.lert_levels.specs.streams.Tables.{bins_at, all_streams, IsBinSet};
    ghost use Rattle.std.specs.Coded.{codes};
    ghost use Rattle.lert_frames.specs.contracts.reader.FrameReader as reader;

    ghost Value = { BinSet };

    ghost coded = { Prim.hlevel (codes, reader.the_row.coded) };

    ghost view = { λ b. record {
      settings = b.settings;
      version = b.version;
      bins = all_streams (bins_at (λ table. T.quotient_bits table + T.width table) (λ table cursor. T.left table cursor.place) (λ cursor. cursor.gave)
          b.tables.now b.cursors.items) b.frames b.readers.items;
      spare = length b.readers.items - b.frames;
    } };

    ghost invariant = { λ b. IsBinSet (λ table. T.quotient_bits table + T.width table) (λ table cursor. T.left table cursor.place) (λ cursor. cursor.gave)
        (λ table cursor. T.stands table cursor.place) b.settings b.version b.tables.now b.cursors.items (vec_capacity b.cursors) b.readers.items b.frames };
}

impl<'a, T: CountTable> BinStreams<'a, T> {
    /// Begins a frame of a level, that of a bin of this width, as one stream more. It reads nothing.
    pub fn read(&mut self, level: u32, frame: u32, width: u64)
        requires spare { 1 ≤ self.old.spare }
        requires first { 1 ≤ level }
        requires last { level ≤ self.old.settings.levels }
        requires frame { frame ≤ self.old.settings.bins }
        requires some { 1 ≤ width }
        requires width { width ≤ span self.old.settings level }
        ensures begins { Begins self.old self.new level frame width }
        ensures count { length self.new.bins ≡ length self.old.bins + 1 }

        // To come of it is what a file says at its place.
        ensures coming { (told : Option Files) →
            to_come_at told self.new.bins (length self.old.bins) ≡ frame_to_come told self.old.settings self.old.version level frame width }
        ensures breaking { (told : Option Files) (at : ℕ) →
            LeavesIn told self.new.bins (length self.old.bins) at ↔ FrameLeavesAt told self.old.settings self.old.version level frame width at }
        ensures given { given_at given_of self.new.bins (length self.old.bins) ≡ [] }
        ensures limit { limit_at limit_of self.new.bins (length self.old.bins) ≡ tail_limit self.old.settings }
        ensures width { limit_at (wide_of self.new.version) self.new.bins (length self.old.bins) ≡ width }
        ensures version { limit_at (version_of self.new.version) self.new.bins (length self.old.bins) ≡ self.old.version }
        ensures others { (k : ℕ) → k < length self.old.bins → IsUntouched (λ set stream told. to_come_at told set.bins stream)
            (λ set. given_at given_of set.bins) (λ set. limit_at limit_of set.bins) (λ set stream told. LeavesIn told set.bins stream) self.old self.new k }
        ensures widths { (k : ℕ) → k < length self.old.bins → limit_at (wide_of self.new.version) self.new.bins k ≡ limit_at (wide_of self.old.version) self.old.bins k }

        // It is sure of a file that has all of the frame's place, or in which the frame leaves its text nowhere.
        ensures sure { (file : List ℕ) → AreSure self.old.bins file →
            (frame_place self.old.settings self.old.version level frame + frame_len self.old.settings self.old.version level ≤ length file)
            ⊎ (frame_left self.old.settings self.old.version level frame width file ≡ None) → AreSure self.new.bins file }
        ensures reads { (from to : ℕ) → Reads self.new.bins from to → Reads self.old.bins from to
            ⊎ ((frame_place self.old.settings self.old.version level frame ≤ from)
            × (to ≤ frame_place self.old.settings self.old.version level frame + frame_len self.old.settings self.old.version level)) }
    {
        self.readers[self.frames].start_at(self.version, level, frame, width);
        self.frames += 1;
    }

    /// The memory, for the next flush.
    pub fn into_room(self) -> StreamRoom<T>
        ensures { result ≡ self.entry.settings }
    {
        let BinStreams {
            settings,
            version: _,
            tables: _,
            mut cursors,
            readers,
            frames: _,
        } = self;
        cursors.clear();
        StreamRoom {
            settings,
            cursors,
            readers,
        }
    }

    // How many streams there are.
    pub(crate) fn count(&self) -> usize
        ensures { result ≡ length self.now.bins }
    {
        self.tables.len() + self.frames
    }

    // A stream's next piece.
    #[inline]
    pub(crate) fn ask<B: Bay>(
        &mut self,
        stream: usize,
        bay: &mut B,
    ) -> Result<Option<Piece>, PieceFault>
        requires { stream < length self.old.bins }
        ensures asked { Asked (B.files bay.old) (B.files bay.new) self.old self.new stream result }
        ensures only_reads { OnlyReads B.Bay bay.old bay.new (IsErrOf result PieceFault.Failed) }
    {
        let tables = self.tables;
        if stream < tables.len() {
            return Ok(self.cursors[stream].next(&tables[stream]));
        }
        self.readers[stream - tables.len()].next(bay)
    }
}
