//! The streams of a flush: level 0 and some of the levels on disk.

ghost use Rattle.std.specs.Prelude.{◌≡◌, ℕ, ◌+◌, ◌*◌, ◌<◌, ◌≤◌, ◌++◌, List, [], ◌∷◌, length, map};
ghost use Rattle.lert_levels.specs.rows.Rows.{IsRow, AreFirst};
ghost use Rattle.lert_levels.specs.Sources.{Source, of_bin, placed, placed_at, AreBegun};

use crate::rows::{BinAt, Row};
use crate::streams::BinStreams;
use lert_base::{CountTable, Settings};

/// Begins the frames of the rows' bins behind the other streams, from level 1 on, each level's oldest first. It reads nothing.
pub fn read_rows<T: CountTable>(settings: &Settings, rows: &[Row], streams: &mut BinStreams<T>)
    requires same { streams.old.settings ≡ settings.now }
    requires rows { AreFirst settings.now rows.now }
    requires spare { settings.now.bins * settings.now.levels ≤ streams.old.spare }
    ensures begun { (before : List Source) → AreBegun settings.now streams.old.version before streams.old.bins →
        AreBegun settings.now streams.old.version (before ++ map of_bin (placed 1 rows.now)) streams.new.bins }
    ensures settings { streams.new.settings ≡ settings.now }
    ensures version { streams.new.version ≡ streams.old.version }
{
    let _valid = settings.numbers();
    for (lower, row) in rows.iter().enumerate() {
        read_row(streams, lower as u32 + 1, row.bins());
    }
}

// Begins the frames of a level's row.
fn read_row<T: CountTable>(streams: &mut BinStreams<T>, level: u32, row: &[BinAt])
    requires first { 1 ≤ level }
    requires last { level ≤ streams.old.settings.levels }
    requires row { IsRow streams.old.settings level row.now }
    requires spare { length row.now ≤ streams.old.spare }
    ensures begun { (before : List Source) → AreBegun streams.old.settings streams.old.version before streams.old.bins →
        AreBegun streams.old.settings streams.old.version (before ++ map of_bin (map (placed_at level) row.now)) streams.new.bins }
    ensures settings { streams.new.settings ≡ streams.old.settings }
    ensures version { streams.new.version ≡ streams.old.version }
    ensures spare { streams.new.spare + length row.now ≡ streams.old.spare }
{
    for bin in row {
        streams.read(level, u32::from(bin.frame), bin.to - bin.from);
    }
}
