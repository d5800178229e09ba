//! The rows of the levels on disk, and what a flush makes of them.

ghost use Rattle.std.specs.Prelude.{◌≡◌, ◌+◌, ◌<◌, ◌≤◌, ◌^◌, ◌==◌, IfOk, [], length, find, replicate};
ghost use Rattle.std.specs.List.{range_with_len};
ghost use Rattle.lert_spec.specs.Edges.{capacity};
ghost use Rattle.lert_levels.specs.rows.Rows.{times_named, lowest_free, newest, begins, arrived, moved_row, moved, AreRows};

use crate::rows::bin_at::BinAt;
use crate::rows::row::Row;
use lert_base::Settings;
use lert_io::OutOfMemory;
use std::alloc::Global;

/// The bin that a flush at position `m` writes into a level: the one that comes in, by itself where it begins an aligned
/// interval of the level's span, and else joined with the newest bin of the row. It stands in the least frame in which no
/// bin of the row stands.
pub fn arrival(settings: &Settings, m: u64, level: u32, row: &[BinAt]) -> BinAt
    requires first { 1 ≤ m }
    requires last { m ≤ capacity settings.now }
    requires from { 1 ≤ level }
    requires to { level ≤ settings.now.levels }
    requires few { length row.now < 2 ^ 8 }
    ensures { result ≡ arrived settings.now m level row.now }
{
    let from = if begins(settings, m, level) {
        settings.edge(level - 1, m - 1)
    } else {
        newest_from(row)
    };
    BinAt {
        from,
        to: settings.edge(level - 1, m),
        frame: lowest_free(row),
    }
}

/// Whether the bin that comes to a level in the flush at position `m` begins an aligned interval of its span.
pub fn begins(settings: &Settings, m: u64, level: u32) -> bool
    requires first { 1 ≤ m }
    requires last { m ≤ capacity settings.now }
    requires from { 1 ≤ level }
    requires to { level ≤ settings.now.levels }
    ensures { result ≡ begins settings.now m level }
{
    settings.edge(level - 1, m - 1) % settings.span(level) == 0
}

// Where the newest bin of a row begins, 0 where there is none.
fn newest_from(row: &[BinAt]) -> u64
    ensures { result ≡ (newest row.now).from }
{
    row.last().map_or(0, |bin| bin.from)
}

// The least number of a frame in which no bin of a row stands.
fn lowest_free(row: &[BinAt]) -> u8
    requires { length row.now < 2 ^ 8 }
    ensures { result ≡ lowest_free row.now }
{
    let bins = row.len() as u8;
    first_free(row, bins).unwrap_or(bins)
}

// The least of so many frames in which no bin of a row stands.
fn first_free(row: &[BinAt], frames: u8) -> Option<u8>
    ensures { result ≡ find (λ frame. times_named row.now frame == 0) (range_with_len 0 frames) }
{
    (0..frames).find(|frame| is_free(row, *frame))
}

// Whether no bin of a row stands in a frame.
fn is_free(row: &[BinAt], frame: u8) -> bool
    ensures { result ≡ (times_named row.now frame == 0) }
{
    row.iter().filter(|bin| bin.frame == frame).count() == 0
}

// Moves a level's row on through the flush at position `m`: the new bin comes in behind the others, or in the place of the
// newest one, and the oldest one goes where the flush is deeper.
fn move_row(settings: &Settings, m: u64, level: u32, row: &mut Row)
    requires first { 1 ≤ m }
    requires last { m ≤ capacity settings.now }
    requires from { 1 ≤ level }
    requires to { level ≤ settings.now.levels }
    requires few { length row.old ≤ 16 }
    ensures { row.new ≡ moved_row settings.now m level row.old }
{
    let depth = settings.depth(m);
    if level > depth {
        return;
    }
    let bin = arrival(settings, m, level, row.bins());
    if !begins(settings, m, level) {
        row.drop_newest();
    }
    row.put(bin);
    if level < depth {
        row.drop_oldest();
    }
}

/// So many rows with no bin. Its only error is want of memory.
pub fn empty_rows(alloc: Global, levels: usize) -> Result<Vec<Row>, OutOfMemory>
    ensures { IfOk result (λ rows. rows.items ≡ replicate levels []) }
{
    let mut rows = Vec::with_capacity(alloc, levels)?;
    for _ in 0..levels {
        rows.push(Row::new(alloc)?)?;
    }
    Ok(rows)
}

/// Moves the rows, from level 1 on, on through the flush at position `m`. It takes no memory.
pub fn move_rows(settings: &Settings, m: u64, rows: &mut [Row])
    requires first { 1 ≤ m }
    requires last { m ≤ capacity settings.now }
    requires rows { AreRows settings.now rows.old }
    ensures { rows.new ≡ moved settings.now m rows.old }
{
    let _valid = settings.numbers();
    for (lower, row) in rows.iter_mut().enumerate() {
        move_row(settings, m, lower as u32 + 1, row);
    }
}
