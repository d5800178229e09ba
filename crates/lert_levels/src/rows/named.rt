//! The rows of a directory.

ghost use Rattle.std.specs.Prelude.{◌≡◌, ℕ, suc, ◌+◌, ◌*◌, ◌<◌, ◌≤◌, ◌^◌, length, map, slice_index, slice_range};
ghost use Rattle.lert_spec.specs.Edges.{capacity};
ghost use Rattle.lert_levels.specs.rows.Named.{AreNamed, IsDirectory};
ghost use Rattle.lert_levels.specs.rows.Ranges.{range_at, ranges};
ghost use Rattle.lert_levels.specs.rows.Rows.{range_of};

use crate::rows::bin_at::BinAt;
use crate::rows::row::Row;
use lert_base::Settings;

/// Puts the bins of the levels after `n0` events into the rows, in the frames that the directory names, in place of what they
/// had. It takes no memory.
pub fn restore_rows(settings: &Settings, n0: u64, directory: &[u8], rows: &mut [Row])
    requires within { n0 ≤ capacity settings.now }
    requires directory { IsDirectory settings.now n0 directory.now }
    requires levels { length rows.old ≡ settings.now.levels }
    ensures { AreNamed settings.now n0 directory.now rows.new }
{
    let _valid = settings.numbers();
    let mut at = 0;
    for (lower, row) in rows.iter_mut().enumerate() {
        let frames = frames_at(directory, at);
        restore_row(settings, n0, lower as u32 + 1, frames, row);
        at += 1 + frames.len();
    }
}

// The frames of the level whose part of a directory begins at this place.
fn frames_at(directory: &[u8], at: usize) -> &[u8]
    requires place { at < length directory.now }
    requires within { at + 1 + slice_index directory.now at ≤ length directory.now }
    ensures frames { result.now ≡ slice_range directory.now (at + 1) (at + 1 + slice_index directory.now at) }
    ensures end { at + 1 + length result.now < 2 ^ 63 }
{
    let count = directory[at] as usize;
    &directory[at + 1..at + 1 + count]
}

// Puts the bins of a level after `n0` events into its row, in these frames, oldest first.
fn restore_row(settings: &Settings, n0: u64, level: u32, frames: &[u8], row: &mut Row)
    requires within { n0 ≤ capacity settings.now }
    requires from { 1 ≤ level }
    requires to { level ≤ settings.now.levels }
    requires count { length frames.now ≡ length (ranges settings.now n0 level) }
    requires few { length frames.now ≤ settings.now.bins }
    ensures ranges { map range_of row.new ≡ ranges settings.now n0 level }
    ensures frames { map (λ bin. bin.frame) row.new ≡ frames.now }
{
    let _valid = settings.numbers();
    let low = settings.edge(level, n0);
    let high = settings.edge(level - 1, n0);
    let wide = settings.span(level);
    let mut interval = low / wide;
    row.clear();
    for frame in frames {
        row.put(bin_in(interval, wide, low, high, *frame));
        interval += 1;
    }
}

// The bin of the positions of an aligned interval that lie between two edges.
fn bin_in(interval: u64, wide: u64, low: u64, high: u64, frame: u8) -> BinAt
    requires some { 1 ≤ wide }
    requires last { suc interval * wide < 2 ^ 64 }
    ensures range { range_of result ≡ range_at wide low high interval }
    ensures frame { result.frame ≡ frame }
{
    BinAt {
        from: low.max(interval * wide),
        to: high.min((interval + 1) * wide),
        frame,
    }
}
