//! Which bins make up the new ones of a flush.

ghost use Rattle.std.specs.Prelude.{◌≡◌, ◌+◌, ◌*◌, ◌-◌, ◌<◌, ◌≤◌, ◌++◌, Some, None, length, replicate, IfSome, vec_capacity};
ghost use Rattle.lert_spec.specs.Edges.{capacity};
ghost use Rattle.lert_levels.specs.Parts.{newest_stream, set_two, streams_to, HaveParts, ArePartsOf};
ghost use Rattle.lert_levels.specs.rows.Rows.{AreFirst};

use crate::rows::{Row, begins};
use lert_base::Settings;

/// Puts down for each stream of the flush at position `m` which new bin its pieces go to, that of level 1 being number 0: the
/// oldest bin of a level to that of the next one, with the newest bin of that level where both are joined. The streams are
/// `young` bins of level 0 and then those of the rows that the flush reaches.
pub fn lay_parts(
    settings: &Settings,
    m: u64,
    young: usize,
    rows: &[Row],
    parts: &mut Vec<Option<usize>>,
)
    requires first { 1 ≤ m }
    requires last { m ≤ capacity settings.now }
    requires some { 1 ≤ young }
    requires few_young { young ≤ settings.now.bins }
    requires rows { AreFirst settings.now rows.now }
    requires parts { HaveParts settings.now m rows.now }
    requires room { (settings.now.levels + 1) * settings.now.bins ≤ vec_capacity parts.old }
    ensures parts { ArePartsOf settings.now m young rows.now
        (streams_to young rows.now (length rows.now)) (length rows.now) parts.new.items }
    ensures room { vec_capacity parts.old ≤ vec_capacity parts.new }
{
    let _valid = settings.numbers();
    parts.clear();
    add_streams(parts, young);
    let mut oldest = 0;
    for (lower, row) in rows.iter().enumerate() {
        let begun = parts.len();
        add_streams(parts, row.bins().len());
        let newest = newest_of(settings, m, lower as u32 + 1, parts.len());
        set_part(parts, lower, oldest, newest);
        oldest = begun;
    }
}

/// Puts down that so many more streams go to no new bin.
pub fn add_streams(parts: &mut Vec<Option<usize>>, count: usize)
    requires { length parts.old.items + count ≤ vec_capacity parts.old }
    ensures parts { parts.new.items ≡ parts.old.items ++ replicate count None }
    ensures room { vec_capacity parts.old ≤ vec_capacity parts.new }
{
    for _ in 0..count {
        let is_put = parts.push(None).is_ok();
        prove!(is_put);
    }
}

// Puts down that a stream goes to this part, and another one where there is one.
fn set_part(parts: &mut Vec<Option<usize>>, part: usize, oldest: usize, newest: Option<usize>)
    requires oldest { oldest < length parts.old.items }
    requires newest { IfSome newest (λ stream. stream < length parts.old.items) }
    ensures parts { parts.new.items ≡ set_two parts.old.items oldest newest part }
    ensures room { vec_capacity parts.old ≤ vec_capacity parts.new }
{
    parts[oldest] = Some(part);
    if let Some(stream) = newest {
        parts[stream] = Some(part);
    }
}

// The stream of the newest bin of a level, the last of so many, where the bin that comes to the level is joined with it.
fn newest_of(settings: &Settings, m: u64, level: u32, streams: usize) -> Option<usize>
    requires first { 1 ≤ m }
    requires last { m ≤ capacity settings.now }
    requires from { 1 ≤ level }
    requires to { level ≤ settings.now.levels }
    requires some { 1 ≤ streams }
    ensures { result ≡ newest_stream settings.now m level streams }
{
    if begins(settings, m, level) {
        None
    } else {
        Some(streams - 1)
    }
}
