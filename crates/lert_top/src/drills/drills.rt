//! The drill, from its generated keys to its status.

ghost use Rattle.std.specs.Prelude.{◌≤◌};
ghost use Rattle.lert_top.specs.drills.Drilled.{DrillShows};

use crate::drills::cones::drill_bays;
use crate::drills::made::{make_bays, make_sources};
use lert_base::Settings;
use lert_ingest::Status;
use lert_io::Sink;
use std::alloc::Global;
use std::random::RandomSource;
use std::sync::Wait;
use std::thread::Threads;

/// Generates the keys of at most 4,194,304 events, deals them to four traces in memory, has 1 to 64 workers read these into the
/// cones of bays in memory, closes the cones, and prints a summary.
///
/// It answers `Done`; `OutFault` where a write fails, with a part of the text written; and, with nothing written, `CapacityFull`
/// where a cone has more keys than it takes, or `OutOfMemory`, also where the growth of a bay finds none.
pub fn drill<K: Sink, R: Threads + Wait + Sync + RandomSource>(
    rt: &R,
    alloc: Global,
    settings: &Settings,
    workers: u32,
    seed: u64,
    events: u64,
    out: &mut K,
) -> Status
    requires least { 1 ≤ workers }
    requires most { workers ≤ 64 }
    requires few { events ≤ 4194304 }
    ensures shows { DrillShows K.taken K.faults settings.now seed events out.old out.new result }
{
    let Ok(sources) = make_sources(alloc, seed, events) else {
        return Status::OutOfMemory;
    };
    let Ok(mut bays) = make_bays(alloc, settings.cones()) else {
        return Status::OutOfMemory;
    };
    let (_sources, status) = drill_bays(rt, alloc, settings, workers, sources, &mut bays, out);
    status
}
