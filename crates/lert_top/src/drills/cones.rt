//! The cones of a drill: filled by workers, closed and printed.

ghost use Rattle.std.specs.Prelude.{◌≡◌, ℕ, ◌^◌, ◌<◌, ◌≤◌, [], List, length};
ghost use Rattle.std.specs.VecDeque.{deque_capacity};
ghost use Rattle.lert_spec.specs.declared.item.Item.{Item};
ghost use Rattle.lert_top.specs.drills.Dealt.{AreDealt, all_dealt_items};
ghost use Rattle.lert_top.specs.drills.Drilled.{DrillShows, drill_status};
ghost use Rattle.lert_ingest.specs.Bays.{AreTold, AreToldFresh, bays_of};
ghost use Rattle.lert_ingest.specs.Cones.{AreNew};
ghost use Rattle.lert_ingest.specs.Stops.{AreWeaving};

use crate::cones::{bring_back, finish_cones, make_cones};
use crate::drills::print::print_drill;
use lert_base::Settings;
use lert_bay::Bay;
use lert_cone::Cone;
use lert_cqf::Cqf;
use lert_ingest::{Status, ingest};
use lert_io::{Failed, OutOfMemory, Sink, Source};
use lert_text::Page;
use std::alloc::Global;
use std::collections::VecDeque;
use std::random::RandomSource;
use std::sync::Wait;
use std::thread::Threads;

/// Reads four traces into cones over bays that are empty and tell their files, closes the cones, and prints. The bays come
/// back in their list.
pub fn drill_bays<
    S: Source + Send,
    B: Bay + Send,
    K: Sink,
    R: Threads + Wait + Sync + RandomSource,
>(
    rt: &R,
    alloc: Global,
    settings: &Settings,
    workers: u32,
    sources: VecDeque<S>,
    bays: &mut VecDeque<B>,
    out: &mut K,
) -> (VecDeque<S>, Status)
    requires least { 1 ≤ workers }
    requires most { workers ≤ 64 }
    requires dealt { (seed : ℕ) × ((events : ℕ) × AreDealt S.remaining seed events sources.items) }
    requires number { length bays.old.items ≡ 2 ^ settings.now.cone_bits }
    requires room { length bays.old.items ≤ deque_capacity bays.old }
    requires fresh { AreToldFresh B.files bays.old.items }
    ensures shows { (seed events : ℕ) → AreDealt S.remaining seed events sources.items →
        DrillShows K.taken K.faults settings.now seed events out.old out.new result.1 }
{
    let Ok(cones) = make_cones(rt, alloc, settings, workers, bays) else {
        return (sources, Status::OutOfMemory);
    };
    let (cones, sources, status) = drill_cones(rt, alloc, settings, workers, sources, cones, out);
    bring_back(cones, bays);
    (sources, status)
}

// Reads four traces into cones without a packet, closes the cones, and prints.
fn drill_cones<S: Source + Send, B: Bay + Send, K: Sink, R: Threads + Wait + Sync>(
    rt: &R,
    alloc: Global,
    settings: &Settings,
    workers: u32,
    sources: VecDeque<S>,
    cones: Vec<Cone<B, Cqf>>,
    out: &mut K,
) -> (Vec<Cone<B, Cqf>>, VecDeque<S>, Status)
    requires least { 1 ≤ workers }
    requires most { workers ≤ 64 }
    requires dealt { (seed : ℕ) × ((events : ℕ) × AreDealt S.remaining seed events sources.items) }
    requires number { length cones.items ≡ 2 ^ settings.now.cone_bits }
    requires new_cones { AreNew B.files B.leaves B.faults settings.now cones.items }
    requires told { AreTold B.files (bays_of cones.items) }
    ensures number { length result.0.items ≡ length cones.items }
    ensures shows { (seed events : ℕ) → AreDealt S.remaining seed events sources.items →
        DrillShows K.taken K.faults settings.now seed events out.old out.new result.2 }
{
    // The page's memory is taken before the first item is read, so that keys that were read can't want it.
    let Ok(mut page) = Page::new(alloc) else {
        return (cones, sources, Status::OutOfMemory);
    };
    let (sources, mut cones, read) = ingest(rt, alloc, settings, workers, sources, cones);
    if let Err(stopped) = read {
        let status = status_of(stopped);
        return (cones, sources, status);
    }
    let status = finish_and_print(&mut page, settings, &mut cones, out);
    (cones, sources, status)
}

// Finishes cones that took all items, and prints them.
fn finish_and_print<B: Bay, K: Sink>(
    page: &mut Page,
    settings: &Settings,
    cones: &mut Vec<Cone<B, Cqf>>,
    out: &mut K,
) -> Status
    requires empty { page.old ≡ [] }
    requires number { length cones.old.items ≡ 2 ^ settings.now.cone_bits }
    requires told { AreTold B.files (bays_of cones.old.items) }
    requires weaving { (workers : ℕ) × ((traces : List (List Item)) × AreWeaving B.files B.leaves B.faults settings.now workers traces cones.old.items) }
    ensures number { length cones.new.items ≡ length cones.old.items }
    ensures shows { (workers seed events : ℕ) → AreWeaving B.files B.leaves B.faults settings.now workers (all_dealt_items seed events) cones.old.items →
        DrillShows K.taken K.faults settings.now seed events out.old out.new result }
{
    let _valid = settings.numbers();
    if let Err(_stopped) = finish_cones(cones) {
        return Status::OutOfMemory;
    }
    match print_drill(page, out, settings, cones) {
        Ok(()) => Status::Done,
        Err(Failed) => Status::OutFault,
    }
}

// The status of a drill whose reading stopped. Sources and bays in memory fail where memory isn't found, and only a full cone has
// another cause.
fn status_of(stopped: Status) -> Status
    ensures { result ≡ drill_status stopped }
{
    match stopped {
        Status::CapacityFull { cone, n, len } => Status::CapacityFull { cone, n, len },
        Status::Done
        | Status::Usage { rule: _ }
        | Status::PlaceFault
        | Status::TraceFault { trace: _ }
        | Status::BadTrace { trace: _, at: _ }
        | Status::TooLong { trace: _ }
        | Status::NotFresh { cone: _ }
        | Status::BayFault { cone: _ }
        | Status::Malformed {
            cone: _,
            file: _,
            at: _,
        }
        | Status::OtherSettings { cone: _ }
        | Status::OutFault
        | Status::OutOfMemory
        | Status::WeightFull {
            cone: _,
            weight: _,
            more: _,
        } => Status::OutOfMemory,
    }
}
