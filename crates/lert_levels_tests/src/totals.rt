//! What the flushes and a scan count.

ghost use Rattle.std.specs.Prelude.{◌≡◌, ◌≤◌};
ghost use Rattle.lert_spec.specs.Edges.{span};
ghost use Rattle.lert_levels_tests.specs.Samples.{small as small_numbers, IsReady};

use crate::levels::{directories, flush, flush_into};
use crate::samples::{Place, Taken, begun, begun_with};
use lert_base::{Piece, PieceFault, Pieces, Settings};
use lert_bay::MemBay;
use lert_frames::FrameReader;
use lert_levels::{Levels, Zero};
use lert_plain::PlainTable;
use std::alloc::Global;
use std::process::Abort;

fn piece(tail: u64, count: u64) -> Piece {
    Piece { tail, count }
}

// Whether just these totals were taken.
fn has_kept(totals: &Taken, pieces: &[Piece]) -> bool {
    totals.kept.as_slice() == pieces
}

// Whether a scan behind two flushes counts the events of all levels.
fn is_scanned(
    rt: &impl Abort,
    alloc: Global,
    zero: &mut Zero<PlainTable>,
    levels: &mut Levels<PlainTable>,
    bay: &mut MemBay,
) -> bool
    requires { IsReady 12 zero.old levels.old }
{
    let _behind = directories(rt, alloc, zero, levels, bay, 2);
    let mut totals = Taken::new(alloc);
    let all = [piece(1, 5), piece(2, 5), piece(3, 5), piece(4, 5)];
    let is_scanned = levels.scan(bay, zero, &mut totals).is_ok();
    let has_all = has_kept(&totals, &all);
    drop(totals);
    is_scanned && has_all
}

#[test]
fn a_scan_counts_the_events_of_all_levels(rt: HostRuntime) {
    let mut place = begun(&rt, rt.alloc());
    let Place { zero, levels, bay } = &mut place;
    assert!(rt; is_scanned(&rt, rt.alloc(), zero, levels, bay));
    drop(place);
}

// What a reader gives next.
fn next_of(reader: &mut FrameReader, bay: &mut MemBay) -> Result<Option<Piece>, PieceFault> {
    reader.next(bay)
}

// Whether a reader gives just these pieces.
fn gives(reader: &mut FrameReader, bay: &mut MemBay, pieces: &[Piece]) -> bool {
    for piece in pieces {
        if next_of(reader, bay) != Ok(Some(*piece)) {
            return false;
        }
    }
    next_of(reader, bay) == Ok(None)
}

// Whether the frame of a bin of level 1 holds these pieces.
fn holds(
    rt: &impl Abort,
    alloc: Global,
    settings: &Settings,
    bay: &mut MemBay,
    frame: u32,
    width: u64,
    pieces: &[Piece],
) -> bool
    requires settings { settings.now ≡ small_numbers }
    requires frame { frame ≤ 3 }
    requires some { 1 ≤ width }
    requires width { width ≤ span small_numbers 1 }
{
    let mut reader = FrameReader::new(alloc, settings, 1).expect(rt, "memory");
    reader.start(2, frame, width);
    gives(&mut reader, bay, pieces)
}

// Whether the bins of level 1 are the sums of their parts: the first two bins of level 0 joined in frame 1, and the
// third one alone in frame 0.
fn are_joined(rt: &impl Abort, alloc: Global, settings: &Settings, bay: &mut MemBay) -> bool
    requires { settings.now ≡ small_numbers }
{
    let joined = [piece(1, 3), piece(4, 2), piece(5, 1), piece(9, 2)];
    let alone = [piece(1, 1), piece(5, 3)];
    holds(rt, alloc, settings, bay, 1, 8, &joined) && holds(rt, alloc, settings, bay, 0, 4, &alone)
}

// Whether the totals of a flush are the sums of the bins of level 0, and the bins of level 1 behind the third one those
// of their parts.
fn are_sums(
    rt: &impl Abort,
    alloc: Global,
    zero: &mut Zero<PlainTable>,
    levels: &mut Levels<PlainTable>,
    bay: &mut MemBay,
) -> bool
    requires { IsReady 12 zero.old levels.old }
{
    let mut totals = Taken::new(alloc);
    flush_into(&mut totals, zero, levels, bay, 0).expect(rt, "no fault");
    flush(alloc, zero, levels, bay, 1).expect(rt, "no fault");
    flush(alloc, zero, levels, bay, 2).expect(rt, "no fault");
    let sums = [piece(1, 4), piece(4, 2), piece(5, 4), piece(9, 2)];
    let has_sums = has_kept(&totals, &sums);
    drop(totals);
    has_sums && are_joined(rt, alloc, zero.settings(), bay)
}

#[test]
fn totals_and_parts_are_sums_of_the_bins(rt: HostRuntime) {
    let tails = [1, 1, 5, 9, 1, 4, 4, 9, 5, 5, 5, 1];
    let mut place = begun_with(&rt, rt.alloc(), &tails, 1);
    let Place { zero, levels, bay } = &mut place;
    assert!(rt; are_sums(&rt, rt.alloc(), zero, levels, bay));
    drop(place);
}
