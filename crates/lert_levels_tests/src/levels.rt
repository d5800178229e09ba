//! Which frames the flushes write, also behind a refused one, and what is read back of a directory and of its frames.

ghost use Rattle.std.specs.Prelude.{◌≡◌, ◌+◌, ◌*◌, ◌≤◌, [], OnOk, OnErr};
ghost use Rattle.lert_levels_tests.specs.Samples.{small as small_numbers, IsReady};

use crate::samples::{Place, Taken, begun, begun_with, fill};
use lert_bay::{Bay, FRAMES, MemBay};
use lert_levels::{FlushFault, Levels, Zero};
use lert_plain::PlainTable;
use std::alloc::Global;
use std::process::Abort;

// The flush at position 12 + 4 * k. After Ok the oldest bin has left level 0, and four more events came.
pub(crate) fn flush_into(
    totals: &mut Taken,
    zero: &mut Zero<PlainTable>,
    levels: &mut Levels<PlainTable>,
    bay: &mut MemBay,
    k: u64,
) -> Result<(), FlushFault>
    requires ready { IsReady (12 + 4 * k) zero.old levels.old }
    requires few { k ≤ 5 }
    requires none_taken { totals.old.all ≡ [] }
    ensures ok { OnOk result (IsReady (16 + 4 * k) zero.new levels.new) }
    ensures err { OnErr result (IsReady (12 + 4 * k) zero.new levels.new) }
{
    let m = 12 + 4 * k;
    let _tables = zero.tables();
    levels.flush(bay, zero, m, totals)?;
    zero.drop_oldest();
    fill(zero, m, &[1, 2, 3, 4]);
    Ok(())
}

// The same, whatever the totals.
pub(crate) fn flush(
    alloc: Global,
    zero: &mut Zero<PlainTable>,
    levels: &mut Levels<PlainTable>,
    bay: &mut MemBay,
    k: u64,
) -> Result<(), FlushFault>
    requires ready { IsReady (12 + 4 * k) zero.old levels.old }
    requires few { k ≤ 5 }
    ensures ok { OnOk result (IsReady (16 + 4 * k) zero.new levels.new) }
    ensures err { OnErr result (IsReady (12 + 4 * k) zero.new levels.new) }
{
    flush_into(&mut Taken::new(alloc), zero, levels, bay, k)
}

// So many flushes from position 12 on: the directories behind them, one after another.
pub(crate) fn directories(
    rt: &impl Abort,
    alloc: Global,
    zero: &mut Zero<PlainTable>,
    levels: &mut Levels<PlainTable>,
    bay: &mut MemBay,
    flushes: u64,
) -> Vec<u8>
    requires ready { IsReady 12 zero.old levels.old }
    requires few { flushes ≤ 6 }
    ensures { IsReady (12 + 4 * flushes) zero.new levels.new }
{
    let mut seen = Vec::new(alloc);
    for k in 0..flushes {
        flush(alloc, zero, levels, bay, k).expect(rt, "no fault");
        seen.extend_from_slice(levels.directory())
            .expect(rt, "memory");
    }
    seen
}

// The directories behind six flushes.
fn six_directories(rt: &impl Abort, alloc: Global) -> Vec<u8> {
    let mut place = begun(rt, alloc);
    let Place { zero, levels, bay } = &mut place;
    let seen = directories(rt, alloc, zero, levels, bay, 6);
    drop(place);
    seen
}

#[test]
fn each_bin_is_written_into_the_lowest_free_frame(rt: HostRuntime) {
    let seen = six_directories(&rt, rt.alloc());
    assert_eq!(rt;
        seen.as_slice(),
        b"\x01\0\0\x01\x01\0\x02\x01\0\0\x02\x01\x02\0\x03\x01\x02\0\0\x02\x02\x03\x01\0".as_slice()
    );
}

// A flush of which this call fails.
fn refused(
    rt: &impl Abort,
    alloc: Global,
    zero: &mut Zero<PlainTable>,
    levels: &mut Levels<PlainTable>,
    bay: &mut MemBay,
    call: u64,
)
    requires { IsReady 12 zero.old levels.old }
    ensures { IsReady 12 zero.new levels.new }
{
    bay.fail_at(call);
    if flush(alloc, zero, levels, bay, 0).is_ok() {
        panic!(rt; "no call of the flush failed");
    }
}

// The directory behind it, and behind the same flush once more.
fn directories_though(
    rt: &impl Abort,
    alloc: Global,
    zero: &mut Zero<PlainTable>,
    levels: &mut Levels<PlainTable>,
    bay: &mut MemBay,
    call: u64,
) -> Vec<u8>
    requires { IsReady 12 zero.old levels.old }
{
    refused(rt, alloc, zero, levels, bay, call);
    let mut seen = Vec::from_slice(alloc, levels.directory()).expect(rt, "memory");
    let behind = directories(rt, alloc, zero, levels, bay, 1);
    seen.extend_from_slice(&behind).expect(rt, "memory");
    seen
}

// The same of levels of their own.
fn seen_though(rt: &impl Abort, alloc: Global, call: u64) -> Vec<u8> {
    let mut place = begun(rt, alloc);
    let Place { zero, levels, bay } = &mut place;
    let seen = directories_though(rt, alloc, zero, levels, bay, call);
    drop(place);
    seen
}

// The first call of the flush stores the bin, the second syncs the file.
#[test]
fn a_refused_flush_leaves_the_directory(rt: HostRuntime) {
    for call in 1..3 {
        let seen = seen_though(&rt, rt.alloc(), call);
        assert_eq!(rt; seen.as_slice(), b"\0\0\x01\0\0".as_slice());
    }
}

// Puts the bins behind six flushes into the levels, by the directory alone.
fn restore(levels: &mut Levels<PlainTable>)
    requires { levels.old.settings ≡ small_numbers }
    ensures { levels.new.settings ≡ small_numbers }
{
    levels.restore(32, &[2, 2, 3, 1, 0], 2);
}

// Whether two levels have the same bins in one of them.
fn are_same_at(one: &Levels<PlainTable>, other: &Levels<PlainTable>, level: u32) -> bool
    requires one { one.now.settings ≡ small_numbers }
    requires other { other.now.settings ≡ small_numbers }
    requires first { 1 ≤ level }
    requires last { level ≤ 2 }
{
    one.bins(level) == other.bins(level)
}

// Whether they have the same bins, and name the same frames.
fn are_same(one: &Levels<PlainTable>, other: &Levels<PlainTable>) -> bool
    requires one { one.now.settings ≡ small_numbers }
    requires other { other.now.settings ≡ small_numbers }
{
    are_same_at(one, other, 1) && are_same_at(one, other, 2) && one.directory() == other.directory()
}

// Whether levels that are restored from a directory have the bins of those that wrote it.
fn are_restored(
    rt: &impl Abort,
    alloc: Global,
    zero: &mut Zero<PlainTable>,
    levels: &mut Levels<PlainTable>,
    bay: &mut MemBay,
) -> bool
    requires { IsReady 12 zero.old levels.old }
{
    let _behind = directories(rt, alloc, zero, levels, bay, 6);
    let mut again: Levels<PlainTable> = Levels::new(alloc, zero.settings()).expect(rt, "memory");
    restore(&mut again);
    let same = are_same(&again, levels);
    drop(again);
    same
}

#[test]
fn a_directory_brings_the_bins_back(rt: HostRuntime) {
    let mut place = begun(&rt, rt.alloc());
    let Place { zero, levels, bay } = &mut place;
    assert!(rt; are_restored(&rt, rt.alloc(), zero, levels, bay));
    drop(place);
}

// Where a check finds the first frame that leaves its format, once a byte of the file is another one.
fn left_with(
    rt: &impl Abort,
    levels: &mut Levels<PlainTable>,
    bay: &mut MemBay,
    at: u32,
    byte: u8,
) -> Option<u64> {
    bay.write_at(FRAMES, u64::from(at), &[byte])
        .expect(rt, "no fault");
    match levels.check(bay) {
        Ok(_) => None,
        Err(FlushFault::Malformed { at }) => Some(at),
        Err(_) => panic!(rt; "a call of the check failed"),
    }
}

// The same of restored levels after each of these bytes is written at its place. The oldest bin of level 1 stands at
// byte 552, and that of level 2 at byte 1104: each in one block, of which the first quotient has a run of eight slots.
fn places_left(
    rt: &impl Abort,
    alloc: Global,
    zero: &mut Zero<PlainTable>,
    levels: &mut Levels<PlainTable>,
    bay: &mut MemBay,
) -> [Option<u64>; 3]
    requires { IsReady 12 zero.old levels.old }
{
    let _behind = directories(rt, alloc, zero, levels, bay, 6);
    restore(levels);
    [
        left_with(rt, levels, bay, 1104, 1),
        left_with(rt, levels, bay, 1112, 65),
        left_with(rt, levels, bay, 564, 0xc0),
    ]
}

#[test]
fn a_check_stops_at_the_first_broken_byte(rt: HostRuntime) {
    let mut place = begun(&rt, rt.alloc());
    let Place { zero, levels, bay } = &mut place;
    let places = places_left(&rt, rt.alloc(), zero, levels, bay);
    assert!(rt; places == [None, Some(1112), Some(564)]);
    drop(place);
}

// The fault of a check.
fn check_fault(levels: &mut Levels<PlainTable>, bay: &mut MemBay) -> Option<FlushFault>
    ensures { levels.new ≡ levels.old }
{
    levels.check(bay).err()
}

// The fault of a scan.
fn scan_fault(
    alloc: Global,
    zero: &Zero<PlainTable>,
    levels: &mut Levels<PlainTable>,
    bay: &mut MemBay,
) -> Option<FlushFault>
    requires { zero.now.settings ≡ levels.old.settings }
    ensures { levels.new ≡ levels.old }
{
    levels.scan(bay, zero, &mut Taken::new(alloc)).err()
}

// The faults of a check, a scan and a flush behind two flushes: first where their first call fails, then where none
// does.
fn faults_of_calls(
    rt: &impl Abort,
    alloc: Global,
    zero: &mut Zero<PlainTable>,
    levels: &mut Levels<PlainTable>,
    bay: &mut MemBay,
) -> [Option<FlushFault>; 6]
    requires { IsReady 12 zero.old levels.old }
{
    let _behind = directories(rt, alloc, zero, levels, bay, 2);
    bay.fail_at(1);
    let check = check_fault(levels, bay);
    bay.fail_at(1);
    let scan = scan_fault(alloc, zero, levels, bay);
    bay.fail_at(1);
    let Err(fault) = flush(alloc, zero, levels, bay, 2) else {
        panic!(rt; "no call of the flush failed");
    };
    [
        check,
        scan,
        Some(fault),
        check_fault(levels, bay),
        scan_fault(alloc, zero, levels, bay),
        flush(alloc, zero, levels, bay, 2).err(),
    ]
}

// A failed call is no want of memory, and where there is enough of it none is told.
#[test]
fn a_failed_call_is_told_as_one(rt: HostRuntime) {
    let failed = Some(FlushFault::Failed);
    let mut place = begun(&rt, rt.alloc());
    let Place { zero, levels, bay } = &mut place;
    let faults = faults_of_calls(&rt, rt.alloc(), zero, levels, bay);
    assert!(rt; faults == [failed, failed, failed, None, None, None]);
    drop(place);
}

// The sum that a check gives behind the first flush.
fn sum_behind_a_flush(
    rt: &impl Abort,
    alloc: Global,
    zero: &mut Zero<PlainTable>,
    levels: &mut Levels<PlainTable>,
    bay: &mut MemBay,
) -> Option<u64>
    requires { IsReady 12 zero.old levels.old }
{
    flush(alloc, zero, levels, bay, 0).expect(rt, "no fault");
    levels.check(bay).ok()
}

// The four events of the oldest bin are in a frame, each of weight 200, in two pieces of 400.
#[test]
fn a_check_sums_up_what_the_frames_weigh(rt: HostRuntime) {
    let tails = [1, 2, 1, 2, 1, 2, 3, 4, 1, 2, 3, 4];
    let mut place = begun_with(&rt, rt.alloc(), &tails, 200);
    let Place { zero, levels, bay } = &mut place;
    let sum = sum_behind_a_flush(&rt, rt.alloc(), zero, levels, bay);
    assert!(rt; sum == Some(800));
    drop(place);
}
