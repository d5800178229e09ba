//! What a crash leaves by each pick, what a failed call leaves, and each call once through its trait.

ghost use Rattle.std.specs.Prelude.{◌≡◌, ◌+◌, ◌<◌, ◌≤◌, ◌^◌, List, ℕ, length};
ghost use Rattle.lert_bay.specs.Files.{Files, IfTold, Holds};

use crate::same::assert_same;
use lert_bay::{Bay, FRAMES, JOURNAL, LOG, MemBay};
use lert_io::Failed;
use std::alloc::Global;
use std::process::Abort;

// Each pick, and what a crash leaves by it.
type Left<'a> = [(u64, &'a [u8]); 4];

// An empty bay. Neither this nor the helpers behind it tell anything of a bay: who calls them has no facts to carry.
fn empty(rt: &impl Abort, alloc: Global) -> MemBay {
    MemBay::new(alloc).expect(rt, "memory")
}

fn load(rt: &impl Abort, bay: &mut MemBay, file: u8, bytes: &[u8])
    requires { file < 3 }
{
    bay.load(file, bytes).expect(rt, "memory");
}

fn write(rt: &impl Abort, bay: &mut MemBay, file: u8, at: u64, bytes: &[u8])
    requires file { file < 3 }
    requires reach { at + length bytes.now < 2 ^ 63 }
{
    bay.write_at(file, at, bytes).expect(rt, "no fault");
}

fn sync(rt: &impl Abort, bay: &mut MemBay, file: u8)
    requires { file < 3 }
{
    bay.sync(file).expect(rt, "no fault");
}

fn crashed(rt: &impl Abort, bay: MemBay, pick: u64) -> MemBay {
    bay.crashed(pick).expect(rt, "memory")
}

fn assert_journal(rt: &impl Abort, bay: &MemBay, want: &[u8]) {
    assert_same(rt, &bay.bytes(JOURNAL), &want, "a journal");
}

// Wants these bytes of a journal behind a crash by a pick.
fn assert_journal_by(rt: &impl Abort, bay: &MemBay, pick: u64, want: &[u8]) {
    let found = (pick, bay.bytes(JOURNAL));
    assert_same(rt, &found, &(pick, want), "a journal by a pick");
}

// A bay whose journal holds "aaaa" durably, and then these bytes at a place.
fn written(rt: &impl Abort, alloc: Global, at: u64, bytes: &[u8]) -> MemBay
    requires { at + length bytes.now < 2 ^ 63 }
{
    let mut bay = empty(rt, alloc);
    load(rt, &mut bay, JOURNAL, b"aaaa");
    write(rt, &mut bay, JOURNAL, at, bytes);
    bay
}

fn copied(rt: &impl Abort, alloc: Global, bay: &MemBay) -> MemBay {
    bay.copied(alloc).expect(rt, "memory")
}

// Wants these bytes of a journal behind a crash of a bay, and behind one of its copy.
fn assert_both_left(rt: &impl Abort, alloc: Global, bay: MemBay, pick: u64, want: &[u8]) {
    let copy = crashed(rt, copied(rt, alloc, &bay), pick);
    let bay = crashed(rt, bay, pick);
    assert_journal_by(rt, &bay, pick, want);
    assert_journal_by(rt, &copy, pick, want);
}

#[test]
fn a_crash_leaves_old_bytes_new_bytes_or_a_mix_of_a_copy_too(rt: HostRuntime) {
    let left: Left = [
        (0, b"aaaa"),
        (1, b"aabbbbbb"),
        (2, b"aabbb\0\0\0"),
        (3, b"aaaa\0b"),
    ];
    for (pick, want) in left {
        let bay = written(&rt, rt.alloc(), 2, b"bbbbbb");
        assert_both_left(&rt, rt.alloc(), bay, pick, want);
    }
}

// Wants these bytes of a journal behind a crash.
fn assert_left(rt: &impl Abort, bay: MemBay, pick: u64, want: &[u8]) {
    let bay = crashed(rt, bay, pick);
    assert_journal_by(rt, &bay, pick, want);
}

// A bay whose journal was synced behind a write of its own, and one of the log.
fn synced(rt: &impl Abort, alloc: Global) -> MemBay {
    let mut bay = written(rt, alloc, 2, b"bb");
    write(rt, &mut bay, LOG, 0, b"cc");
    sync(rt, &mut bay, JOURNAL);
    bay
}

#[test]
fn after_a_sync_a_crash_leaves_what_a_read_gives(rt: HostRuntime) {
    for pick in 0..4 {
        assert_left(&rt, synced(&rt, rt.alloc()), pick, b"aabb");
    }
}

// A bay of three files, of which one is synced.
fn one_synced(rt: &impl Abort, alloc: Global) -> MemBay {
    let mut bay = empty(rt, alloc);
    write(rt, &mut bay, JOURNAL, 0, b"new");
    write(rt, &mut bay, LOG, 0, b"new");
    write(rt, &mut bay, FRAMES, 0, b"new");
    sync(rt, &mut bay, LOG);
    bay
}

fn assert_log_alone(rt: &impl Abort, bay: &MemBay) {
    assert_journal(rt, bay, b"");
    assert_same(rt, &bay.bytes(LOG), &b"new".as_slice(), "a log");
    assert_same(rt, &bay.bytes(FRAMES), &b"".as_slice(), "frames");
}

#[test]
fn a_sync_makes_one_file_durable(rt: HostRuntime) {
    let bay = crashed(&rt, one_synced(&rt, rt.alloc()), 0);
    assert_log_alone(&rt, &bay);
}

// A bay with two writes over one another behind the last sync.
fn written_over(rt: &impl Abort, alloc: Global) -> MemBay {
    let mut bay = written(rt, alloc, 1, b"bb");
    write(rt, &mut bay, JOURNAL, 2, b"cc");
    bay
}

#[test]
fn writes_over_one_another_are_taken_back_to_the_last_sync(rt: HostRuntime) {
    let left: Left = [(0, b"aaaa"), (1, b"abcc"), (2, b"abaa"), (3, b"aabc")];
    for (pick, want) in left {
        assert_left(&rt, written_over(&rt, rt.alloc()), pick, want);
    }
}

// A bay with two writes beside one another behind the last sync.
fn written_beside(rt: &impl Abort, alloc: Global) -> MemBay {
    let mut bay = written(rt, alloc, 0, b"bb");
    write(rt, &mut bay, JOURNAL, 2, b"cc");
    bay
}

#[test]
fn a_pick_above_3_gives_each_write_a_fate_of_its_own(rt: HostRuntime) {
    // The last two bits of a pick are laid over the two before them for the first write, and over the two before those for the second
    // one. Where they differ there are ones: 00 takes a write back, 01 keeps it, 10 its first half, 11 its second one.
    let left: [(u64, &[u8]); 8] = [
        (0b00_01_00, b"bbaa"),
        (0b01_00_00, b"aacc"),
        (0b00_01_01, b"aacc"),
        (0b01_00_01, b"bbaa"),
        (0b00_10_00, b"baaa"),
        (0b11_00_00, b"aaac"),
        (0b01_10_00, b"bacc"),
        (0b10_11_01, b"baac"),
    ];
    for (pick, want) in left {
        assert_left(&rt, written_beside(&rt, rt.alloc()), pick, want);
    }
}

fn assert_torn(rt: &impl Abort, bay: &mut MemBay) {
    bay.fail_at(2);
    sync(rt, bay, JOURNAL);
    assert!(rt; bay.write_at(JOURNAL, 2, b"bbbb").is_err());
}

#[test]
fn a_failed_write_is_torn(rt: HostRuntime) {
    let mut bay = empty(&rt, rt.alloc());
    load(&rt, &mut bay, JOURNAL, b"aaaa");
    assert_torn(&rt, &mut bay);
    assert_journal(&rt, &bay, b"aabb");
    write(&rt, &mut bay, JOURNAL, 0, b"c");
    assert_journal(&rt, &bay, b"cabb");
}

fn syncs(bay: &mut MemBay) -> bool {
    bay.sync(JOURNAL).is_ok()
}

// Which of five syncs succeed, of a bay that stops at the third.
fn five_syncs(bay: &mut MemBay) -> [bool; 5] {
    bay.stop_at(3);
    [syncs(bay), syncs(bay), syncs(bay), syncs(bay), syncs(bay)]
}

#[test]
fn a_stopped_bay_fails_from_that_call_on(rt: HostRuntime) {
    let mut bay = empty(&rt, rt.alloc());
    let want = [true, true, false, false, false];
    assert_same(&rt, &five_syncs(&mut bay), &want, "five syncs");
}

#[test]
fn a_crash_ends_the_failing(rt: HostRuntime) {
    let mut bay = MemBay::new(rt.alloc()).expect(&rt, "memory").marked(7);
    bay.stop_at(0);
    assert!(rt; bay.len(LOG).is_err());
    let mut bay = crashed(&rt, bay, 0);
    let len = bay.len(LOG).expect(&rt, "no fault");
    assert_same(&rt, &len, &0, "the length of a log");
}

// Of every bay: after a write a crash may leave any other bytes in its range.
fn tears<B: Bay>(bay: &mut B, file: u8, at: u64, bytes: &[u8]) -> Result<(), Failed>
    requires file { file < 3 }
    requires reach { at + length bytes.now < 2 ^ 63 }
    ensures { IfTold (B.files bay.old) (λ seen. (others : List ℕ) → length others ≡ length bytes.now →
        (image : Files) × B.leaves bay.new image × Holds at others (seen file) (image file)) }
{
    bay.write_at(file, at, bytes)
}

#[test]
fn a_write_may_tear(rt: HostRuntime) {
    let mut bay = MemBay::new(rt.alloc()).expect(&rt, "memory");
    tears(&mut bay, LOG, 0, b"ab").expect(&rt, "no fault");
    assert_same(&rt, &bay.bytes(LOG), &b"ab".as_slice(), "a log");
}

// Writes behind a gap, and syncs that.
fn write_behind_a_gap<B: Bay>(bay: &mut B) -> Result<(), Failed> {
    bay.write_at(FRAMES, 3, b"frame")?;
    bay.sync(FRAMES)
}

// How many bytes of so many a bay reads from a place on, and a buffer of nines with them in front.
fn read_from<B: Bay>(rt: &impl Abort, bay: &mut B, at: u64, asked: usize) -> (usize, [u8; 6])
    requires { asked ≤ 6 }
{
    let mut into = [9; 6];
    let count = bay.read_at(FRAMES, at, &mut into[..asked]);
    (count.expect(rt, "no fault"), into)
}

// The length of a bay's frames, what two reads of them give, and how many bytes one behind their end does.
fn told<B: Bay>(rt: &impl Abort, bay: &mut B) -> (u64, [(usize, [u8; 6]); 2], usize) {
    let len = bay.len(FRAMES).expect(rt, "no fault");
    let reads = [read_from(rt, bay, 0, 4), read_from(rt, bay, 4, 6)];
    let (behind, _) = read_from(rt, bay, 9, 6);
    (len, reads, behind)
}

#[test]
fn a_gap_reads_as_zero_bytes(rt: HostRuntime) {
    let mut bay = empty(&rt, rt.alloc());
    write_behind_a_gap(&mut bay).expect(&rt, "no fault");
    let reads = [(4, *b"\0\0\0f\x09\x09"), (4, *b"rame\x09\x09")];
    assert_same(
        &rt,
        &told(&rt, &mut bay),
        &(8, reads, 0),
        "all that is told",
    );
}

// How many bytes of each file reads have handed out.
fn handed(bay: &MemBay) -> [u64; 3] {
    [
        bay.bytes_read(JOURNAL),
        bay.bytes_read(LOG),
        bay.bytes_read(FRAMES),
    ]
}

// What a read answers, and how many bytes of each file reads have handed out behind it.
type Counted = (Option<usize>, [u64; 3]);

fn read(bay: &mut MemBay, file: u8, at: u64, asked: usize) -> Counted
    requires file { file < 3 }
    requires asked { asked ≤ 4 }
{
    let mut into = [0; 4];
    let answer = bay.read_at(file, at, &mut into[..asked]).ok();
    (answer, handed(bay))
}

// Reads in turn, of a journal of ten bytes and a log of three. The sixth fails.
fn reads(rt: &impl Abort, alloc: Global) -> [Counted; 8] {
    let mut bay = empty(rt, alloc);
    load(rt, &mut bay, JOURNAL, b"0123456789");
    load(rt, &mut bay, LOG, b"abc");
    bay.fail_at(6);
    [
        read(&mut bay, JOURNAL, 0, 4),
        read(&mut bay, JOURNAL, 2, 3),
        read(&mut bay, JOURNAL, 8, 4),
        read(&mut bay, JOURNAL, 10, 4),
        read(&mut bay, JOURNAL, 3, 0),
        read(&mut bay, JOURNAL, 0, 4),
        read(&mut bay, LOG, 1, 4),
        read(&mut bay, FRAMES, 0, 4),
    ]
}

#[test]
fn a_read_counts_the_bytes_that_it_hands_out(rt: HostRuntime) {
    let want: [Counted; 8] = [
        (Some(4), [4, 0, 0]),
        (Some(3), [7, 0, 0]),
        (Some(2), [9, 0, 0]),
        (Some(0), [9, 0, 0]),
        (Some(0), [9, 0, 0]),
        (None, [9, 0, 0]),
        (Some(2), [9, 2, 0]),
        (Some(0), [9, 2, 0]),
    ];
    assert_same(&rt, &reads(&rt, rt.alloc()), &want, "reads in turn");
}
