//! Bays over real files, in a folder of the test's own where it runs.

ghost use Rattle.std.specs.Prelude.{◌≡◌, ◌<◌, []};

use crate::openings::{open, opens};
use lert_bay::{Bay, FRAMES, JOURNAL, LOG};
use lert_host::FilePlace;
use lert_io::Source;
use lert_place::Place;
use std::alloc::Global;
use std::fs;
use std::fs::File;
use std::os::unix::fs::symlink;
use std::process::Abort;
use std::rt::Files;

/// Removes what an earlier run may have left.
pub fn clear<R: Files<File = File> + AllocGlobal>(rt: &R, dir: &str) {
    let _ = fs::remove_dir_all(rt, dir);
}

/// Whether a folder was there, and is removed.
pub fn removes<R: Files<File = File> + AllocGlobal>(rt: &R, dir: &str) -> bool {
    fs::remove_dir_all(rt, dir).is_ok()
}

/// Whether a folder is made.
pub fn makes_folder<R: Files<File = File> + AllocGlobal>(rt: &R, dir: &str) -> bool {
    fs::create_dir_all(rt, dir).is_ok()
}

/// Whether a file of these bytes is written.
pub fn writes<R: Files<File = File> + AllocGlobal>(rt: &R, path: &str, bytes: &[u8]) -> bool {
    fs::write(rt, path, bytes).is_ok()
}

fn links_full<R: Files<File = File> + AllocGlobal>(rt: &R, path: &str) -> bool {
    symlink(rt, "/dev/full", path).is_ok()
}

// Whether there is a file of this path that holds these bytes.
fn file_holds<R: Files<File = File> + AllocGlobal>(rt: &R, path: &str, bytes: &[u8]) -> bool {
    match fs::read(rt, path) {
        Ok(found) => found.as_slice() == bytes,
        Err(_) => false,
    }
}

// What a bay of three files told behind some writes, and how long its journal was where it was opened again.
#[derive(Clone, Copy, Debug, PartialEq, Eq)]
struct Told {
    lens: (u64, u64, u64),
    reads: [(usize, [u8; 8]); 3],
    again: u64,
}

fn open_write_open<P: Place>(rt: &impl Abort, place: &mut P) -> Told
where
    P::Bay: Drop,
{
    let (lens, reads) = open_write(rt, place);
    let mut again = open(rt, place, "bay_made/with/parents", 7);
    Told {
        lens,
        reads,
        again: len_of(rt, &mut again, JOURNAL),
    }
}

// The bay is let go as this ends, so that it can be opened again.
fn open_write<P: Place>(rt: &impl Abort, place: &mut P) -> ((u64, u64, u64), [(usize, [u8; 8]); 3])
where
    P::Bay: Drop,
{
    let mut bay = open(rt, place, "bay_made/with/parents", 7);
    write_some(rt, &mut bay);
    (lens_of(rt, &mut bay), read_thrice(rt, &mut bay))
}

fn write_some<B: Bay>(rt: &impl Abort, bay: &mut B) {
    bay.write_at(JOURNAL, 3, b"abc").expect(rt, "no fault");
    bay.write_at(LOG, 0, b"l").expect(rt, "no fault");
    bay.sync(JOURNAL).expect(rt, "no fault");
}

fn len_of<B: Bay>(rt: &impl Abort, bay: &mut B, file: u8) -> u64
    requires { file < 3 }
{
    bay.len(file).expect(rt, "no fault")
}

fn lens_of<B: Bay>(rt: &impl Abort, bay: &mut B) -> (u64, u64, u64) {
    (
        len_of(rt, bay, JOURNAL),
        len_of(rt, bay, LOG),
        len_of(rt, bay, FRAMES),
    )
}

fn read_thrice<B: Bay>(rt: &impl Abort, bay: &mut B) -> [(usize, [u8; 8]); 3] {
    [
        read_from(rt, bay, 0),
        read_from(rt, bay, 1),
        read_from(rt, bay, 6),
    ]
}

// How many bytes of the journal were read from a place on, and these bytes, with zeros behind them.
fn read_from<B: Bay>(rt: &impl Abort, bay: &mut B, at: u64) -> (usize, [u8; 8]) {
    let mut into = [9; 8];
    let count = bay.read_at(JOURNAL, at, &mut into).expect(rt, "no fault");
    into[count..].fill(0);
    (count, into)
}

fn tell_made<R: Files<File = File> + AllocGlobal + Abort>(rt: &R) -> Told {
    clear(rt, "bay_made");
    open_write_open(rt, &mut FilePlace::new(rt))
}

#[test]
fn a_bay_is_three_files_of_its_cone(rt: HostRuntime) {
    let expected = Told {
        lens: (6, 1, 0),
        reads: [(6, *b"\0\0\0abc\0\0"), (5, *b"\0\0abc\0\0\0"), (0, [0; 8])],
        again: 6,
    };
    assert_eq!(rt; tell_made(&rt), expected);
    for (path, want) in [
        (
            "bay_made/with/parents/cone-007.journal",
            b"\0\0\0abc".as_slice(),
        ),
        ("bay_made/with/parents/cone-007.log", b"l"),
        ("bay_made/with/parents/cone-007.frames", b""),
    ] {
        assert!(rt; file_holds(&rt, path, want), "{path}");
    }
    assert!(rt; removes(&rt, "bay_made"));
}

// Whether a place opens one more bay when all that it handed out is put back.
fn put_all_back<P: Place>(rt: &impl Abort, place: &mut P) -> bool
where
    P::Bay: Drop,
    requires traces { P.handed_traces place.old ≡ [] }
    requires bays { P.handed_bays place.old ≡ [] }
{
    let first = place.open_bay("bay_back", 0).expect(rt, "a bay");
    let second = place.open_bay("bay_back", 1).expect(rt, "a bay");
    let trace = place
        .open_trace("bay_back/cone-001.journal")
        .expect(rt, "a trace");
    place.put_back_bay(1, second);
    place.put_back_trace(0, trace);
    place.put_back_bay(0, first);
    opens(place, "bay_back", 2)
}

fn goes_on<R: Files<File = File> + AllocGlobal + Abort>(rt: &R) -> bool {
    clear(rt, "bay_back");
    put_all_back(rt, &mut FilePlace::new(rt))
}

#[test]
fn a_place_goes_on_when_all_is_put_back(rt: HostRuntime) {
    assert!(rt; goes_on(&rt));
    assert!(rt; removes(&rt, "bay_back"));
}

// A file in the place of a directory, and a directory in the place of a log.
fn makes_refused<R: Files<File = File> + AllocGlobal>(rt: &R) -> bool {
    clear(rt, "bay_refused");
    makes_folder(rt, "bay_refused/folder/cone-000.log") && writes(rt, "bay_refused/file", b"kept")
}

// Which of five bays one place opens.
fn open_five<P: Place>(place: &mut P) -> [bool; 5]
where
    P::Bay: Drop,
{
    [
        opens(place, "bay_refused/file", 0),
        opens(place, "bay_refused/file/below", 0),
        opens(place, "bay_refused/folder", 0),
        opens(place, "/proc", 0),
        opens(place, "bay_refused/folder", 1),
    ]
}

fn open_refused<R: Files<File = File> + AllocGlobal>(rt: &R) -> [bool; 5] {
    open_five(&mut FilePlace::new(rt))
}

#[test]
fn a_bay_that_cannot_be_opened_is_refused(rt: HostRuntime) {
    assert!(rt; makes_refused(&rt));
    assert_eq!(rt; open_refused(&rt), [false, false, false, false, true]);
    assert!(rt; file_holds(&rt, "bay_refused/file", b"kept"));
    assert!(rt; removes(&rt, "bay_refused"));
}

// A disk that is full in the place of a journal.
fn makes_full<R: Files<File = File> + AllocGlobal>(rt: &R) -> bool {
    clear(rt, "bay_full");
    makes_folder(rt, "bay_full") && links_full(rt, "bay_full/cone-000.journal")
}

// Whether a write to the journal, a sync of it and a write to the log succeed.
fn write_both<P: Place>(rt: &impl Abort, place: &mut P) -> [bool; 3]
where
    P::Bay: Drop,
{
    let mut bay = open(rt, place, "bay_full", 0);
    [
        bay.write_at(JOURNAL, 0, b"abc").is_ok(),
        bay.sync(JOURNAL).is_ok(),
        bay.write_at(LOG, 0, b"abc").is_ok(),
    ]
}

fn write_full<R: Files<File = File> + AllocGlobal + Abort>(rt: &R) -> [bool; 3] {
    write_both(rt, &mut FilePlace::new(rt))
}

#[test]
fn a_full_disk_fails_the_write(rt: HostRuntime) {
    assert!(rt; makes_full(&rt));
    assert_eq!(rt; write_full(&rt), [false, false, true]);
    assert!(rt; removes(&rt, "bay_full"));
}

// The bytes of a trace of at most 300,000, a few at a time.
fn bytes_of<P: Place>(rt: &impl Abort, alloc: Global, place: &mut P, path: &str) -> Vec<u8>
where
    P::Trace: Drop,
{
    let mut trace = place.open_trace(path).expect(rt, "a trace");
    let mut bytes = Vec::new(alloc);
    read_all(rt, &mut trace, &mut bytes);
    bytes
}

fn read_all<S: Source>(rt: &impl Abort, trace: &mut S, bytes: &mut Vec<u8>) {
    let mut piece = [0; 3_000];
    for _ in 0..100 {
        let count = trace.read(&mut piece).expect(rt, "no fault");
        bytes
            .extend_from_slice(&piece[..count])
            .expect(rt, "memory");
    }
}

// More bytes than a block has, with marks about its end.
fn long_trace(rt: &impl Abort, alloc: Global) -> Vec<u8> {
    let mut bytes = vec![in alloc; 7; 70_000].expect(rt, "memory");
    for (at, byte) in [(0, 1), (65_535, 2), (65_536, 3), (69_999, 4)] {
        mark(&mut bytes, at, byte);
    }
    bytes
}

fn mark(bytes: &mut [u8], at: usize, byte: u8) {
    if let Some(place) = bytes.get_mut(at) {
        *place = byte;
    }
}

// Whether a file of these bytes is made in a folder of its own.
fn makes_trace<R: Files<File = File> + AllocGlobal>(rt: &R, bytes: &[u8]) -> bool {
    clear(rt, "trace_long");
    makes_folder(rt, "trace_long") && writes(rt, "trace_long/trace", bytes)
}

fn read_long<R: Files<File = File> + AllocGlobal + Abort>(rt: &R) -> Vec<u8> {
    bytes_of(rt, rt.alloc(), &mut FilePlace::new(rt), "trace_long/trace")
}

#[test]
fn a_trace_longer_than_a_block_is_read_to_its_end(rt: HostRuntime) {
    let bytes = long_trace(&rt, rt.alloc());
    assert!(rt; makes_trace(&rt, bytes.as_slice()));
    assert!(rt; read_long(&rt).as_slice() == bytes.as_slice());
    assert!(rt; removes(&rt, "trace_long"));
}
