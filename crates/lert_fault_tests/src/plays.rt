//! Runs of two traces into two cones, and recoveries of these, in which calls on the outside fail, and what comes of them.

ghost use Rattle.std.specs.Prelude.{◌≡◌, []};

use crate::faults::Faults;
use lert_base::Words;
use lert_bay::MemBay;
use lert_io::{CallList, MemSink, MemSource};
use lert_top::{MemPlace, Status, run};
use lert_trials::{Files, bay_of, trace};
use std::alloc::Global;
use std::process::Abort;
use std::random::RandomSource;
use std::sync::Wait;
use std::thread::Threads;

// The keys of both traces. Those of 0 and 2^64 - 1, whose mixed values begin with 00 and 64, are of cone 0 of two, and that of 1,
// whose mixed value begins with b4, is of cone 1.
const FIRST_KEYS: [u64; 13] = [u64::MAX, u64::MAX, 1, 0, 0, 0, 0, 0, 0, 0, 0, 0, 0];

const SECOND_KEYS: [u64; 3] = [1, 1, u64::MAX];

/// What the files of both cones hold.
#[derive(Drop)]
pub struct Cones {
    pub first: Files,
    pub second: Files,
}

impl Cones {
    /// Files without a byte.
    pub fn empty(alloc: Global) -> Cones {
        Cones {
            first: Files::new(alloc),
            second: Files::new(alloc),
        }
    }

    /// Whether the files are those.
    pub fn are(&self, other: &Cones) -> bool {
        self.first.are(&other.first) && self.second.are(&other.second)
    }

    /// Whether the journals are those.
    pub fn have_journals_of(&self, other: &Cones) -> bool {
        self.first.journal == other.first.journal && self.second.journal == other.second.journal
    }
}

/// What came of a run or a recovery: its status and its text, which of both traces and of both bays came back, and what these
/// bays hold.
#[derive(Drop)]
pub struct Ended {
    pub status: Status,
    pub text: Vec<u8>,
    pub back: [bool; 4],
    pub cones: Cones,
}

impl Ended {
    /// Whether these are the status and the text.
    pub fn is(&self, status: Status, text: &[u8]) -> bool {
        self.status == status && self.text.as_slice() == text
    }
}

/// Runs these words over the traces `a` and `b` and bays of cones 0 and 1 in the directory `d` that hold these files.
pub fn play(
    rt: &(impl Abort + Threads + Wait + Sync + RandomSource),
    alloc: Global,
    texts: &[&str],
    cones: &Cones,
    faults: Faults,
) -> Ended {
    let first = trace(alloc, &FIRST_KEYS).expect(rt, "memory");
    let second = trace(alloc, &SECOND_KEYS).expect(rt, "memory");
    play_over(rt, alloc, texts, [&first, &second], cones, faults)
}

/// The same, where the traces `a` and `b` have these bytes.
pub fn play_over(
    rt: &(impl Abort + Threads + Wait + Sync + RandomSource),
    alloc: Global,
    texts: &[&str],
    traces: [&[u8]; 2],
    cones: &Cones,
    faults: Faults,
) -> Ended {
    let mut place = MemPlace::new(alloc).expect(rt, "memory");
    add_all(rt, alloc, &mut place, traces, cones, faults);
    play_at(rt, alloc, texts, faults, &mut place)
}

fn play_at(
    rt: &(impl Abort + Threads + Wait + Sync + RandomSource),
    alloc: Global,
    texts: &[&str],
    faults: Faults,
    place: &mut MemPlace,
) -> Ended
    requires { place.old.ledger.asked ≡ [] }
{
    let words = words(rt, alloc, texts);
    let mut out = sink(rt, alloc, faults);
    let status = run_words(rt, alloc, &words, place, &mut out);
    what_came(rt, alloc, place, status, out.bytes())
}

// The call alone, so that what it says stands in no goal of its caller.
fn run_words<R: Threads + Wait + Sync + RandomSource>(
    rt: &R,
    alloc: Global,
    words: &Words,
    place: &mut MemPlace,
    out: &mut MemSink,
) -> Status
    requires { place.old.ledger.asked ≡ [] }
{
    run(rt, alloc, words, place, out)
}

fn sink(rt: &impl Abort, alloc: Global, faults: Faults) -> MemSink {
    let calls = calls(rt, alloc, faults.write);
    MemSink::new(alloc, faults.room, &calls).expect(rt, "memory")
}

fn what_came(
    rt: &impl Abort,
    alloc: Global,
    place: &MemPlace,
    status: Status,
    text: &[u8],
) -> Ended {
    Ended {
        status,
        text: Vec::from_slice(alloc, text).expect(rt, "memory"),
        back: [
            place.trace(0).is_some(),
            place.trace(1).is_some(),
            place.bay(0).is_some(),
            place.bay(1).is_some(),
        ],
        cones: Cones {
            first: files_back(rt, alloc, place, 0),
            second: files_back(rt, alloc, place, 1),
        },
    }
}

// What the bay of a cone holds that came back.
fn files_back(rt: &impl Abort, alloc: Global, place: &MemPlace, cone: u32) -> Files {
    match place.bay(cone) {
        Some(bay) => Files::of_bay(alloc, bay).expect(rt, "memory"),
        None => Files::new(alloc),
    }
}

fn words(rt: &impl Abort, alloc: Global, texts: &[&str]) -> Words {
    let mut words = Words::new(alloc).expect(rt, "memory");
    for text in texts {
        words.push(text).expect(rt, "memory");
    }
    words
}

// The list of this call. No call has the number 0.
fn calls(rt: &impl Abort, alloc: Global, call: u64) -> CallList {
    let mut calls = CallList::new(alloc).expect(rt, "memory");
    calls.push(call).expect(rt, "memory");
    calls
}

// Gives a place that was asked for nothing yet all that is to be opened, but what the failing opening asks for.
fn add_all(
    rt: &impl Abort,
    alloc: Global,
    place: &mut MemPlace,
    traces: [&[u8]; 2],
    cones: &Cones,
    faults: Faults,
)
    requires { place.old.ledger.asked ≡ [] }
    ensures { place.new.ledger.asked ≡ [] }
{
    let lacking = faults.opening;
    if lacking != 1 {
        add_trace(rt, alloc, place, "a", traces[0], faults.reads.0);
    }
    if lacking != 2 {
        add_trace(rt, alloc, place, "b", traces[1], faults.reads.1);
    }
    if lacking != 3 {
        add_bay(rt, alloc, place, 0, &cones.first, faults.calls.0);
    }
    if lacking != 4 {
        add_bay(rt, alloc, place, 1, &cones.second, faults.calls.1);
    }
}

fn add_trace(
    rt: &impl Abort,
    alloc: Global,
    place: &mut MemPlace,
    name: &str,
    bytes: &[u8],
    failing_read: u64,
)
    requires { place.old.ledger.asked ≡ [] }
    ensures { place.new.ledger.asked ≡ [] }
{
    let source = source(rt, alloc, bytes, failing_read);
    place.add_trace(name, source).expect(rt, "memory");
}

fn source(rt: &impl Abort, alloc: Global, bytes: &[u8], failing_read: u64) -> MemSource {
    let calls = calls(rt, alloc, failing_read);
    MemSource::new(alloc, bytes, &calls).expect(rt, "memory")
}

fn add_bay(
    rt: &impl Abort,
    alloc: Global,
    place: &mut MemPlace,
    cone: u32,
    files: &Files,
    failing_call: u64,
)
    requires { place.old.ledger.asked ≡ [] }
    ensures { place.new.ledger.asked ≡ [] }
{
    let bay = failing_bay(rt, alloc, files, failing_call);
    place.add_bay("d", cone, bay).expect(rt, "memory");
}

fn failing_bay(rt: &impl Abort, alloc: Global, files: &Files, failing_call: u64) -> MemBay {
    let mut bay = bay_of(alloc, files).expect(rt, "memory");
    bay.fail_at(failing_call);
    bay
}
