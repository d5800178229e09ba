//! Runs and recoveries, and what comes of them.

ghost use Rattle.std.specs.Prelude.{◌≡◌, [], OnOk};

use crate::cone_files::{Files, bay_of};
use lert_base::Words;
use lert_bay::MemBay;
use lert_io::{CallList, MemSink, MemSource, OutOfMemory};
use lert_top::{MemPlace, Status, run};
use std::alloc::Global;
use std::random::RandomSource;
use std::sync::Wait;
use std::thread::Threads;

/// A run over one trace and empty bays in memory: the calls of the trace and of the sink that fail, with 0
/// for none.
#[derive(Drop)]
pub struct Row<'a> {
    pub words: &'a [&'a str],
    pub cones: u32,
    pub trace: &'a [u8],
    pub failing_read: u64,
    pub failing_write: u64,
}

/// What came of a run or a recovery: its status and its text, whether the trace came back and how many bays did, and what the
/// first of these holds.
#[derive(Drop)]
pub struct Ended {
    pub status: Status,
    pub text: Vec<u8>,
    pub trace: bool,
    pub bays: u32,
    pub files: Files,
}

impl Ended {
    /// Whether this is the status. The long test of two statuses stands here, and in no test's own body.
    pub fn ended_with(&self, status: Status) -> bool {
        self.status == status
    }

    /// Whether this is the text.
    pub fn wrote(&self, text: &str) -> bool {
        self.text.as_slice() == text.as_bytes()
    }
}

fn words(alloc: Global, texts: &[&str]) -> Result<Words, OutOfMemory> {
    let mut words = Words::new(alloc)?;
    push_words(&mut words, texts)?;
    Ok(words)
}

fn push_words(words: &mut Words, texts: &[&str]) -> Result<(), OutOfMemory> {
    for text in texts {
        words.push(text)?;
    }
    Ok(())
}

// The list of this call, or of none where it is 0.
fn calls(alloc: Global, call: u64) -> Result<CallList, OutOfMemory> {
    let mut calls = CallList::new(alloc)?;
    if call > 0 {
        calls.push(call)?;
    }
    Ok(calls)
}

// Gives a place that was asked for nothing yet a trace under a name, of which this read fails.
fn add_trace(
    alloc: Global,
    place: &mut MemPlace,
    name: &str,
    trace: &[u8],
    failing_read: u64,
) -> Result<(), OutOfMemory>
    requires { place.old.ledger.asked ≡ [] }
    ensures { OnOk result (place.new.ledger.asked ≡ []) }
{
    let source = MemSource::new(alloc, trace, &calls(alloc, failing_read)?)?;
    place.add_trace(name, source)?;
    Ok(())
}

// Gives a place that was asked for nothing yet the empty bays of so many cones in the directory `d`.
fn add_bays(alloc: Global, place: &mut MemPlace, cones: u32) -> Result<(), OutOfMemory>
    requires { place.old.ledger.asked ≡ [] }
    ensures { OnOk result (place.new.ledger.asked ≡ []) }
{
    for cone in 0..cones {
        place.add_bay("d", cone, MemBay::new(alloc)?)?;
    }
    Ok(())
}

// How many bays came back.
fn bays_back(place: &MemPlace) -> u32 {
    for cone in 0..256 {
        if place.bay(cone).is_none() {
            return cone;
        }
    }
    256
}

// What the first bay that came back holds.
fn files_back(alloc: Global, place: &MemPlace) -> Result<Files, OutOfMemory> {
    match place.bay(0) {
        Some(bay) => Files::of_bay(alloc, bay),
        None => Ok(Files::new(alloc)),
    }
}

/// Runs these words over a place that was asked for nothing yet, with this write of the text failing, or none where it is 0.
pub fn run_at<R: Threads + Wait + Sync + RandomSource>(
    rt: &R,
    alloc: Global,
    texts: &[&str],
    place: &mut MemPlace,
    failing_write: u64,
) -> Result<Ended, OutOfMemory>
    requires { place.old.ledger.asked ≡ [] }
{
    let words = words(alloc, texts)?;
    run_into_new(rt, alloc, &words, place, failing_write)
}

fn run_into_new<R: Threads + Wait + Sync + RandomSource>(
    rt: &R,
    alloc: Global,
    words: &Words,
    place: &mut MemPlace,
    failing_write: u64,
) -> Result<Ended, OutOfMemory>
    requires { place.old.ledger.asked ≡ [] }
{
    let mut out = sink(alloc, failing_write)?;
    let status = run_words(rt, alloc, words, place, &mut out);
    what_came(alloc, place, status, out.bytes())
}

// A sink of which this write fails, or none where it is 0.
pub(crate) fn sink(alloc: Global, failing_write: u64) -> Result<MemSink, OutOfMemory> {
    let fails = calls(alloc, failing_write)?;
    MemSink::new(alloc, 16_384, &fails)
}

fn what_came(
    alloc: Global,
    place: &MemPlace,
    status: Status,
    text: &[u8],
) -> Result<Ended, OutOfMemory> {
    Ok(Ended {
        status,
        text: Vec::from_slice(alloc, text)?,
        trace: place.trace(0).is_some(),
        bays: bays_back(place),
        files: files_back(alloc, place)?,
    })
}

// The call alone, so that what it says stands in no goal of its callers.
fn run_words<R: Threads + Wait + Sync + RandomSource>(
    rt: &R,
    alloc: Global,
    words: &Words,
    place: &mut MemPlace,
    out: &mut MemSink,
) -> Status
    requires { place.old.ledger.asked ≡ [] }
{
    run(rt, alloc, words, place, out)
}

/// Runs a row over a place that has its trace and its bays.
pub fn run_row<R: Threads + Wait + Sync + RandomSource>(
    rt: &R,
    alloc: Global,
    row: &Row,
) -> Result<Ended, OutOfMemory> {
    let mut place = MemPlace::new(alloc)?;
    run_row_at(rt, alloc, row, &mut place)
}

fn run_row_at<R: Threads + Wait + Sync + RandomSource>(
    rt: &R,
    alloc: Global,
    row: &Row,
    place: &mut MemPlace,
) -> Result<Ended, OutOfMemory>
    requires { place.old.ledger.asked ≡ [] }
{
    add_trace(alloc, place, "a", row.trace, row.failing_read)?;
    add_bays(alloc, place, row.cones)?;
    run_at(rt, alloc, row.words, place, row.failing_write)
}

/// Runs these words over a trace, the empty bays of so many cones, and behind them this bay of the next cone.
pub fn run_on<R: Threads + Wait + Sync + RandomSource>(
    rt: &R,
    alloc: Global,
    texts: &[&str],
    trace: &[u8],
    empty: u32,
    bay: MemBay,
) -> Result<Ended, OutOfMemory> {
    let mut place = MemPlace::new(alloc)?;
    run_on_at(rt, alloc, texts, trace, empty, bay, &mut place)
}

fn run_on_at<R: Threads + Wait + Sync + RandomSource>(
    rt: &R,
    alloc: Global,
    texts: &[&str],
    trace: &[u8],
    empty: u32,
    bay: MemBay,
    place: &mut MemPlace,
) -> Result<Ended, OutOfMemory>
    requires { place.old.ledger.asked ≡ [] }
{
    // The bay goes first, so that no later exit has to let it go.
    place.add_bay("d", empty, bay)?;
    add_trace(alloc, place, "a", trace, 0)?;
    add_bays(alloc, place, empty)?;
    run_at(rt, alloc, texts, place, 0)
}

/// Runs these words, of a run or a recovery, over a trace, a bay of cone 0 that has these files, and an empty one of cone 1, of which
/// this call fails.
pub fn run_before_failing<R: Threads + Wait + Sync + RandomSource>(
    rt: &R,
    alloc: Global,
    texts: &[&str],
    trace: &[u8],
    files: &Files,
    failing_call: u64,
) -> Result<Ended, OutOfMemory> {
    let mut place = MemPlace::new(alloc)?;
    run_before_failing_at(rt, alloc, texts, trace, files, failing_call, &mut place)
}

fn run_before_failing_at<R: Threads + Wait + Sync + RandomSource>(
    rt: &R,
    alloc: Global,
    texts: &[&str],
    trace: &[u8],
    files: &Files,
    failing_call: u64,
    place: &mut MemPlace,
) -> Result<Ended, OutOfMemory>
    requires { place.old.ledger.asked ≡ [] }
{
    place.add_bay("d", 0, bay_of(alloc, files)?)?;
    add_failing_bay(alloc, place, failing_call)?;
    add_trace(alloc, place, "a", trace, 0)?;
    run_at(rt, alloc, texts, place, 0)
}

// Gives a place that was asked for nothing yet the empty bay of cone 1 in the directory `d`, of which this call fails.
fn add_failing_bay(alloc: Global, place: &mut MemPlace, call: u64) -> Result<(), OutOfMemory>
    requires { place.old.ledger.asked ≡ [] }
    ensures { OnOk result (place.new.ledger.asked ≡ []) }
{
    let mut bay = MemBay::new(alloc)?;
    bay.fail_at(call);
    place.add_bay("d", 1, bay)
}

/// Runs these words, of a recovery, over a place with a bay of cone 0 that has these files.
pub fn recover_files<R: Threads + Wait + Sync + RandomSource>(
    rt: &R,
    alloc: Global,
    texts: &[&str],
    files: &Files,
) -> Result<Ended, OutOfMemory> {
    let mut place = MemPlace::new(alloc)?;
    recover_at(rt, alloc, texts, files, &mut place)
}

fn recover_at<R: Threads + Wait + Sync + RandomSource>(
    rt: &R,
    alloc: Global,
    texts: &[&str],
    files: &Files,
    place: &mut MemPlace,
) -> Result<Ended, OutOfMemory>
    requires { place.old.ledger.asked ≡ [] }
{
    place.add_bay("d", 0, bay_of(alloc, files)?)?;
    run_at(rt, alloc, texts, place, 0)
}

/// Two traces, under the names `a` and `b`, and the read of the first one that fails, 0 for none.
#[derive(Drop)]
pub struct Two<'a> {
    pub first: &'a [u8],
    pub second: &'a [u8],
    pub failing_read: u64,
}

/// Runs these words over two traces and an empty bay.
pub fn run_two<R: Threads + Wait + Sync + RandomSource>(
    rt: &R,
    alloc: Global,
    texts: &[&str],
    two: &Two,
) -> Result<Ended, OutOfMemory> {
    let mut place = MemPlace::new(alloc)?;
    run_two_at(rt, alloc, texts, two, &mut place)
}

fn run_two_at<R: Threads + Wait + Sync + RandomSource>(
    rt: &R,
    alloc: Global,
    texts: &[&str],
    two: &Two,
    place: &mut MemPlace,
) -> Result<Ended, OutOfMemory>
    requires { place.old.ledger.asked ≡ [] }
{
    add_trace(alloc, place, "a", two.first, two.failing_read)?;
    add_trace(alloc, place, "b", two.second, 0)?;
    add_bays(alloc, place, 1)?;
    run_at(rt, alloc, texts, place, 0)
}
