//! Runs over two sources whose first reads wait for each other.

ghost use Rattle.std.specs.Prelude.{◌≡◌, ◌≤◌, [], IfOk};

use crate::runs::sink;
use lert_base::Words;
use lert_bay::MemBay;
use lert_io::{MemSink, OutOfMemory, PairedSource};
use lert_place::PairPlace;
use lert_top::{Status, run};
use std::alloc::Global;
use std::random::RandomSource;
use std::sync::Wait;
use std::thread::Threads;

// A place that was asked for nothing, of two sources of these bytes and an empty bay.
fn pair_place(alloc: Global, bytes: &[u8], cut: usize, turns: u64) -> Result<PairPlace, OutOfMemory>
    requires { 1 ≤ cut }
    ensures { IfOk result (λ place. place.handed.asked ≡ []) }
{
    let bay = MemBay::new(alloc)?;
    let (first, second) = PairedSource::pair(alloc, bytes, bytes, cut, turns)?;
    Ok(PairPlace::new(first, second, bay))
}

/// Runs the line of these words over two sources of the same bytes and an empty bay, whatever the names are. The first read of
/// each waits for the other one's, for at most so many turns, and fails where it doesn't come; it gives at most `cut` bytes. It
/// answers the status and the text.
pub fn run_pair<R: Threads + Wait + Sync + RandomSource>(
    rt: &R,
    alloc: Global,
    words: &Words,
    bytes: &[u8],
    cut: usize,
    turns: u64,
) -> Result<(Status, Vec<u8>), OutOfMemory>
    requires { 1 ≤ cut }
{
    let mut place = pair_place(alloc, bytes, cut, turns)?;
    run_pair_at(rt, alloc, words, &mut place)
}

fn run_pair_at<R: Threads + Wait + Sync + RandomSource>(
    rt: &R,
    alloc: Global,
    words: &Words,
    place: &mut PairPlace,
) -> Result<(Status, Vec<u8>), OutOfMemory>
    requires { place.old.handed.asked ≡ [] }
{
    let mut out = sink(alloc, 0)?;
    let status = run_on_pair(rt, alloc, words, place, &mut out);
    Ok((status, Vec::from_slice(alloc, out.bytes())?))
}

// The call alone, so that what it says stands in no goal of its caller.
fn run_on_pair<R: Threads + Wait + Sync + RandomSource>(
    rt: &R,
    alloc: Global,
    words: &Words,
    place: &mut PairPlace,
    out: &mut MemSink,
) -> Status
    requires { place.old.handed.asked ≡ [] }
{
    run(rt, alloc, words, place, out)
}
