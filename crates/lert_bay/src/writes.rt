//! Writes into bytes in memory, and how they are taken back.

ghost use Rattle.std.specs.Prelude.{◌≡◌, ℕ, ◌+◌, ◌-◌, ◌<◌, ◌≤◌, ◌^◌, ◌++◌, [], ◌∷◌, length, take, drop, replicate, slice_index, All, map, IfOk, OnOk, OnErr};
ghost use Rattle.lert_bay.specs.Files.{Holds, IsOutside};
ghost use Rattle.lert_bay.specs.Pending.{before_all, kept_by};

use crate::overwrite::Overwrite;
use lert_io::OutOfMemory;
use std::alloc::Global;

/// What a crash leaves of a write that wasn't synced.
#[derive(Clone, Copy)]
enum Fate {
    Lost,
    Whole,
    Front,
    Back,
}

/// Writes `piece` at the place `at`, with zero bytes in a gap before it. A refusal leaves the bytes as
/// they were.
pub fn put(bytes: &mut Vec<u8>, at: usize, piece: &[u8]) -> Result<(), OutOfMemory>
    requires { at + length piece.now < 2 ^ 63 }
    ensures ok { OnOk result (Holds at piece.now bytes.old.items bytes.new.items) }
    ensures err { OnErr result (bytes.new.items ≡ bytes.old.items) }
{
    let end = at + piece.len();
    let length = bytes.len().max(end);
    bytes.resize(length, 0)?;
    lay(bytes, at, piece);
    Ok(())
}

// Writes `piece` over the bytes from the place `at` on.
fn lay(bytes: &mut [u8], at: usize, piece: &[u8])
    requires { at + length piece.now ≤ length bytes.old }
    ensures { bytes.new ≡ take at bytes.old ++ piece.now ++ drop (at + length piece.now) bytes.old }
{
    bytes[at..at + piece.len()].copy_from_slice(piece);
}

/// The `count` bytes from the place `at` on, zero bytes where there are none.
pub fn covered(alloc: Global, bytes: &[u8], at: usize, count: usize) -> Result<Vec<u8>, OutOfMemory>
    ensures { IfOk result (λ old. old.items ≡ take count (drop at bytes.now) ++ replicate (count - length (take count (drop at bytes.now))) 0) }
{
    let from = at.min(bytes.len());
    let front = count.min(bytes.len() - from);
    let mut old = Vec::from_slice(alloc, &bytes[from..from + front])?;
    old.resize(count, 0)?;
    Ok(old)
}

/// The same writes in memory of their own.
pub fn copies(alloc: Global, writes: &[Overwrite]) -> Result<Vec<Overwrite>, OutOfMemory>
    ensures { IfOk result (λ copies. map kept_by copies.items ≡ map kept_by writes.now) }
{
    let mut copies = Vec::with_capacity(alloc, writes.len())?;
    for write in writes {
        let old = Vec::from_slice(alloc, &write.old)?;
        copies.push(Overwrite { at: write.at, old })?;
    }
    Ok(copies)
}

/// Takes the writes back, the last one first, each by its fate. It changes no byte outside of them.
pub fn take_back(bytes: &mut [u8], writes: &[Overwrite], pick: u64)
    ensures length { length bytes.new ≡ length bytes.old }
    ensures elsewhere { (place : ℕ) → All (λ write. IsOutside write.at (length write.old.items) place) writes.now → slice_index bytes.new place ≡ slice_index bytes.old place }
    ensures lost { pick ≡ 0 → (place : ℕ) → place < length bytes.old → slice_index bytes.new place ≡ before_all writes.now place (slice_index bytes.old place) }
    ensures whole { pick ≡ 1 → bytes.new ≡ bytes.old }
{
    for index in (0..writes.len()).rev() {
        restore(bytes, &writes[index], fate_of(pick, index));
    }
}

/// The length that a crash leaves, by `pick`: the least, the greatest, or one between.
pub fn length_left(pick: u64, least: usize, greatest: usize) -> usize
    requires { least ≤ greatest }
    ensures least { least ≤ result }
    ensures greatest { result ≤ greatest }
    ensures lost { pick ≡ 0 → result ≡ least }
    ensures whole { pick ≡ 1 → result ≡ greatest }
{
    match pick % 4 {
        0 => least,
        3 => least + (greatest - least) / 2,
        _ => greatest,
    }
}

// Picks below 4 give all writes one fate.
fn fate_of(pick: u64, index: usize) -> Fate
    ensures lost { pick ≡ 0 → result ≡ Fate.Lost }
    ensures whole { pick ≡ 1 → result ≡ Fate.Whole }
{
    match pick {
        0 => Fate::Lost,
        1 => Fate::Whole,
        _ => mixed_fate(pick, index),
    }
}

// The fate of a write by a pick that gives them several.
fn mixed_fate(pick: u64, index: usize) -> Fate {
    let turns = 2 + 2 * (index % 31) as u32;
    match (pick ^ (pick >> turns)) % 4 {
        0 => Fate::Lost,
        1 => Fate::Whole,
        2 => Fate::Front,
        _ => Fate::Back,
    }
}

// Where the lost part of a write of `count` bytes begins and ends.
fn lost_part(fate: Fate, count: usize) -> (usize, usize)
    ensures ordered { result.0 ≤ result.1 }
    ensures within { result.1 ≤ count }
    ensures lost { fate ≡ Fate.Lost → (result.0 ≡ 0) × (result.1 ≡ count) }
    ensures whole { fate ≡ Fate.Whole → result.0 ≡ result.1 }
{
    match fate {
        Fate::Lost => (0, count),
        Fate::Whole => (count, count),
        Fate::Front => (count / 2, count),
        Fate::Back => (0, count / 2),
    }
}

// Puts back the lost part of a write, as far as the bytes reach.
fn restore(bytes: &mut [u8], write: &Overwrite, fate: Fate)
    ensures length { length bytes.new ≡ length bytes.old }
    ensures elsewhere { (place : ℕ) → IsOutside write.now.at (length write.now.old.items) place → slice_index bytes.new place ≡ slice_index bytes.old place }
    ensures lost { fate ≡ Fate.Lost → (place : ℕ) → place < length bytes.old → slice_index bytes.new place ≡ before_all (write.now ∷ []) place (slice_index bytes.old place) }
    ensures whole { fate ≡ Fate.Whole → bytes.new ≡ bytes.old }
{
    let (from, to) = lost_part(fate, write.old.len());
    let start = write.at + from;
    let end = bytes.len().min(write.at + to);
    if start < end {
        lay(bytes, start, &write.old[from..from + (end - start)]);
    }
}
