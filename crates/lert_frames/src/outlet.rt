//! What is written into the file of frames, as whole buffers.

ghost use Rattle.std.specs.Prelude.{◌≡◌, ℕ, ◌+◌, ◌*◌, ◌<◌, ◌≤◌, ◌^◌, ◌++◌, List, length, take, OnOk, IsErr};
ghost use Rattle.lert_bay.specs.Files.{IfTold, Turns, Changes, Holds};
ghost use Rattle.lert_bay.specs.Kept.{KeepsBay, OnlyReads};
ghost use Rattle.lert_bay.specs.Settled.{part};
ghost use Rattle.lert_bay.specs.declared.bay.TheConstants.{FRAMES};
ghost use Rattle.lert_blocks.specs.Filling.{IsFilled};
ghost use Rattle.lert_blocks.specs.Text.{block_text, numbers_text};
ghost use Rattle.lert_spec.specs.declared.piece.Piece.{Piece};
ghost use Rattle.lert_frames.specs.Calls.{Writes};
ghost use Rattle.lert_frames.specs.Kept.{WritesWithin};
ghost use Rattle.lert_frames.specs.Laid.{laid_len};

use lert_bay::fields::put;
use lert_bay::{Bay, FRAMES};
use lert_blocks::{Block, lay_numbers};
use lert_io::{Failed, OutOfMemory};
use std::alloc::Global;

/// Bytes on their way into the file of frames, one behind the other from a place on, written by whole
/// buffers.
#[derive(Drop)]
pub struct Outlet {
    bytes: Vec<u8>,
    // The first `len` bytes aren't written yet, and `at` is the place of the first of them.
    len: usize,
    at: u64,
    ghost within: { len ≤ bytes.len },
    ghost reach: { at + len < 2 ^ 63 },
}

impl Outlet {
    ghost use Rattle.std.specs.Prelude.{[], IfOk, OnErr};
    ghost use Rattle.lert_frames.specs.Outlet.{IsOut, unwritten, next_place, room_left, size_of};

    /// An outlet with a buffer of `len` bytes, at the file's begin. Its only error is want of memory.
    pub fn new(alloc: Global, len: usize) -> Result<Outlet, OutOfMemory>
        ensures { IfOk result (λ o. (size_of o ≡ len) × (room_left o ≡ len)) }
    {
        let bytes = vec![in alloc; 0; len]?;
        Ok(Outlet {
            bytes,
            len: 0,
            at: 0,
        })
    }

    /// Moves it to a place of the file, and forgets the bytes that aren't written.
    pub fn start(&mut self, at: u64)
        requires { at < 2 ^ 63 }
        ensures out { (file : List ℕ) → IsOut at [] file self.new }
        ensures place { next_place self.new ≡ at }
        ensures room { room_left self.new ≡ size_of self.old }
        ensures size { size_of self.new ≡ size_of self.old }
        ensures at { self.new.at ≡ at }
    {
        self.len = 0;
        self.at = at;
    }

    /// For how many bytes more there is room.
    pub fn room(&self) -> usize
        ensures { result ≡ room_left self.now }
    {
        self.bytes.len() - self.len
    }

    /// Where the next byte goes.
    pub fn place(&self) -> u64
        ensures { result ≡ next_place self.now }
    {
        self.at + self.len as u64
    }

    /// Puts bytes behind those so far.
    pub fn put(&mut self, bytes: &[u8])
        requires room { length bytes.now ≤ room_left self.old }
        requires reach { next_place self.old + length bytes.now < 2 ^ 63 }
        ensures out { (begin : ℕ) (text file : List ℕ) → IsOut begin text file self.old → IsOut begin (text ++ bytes.now) file self.new }
        ensures unwritten { unwritten self.new ≡ unwritten self.old ++ bytes.now }
        ensures place { next_place self.new ≡ next_place self.old + length bytes.now }
        ensures room { room_left self.new + length bytes.now ≡ room_left self.old }
        ensures size { size_of self.new ≡ size_of self.old }
        ensures at { self.new.at ≡ self.old.at }
    {
        put(&mut self.bytes, self.len, bytes);
        self.len += bytes.len();
    }

    /// Puts numbers behind the bytes so far, in eight bytes each.
    pub fn put_numbers(&mut self, numbers: &[u64])
        requires room { 8 * length numbers.now ≤ room_left self.old }
        requires reach { next_place self.old + 8 * length numbers.now < 2 ^ 63 }
        ensures out { (begin : ℕ) (text file : List ℕ) → IsOut begin text file self.old → IsOut begin (text ++ numbers_text numbers.now) file self.new }
        ensures place { next_place self.new ≡ next_place self.old + 8 * length numbers.now }
        ensures room { room_left self.new + 8 * length numbers.now ≡ room_left self.old }
        ensures size { size_of self.new ≡ size_of self.old }
        ensures at { self.new.at ≡ self.old.at }
    {
        let count = 8 * numbers.len();
        lay_numbers(numbers, &mut self.bytes[self.len..]);
        self.len += count;
    }

    /// Puts the text of a block behind the bytes so far.
    pub fn put_block(&mut self, block: &Block)
        requires room { laid_len block.now ≤ room_left self.old }
        requires reach { next_place self.old + laid_len block.now < 2 ^ 63 }
        ensures out { (width number : ℕ) (pieces : List Piece) → IsFilled width number 0 pieces block.now →
            (begin : ℕ) (text file : List ℕ) → IsOut begin text file self.old → IsOut begin (text ++ block_text width number pieces) file self.new }
        ensures place { next_place self.new ≡ next_place self.old + laid_len block.now }
        ensures room { room_left self.new + laid_len block.now ≡ room_left self.old }
        ensures size { size_of self.new ≡ size_of self.old }
        ensures at { self.new.at ≡ self.old.at }
    {
        self.len += lay_block(&mut self.bytes, self.len, block);
    }

    /// Writes the bytes that aren't written by one call of the bay, where there are any. After `Failed` it
    /// still has them.
    pub fn flush<B: Bay>(&mut self, bay: &mut B) -> Result<(), Failed>
        ensures out { IfTold (B.files bay.old) (λ before. IfTold (B.files bay.new) (λ after. (begin : ℕ) (text : List ℕ) →
            IsOut begin text (before FRAMES) self.old → OnOk result (IsOut begin text (after FRAMES) self.new))) }
        ensures written { OnOk result (self.new.len ≡ 0) }
        ensures failed { OnErr result ((self.new.len ≡ self.old.len) × (self.new.at ≡ self.old.at) × (unwritten self.new ≡ unwritten self.old)) }
        ensures place { next_place self.new ≡ next_place self.old }
        ensures size { size_of self.new ≡ size_of self.old }
        ensures at { self.old.at ≤ self.new.at }

        // Whatever it answers, nothing is written but the range of these bytes.
        ensures within { (begin end : ℕ) → begin ≤ self.old.at → next_place self.old ≤ end → WritesWithin B.Bay begin end bay.old bay.new }
        ensures kept { KeepsBay B.Bay bay.old bay.new (IsErr result) }
    {
        if self.len == 0 {
            return Ok(());
        }
        write_bytes(bay, self.at, &self.bytes[..self.len])?;
        self.at += self.len as u64;
        self.len = 0;
        Ok(())
    }

    /// Makes room for so many bytes: where there isn't, it writes those so far. After `Failed` it still has them.
    pub fn make_room<B: Bay>(&mut self, bay: &mut B, count: usize) -> Result<(), Failed>
        requires { count ≤ size_of self.old }
        ensures out { IfTold (B.files bay.old) (λ before. IfTold (B.files bay.new) (λ after. (begin : ℕ) (text : List ℕ) →
            IsOut begin text (before FRAMES) self.old → OnOk result (IsOut begin text (after FRAMES) self.new))) }
        ensures room { OnOk result (count ≤ room_left self.new) }
        ensures place { next_place self.new ≡ next_place self.old }
        ensures size { size_of self.new ≡ size_of self.old }
        ensures at { self.old.at ≤ self.new.at }
        ensures writes { (begin end : ℕ) → begin ≤ self.old.at → next_place self.old ≤ end → Writes B.Bay begin end bay.old bay.new (IsErr result) }
    {
        if count <= self.room() {
            return Ok(());
        }
        self.flush(bay)
    }

    /// Puts bytes that stand in the file from a place on behind the bytes so far. Where they don't stand there, it
    /// puts any bytes.
    pub fn copy<B: Bay>(&mut self, bay: &mut B, from: u64, count: usize) -> Result<(), Failed>
        requires room { count ≤ room_left self.old }
        requires reach { next_place self.old + count < 2 ^ 63 }
        ensures out { IfTold (B.files bay.old) (λ seen. from + count ≤ length (seen FRAMES) → (begin : ℕ) (text : List ℕ) →
            IsOut begin text (seen FRAMES) self.old → OnOk result (IsOut begin (text ++ part (seen FRAMES) from (from + count)) (seen FRAMES) self.new)) }
        ensures place { OnOk result (next_place self.new ≡ next_place self.old + count) }
        ensures size { size_of self.new ≡ size_of self.old }
        ensures at { self.new.at ≡ self.old.at }
        ensures only_reads { OnlyReads B.Bay bay.old bay.new (IsErr result) }
    {
        read_into(bay, from, &mut self.bytes, self.len, count)?;
        self.len += count;
        Ok(())
    }
}

// Reads bytes of the file over those of a buffer from a place on; those before it stay.
fn read_into<B: Bay>(
    bay: &mut B,
    from: u64,
    into: &mut [u8],
    place: usize,
    count: usize,
) -> Result<(), Failed>
    requires { place + count ≤ length into.old }
    ensures told { IfTold (B.files bay.old) (λ seen. from + count ≤ length (seen FRAMES) →
        OnOk result (take (place + count) into.new ≡ take place into.old ++ part (seen FRAMES) from (from + count))) }
    ensures only_reads { OnlyReads B.Bay bay.old bay.new (IsErr result) }
{
    bay.read_at(FRAMES, from, &mut into[place..place + count])?;
    Ok(())
}

// Lays the text of a block over the bytes of a buffer from a place on, and answers how many these are; those before
// it stay.
fn lay_block(into: &mut [u8], place: usize, block: &Block) -> usize
    requires { place + laid_len block.now ≤ length into.old }
    ensures len { result ≡ laid_len block.now }
    ensures text { (width number : ℕ) (pieces : List Piece) → IsFilled width number 0 pieces block.now →
        take (place + result) into.new ≡ take place into.old ++ block_text width number pieces }
{
    block.lay(&mut into[place..])
}

/// One write, said as several are.
pub fn write_bytes<B: Bay>(bay: &mut B, at: u64, bytes: &[u8]) -> Result<(), Failed>
    requires { at + length bytes.now < 2 ^ 63 }
    ensures written { OnOk result (Turns (Changes (Holds at bytes.now) FRAMES) (B.files bay.old) (B.files bay.new)) }
    ensures within { (begin end : ℕ) → begin ≤ at → at + length bytes.now ≤ end → WritesWithin B.Bay begin end bay.old bay.new }
    ensures kept { KeepsBay B.Bay bay.old bay.new (IsErr result) }
{
    bay.write_at(FRAMES, at, bytes)
}
