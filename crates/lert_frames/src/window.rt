//! What is read of the file of frames, ahead of what is wanted.

ghost use Rattle.std.specs.Prelude.{◌≡◌, ℕ, ◌+◌, ◌-◌, ◌<◌, ◌≤◌, ◌^◌, List, IfOk, IsErr, take, drop, length, slice_range};
ghost use Rattle.lert_bay.specs.Files.{IfTold, CopiesFrom};
ghost use Rattle.lert_bay.specs.Kept.{OnlyReads};
ghost use Rattle.lert_bay.specs.declared.bay.TheConstants.{FRAMES};
ghost use Rattle.lert_frames.specs.Bytes.{AreBytes};

use lert_bay::fields::put;
use lert_bay::{Bay, FRAMES};
use lert_io::{Failed, OutOfMemory};
use std::alloc::Global;

/// A window on the file of frames from a place on, which moves forward: some bytes are at hand, and others
/// are read behind them by whole buffers.
#[derive(Drop)]
pub struct Window {
    bytes: Vec<u8>,
    // The bytes `from..upto` are at hand, and `at` is the place in the file behind them.
    from: usize,
    upto: usize,
    at: u64,
    ghost in_order: { from ≤ upto },
    ghost within: { upto ≤ bytes.len },
    ghost begins: { upto - from ≤ at },
}

impl Window {
    ghost use Rattle.std.specs.Prelude.{◌↔◌, ◌++◌, [], IsTrue, IsFalse, OnOk};
    ghost use Rattle.lert_frames.specs.Steps.{ReadsAhead};
    ghost use Rattle.lert_frames.specs.Window.{at_hand, count_of, place_of, room_of, to_come, IsRead};

    /// A window with a buffer of `len` bytes, and nothing at hand. Its only error is want of memory.
    pub fn new(alloc: Global, len: usize) -> Result<Window, OutOfMemory>
        ensures { IfOk result (λ w. (room_of w ≡ len) × (at_hand w ≡ []) × (place_of w ≡ 0)) }
    {
        let bytes = vec![in alloc; 0; len]?;
        Ok(Window {
            bytes,
            from: 0,
            upto: 0,
            at: 0,
        })
    }

    /// Moves it to a place of the file, with nothing at hand. It reads nothing.
    pub fn start(&mut self, at: u64)
        ensures come { (file : List ℕ) → to_come self.new file ≡ drop at file }
        ensures hand { at_hand self.new ≡ [] }
        ensures place { place_of self.new ≡ at }
        ensures read { (file : List ℕ) → IsRead self.new at file }
        ensures room { room_of self.new ≡ room_of self.old }
    {
        self.from = 0;
        self.upto = 0;
        self.at = at;
    }

    /// The place of the first byte at hand.
    pub fn place(&self) -> u64
        ensures { result ≡ place_of self.now }
    {
        self.at - (self.upto - self.from) as u64
    }

    /// The bytes at hand.
    pub fn at_hand(&self) -> &[u8]
        ensures value { result.now ≡ at_hand self.now }
        ensures count { length result.now ≡ count_of self.now }
        ensures fits { count_of self.now ≤ room_of self.now }
        ensures small { AreBytes result.now }
    {
        between(&self.bytes, self.from, self.upto)
    }

    /// Passes some of the bytes at hand.
    pub fn skip(&mut self, count: usize)
        requires { count ≤ count_of self.old }
        ensures come { (file : List ℕ) → to_come self.new file ≡ drop count (to_come self.old file) }
        ensures hand { at_hand self.new ≡ drop count (at_hand self.old) }
        ensures place { place_of self.new ≡ place_of self.old + count }
        ensures read { (from : ℕ) (file : List ℕ) → IsRead self.old from file → IsRead self.new from file }
        ensures room { room_of self.new ≡ room_of self.old }
        ensures end { self.new.at ≡ self.old.at }
    {
        self.from += count;
    }

    /// Puts bytes at hand that end at a place of the file.
    pub fn hold(&mut self, bytes: &[u8], at: u64)
        requires room { length bytes.now ≤ room_of self.old }
        requires begins { length bytes.now ≤ at }
        ensures come { (file : List ℕ) → to_come self.new file ≡ bytes.now ++ drop at file }
        ensures hand { at_hand self.new ≡ bytes.now }
        ensures place { place_of self.new + length bytes.now ≡ at }
        ensures room { room_of self.new ≡ room_of self.old }
        ensures end { self.new.at ≡ at }
    {
        put(&mut self.bytes, 0, bytes);
        self.from = 0;
        self.upto = bytes.len();
        self.at = at;
    }

    /// Whether so many bytes are at hand. Where they aren't, it first reads to the end of the buffer by one
    /// call of the bay. After `Failed` what is at hand is as before.
    pub fn need<B: Bay>(&mut self, bay: &mut B, count: usize) -> Result<bool, Failed>
        requires fits { count ≤ room_of self.old }
        requires reach { place_of self.old + room_of self.old < 2 ^ 63 }

        // The answer is right, and where it is no, the file ends behind what is at hand.
        ensures enough { IfOk result (λ enough. IsTrue enough ↔ (count ≤ count_of self.new)) }
        ensures ends { IfTold (B.files bay.old) (λ seen. IfOk result (λ enough. IsFalse enough → at_hand self.new ≡ to_come self.old (seen FRAMES))) }
        ensures ahead { ReadsAhead B.Bay bay.old self.old self.new }
        ensures only_reads { OnlyReads B.Bay bay.old bay.new (IsErr result) }
    {
        if self.at_hand().len() >= count {
            return Ok(true);
        }
        self.fill(bay)?;
        Ok(self.at_hand().len() >= count)
    }

    // Reads to the end of the buffer. Where it isn't full then, the file ends behind what is at hand.
    fn fill<B: Bay>(&mut self, bay: &mut B) -> Result<(), Failed>
        requires { place_of self.old + room_of self.old < 2 ^ 63 }
        ensures full { IfTold (B.files bay.old) (λ seen. OnOk result (count_of self.new < room_of self.new → at_hand self.new ≡ to_come self.old (seen FRAMES))) }
        ensures ahead { ReadsAhead B.Bay bay.old self.old self.new }
        ensures only_reads { OnlyReads B.Bay bay.old bay.new (IsErr result) }
    {
        self.move_to_front();
        let read = read_behind(bay, self.at, &mut self.bytes, self.upto)?;
        self.upto += read;
        self.at += read as u64;
        Ok(())
    }

    // Moves the bytes at hand to the front of the buffer.
    fn move_to_front(&mut self)
        ensures hand { at_hand self.new ≡ at_hand self.old }
        ensures front { self.new.from ≡ 0 }
        ensures count { self.new.upto ≡ count_of self.old }
        ensures room { room_of self.new ≡ room_of self.old }
        ensures end { self.new.at ≡ self.old.at }
    {
        self.bytes.copy_within(self.from..self.upto, 0);
        self.upto -= self.from;
        self.from = 0;
    }
}

// The bytes of a buffer from one place up to another.
fn between(bytes: &[u8], from: usize, upto: usize) -> &[u8]
    requires order { from ≤ upto }
    requires within { upto ≤ length bytes.now }
    ensures value { result.now ≡ slice_range bytes.now from upto }
    ensures small { AreBytes result.now }
{
    &bytes[from..upto]
}

// Reads what the file has from `at` on into the buffer from the place `from` on, to its end.
fn read_behind<B: Bay>(bay: &mut B, at: u64, into: &mut [u8], from: usize) -> Result<usize, Failed>
    requires { from ≤ length into.old }
    ensures front { take from into.new ≡ take from into.old }
    ensures small { AreBytes into.new }
    ensures within { IfOk result (λ read. from + read ≤ length into.new) }
    ensures told { IfTold (B.files bay.old) (λ seen. IfOk result (λ read. CopiesFrom at read (drop from into.new) (seen FRAMES))) }
    ensures only_reads { OnlyReads B.Bay bay.old bay.new (IsErr result) }
{
    bay.read_at(FRAMES, at, &mut into[from..])
}
