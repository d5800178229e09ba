//! A block as it is filled, piece by piece.

ghost use Rattle.std.specs.Prelude.{◌≡◌, ℕ, ◌+◌, ◌-◌, ◌*◌, ◌/◌, ◌%◌, ◌^◌, ◌<◌, ◌≤◌, ◌≢◌, ◌++◌, [], ◌∷◌, List, length, take, drop, IfOk};
ghost use Rattle.std.specs.Prelude.{IsTrue, ◌↔◌, true, false, slice_index, slice_set, if◌then◌else◌};
ghost use Rattle.lert_counter.specs.Group.{IsCount, group};
ghost use Rattle.std.specs.Int.{bit_at};
ghost use Rattle.lert_slotbits.specs.Bits.{row_of};
ghost use Rattle.lert_spec.specs.declared.piece.Piece.{Piece};
ghost use Rattle.lert_blocks.specs.Text.{block_text, ends_of, numbers_text, word_count, words_of};

use byteorder::{ByteOrder, LittleEndian};
use lert_counter::write_group;
use lert_io::OutOfMemory;
use lert_spec::Piece;
use std::alloc::Global;

/// The slots of a block that fit its memory.
pub const BLOCK_SLOTS: usize = 512;

/// The words of their run ends.
const BLOCK_WORDS: usize = 8;

/// The most slots that a group has.
const GROUP_SLOTS: usize = 9;

/// More than any quotient: there is no last piece.
const NO_QUOTIENT: u64 = u64::MAX;

/// A block of 64 quotients that is filled piece by piece, in ascending tails, and then laid as text. Where it
/// gets longer than its memory, slots are let go at its front.
#[derive(Drop)]
pub struct Block {
    // The quotients that have a run.
    occupied: u64,
    // The quotient of the last piece, or `NO_QUOTIENT`.
    last: u64,
    len: usize,
    // `BLOCK_SLOTS` slots, of which the first `len` are used, and a bit for each: whether it ends a run.
    slots: Vec<u64>,
    ends: Vec<u64>,
    ghost sized: { (length slots.items ≡ 512) × (length ends.items ≡ 8) × (len ≤ 512) },
}

impl Block {
    ghost use Rattle.lert_blocks.specs.Filling.{IsFilled, IsNext};

    /// An empty block. Its only error is want of memory.
    pub fn new(alloc: Global) -> Result<Block, OutOfMemory>
        ensures { IfOk result (λ b. (width block : ℕ) → IsFilled width block 0 [] b) }
    {
        let slots = vec![in alloc; 0; BLOCK_SLOTS]?;
        let ends = vec![in alloc; 0; BLOCK_WORDS]?;
        Ok(Block {
            occupied: 0,
            last: NO_QUOTIENT,
            len: 0,
            slots,
            ends,
        })
    }

    /// Whether there is room for a group of any count.
    pub fn has_room(&self) -> bool
        ensures { IsTrue result ↔ (self.now.len + 9 ≤ 512) }
    {
        self.len <= BLOCK_SLOTS - GROUP_SLOTS
    }

    /// Puts a piece behind those so far. The remainder of its tail has `width` bits.
    pub fn put(&mut self, width: u32, piece: Piece)
        requires narrow { 8 ≤ width }
        requires wide { width ≤ 58 }
        requires count { IsCount piece.count }
        requires room { self.old.len + 9 ≤ 512 }
        ensures filled { (block skip limit : ℕ) (pieces : List Piece) → IsFilled width block skip pieces self.old →
            IsNext width block limit pieces piece → IsFilled width block skip (pieces ++ piece ∷ []) self.new }
        ensures grows { self.new.len ≡ self.old.len + length (group width (piece.tail % 2 ^ width) piece.count) }
        ensures len { self.new.len ≤ self.old.len + 9 }
        ensures more { self.old.len < self.new.len }
    {
        let quotient = piece.tail >> width;
        let at = self.len;
        let used = put_group(
            width,
            remainder_of(width, piece.tail),
            piece.count,
            &mut self.slots[at..],
        );
        // The last slot of the last piece ends a run no more where this piece is of the same one.
        clear_if(&mut self.ends, at.saturating_sub(1), quotient == self.last);
        mark(&mut self.ends, at + used - 1);
        self.occupied = with_bit(self.occupied, quotient % 64);
        self.last = quotient;
        self.len = at + used;
    }

    /// The quotients that have a run, as bits.
    pub fn occupied(&self) -> u64
        ensures { result ≡ self.now.occupied }
    {
        self.occupied
    }

    /// The slots that it has.
    pub fn slots(&self) -> &[u64]
        ensures { result.now ≡ take self.now.len self.now.slots.items }
    {
        &self.slots[..self.len]
    }

    /// The words of their run ends.
    pub fn ends(&self) -> &[u64]
        ensures value { result.now ≡ take (word_count self.now.len) self.now.ends.items }
        ensures words { (width block skip : ℕ) (pieces : List Piece) → IsFilled width block skip pieces self.now →
            result.now ≡ words_of (drop skip (ends_of width pieces)) }
    {
        first_words(&self.ends, self.len.div_ceil(64))
    }

    /// Lets the first slots go, those of so many words of run ends. The last one stays.
    pub fn drop_front(&mut self, words: usize)
        requires { 64 * words < self.old.len }
        ensures filled { (width block skip : ℕ) (pieces : List Piece) → IsFilled width block skip pieces self.old →
            IsFilled width block (skip + 64 * words) pieces self.new }
        ensures len { self.new.len + 64 * words ≡ self.old.len }
    {
        self.slots.copy_within(64 * words..self.len, 0);
        self.ends.copy_within(words.., 0);
        self.ends[BLOCK_WORDS - words..].fill(0);
        self.len -= 64 * words;
    }

    /// Empties it.
    pub fn clear(&mut self)
        ensures { (width block : ℕ) → IsFilled width block 0 [] self.new }
    {
        self.occupied = 0;
        self.last = NO_QUOTIENT;
        self.len = 0;
        self.ends.fill(0);
    }

    /// Lays the text of the whole block to the front, and answers how many bytes these are.
    pub fn lay(&self, into: &mut [u8]) -> usize
        requires { 12 + 8 * word_count self.now.len + 8 * self.now.len ≤ length into.old }
        ensures len { result ≡ 12 + 8 * word_count self.now.len + 8 * self.now.len }
        ensures text { (width block : ℕ) (pieces : List Piece) → IsFilled width block 0 pieces self.now →
            take result into.new ≡ block_text width block pieces }
        ensures rest { drop result into.new ≡ drop result into.old }
    {
        let ends = self.ends();
        let slots = self.slots();
        let head = 12 + 8 * ends.len();
        LittleEndian::write_u64(into, self.occupied);
        LittleEndian::write_u32(&mut into[8..], self.len as u32);
        lay_numbers(ends, &mut into[12..]);
        lay_numbers(slots, &mut into[head..]);
        head + 8 * slots.len()
    }
}

/// Lays numbers in eight bytes each to the front.
pub fn lay_numbers(numbers: &[u64], into: &mut [u8])
    requires { 8 * length numbers.now ≤ length into.old }
    ensures { into.new ≡ numbers_text numbers.now ++ drop (8 * length numbers.now) into.old }
{
    LittleEndian::write_u64_into(numbers, &mut into[..8 * numbers.len()]);
}

/// The first words of some.
fn first_words(words: &[u64], count: usize) -> &[u64]
    requires { count ≤ length words.now }
    ensures value { result.now ≡ take count words.now }
    ensures fit { (i : ℕ) → slice_index result.now i < 2 ^ 64 }
{
    &words[..count]
}

/// The remainder of a tail.
fn remainder_of(width: u32, tail: u64) -> u64
    requires { width < 64 }
    ensures { result ≡ tail % 2 ^ width }
{
    tail & ((1 << width) - 1)
}

/// Writes a group to the front, as `write_group` does; one slot, which most groups are, by hand.
fn put_group(width: u32, x: u64, count: u64, into: &mut [u64]) -> usize
    requires narrow { 8 ≤ width }
    requires wide { width ≤ 58 }
    requires count { IsCount count }
    requires room { 9 ≤ length into.old }
    ensures len { result ≡ length (group width x count) }
    ensures front { take result into.new ≡ group width x count }
    ensures within { result ≤ 9 }
    ensures some { 0 < result }
{
    if count == 1 {
        into[0] = x;
        return 1;
    }
    write_group(width, x, count, into)
}

/// The word with one bit set.
fn with_bit(word: u64, at: u64) -> u64
    requires { at < 64 }
    ensures here { bit_at result at ≡ 1 }
    ensures others { (i : ℕ) → i ≢ at → bit_at result i ≡ bit_at word i }
{
    word | 1 << at
}

/// The word with one bit cleared, or the same.
fn without_if(word: u64, at: u64, on: bool) -> u64
    requires { at < 64 }
    ensures off { on ≡ false → result ≡ word }
    ensures here { on ≡ true → bit_at result at ≡ 0 }
    ensures others { on ≡ true → (i : ℕ) → i < 64 → i ≢ at → bit_at result i ≡ bit_at word i }
{
    word & !(u64::from(on) << at)
}

/// Clears the bit at place `i`, or does nothing.
fn clear_if(words: &mut [u64], i: usize, on: bool)
    requires { i < 64 * length words.old }
    ensures { row_of words.new ≡ (if on then slice_set (row_of words.old) i false else row_of words.old) }
{
    words[i / 64] = without_if(words[i / 64], i as u64 % 64, on);
}

/// Sets the bit at place `i`.
fn mark(words: &mut [u64], i: usize)
    requires { i < 64 * length words.old }
    ensures { row_of words.new ≡ slice_set (row_of words.old) i true }
{
    words[i / 64] = with_bit(words[i / 64], i as u64 % 64);
}
