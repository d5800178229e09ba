//! The row of bits.

ghost use Rattle.std.specs.Prelude.{◌≡◌, ℕ, ◌<◌, ◌≤◌, ◌↔◌, Bool, true, false, List, length, take, replicate, slice_index_or, slice_set, slice_get, IfOk, IfSome, MatchOption, Some, None};
ghost use Rattle.lert_slotbits.specs.Bits.{trues, gapped, IsFirst};

use crate::count::{count_before, place_of};
use crate::gap::open;
use crate::row::{bit_in, put_bit};
use crate::scan::first_bit;
use std::alloc::{AllocError, Global};
use std::marker::Model;

/// More bits than any machine has memory for.
const TOO_MANY: u64 = 1 << 60;

/// A row of bits, seen as the list of its truth values.
#[derive(Drop)]
pub struct Bits {
    words: Vec<u64>,
    len: u64,
}

impl Model for Bits {
    ghost use Rattle.std.specs.Prelude.{◌≡◌, ◌<◌, ◌+◌, ◌/◌, ◌^◌, Bool, List, take, length};
    ghost use Rattle.lert_slotbits.specs.Bits.{row_of};

    ghost Value = { List Bool };

    ghost view = { λ b. take b.len (row_of b.words.items) };

    ghost invariant = { λ b. (length b.words.items ≡ b.len / 64 + 1) × (b.len < 2 ^ 60) };
}

impl Bits {
    /// `len` bits, all false. Its only error is want of memory.
    pub fn new(alloc: Global, len: u64) -> Result<Bits, AllocError>
        ensures { IfOk result (λ b. b ≡ replicate len false) }
    {
        if len >= TOO_MANY {
            return Err(AllocError);
        }
        let words = vec![in alloc; 0; (len / 64) as usize + 1]?;
        Ok(Bits { words, len })
    }

    /// The number of bits.
    pub fn len(&self) -> u64
        ensures { result ≡ length self.now }
    {
        self.len
    }

    /// The bit at place `i`.
    pub fn get(&self, i: u64) -> bool
        requires { i < length self.now }
        ensures { slice_get self.now i ≡ Some result }
    {
        bit_in(&self.words, i)
    }

    /// Writes the bit at place `i`.
    pub fn set(&mut self, i: u64, on: bool)
        requires { i < length self.old }
        ensures { self.new ≡ slice_set self.old i on }
    {
        put_bit(&mut self.words, i, on);
    }

    /// The set bits below place `i`. Reads each word up to there.
    pub fn rank(&self, i: u64) -> u64
        requires { i ≤ length self.now }
        ensures { result ≡ trues (take i self.now) }
    {
        count_before(&self.words, i)
    }

    /// The place of the set bit that has `k` set bits below it; None where at most `k` bits are set.
    pub fn select(&self, k: u64) -> Option<u64>
        ensures found { IfSome result (λ i. (slice_get self.now i ≡ Some true) × (trues (take i self.now) ≡ k)) }
        ensures none { (result ≡ None) ↔ (trues self.now ≤ k) }
    {
        let place = place_of(&self.words, k)?;
        if place < self.len { Some(place) } else { None }
    }

    /// The first false bit at or behind `from`.
    pub fn next_false(&self, from: u64) -> Option<u64>
        requires { from ≤ length self.now }
        ensures { MatchOption result
            ((k : ℕ) → from ≤ k → k < length self.now → slice_index_or self.now k false ≡ true)
            (IsFirst false self.now from) }
    {
        let place = first_bit(&self.words, from, false)?;
        if place < self.len { Some(place) } else { None }
    }

    /// The first true bit at or behind `from`.
    pub fn next_true(&self, from: u64) -> Option<u64>
        requires { from ≤ length self.now }
        ensures { MatchOption result
            ((k : ℕ) → from ≤ k → k < length self.now → slice_index_or self.now k false ≡ false)
            (IsFirst true self.now from) }
    {
        let place = first_bit(&self.words, from, true)?;
        if place < self.len { Some(place) } else { None }
    }

    /// Moves the bits `from..to` one place up and makes bit `from` false; bit `to` is lost.
    pub fn open_gap(&mut self, from: u64, to: u64)
        requires order { from ≤ to }
        requires within { to < length self.old }
        ensures { self.new ≡ gapped self.old from to }
    {
        open(&mut self.words, from, to);
    }

    /// Makes all bits false.
    pub fn clear(&mut self)
        ensures { self.new ≡ replicate (length self.old) false }
    {
        self.words.fill(0);
    }
}
