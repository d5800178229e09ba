//! The settings of a cone, and what they make of a position.

ghost use Rattle.std.specs.Prelude.{◌≡◌, ◌≢◌, ℕ, ◌-◌, ◌^◌, ◌<◌, ◌≤◌, ◌↔◌, Some, None, MatchResult, IsTrue};
ghost use Rattle.lert_spec.specs.Edges.{span, offset, edge, depth, lookback, capacity, weight_room, quotient_bits, width};
ghost use Rattle.lert_spec.specs.Limits.{first_broken, IsValid};

use lert_spec::Numbers;
use levels::{offsets_of, spans_of};
pub use rules::BadSetting;
use rules::{broken_limit, broken_sum};
use std::marker::Model;

mod levels;
mod rules;
/// Eight numbers that keep all rules, with the span and the offset of each level computed once.
///
/// 144 bytes, for all nine levels. No call takes memory. `edge` makes one division, `depth` at most one for each level on
/// disk, and `lookback` one more than `depth`.
#[derive(Clone, Copy, Drop)]
pub struct Settings {
    numbers: Numbers,
    spans: [u64; 9],
    offsets: [u64; 9],
}

// Clauses see the eight numbers.
impl Model for Settings {
    ghost use Rattle.lert_spec.specs.declared.numbers.Numbers.{Numbers};
    ghost use Rattle.lert_base.specs.Computed.{IsComputed, spans_of, offsets_of};
    ghost use Rattle.std.proofs.Common.{ap₂, sym};

    ghost Value = { Numbers };

    ghost view = { λ s. s.numbers };

    ghost invariant = { λ s. IsComputed s.numbers s.spans s.offsets };

    ghost inverse = { λ n. record { numbers = n; spans = spans_of n; offsets = offsets_of n } };

    ghost inverse_ok = { λ s h. ap₂ (λ spans offsets. record s { spans = spans; offsets = offsets }) (sym h.spans_are) (sym h.offsets_are) };
}

impl Settings {
    /// The numbers as settings, or the first rule that they break:
    ///
    /// | rule | kept where |
    /// |---|---|
    /// | 1 | the threshold is in 1..=4,294,967,295 |
    /// | 2 | the bins are in 2..=16 |
    /// | 3 | the ratio is in 2..=16 |
    /// | 4 | the base is in 4..=65,536 |
    /// | 5 | the levels are in 1..=8 |
    /// | 6 | the cone bits are in 0..=8 |
    /// | 7 | the room is in 1..=4,194,304 |
    /// | 8 | the packet is in 1..=1,024 |
    /// | 9 | the bins of level 0 hold at most 2^23 events over all cones |
    /// | 10 | there is room for at most 2^24 reports over all cones |
    /// | 11 | the offset and the span of the oldest level end at 2^31 |
    pub fn new(numbers: Numbers) -> Result<Settings, BadSetting>
        ensures { MatchResult result
            (λ settings. (first_broken numbers ≡ None) × (settings ≡ numbers))
            (λ bad. first_broken numbers ≡ Some bad.rule) }
    {
        if let Some(rule) = broken_limit(&numbers) {
            return Err(BadSetting { rule });
        }
        let spans = spans_of(&numbers);
        let offsets = offsets_of(&numbers, &spans);
        let oldest = numbers.levels as usize;
        if let Some(rule) = broken_sum(&numbers, offsets[oldest] + spans[oldest]) {
            return Err(BadSetting { rule });
        }
        Ok(Settings {
            numbers,
            spans,
            offsets,
        })
    }

    /// The eight numbers.
    pub fn numbers(&self) -> Numbers
        ensures value { result ≡ self.now }
        ensures valid { IsValid result }
    {
        let _ = &self.spans;
        self.numbers
    }

    /// How many cones there are: a power of two, at most 256.
    pub fn cones(&self) -> u32
        ensures { result ≡ 2 ^ self.now.cone_bits }
    {
        1 << self.numbers.cone_bits
    }

    /// The width of a level's bins, in events.
    pub fn span(&self, level: u32) -> u64
        requires { level ≤ self.now.levels }
        ensures value { result ≡ span self.now level }
        ensures positive { 1 ≤ result }
    {
        self.spans[level as usize]
    }

    /// How many events a level's edge stays behind at least.
    pub fn offset(&self, level: u32) -> u64
        requires { level ≤ self.now.levels }
        ensures { result ≡ offset self.now level }
    {
        self.offsets[level as usize]
    }

    /// The edge of a level after `n` events.
    pub fn edge(&self, level: u32, n: u64) -> u64
        requires level { level ≤ self.now.levels }
        requires events { n ≤ capacity self.now }
        ensures { result ≡ edge self.now level n }
    {
        let span = self.span(level);
        n.saturating_sub(self.offset(level)) / span * span
    }

    /// How deep the flush at position `m` goes, 0 where `m` is no flush position. It looks at the levels up to the last
    /// one, whose edge never moves within the capacity.
    pub fn depth(&self, m: u64) -> u32
        requires first { 1 ≤ m }
        requires last { m ≤ capacity self.now }
        ensures value { result ≡ depth self.now m }
        ensures within { result ≤ self.now.levels }
    {
        let levels = self.numbers.levels as u32;
        let mut level = 0;
        while level < levels && self.edge_moves(level, m) {
            level += 1;
        }
        level
    }

    /// Up to which position the flush at position `m` looks back.
    pub fn lookback(&self, m: u64) -> u64
        requires first { 1 ≤ m }
        requires last { m ≤ capacity self.now }
        ensures { result ≡ lookback self.now m }
    {
        self.edge(self.depth(m), m - 1)
    }

    /// How many events a cone takes: from 1 to below 2^31.
    pub fn capacity(&self) -> u64
        ensures value { result ≡ capacity self.now }
        ensures least { 1 ≤ result }
        ensures most { result < 2 ^ 31 }
    {
        let oldest = self.numbers.levels as usize;
        let positions = self.offsets[oldest] + self.spans[oldest] - 1;
        positions.min(self.weight_room())
    }

    /// How much weight a cone takes: the threshold for each key that it has room to report, from 1 to below 2^54.
    pub fn weight_room(&self) -> u64
        ensures value { result ≡ weight_room self.now }
        ensures least { 1 ≤ result }
        ensures most { result < 2 ^ 54 }
    {
        self.numbers.threshold * self.numbers.room
    }

    /// How many bits of a tail are its quotient in a level's tables: from 6 to 30.
    pub fn quotient_bits(&self, level: u32) -> u32
        requires { level ≤ self.now.levels }
        ensures value { result ≡ quotient_bits self.now level }
        ensures least { 6 ≤ result }
        ensures most { result ≤ 30 }
    {
        let last = self.spans[level as usize] - 1;
        (u64::BITS - last.leading_zeros()).max(6)
    }

    /// How many bits of a tail are its remainder in a level's tables: from 26 to 58.
    pub fn width(&self, level: u32) -> u32
        requires { level ≤ self.now.levels }
        ensures value { result ≡ width self.now level }
        ensures least { 26 ≤ result }
        ensures most { result ≤ 58 }
    {
        64 - self.numbers.cone_bits as u32 - self.quotient_bits(level)
    }

    // Whether a level's edge moves at position m: at each whole number of spans above its offset.
    fn edge_moves(&self, level: u32, m: u64) -> bool
        requires level { level ≤ self.now.levels }
        requires first { 1 ≤ m }
        ensures { IsTrue result ↔ (edge self.now level m ≢ edge self.now level (m - 1)) }
    {
        let offset = self.offsets[level as usize];
        offset < m && (m - offset) % self.spans[level as usize] == 0
    }
}
