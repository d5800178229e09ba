//! Level 0 in memory.

ghost use Rattle.std.specs.Prelude.{◌≡◌, ◌≢◌, ℕ, ◌+◌, ◌-◌, ◌*◌, ◌/◌, ◌%◌, ◌^◌, ◌<◌, ◌≤◌, ◌==◌, if◌then◌else◌, false, ◌++◌, [], All, drop, length, map, IfOk, OnOk, sum_by};
ghost use Rattle.std.specs.Int.{div_ceil};
ghost use Rattle.lert_levels.specs.bound.Covers.{CoversCounts};
ghost use Rattle.lert_spec.specs.Edges.{span, quotient_bits, width, tail_bits};
ghost use Rattle.lert_spec.specs.Table.{count_of};
ghost use Rattle.lert_levels.specs.rows.Young.{with_event, AreLight, IsNextPosition, IsOfZero};

use crate::bound::Bound;
use crate::rows::extent::Extent;
use lert_base::{CountTable, Settings};
use lert_io::OutOfMemory;
use std::alloc::Global;
use std::marker::Model;

/// The events of the newest positions of a cone, in bins of the base: seen as its settings, the last position before the
/// oldest bin, the last position in the newest one, and the bins, oldest first.
///
/// Only `new` takes memory: a table of a bin's events for each bin that a level has at most, and a bound of two bytes a
/// place, with four places for each event of a bin, up to a power of two. A byte counts up to 255 units, of a 255th of
/// the threshold, rounded up: so it tells weights apart up to there, whatever the threshold is.
#[derive(Drop)]
pub struct Zero<T: CountTable> {
    settings: Settings,
    // That of the oldest bin first, and behind those in use the free ones.
    tables: Vec<T>,
    // Of what a tail weighs in all bins, in units of this weight.
    bound: Bound,
    unit: u64,
    // How many of the bins are of the bound's generation before: the oldest ones.
    earlier: u64,
    extent: Extent,
}

impl<T: CountTable> Model for Zero<T> {
    ghost use Rattle.std.specs.Prelude.{◌≡◌};
    ghost use Rattle.lert_levels.specs.rows.Young.{Young, seen_as, AreFilled, AreBounded, AreNumbered};

    ghost Value = { Young };

    ghost view = { λ z. seen_as T.CountTable z.settings z.tables.items z.extent.from z.extent.to };

    ghost invariant = { λ z. AreFilled T.CountTable z.settings z.tables.items z.extent.from z.extent.to
        × AreBounded T.pieces z.settings z.tables.items z.extent.from z.extent.to z.bound z.unit z.earlier
        × AreNumbered z.settings z.extent.from z.extent.to z.extent.bins z.extent.end };
}

impl<T: CountTable> Zero<T> {
    /// No bin yet, and a table for each bin of a level, with a bound. Its only error is want of memory.
    pub fn new(alloc: Global, settings: &Settings) -> Result<Zero<T>, OutOfMemory>
        ensures { IfOk result (λ zero. zero ≡ record { settings = settings.now; from = 0; to = 0; bins = [] }) }
    {
        let bins = settings.numbers().bins as usize;
        let mut tables = Vec::with_capacity(alloc, bins)?;
        for _ in 0..bins {
            tables.push(empty_table(alloc, settings)?)?;
        }
        let bound = Bound::new(alloc, places(settings))?;
        Ok(Zero {
            settings: *settings,
            tables,
            bound,
            unit: unit(settings),
            earlier: 0,
            extent: Extent {
                from: 0,
                to: 0,
                bins: 0,
                end: 0,
            },
        })
    }

    /// The settings.
    pub fn settings(&self) -> &Settings
        ensures { result.now ≡ self.now.settings }
    {
        &self.settings
    }

    /// Counts an event of this tail and weight at position `m`, which is the position behind the last one, or, where
    /// there is none, the first one of an aligned interval. A bin that `m` begins needs a free table.
    pub fn add(&mut self, tail: u64, weight: u8, m: u64)
        requires some { 1 ≤ weight }
        requires below { tail < 2 ^ tail_bits self.old.settings }
        requires position { IsNextPosition self.old m }
        ensures { self.new ≡ with_event self.old tail weight m }
    {
        self.extent.grow(m, self.settings.span(0));
        let newest = self.extent.bins - 1;
        self.tables[newest as usize].add(tail, u64::from(weight));
        self.bound
            .add(tail, units(u64::from(weight), self.unit) as u8);
    }

    /// What was added to a tail, over all bins. It looks into each table.
    pub fn count(&self, tail: u64) -> u64
        ensures { result ≡ sum_by (λ bin. count_of bin.pieces tail) self.now.bins }
    {
        let mut count = 0;
        for table in &self.tables {
            count += table.count(tail);
        }
        count
    }

    /// Whether a tail can weigh `count`, over all bins. It looks at two bytes and into no table. Where it answers true
    /// the tail may weigh less: tails share bytes, which keep dropped events for a while, count units that are rounded
    /// up, and end at 255 of these.
    pub fn may_reach(&self, tail: u64, count: u64) -> bool
        ensures { result ≡ false → sum_by (λ bin. count_of bin.pieces tail) self.now.bins < count }
    {
        self.bound.may_reach(tail, units(count, self.unit))
    }

    /// How many bins there are.
    pub fn len(&self) -> usize
        ensures count { result ≡ length self.now.bins }
        ensures some { self.now.from < self.now.to → 1 ≤ result }
        ensures few { result ≤ self.now.settings.bins }
    {
        self.tables().len()
    }

    /// The tables of the bins, the oldest one's first, each with the room, the quotient bits and the width of level 0.
    pub fn tables(&self) -> &[T]
        ensures pieces { map T.pieces result.now ≡ map (λ bin. bin.pieces) self.now.bins }
        ensures of_zero { All (λ table. IsOfZero self.now.settings (T.room table) (T.quotient_bits table) (T.width table)) result.now }
        ensures rooms { All (λ table. (T.room table ≤ 2 ^ 39)
            × (T.quotient_bits table + T.width table ≡ tail_bits self.now.settings)) result.now }
        ensures light { AreLight 2 self.now.bins }
        ensures narrow { All (λ bin. bin.to - bin.from ≤ span self.now.settings 0) self.now.bins }
        ensures some { self.now.from < self.now.to → 1 ≤ length self.now.bins }
        ensures few { length self.now.bins ≤ self.now.settings.bins }
    {
        &self.tables[..self.extent.bins as usize]
    }

    /// Drops the oldest bin, which is whole. Its table is free then. Where no bin of the bound's generation before is left
    /// the bound turns, in one pass over its places: once in about as many drops as there are bins.
    pub fn drop_oldest(&mut self)
        requires { self.old.from + span self.old.settings 0 ≤ self.old.to }
        ensures { self.new ≡ record self.old {
          from = self.old.from + span self.old.settings 0;
          bins = drop 1 self.old.bins;
        } }
    {
        let span = self.settings.span(0);
        self.tables[0].clear();
        self.tables.rotate_left(1);
        self.extent.from += span;
        self.extent.bins -= 1;
        let stay = self.extent.to - self.extent.from;
        self.earlier = aged(&mut self.bound, self.earlier, stay, span);
    }
}

// Turns the bound where none of the bins that stay is of its generation before, and answers how many of them are of it
// then. Before the drop `earlier` bins were of it, the oldest ones, and those that stay have `stay` positions.
fn aged(bound: &mut Bound, earlier: u64, stay: u64, span: u64) -> u64
    requires { 1 ≤ span }
    ensures some { 1 < earlier → (bound.new ≡ bound.old) × (result ≡ earlier - 1) }
    ensures part { earlier ≤ 1 → stay % span ≢ 0 → (bound.new ≡ bound.old) × (result ≡ 0) }
    ensures none { earlier ≤ 1 → stay % span ≡ 0 → (result ≡ stay / span)
        × ((before present : ℕ → ℕ) → CoversCounts bound.old before present → CoversCounts bound.new present (λ _. 0)) }
{
    if earlier > 1 {
        return earlier - 1;
    }
    // The newest bin would have events of both generations, so a later drop turns the bound.
    if stay % span != 0 {
        return 0;
    }
    bound.turn();
    stay / span
}

// The unit of the bound's bytes, so that the threshold is at most 255 of it.
fn unit(settings: &Settings) -> u64
    ensures { 1 ≤ result }
{
    settings.numbers().threshold.div_ceil(255)
}

// How many units a weight is, rounded up. A division takes as long as the rest of a call, and most thresholds want none.
fn units(weight: u64, unit: u64) -> u64
    requires { 1 ≤ unit }
    ensures value { result ≡ div_ceil weight unit }
    ensures within { result ≤ weight }
{
    if unit == 1 {
        return weight;
    }
    weight.div_ceil(unit)
}

// How many places the bound has: four for each event of a bin, up to a power of two, of which a remainder is a mask.
fn places(settings: &Settings) -> usize
    ensures { 4 * settings.now.base ≤ result }
{
    let numbers = settings.numbers();
    (4 * numbers.base as usize).next_power_of_two()
}

// A table for the events of a bin of level 0.
fn empty_table<T: CountTable>(alloc: Global, settings: &Settings) -> Result<T, OutOfMemory>
    ensures empty { IfOk result (λ table. T.pieces table ≡ []) }
    ensures adds { IfOk result (λ table. T.adds table ≡ 0) }
    ensures room { IfOk result (λ table. T.room table ≡ span settings.now 0) }
    ensures quotient_bits { IfOk result (λ table. T.quotient_bits table ≡ quotient_bits settings.now 0) }
    ensures width { IfOk result (λ table. T.width table ≡ width settings.now 0) }
{
    let _valid = settings.numbers();
    T::new(
        alloc,
        settings.quotient_bits(0),
        settings.width(0),
        settings.span(0),
    )
}
