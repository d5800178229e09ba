//! A region: the sums of the keys of one cone.

ghost use Rattle.std.specs.Prelude.{◌≡◌, ℕ, ◌+◌, ◌^◌, ◌<◌, ◌≤◌, All, List, IfOk, MatchOption, IsNone, [], ◌∷◌, length};
ghost use Rattle.lert_base.specs.Keys.{items_of};
ghost use Rattle.lert_base.specs.Packet.{Packet, events_of};
ghost use Rattle.lert_census.specs.Census.{AreFewest, StandsFor, lines_of, with_items};
ghost use Rattle.lert_base.specs.Weave.{IsWoven};
ghost use Rattle.lert_census.specs.Tally.{EndsWith, joined, tally_of};
ghost use Rattle.lert_spec.specs.Counts.{weighed};
ghost use Rattle.lert_spec.specs.Edges.{tail_bits};
ghost use Rattle.lert_spec.specs.Mix.{part_in};
ghost use Rattle.lert_spec.specs.declared.item.Item.{Item};

use crate::cursor::RegionCursor;
use lert_base::{CountTable, Report, Settings};
use lert_cqf::Cqf;
use lert_io::OutOfMemory;
use lert_mixer::{key_of, tail_of};
use std::alloc::Global;
use std::marker::Model;
use std::snapshot::Snapshot;

/// What the keys of one cone weigh, each in all, in a table with room for as many items as the settings give a cone room
/// for reports.
///
/// Only `new` takes memory: some 59 bytes at most for each item of a room of 64 items or more.
#[derive(Drop)]
pub struct Region {
    pub(crate) settings: Settings,
    pub(crate) region: u32,
    // What the items of each tail weigh, one add an item.
    pub(crate) table: Cqf,
}

impl Model for Region {
    ghost use Rattle.lert_census.specs.Census.{Census, IsRegion};

    ghost Value = { Census };

    ghost view = { λ r. record { settings = r.settings; region = r.region; table = r.table } };

    ghost invariant = { λ r. IsRegion r.settings r.region r.table };
}

impl Region {
    /// The region with this number, below the number of cones, which has no item yet. An error is want of memory.
    pub fn new(alloc: Global, settings: &Settings, region: u32) -> Result<Region, OutOfMemory>
        requires { region < 2 ^ settings.now.cone_bits }
        ensures settings { IfOk result (λ made. made.settings ≡ settings.now) }
        ensures region { IfOk result (λ made. made.region ≡ region) }
        ensures stands_for { IfOk result (λ made. StandsFor made []) }
    {
        let numbers = settings.numbers();
        let quotient_bits = quotient_bits(numbers.room);
        let width = 64 - numbers.cone_bits as u32 - quotient_bits;
        let table = Cqf::new(alloc, quotient_bits, width, numbers.room)?;
        Ok(Region {
            settings: *settings,
            region,
            table,
        })
    }

    /// How many items it took: at most its room.
    pub fn items(&self) -> u64
        ensures value { result ≡ self.now.table.adds }
        ensures room { result ≤ self.now.settings.room }
        ensures woven { (workers : ℕ) (traces : List (List Item)) (h : List Packet) → StandsFor self.now h
            → IsWoven self.now.settings self.now.region workers traces h
            → result ≡ length (part_in weighed self.now.settings self.now.region (joined traces)) }
    {
        self.table.adds()
    }

    /// A cursor before the first key. What it gives is the tally of the items of each list of packets that the region stands
    /// for. Where these are woven of traces it is that of the traces' items, in whatever order the packets came.
    pub fn start(&self) -> RegionCursor
        ensures region { result.region ≡ self.now }
        ensures all { result.left ≡ lines_of self.now }
        ensures tally { (h : List Packet) → StandsFor self.now h → result.left ≡ tally_of (events_of h) }
        ensures woven { (workers : ℕ) (traces : List (List Item)) (h : List Packet) → StandsFor self.now h
            → IsWoven self.now.settings self.now.region workers traces h
            → result.left ≡ tally_of (part_in weighed self.now.settings self.now.region (joined traces)) }
    {
        RegionCursor {
            made: Snapshot::of(self),
            at: self.table.start(),
        }
    }

    /// The next key, and in place of a position what its items weigh, in ascending mixed values. None exactly behind the
    /// last.
    pub fn step(&self, cursor: &mut RegionCursor) -> Option<Report>
        requires { cursor.old.region ≡ self.now }
        ensures region { cursor.new.region ≡ cursor.old.region }
        ensures next { MatchOption result (cursor.old.left ≡ []) (λ line. cursor.old.left ≡ line ∷ cursor.new.left) }
        ensures end { IsNone result → cursor.new.left ≡ [] }
        ensures tally { (h : List Packet) → StandsFor self.now h → EndsWith (tally_of (events_of h)) cursor.new.left }
    {
        let piece = self.table.step(&mut cursor.at)?;
        Some(Report {
            key: key_of(&self.settings, self.region, piece.tail),
            at: piece.count,
        })
    }
}

/// Adds items to a table, one after another: each weight to the tail of its key.
pub(crate) fn add_all(table: &mut Cqf, settings: &Settings, keys: &[u64], weights: &[u8])
    requires same { length weights.now ≡ length keys.now }
    requires some { All (λ weight. 1 ≤ weight) weights.now }
    requires room { table.old.adds + length keys.now ≤ table.old.room }
    requires tails { table.old.quotient_bits + table.old.width ≡ tail_bits settings.now }
    ensures { table.new ≡ with_items settings.now table.old (items_of keys.now weights.now) }
{
    for number in 0..keys.len() {
        table.add(tail_of(settings, keys[number]), u64::from(weights[number]));
    }
}

// The least number of quotient bits from 6 on that gives each item a quotient.
fn quotient_bits(room: u64) -> u32
    requires { room ≤ 4194304 }
    ensures fewest { AreFewest result room }
    ensures most { result ≤ 22 }
{
    let mut bits = 6;
    while bits < 22 && 1 << bits < room {
        bits += 1;
    }
    bits
}
