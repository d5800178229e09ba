//! The merge of one flush or scan.

ghost use Rattle.std.specs.Prelude.{◌≡◌, ℕ, ◌+◌, ◌*◌, ◌-◌, ◌<◌, ◌≤◌, List, [], Err, Some, None, length, map, take, IfOk, OnOk, OnErr, IsErr, IsErrOf, vec_capacity};
ghost use Rattle.lert_bay.specs.declared.bay.TheConstants.{FRAMES};
ghost use Rattle.lert_bay.specs.Files.{IfTold};
ghost use Rattle.lert_bay.specs.Kept.{KeepsBay, OnlyReads};
ghost use Rattle.lert_levels.specs.flush.Merged.{AreParts, IsUnread, AreWide, HaveRoom, AreTaken};
ghost use Rattle.lert_levels.specs.landing.Landings.{home, AreOfLevels, AreLanding, IsOutside};
ghost use Rattle.lert_merge.specs.order.Ordering.{Breaks};
ghost use Rattle.lert_levels.specs.rows.Landing.{KeepsRest, AreApart};
ghost use Rattle.lert_levels.specs.rows.Loading.{OneBreaks};
ghost use Rattle.lert_levels.specs.rows.Rows.{AreFirst};
ghost use Rattle.lert_levels.specs.rows.Young.{AreCheap, AreLight, loosened};
ghost use Rattle.lert_spec.specs.Items.{IsVersion};
ghost use Rattle.lert_spec.specs.Bins.{Bin};
ghost use Rattle.lert_spec.specs.Edges.{capacity};
ghost use Rattle.lert_spec.specs.declared.piece.Piece.{Piece};
ghost use Rattle.lert_levels.specs.Merged.{IsMade, IsFrames};
ghost use Rattle.lert_levels.specs.Ready.{AreStarted, AreReached, HaveLanded, HasMade, CanLand};
ghost use Rattle.lert_levels.specs.Sources.{sources, AreBegun, AreSecure};

use crate::flush::{Bins, merge_all, merge_bins};
use crate::landing::{Landing, end_all};
use crate::parts::lay_parts;
use crate::reading::read_rows;
use crate::rows::{FlushFault, Row, Zero, arrival};
use crate::secure::secure_rows;
use crate::streams::{BinStreams, StreamRoom};
use lert_base::{CountTable, Settings, Totals};
use lert_bay::Bay;
use lert_io::OutOfMemory;
use lert_merge::{Ahead, Order};
use std::alloc::Global;

// A landing of each level on disk, that of level 1 first. Its only error is want of memory.
fn landings_of(alloc: Global, settings: &Settings) -> Result<Vec<Landing>, OutOfMemory>
    ensures landings { IfOk result (λ landings. AreOfLevels settings.now landings.items) }
    ensures len { IfOk result (λ landings. length landings.items ≡ settings.now.levels) }
{
    let levels = settings.numbers().levels as u32;
    let mut landings = Vec::with_capacity(alloc, levels as usize)?;
    for lower in 0..levels {
        landings.push(Landing::new(alloc, settings, lower + 1)?)?;
    }
    Ok(landings)
}

/// Begins for each of the rows the landing of its level at the frame in which the new bin of the flush at position `m` is to
/// stand. It writes nothing.
pub fn start_landings(
    settings: &Settings,
    version: u8,
    m: u64,
    rows: &[Row],
    landings: &mut [Landing],
)
    requires version { IsVersion version }
    requires first { 1 ≤ m }
    requires last { m ≤ capacity settings.now }
    requires rows { AreFirst settings.now rows.now }
    requires landings { AreOfLevels settings.now landings.old }
    requires enough { length rows.now ≤ length landings.old }
    ensures started { AreStarted settings.now version m rows.now landings.new }
    ensures landings { AreOfLevels settings.now landings.new }
    ensures len { length landings.new ≡ length landings.old }
{
    let _valid = settings.numbers();
    for (lower, row) in rows.iter().enumerate() {
        let bin = arrival(settings, m, lower as u32 + 1, row.bins());
        landings[lower].start(version, u32::from(bin.frame));
    }
}

/// Merges bins and ends the landings of their parts: what each took stands in its frame then, and is durable after a sync.
pub fn land_bins<B: Bay, S: Bins<B>, O: Totals>(
    order: &mut Order<B, S>,
    parts: &[Option<usize>],
    landings: &mut [Landing],
    totals: &mut O,
    bay: &mut B,
) -> Result<(), FlushFault>
    requires unread { IsUnread S.Streams order.old }
    requires parts { AreParts parts.now (S.count order.old.streams) (length landings.old) }
    requires room { HaveRoom S.Streams S.version S.width order.old.streams parts.now landings.old }
    requires apart { (from to : ℕ) → S.reads order.old.streams from to → IsOutside landings.old from to }
    requires sure { IfTold (B.files bay.old) (λ seen. S.sure order.old.streams (seen FRAMES)) }
    requires totals { O.took totals.old [] }
    requires landing { IfTold (B.files bay.old) (λ seen. AreLanding landings.old (seen FRAMES)) }
    ensures landed { OnOk result (HaveLanded S.Streams S.version S.width O.took order.old.streams bay.old parts.now landings.old totals.new (B.files bay.new)) }
    ensures homes { map home landings.new ≡ map home landings.old }
    ensures malformed { (at : ℕ) → result ≡ Err (FlushFault.Malformed at) → Breaks S.Streams bay.old order.old.streams at }
    ensures rest { KeepsRest B.Bay (IsOutside landings.old) bay.old bay.new }
    ensures kept { KeepsBay B.Bay bay.old bay.new (IsErrOf result FlushFault.Failed) }
    ensures streams { S.same order.old.streams order.new.streams }
    ensures ahead { order.new.ahead.room ≡ order.old.ahead.room }
{
    merge_bins(order, parts, landings, totals, bay)?;
    end_all(landings, bay)?;
    Ok(())
}

/// What reads the bins of a merge: the memory of their streams, and of what is read ahead.
#[derive(Drop)]
pub struct Reading<T: CountTable> {
    pub(crate) room: StreamRoom<T>,
    pub(crate) ahead: Ahead,
}

impl<T: CountTable> Reading<T> {
    /// Room for the bins of each level. Its only error is want of memory.
    pub fn new(alloc: Global, settings: &Settings) -> Result<Reading<T>, OutOfMemory>
        ensures room { IfOk result (λ reading. reading.room ≡ settings.now) }
        ensures ahead { IfOk result (λ reading. reading.ahead.room ≡ (settings.now.levels + 1) * settings.now.bins) }
    {
        Ok(Reading {
            ahead: Ahead::new(alloc, most_streams(settings))?,
            room: StreamRoom::new(alloc, settings)?,
        })
    }
}

// How many bins a merge reads at most.
fn most_streams(settings: &Settings) -> usize
    ensures { result ≡ (settings.now.levels + 1) * settings.now.bins }
{
    let numbers = settings.numbers();
    (numbers.levels as usize + 1) * numbers.bins as usize
}

// The bins of level 0 and of these rows in one order, of which nothing was read.
fn begin_order<'a, T: CountTable, B: Bay>(
    zero: &'a Zero<T>,
    version: u8,
    rows: &[Row],
    reading: Reading<T>,
) -> Order<B, BinStreams<'a, T>>
    requires same { reading.room ≡ zero.now.settings }
    requires ahead { (zero.now.settings.levels + 1) * zero.now.settings.bins ≤ reading.ahead.room }
    requires rows { AreFirst zero.now.settings rows.now }
    requires version { IsVersion version }
    ensures begun { (young : List Bin) → map (λ bin. bin.pieces) young ≡ map (λ bin. bin.pieces) zero.now.bins → AreCheap version young →
        AreBegun zero.now.settings version (sources young rows.now) result.streams.bins }
    ensures settings { result.streams.settings ≡ zero.now.settings }
    ensures version { result.streams.version ≡ version }
    ensures counts { result.ahead.counts ≡ [] }
    ensures last { result.last ≡ None }
    ensures room { result.ahead.room ≡ reading.ahead.room }
{
    let settings = zero.settings();
    let _valid = settings.numbers();
    let Reading { room, ahead } = reading;
    let mut streams = room.begin(version, zero.tables());
    read_rows(settings, rows, &mut streams);
    Order::new(streams, ahead)
}

// The memory of an order, for the next one.
fn end_order<T: CountTable, B: Bay>(order: Order<B, BinStreams<T>>) -> Reading<T>
    ensures room { result.room ≡ order.entry.streams.settings }
    ensures ahead { result.ahead.room ≡ order.entry.ahead.room }
{
    let (streams, ahead) = order.into_parts();
    Reading {
        room: streams.into_room(),
        ahead,
    }
}

/// What the new bins of a flush are written by: a landing of each level on disk, that of level 1 first, and the part of each
/// stream.
#[derive(Drop)]
pub struct Writing {
    pub(crate) landings: Vec<Landing>,
    pub(crate) parts: Vec<Option<usize>>,
}

impl Writing {
    /// A landing of each level on disk, and room for the parts of the most streams. Its only error is want of memory.
    pub fn new(alloc: Global, settings: &Settings) -> Result<Writing, OutOfMemory>
        ensures { IfOk result (λ writing. CanLand settings.now writing.landings.items (vec_capacity writing.parts)) }
    {
        Ok(Writing {
            parts: Vec::with_capacity(alloc, most_streams(settings))?,
            landings: landings_of(alloc, settings)?,
        })
    }
}

/// Merges level 0 and the rows that the flush at position `m` reaches, and writes the new bins into their frames meanwhile.
/// `totals` takes each tail with its sum. Each frame that is read is made sure of before anything is written. There is a
/// landing for each of the rows and more, that of level 1 first. It takes no memory.
pub fn merge_rows<T: CountTable, B: Bay, O: Totals>(
    zero: &Zero<T>,
    version: u8,
    m: u64,
    rows: &[Row],
    mut reading: Reading<T>,
    landings: &mut [Landing],
    parts: &mut Vec<Option<usize>>,
    totals: &mut O,
    bay: &mut B,
) -> (Reading<T>, Result<(), FlushFault>)
    requires same { reading.room ≡ zero.now.settings }
    requires ahead { (zero.now.settings.levels + 1) * zero.now.settings.bins ≤ reading.ahead.room }
    requires landings { AreOfLevels zero.now.settings landings.old }
    requires enough { length rows.now ≤ length landings.old }
    requires parts { (zero.now.settings.levels + 1) * zero.now.settings.bins ≤ vec_capacity parts.old }
    requires first { 1 ≤ m }
    requires last { m ≤ capacity zero.now.settings }
    requires version { IsVersion version }
    requires light { AreLight version zero.now.bins }
    requires reached { AreReached zero.now.settings version m zero.now.bins rows.now }
    requires none_taken { O.took totals.old [] }
    ensures room { result.0.room ≡ zero.now.settings }
    ensures ahead { result.0.ahead.room ≡ reading.ahead.room }
    ensures landings { AreOfLevels zero.now.settings landings.new }
    ensures count { length landings.new ≡ length landings.old }
    ensures parts { vec_capacity parts.old ≤ vec_capacity parts.new }
    ensures made { OnOk result.1 (HasMade zero.now.settings version m zero.now.bins rows.now (O.took totals.new) (B.files bay.old) (B.files bay.new)) }
    ensures malformed { IfTold (B.files bay.old) (λ seen. (at : ℕ) → IsErrOf result.1 (FlushFault.Malformed at) →
        OneBreaks zero.now.settings version rows.now (seen FRAMES) at) }
    ensures malformed_after { IfTold (B.files bay.new) (λ after. (at : ℕ) → IsErrOf result.1 (FlushFault.Malformed at) →
        OneBreaks zero.now.settings version rows.now (after FRAMES) at) }
    ensures rest { KeepsRest B.Bay (AreApart zero.now.settings version m rows.now) bay.old bay.new }
    ensures kept { KeepsBay B.Bay bay.old bay.new (IsErrOf result.1 FlushFault.Failed) }
{
    if let Err(fault) = secure_rows(zero.settings(), version, rows, &mut reading.room, bay) {
        return (reading, Err(fault));
    }
    merge_secure(
        zero, version, m, rows, reading, landings, parts, totals, bay,
    )
}

// The same where each frame is secure.
fn merge_secure<T: CountTable, B: Bay, O: Totals>(
    zero: &Zero<T>,
    version: u8,
    m: u64,
    rows: &[Row],
    reading: Reading<T>,
    landings: &mut [Landing],
    parts: &mut Vec<Option<usize>>,
    totals: &mut O,
    bay: &mut B,
) -> (Reading<T>, Result<(), FlushFault>)
    requires same { reading.room ≡ zero.now.settings }
    requires ahead { (zero.now.settings.levels + 1) * zero.now.settings.bins ≤ reading.ahead.room }
    requires landings { AreOfLevels zero.now.settings landings.old }
    requires enough { length rows.now ≤ length landings.old }
    requires parts { (zero.now.settings.levels + 1) * zero.now.settings.bins ≤ vec_capacity parts.old }
    requires first { 1 ≤ m }
    requires last { m ≤ capacity zero.now.settings }
    requires version { IsVersion version }
    requires light { AreLight version zero.now.bins }
    requires reached { AreReached zero.now.settings version m zero.now.bins rows.now }
    requires secure { IfTold (B.files bay.old) (λ seen. AreSecure zero.now.settings version (seen FRAMES) 1 rows.now) }
    requires none_taken { O.took totals.old [] }
    ensures room { result.0.room ≡ zero.now.settings }
    ensures ahead { result.0.ahead.room ≡ reading.ahead.room }
    ensures landings { AreOfLevels zero.now.settings landings.new }
    ensures count { length landings.new ≡ length landings.old }
    ensures parts { vec_capacity parts.old ≤ vec_capacity parts.new }
    ensures made { OnOk result.1 (HasMade zero.now.settings version m zero.now.bins rows.now (O.took totals.new) (B.files bay.old) (B.files bay.new)) }
    ensures malformed { IfTold (B.files bay.old) (λ seen. (at : ℕ) → IsErrOf result.1 (FlushFault.Malformed at) →
        OneBreaks zero.now.settings version rows.now (seen FRAMES) at) }
    ensures malformed_after { IfTold (B.files bay.new) (λ after. (at : ℕ) → IsErrOf result.1 (FlushFault.Malformed at) →
        OneBreaks zero.now.settings version rows.now (after FRAMES) at) }
    ensures rest { KeepsRest B.Bay (AreApart zero.now.settings version m rows.now) bay.old bay.new }
    ensures kept { KeepsBay B.Bay bay.old bay.new (IsErrOf result.1 FlushFault.Failed) }
{
    let settings = zero.settings();
    let _valid = settings.numbers();
    start_landings(settings, version, m, rows, landings);
    lay_parts(settings, m, zero.len(), rows, parts);
    let mut order = begin_order(zero, version, rows, reading);
    let first = &mut landings[..rows.len()];
    let landed = land_bins(&mut order, parts, first, totals, bay);
    (end_order(order), landed)
}

/// Merges level 0 and the rows, and writes nothing. `totals` takes each tail with its sum. It takes no memory.
pub fn count_rows<T: CountTable, B: Bay, O: Totals>(
    zero: &Zero<T>,
    version: u8,
    rows: &[Row],
    reading: Reading<T>,
    totals: &mut O,
    bay: &mut B,
) -> (Reading<T>, Result<(), FlushFault>)
    requires same { reading.room ≡ zero.now.settings }
    requires ahead { (zero.now.settings.levels + 1) * zero.now.settings.bins ≤ reading.ahead.room }
    requires rows { AreFirst zero.now.settings rows.now }
    requires version { IsVersion version }
    requires none_taken { O.took totals.old [] }
    ensures room { result.0.room ≡ zero.now.settings }
    ensures ahead { result.0.ahead.room ≡ reading.ahead.room }
    ensures made { OnOk result.1 (IsMade zero.now.settings version (loosened zero.now.bins) rows.now [] (O.took totals.new) (IsFrames (B.files bay.old)) []) }
    ensures malformed { IfTold (B.files bay.old) (λ seen. (at : ℕ) → IsErrOf result.1 (FlushFault.Malformed at) →
        OneBreaks zero.now.settings version rows.now (seen FRAMES) at) }
    ensures only_reads { OnlyReads B.Bay bay.old bay.new (IsErrOf result.1 FlushFault.Failed) }
{
    let settings = zero.settings();
    let _valid = settings.numbers();
    let _young = zero.len();
    let _tables = zero.tables();
    let mut order = begin_order(zero, version, rows, reading);
    let counted = count_bins(&mut order, totals, bay);
    (end_order(order), counted)
}

// Merges bins of which none lands.
fn count_bins<B: Bay, S: Bins<B>, O: Totals>(
    order: &mut Order<B, S>,
    totals: &mut O,
    bay: &mut B,
) -> Result<(), FlushFault>
    requires unread { IsUnread S.Streams order.old }
    requires wide { (widths : List ℕ) × AreWide S.width order.old.streams widths (S.count order.old.streams) }
    requires totals { O.took totals.old [] }
    ensures counted { OnOk result ((lists : List (List Piece)) × AreTaken S.Streams S.version S.width O.took order.old.streams bay.old totals.new lists) }
    ensures malformed { (at : ℕ) → IsErrOf result (FlushFault.Malformed at) → Breaks S.Streams bay.old order.old.streams at }
    ensures only_reads { OnlyReads B.Bay bay.old bay.new (IsErrOf result FlushFault.Failed) }
    ensures streams { S.same order.old.streams order.new.streams }
    ensures ahead { order.new.ahead.room ≡ order.old.ahead.room }
{
    merge_all(order, totals, bay)?;
    Ok(())
}
