//! The counts and reports of a cone: level 0 in memory, the older levels on its bay.

ghost use Rattle.std.specs.Prelude.{◌≡◌, ◌≢◌, ℕ, ◌-◌, ◌^◌, ◌<◌, ◌≤◌, false, [], All, length, replicate, IsTrue, IsFalse};
ghost use Rattle.lert_bay.specs.Files.{Files};
ghost use Rattle.lert_spec.specs.Edges.{key_limit, edge, capacity};
ghost use Rattle.lert_spec.specs.Mix.{cone_of};
ghost use Rattle.lert_spec.specs.Counts.{weighed};
ghost use Rattle.lert_spec.specs.Items.{most_weight, AreOfVersion, IsVersion};
ghost use Rattle.lert_spec.proofs.LookLaws.{HaveKeys};
ghost use Rattle.lert_spec.proofs.TailLaws.{IsPartOf};
ghost use Rattle.lert_levels.specs.rows.Rows.{IsAt, AreRows, directory_text};

use crate::due::Due;
use crate::unread::Unread;
use flush::{flush_behind, flush_from, give_totals};
use lert_base::{CountTable, Item, Settings};
use lert_bay::{Bay, FRAMES, LOG};
use lert_io::{Failed, Seen};
use lert_levels::{FlushFault, Levels, Zero};
use lert_mixer::tail_of;
use lert_reports::ReportStore;
use std::marker::{Brand, Model};
use totals::{begin, is_full, scan_into};

mod flush;
mod recount;
mod totals;

/// Why an item isn't taken, or the end isn't reached. What then stands in memory is of no use.
#[derive(Clone, Copy, Debug, PartialEq, Eq)]
pub enum TakeFault {
    /// A call of the bay failed.
    Failed,
    /// A frame left its format at this byte of its file, or one report more than the report room takes was due.
    Unsound { file: u8, at: u64 },
}

impl From<FlushFault> for TakeFault {
    ghost use Rattle.lert_cone.specs.Tally.{take_fault};

    ghost from_gives = { λ fault taken. taken ≡ take_fault fault };

    fn from(fault: FlushFault) -> TakeFault {
        match fault {
            FlushFault::Failed => TakeFault::Failed,
            FlushFault::Malformed { at } => TakeFault::Unsound { file: FRAMES, at },
        }
    }
}

impl From<Failed> for TakeFault {
    ghost use Rattle.lert_cone.specs.declared.tally.TakeFault.TheVariants.{Failed as CallFailed};

    ghost from_gives = { λ _ fault. fault ≡ CallFailed };

    fn from(_error: Failed) -> TakeFault {
        TakeFault::Failed
    }
}

/// A cone's items as counts: those of level 0 in memory, the others in the frames of its bay; and the reports that they
/// bring. Seen as its items, level 0, the rows of the older levels, and the reports. The first items may be ones that weren't
/// read.
///
/// An item costs a place in level 0. At a flush position it costs a flush.
#[derive(Drop)]
pub struct Tally<B: Bay, T: CountTable> {
    settings: Settings,
    // That of the cone's files.
    version: u8,
    cone: u32,
    zero: Zero<T>,
    levels: Levels<T>,
    // None only while a merge gives them its totals.
    due: Option<Due<T>>,
    unread: Unread<B>,
    taken: Seen<Item>,
    len: u64,
    // The least flush position from that of the last key on, kept so that no key divides.
    flush: u64,
    closed: bool,
}

impl<B: Bay, T: CountTable> Model for Tally<B, T> {
    ghost use Rattle.std.specs.Prelude.{◌++◌};
    ghost use Rattle.lert_cone.specs.Tally.{Tallied, IsTally, due_in};

    ghost Value = { Tallied };

    ghost view = { λ t. record {
      listing = record { settings = t.settings; version = t.version; cone = t.cone; events = t.unread ++ t.taken; closed = t.closed };
      young = t.zero;
      rows = t.levels.rows;
      due = due_in t.due;
    } };

    ghost invariant = { λ t. IsTally (record {
      listing = record { settings = t.settings; version = t.version; cone = t.cone; events = t.unread ++ t.taken; closed = t.closed };
      young = t.zero;
      rows = t.levels.rows;
      due = due_in t.due;
    }) t.levels t.due t.len t.flush };
}

impl<B: Bay, T: CountTable> Tally<B, T> {
    ghost use Rattle.lert_cone.specs.Tally.{IsCounted, IsHeld, IsRecounted};
    ghost use Rattle.lert_cone.specs.Counts.{CountsEnd, CountsItem};

    /// No item yet, in files of `version`.
    pub fn new(
        settings: &Settings,
        version: u8,
        cone: u32,
        zero: Zero<T>,
        levels: Levels<T>,
        store: ReportStore<T>,
        unread: Unread<B>,
    ) -> Tally<B, T>
        requires named { cone < 2 ^ settings.now.cone_bits }
        requires known { IsVersion version }
        requires zero { zero ≡ record { settings = settings.now; from = 0; to = 0; bins = [] } }
        requires levels { levels ≡ record { settings = settings.now; version = version; rows = replicate settings.now.levels [] } }
        requires store { store ≡ record { settings = settings.now; reports = [] } }
        requires unread { unread ≡ [] }
        ensures listing { result.listing ≡ record { settings = settings.now; version = version; cone = cone; events = []; closed = false } }
        ensures rows { result.rows ≡ replicate settings.now.levels [] }
        ensures none { result.due.reports ≡ [] }
        ensures counted { IsCounted result }
        ensures held { (seen : Files) → IsHeld result seen }
    {
        let _valid = settings.numbers();
        Tally::adopted(settings, version, cone, zero, levels, store, unread, false)
    }

    /// The items that aren't read, none of which level 0 has, over levels and reports as a log's last record has them.
    /// `recount` takes the items behind them up to that record again.
    pub fn adopted(
        settings: &Settings,
        version: u8,
        cone: u32,
        zero: Zero<T>,
        levels: Levels<T>,
        store: ReportStore<T>,
        unread: Unread<B>,
        closed: bool,
    ) -> Tally<B, T>
        requires named { cone < 2 ^ settings.now.cone_bits }
        requires known { IsVersion version }
        requires zero { zero ≡ record { settings = settings.now; from = 0; to = 0; bins = [] } }
        requires levels { levels.settings ≡ settings.now }
        requires version { levels.version ≡ version }
        requires are { AreRows settings.now levels.rows }
        requires store { store.settings ≡ settings.now }
        requires own { All (λ report. cone_of settings.now report.key ≡ cone) store.reports }
        requires keys { HaveKeys settings.now weighed unread }
        requires keys_own { IsPartOf weighed settings.now cone unread }
        requires light { AreOfVersion version unread }
        requires within { length unread ≤ capacity settings.now }
        ensures listing { result.listing ≡ record { settings = settings.now; version = version; cone = cone; events = unread; closed = closed } }
        ensures young { result.young ≡ zero }
        ensures rows { result.rows ≡ levels.rows }
        ensures reports { result.due.reports ≡ store.reports }
        ensures recounted { (n0 : ℕ) → n0 ≤ capacity settings.now → IsAt settings.now n0 levels.rows → length unread ≤ edge settings.now 0 n0 → IsRecounted result n0 }
    {
        let _valid = settings.numbers();
        let len = unread.len();
        Tally {
            settings: *settings,
            version,
            cone,
            zero,
            levels,
            due: Some(Due::new(settings, cone, store)),
            unread,
            taken: Seen::new(),
            len,
            flush: flush_from(settings, len),
            closed,
        }
    }

    /// The settings.
    pub fn settings(&self) -> &Settings
        ensures { result.now ≡ self.now.listing.settings }
    {
        &self.settings
    }

    /// The version of its files: 1, in which each item weighs 1, or 2.
    pub fn version(&self) -> u8
        ensures value { result ≡ self.now.listing.version }
        ensures known { IsVersion result }
    {
        self.version
    }

    /// The number of the cone.
    pub fn cone(&self) -> u32
        ensures { result ≡ self.now.listing.cone }
    {
        self.cone
    }

    /// The reports, in the order of their positions.
    pub fn store(&self) -> &ReportStore<T>
        ensures { result.now ≡ record { settings = self.now.due.settings; reports = self.now.due.reports } }
    {
        match &self.due {
            Some(due) => due.store(),
            None => unreachable!(),
        }
    }

    /// How many items there are.
    pub fn len(&self) -> u64
        ensures { result ≡ length self.now.listing.events }
    {
        self.len
    }

    /// For each level from 1 on the number of its bins, and behind it the frames in which they stand, oldest first.
    pub fn directory(&self) -> &[u8]
        ensures { result.now ≡ directory_text self.now.rows }
    {
        self.levels.directory()
    }

    /// Whether the last item stands at a flush position.
    pub fn is_flushed(&self) -> bool
        requires some { 0 < length self.now.listing.events }
        requires fits { length self.now.listing.events ≤ capacity self.now.listing.settings }
        ensures flushed { IsTrue result → edge self.now.listing.settings 0 (length self.now.listing.events) ≢ edge self.now.listing.settings 0 (length self.now.listing.events - 1) }
        ensures still { IsFalse result → edge self.now.listing.settings 0 (length self.now.listing.events) ≡ edge self.now.listing.settings 0 (length self.now.listing.events - 1) }
    {
        self.len == self.flush
    }

    /// Takes the next item: counts it in level 0, flushes where its position is a flush position, and lists the reports that
    /// are due with it.
    pub fn take(&mut self, bay: &mut B, item: Item) -> Result<(), TakeFault>
        requires still { self.old.listing.closed ≡ false }
        requires own { cone_of self.old.listing.settings item.key ≡ self.old.listing.cone }
        requires below { item.key < key_limit self.old.listing.settings }
        requires some { 1 ≤ item.weight }
        requires light { item.weight ≤ most_weight self.old.listing.version }
        requires fits { length self.old.listing.events < capacity self.old.listing.settings }
        requires counted { IsCounted self.old }
        ensures { CountsItem B.Bay item bay.old bay.new self.old self.new result }
    {
        let m = self.len + 1;
        let tail = tail_of(&self.settings, item.key);
        let flush = flush_behind(&self.settings, self.len, self.flush);
        // Into level 0 first: a flush at this position counts the item.
        self.zero.add(tail, item.weight, m);
        begin(&mut self.due, m);
        give_totals::<B, T, Brand>(
            &mut self.zero,
            &mut self.levels,
            bay,
            tail,
            m,
            m == flush,
            &mut self.due,
        )?;
        if is_full(&self.due) {
            return Err(TakeFault::Unsound { file: LOG, at: 0 });
        }
        self.taken.push(&item);
        self.len = m;
        self.flush = flush;
        Ok(())
    }

    /// Ends the cone: scans all levels, and lists the reports that are left. It writes nothing.
    pub fn finish(&mut self, bay: &mut B) -> Result<(), TakeFault>
        requires still { self.old.listing.closed ≡ false }
        requires counted { IsCounted self.old }
        ensures { CountsEnd B.Bay bay.old bay.new self.old self.new result }
    {
        let Some(mut due) = self.due.take() else {
            unreachable!()
        };
        due.begin(self.len);
        let (due, result) = scan_into::<B, T, Brand>(&mut self.levels, bay, &self.zero, due);
        let is_full = due.is_full();
        self.due = Some(due);
        result?;
        if is_full {
            return Err(TakeFault::Unsound { file: LOG, at: 0 });
        }
        self.closed = true;
        Ok(())
    }
}
