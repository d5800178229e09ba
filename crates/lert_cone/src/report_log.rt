//! The log of a cone: a record for each flush, and one at the end.

ghost use Rattle.std.specs.Prelude.{◌≡◌, ◌+◌, ◌<◌, ◌≤◌, ◌^◌, length};
ghost use Rattle.lert_bay.specs.Files.{IfTold};
ghost use Rattle.lert_bay.specs.declared.bay.TheConstants.{LOG};
ghost use Rattle.lert_gatelog.specs.Gated.{IsClosed};
ghost use Rattle.lert_gatelog.specs.Kept.{InEach};
ghost use Rattle.lert_spec.specs.Edges.{capacity};
ghost use Rattle.lert_cone.specs.Appends.{AppendsRecord};
ghost use Rattle.lert_cone.specs.JournalPlaces.{places_from, places_at_start, HasPassed};
ghost use Rattle.lert_cone.specs.Record.{payload_len};

use crate::journal_places::{JournalPlace, JournalPlaces};
use lert_base::{Report, Settings};
use lert_bay::{Bay, LOG};
use lert_gatelog::GateLog;
use lert_io::Failed;
use lert_reports::{LogKind, write_log};
use std::marker::Model;

/// A log at its closed gate, how many reports its records name, and the places in the journal that the next one may
/// name. Seen as that, with the greatest length of a payload.
#[derive(Drop)]
pub struct ReportLog {
    log: GateLog,
    named: usize,
    places: JournalPlaces,
}

impl Model for ReportLog {
    ghost use Rattle.std.specs.Prelude.{◌≡◌};
    ghost use Rattle.lert_bay.specs.declared.bay.TheConstants.{LOG};
    ghost use Rattle.lert_cone.specs.Record.{LogPlace};

    ghost Value = { LogPlace };

    ghost view = { λ l. record { gate = l.log.gate; most = l.log.most; named = l.named; places = l.places } };

    ghost invariant = { λ l. l.log.file ≡ LOG };
}

impl ReportLog {
    /// The log of a cone of these settings at its first gate: no record names a report yet, and no item is passed.
    pub fn new(log: GateLog, settings: &Settings) -> ReportLog
        requires { log.file ≡ LOG }
        ensures { result ≡ record { gate = log.gate; most = log.most; named = 0; places = places_at_start settings.now } }
    {
        ReportLog {
            log,
            named: 0,
            places: JournalPlaces::new(settings, 0),
        }
    }

    /// The log at a closed gate, whose records name so many reports. So many items are passed, unseen. Nothing is read.
    pub fn at(settings: &Settings, gate: u64, most: u32, named: usize, passed: u64) -> ReportLog
        requires { passed ≤ capacity settings.now }
        ensures { result ≡ record { gate = gate; most = most; named = named; places = places_from settings.now passed } }
    {
        ReportLog {
            log: GateLog::at_gate(LOG, gate, most),
            named,
            places: JournalPlaces::new(settings, passed),
        }
    }

    /// The place of the gate that the log stands at.
    pub fn gate(&self) -> u64
        ensures { result ≡ self.now.gate }
    {
        self.log.gate()
    }

    /// Passes the items up to position `last`, which are those of the journal's record at `place`.
    pub fn pass(&mut self, last: u64, place: JournalPlace)
        requires forward { self.old.places.passed ≤ last }
        requires within { last ≤ capacity self.old.places.settings }
        ensures rest { self.new ≡ record self.old { places = self.new.places } }
        ensures passed { HasPassed last place self.old.places self.new.places }
    {
        self.places.pass(last, place);
    }

    /// Appends a record behind `n0` events: it names the journal's record that holds the first item of level 0, the frames
    /// of the directory, and the reports behind those that earlier records name. `buffer` holds five bytes more than the
    /// greatest payload; any bytes are in it afterwards. After `Failed` the log stands where it stood. Four calls of the
    /// bay, two of them syncs. Takes no memory.
    pub fn append<B: Bay>(
        &mut self,
        bay: &mut B,
        kind: LogKind,
        n0: u64,
        directory: &[u8],
        reports: &[Report],
        buffer: &mut [u8],
    ) -> Result<(), Failed>
        requires named { self.old.named ≤ length reports.now }
        requires fits { payload_len self.old directory.now reports.now ≤ self.old.most }
        requires room { self.old.most + 5 ≤ length buffer.old }
        requires reach { self.old.gate + self.old.most + 6 < 2 ^ 63 }
        requires closed { IfTold (B.files bay.old) (λ _. InEach (B.leaves bay.old) LOG (λ bytes. IsClosed bytes self.old.gate)) }
        ensures { AppendsRecord B.Bay kind n0 directory.now reports.now bay.old bay.new self.old self.new result }
    {
        // Its clause bounds the payload's length.
        let _ = self.log.gate();
        let new = &reports[self.named..];
        let place = self.places.oldest();
        let len = write_log(kind, n0, place.gate, place.first, directory, new, buffer);
        self.log.append(bay, &buffer[..len])?;
        // Behind the append: one that failed names these reports again.
        self.named = reports.len();
        Ok(())
    }
}
