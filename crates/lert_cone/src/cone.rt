//! A cone over its files.

ghost use Rattle.std.specs.Prelude.{◌≡◌, ℕ, ◌+◌, ◌<◌, ◌≤◌, ◌^◌, ◌↔◌, ◌++◌, [], ◌∷◌, true, false, List, length, replicate, Some, None, Err, IfOk, IfErr, MatchResult, OnOk, OnErr, IsErrOf};
ghost use Rattle.lert_spec.specs.Counts.{weighed, weight_of};
ghost use Rattle.lert_spec.specs.Items.{keys_in};
ghost use Rattle.lert_cone.specs.History.{most_version};
ghost use Rattle.lert_base.specs.Entries.{packet_of};
ghost use Rattle.lert_base.specs.Packet.{Packet, events_of};
ghost use Rattle.lert_bay.specs.Files.{Files, IfTold, Turns};
ghost use Rattle.lert_bay.specs.Images.{KeepsImages};
ghost use Rattle.lert_bay.specs.Kept.{KeepsBay};
ghost use Rattle.lert_bay.specs.declared.bay.TheConstants.{JOURNAL};
ghost use Rattle.lert_gatelog.specs.Gated.{next_gate};
ghost use Rattle.lert_reports.specs.Log.{most_record};
ghost use Rattle.lert_io.specs.Fault.{HasRisen};
ghost use Rattle.lert_journal.specs.Payload.{IsJournaled, payload_of};
ghost use Rattle.lert_spec.specs.Edges.{capacity, weight_room};
ghost use Rattle.lert_spec.specs.Timely.{IsTimelySoFarIn};
ghost use Rattle.lert_cone.specs.InStep.{AreNew};
ghost use Rattle.lert_cone.specs.JournalPlaces.{places_at_start};
ghost use Rattle.lert_cone.specs.Room.{IsRoom, weight_from};
ghost use Rattle.lert_levels.specs.rows.Checked.{IsWeightOf};
ghost use Rattle.lert_cone.specs.Sound.{AreEmpty, FramesStay, IsSoundOver};
ghost use Rattle.lert_cone.specs.Stands.{StandsFor, WasSound, Answers, is_broken, is_finished, is_refusal, broken_by, version_of};
ghost use Rattle.lert_cone.specs.Refuses.{first_weighed};
ghost use Rattle.lert_cone.specs.Steps.{StepsCone};
ghost use Rattle.lert_cone.specs.Wrote.{Anything};
ghost use Rattle.lert_journal.specs.Payload.{most_payload};

use crate::acked::Acked;
use crate::headers::{MOST_VERSION, is_fresh, write_headers};
use crate::keys::take_packet;
use crate::refusal::{CreateFault, CreateRefused};
use crate::report_log::ReportLog;
use crate::room::ConeRoom;
use crate::state::ConeState;
use crate::tally::{TakeFault, Tally};
use lert_base::{ConeFault, CountTable, Entry, Settings};
use lert_bay::Bay;
use lert_gatelog::GateLog;
use lert_reports::LogPoint;
use std::marker::Model;
use std::snapshot::Snapshot;

mod end;
mod held;
mod refusing;
mod replaying;
mod terms;

pub use replaying::ReplayingCone;
pub use terms::ConeTerms;

/// A cone that acknowledges a packet only when its record is on the disk.
///
/// It stands for the list of the packets that it acknowledged. A packet costs the four calls of one append, two of
/// them syncs, a place in level 0 for each of its items, and one flush and one append to the log at each flush position.
#[derive(Drop)]
pub struct Cone<B: Bay, T: CountTable> {
    bay: B,
    made: Snapshot<B>,
    tally: Tally<B, T>,
    journal: GateLog,
    log: ReportLog,
    last: LogPoint,
    entry: Entry,
    buffer: Vec<u8>,
    events: u64,
    weight: u64,
    state: ConeState,
    over: Option<Snapshot<Entry>>,
}

impl<B: Bay, T: CountTable> Model for Cone<B, T> {
    ghost use Rattle.std.specs.Prelude.{length};
    ghost use Rattle.lert_cone.specs.Stands.{Standing, IsCone, over_of};

    ghost Value = { Standing B };

    ghost view = { λ c. record {
      bay = c.bay;
      made = c.made.value;
      listing = c.tally.listing;
      rows = c.tally.rows;
      reports = c.tally.due.reports;
      events = c.events;
      weight = c.weight;
      state = c.state;
      over = over_of c.over;
      gate = c.journal.gate;
      log = c.log;
      last = c.last;
    } };

    ghost invariant = { λ c. IsCone B.files B.leaves B.faults B.mark (record {
      bay = c.bay;
      made = c.made.value;
      listing = c.tally.listing;
      rows = c.tally.rows;
      reports = c.tally.due.reports;
      events = c.events;
      weight = c.weight;
      state = c.state;
      over = over_of c.over;
      gate = c.journal.gate;
      log = c.log;
      last = c.last;
    }) c.tally c.journal (length c.buffer.items) c.entry.keys.room };
}

impl<B: Bay, T: CountTable> Cone<B, T> {
    /// A cone without a packet, over a room as `new` made it: writes and syncs the headers and the first gates of the
    /// journal and the log, of files of version 2. Takes no memory. A refusal hands the bay and the room back; after
    /// `Failed` any bytes may stand in these two files.
    pub fn create(
        room: ConeRoom<T>,
        cone: u32,
        mut bay: B,
    ) -> Result<Cone<B, T>, CreateRefused<B, T>>
        requires named { cone < 2 ^ room.settings.cone_bits }
        requires room { IsRoom room.settings room.zero room.levels room.store room.entry.keys (length room.buffer.items) }
        ensures made { IfOk result (λ c. c ≡ record {
          bay = c.bay;
          made = c.bay;
          listing = record { settings = room.settings; version = most_version; cone = cone; events = []; closed = false };
          rows = replicate room.settings.levels [];
          reports = [];
          events = 0;
          weight = 0;
          state = ConeState.Running;
          over = None;
          gate = 32;
          log = record { gate = 8; most = most_record room.settings; named = 0; places = places_at_start room.settings };
          last = record { n0 = 0; offset = 32; first = 1; closed = false; log_end = 8; version = most_version; weight = 0 };
        }) }
        ensures was_sound { IfOk result (λ c. WasSound B.files c) }
        ensures stands_for { IfOk result (λ c. StandsFor B.files B.leaves B.faults c []) }
        ensures frames { IfOk result (λ c. Turns FramesStay (B.files bay) (B.files c.bay)) }
        ensures kept { MatchResult result (λ c. KeepsBay B.Bay bay c.bay ⊥) (λ refused. KeepsBay B.Bay bay refused.bay (refused.fault ≡ CreateFault.Failed)) }

        // Where the bay tells its files, Ok comes only where all are empty, and NotFresh only where one isn't.
        ensures fresh { IfTold (B.files bay) (λ seen. OnOk result (AreEmpty seen)) }
        ensures not_fresh { IfTold (B.files bay) (λ seen. IfErr result (λ refused. refused.fault ≡ CreateFault.NotFresh → AreEmpty seen → ⊥)) }

        // Nothing is written but into empty files.
        ensures unwritten { IfTold (B.files bay) (λ seen. IfErr result (λ refused. (AreEmpty seen → ⊥) →
            (B.files refused.bay ≡ B.files bay) × KeepsImages (B.leaves bay) (B.leaves refused.bay))) }
        ensures handed_back { IfErr result (λ refused. (refused.room ≡ room) × Turns FramesStay (B.files bay) (B.files refused.bay)) }
    {
        match begin(&mut bay, &room.settings, cone) {
            Ok((journal, log)) => {
                let (tally, entry, buffer) = room.into_parts(&bay, cone);
                Ok(Cone {
                    made: Snapshot::of(&bay),
                    bay,
                    tally,
                    journal,
                    last: LogPoint::without_record(log.gate(), MOST_VERSION),
                    log,
                    entry,
                    buffer,
                    events: 0,
                    weight: 0,
                    state: ConeState::Running,
                    over: None,
                })
            }
            Err(fault) => Err(CreateRefused { fault, bay, room }),
        }
    }

    /// Takes the packet of an entry, whose items weigh 1 to 255 each: appends it to the journal, and then takes its items,
    /// one after another. At a flush position the log gets a record. Ok comes when the packet is on the disk and its items
    /// are counted. No clause tells in which order journal and memory take a packet without a flush, since memory is lost
    /// with the machine. What it says of its refusals, of a fault in the middle and of the bay is what each call says that
    /// steps a cone on: `StepsCone`. It refuses before its first step, tested in this order: `Closed` or `Broken`,
    /// `CapacityFull`, `WeightFull`, and `OldJournal`, where its files are of version 1 and an item weighs another amount
    /// than 1.
    pub fn admit(&mut self, entry: &Entry) -> Result<Acked, ConeFault>
        requires fits { IsJournaled most_version self.old.listing.settings self.old.listing.cone (packet_of entry.now) }

        // Ok makes the list into the list and the packet.
        ensures stands_for { OnOk result ((h : List Packet) → StandsFor B.files B.leaves B.faults self.old h →
            StandsFor B.files B.leaves B.faults self.new (h ++ packet_of entry.now ∷ [])) }
        ensures answers { IfOk result (λ acked. (h : List Packet) → StandsFor B.files B.leaves B.faults self.old h →
            Answers B.files self.old h (packet_of entry.now) acked) }
        ensures acked { IfOk result (λ acked. acked ≡ record {
          from = self.old.events + 1;
          to = self.old.events + length entry.now.keys.items;
          reports = length self.new.reports;
        }) }
        ensures taken { OnOk result (self.new ≡ record self.old {
          bay = self.new.bay;
          listing = record self.old.listing { events = self.old.listing.events ++ entry.now.keys.items };
          rows = self.new.rows;
          reports = self.new.reports;
          events = self.old.events + length entry.now.keys.items;
          weight = self.old.weight + weight_of weighed entry.now.keys.items;
          gate = next_gate self.old.gate (payload_of self.old.listing.version (packet_of entry.now));
          log = self.new.log;
        }) }

        // After Ok each key that has reached the threshold is reported soon enough, or may still wait, and none stands there twice.
        ensures in_time_so_far { OnOk result ((h : List Packet) → StandsFor B.files B.leaves B.faults self.old h → WasSound B.files self.old →
            IfTold (B.files self.old.bay) (λ _. IsTimelySoFarIn weighed self.old.listing.settings.threshold self.old.listing.settings.bins
            (events_of (h ++ packet_of entry.now ∷ [])) self.new.reports)) }

        // A refusal before the first step leaves all, and any other error the lists.
        ensures step { StepsCone B.Bay self.old self.new result }
        ensures broke { IfErr result (λ fault. is_refusal fault ≡ false → self.new ≡ record self.old {
          bay = self.new.bay;
          listing = record self.old.listing { events = self.new.listing.events };
          rows = self.new.rows;
          reports = self.new.reports;
          state = self.new.state;
          over = Some (packet_of entry.now);
          gate = self.new.gate;
          log = self.new.log;
        }) }

        // CapacityFull comes exactly where a running cone has no place for so many items.
        ensures full { (n len : ℕ) → (result ≡ Err (ConeFault.CapacityFull n len)) ↔
            ((self.old.state ≡ ConeState.Running) × (n ≡ self.old.events) × (len ≡ length entry.now.keys.items)
            × (capacity self.old.listing.settings < n + len)) }

        // WeightFull comes exactly where a running cone has a place for them, and doesn't take so much weight.
        ensures weight_full { (weight more : ℕ) → (result ≡ Err (ConeFault.WeightFull weight more)) ↔
            ((self.old.state ≡ ConeState.Running) × (weight ≡ self.old.weight) × (more ≡ weight_of weighed entry.now.keys.items)
            × (self.old.events + length entry.now.keys.items ≤ capacity self.old.listing.settings)
            × (weight_room self.old.listing.settings < weight + more)) }

        // OldJournal comes exactly where it takes so much, and its files can't say what an item weighs: it names the first such one.
        ensures old_journal { (place : ℕ) → (result ≡ Err (ConeFault.OldJournal place)) ↔
            ((self.old.state ≡ ConeState.Running)
            × (self.old.events + length entry.now.keys.items ≤ capacity self.old.listing.settings)
            × (self.old.weight + weight_of weighed entry.now.keys.items ≤ weight_room self.old.listing.settings)
            × (version_of self.old ≡ 1) × (first_weighed entry.now.keys.items ≡ Some place)) }

        // In each image of each moment of the call the files are sound for the list, or for the list and the packet.
        ensures each_moment { is_broken self.old.state ≡ false → WasSound B.files self.old → IfTold (B.files self.old.bay) (λ _. (h : List Packet) →
            StandsFor B.files B.leaves B.faults self.old h → (image : Files) →
            B.left_since self.new.bay (B.moment self.old.bay) image →
            IsSoundOver self.old.listing.settings self.old.listing.cone h (Some (packet_of entry.now)) image) }
    {
        // The tests first: a packet that is refused leaves cone and files as they were.
        let more = self.test(entry)?;
        if let Err(fault) = take_packet(
            &mut self.tally,
            &mut self.log,
            &mut self.journal,
            &mut self.bay,
            entry,
            &mut self.buffer,
        ) {
            self.over = Some(Snapshot::of(entry));
            self.state = broken_by(fault);
            return Err(ConeFault::from(fault));
        }
        // Acknowledged only here: the packet is on the disk and its items are counted.
        let from = self.events + 1;
        self.events += entry.keys.len() as u64;
        self.weight += more;
        Ok(Acked {
            from,
            to: self.events,
            reports: self.tally.store().len() as u64,
        })
    }

    /// How many items the packets have that it acknowledged.
    pub fn events(&self) -> u64
        ensures count { result ≡ self.now.events }
        ensures within { result ≤ capacity self.now.listing.settings }
        ensures memory { is_broken self.now.state ≡ false → result ≡ length self.now.listing.events }
    {
        self.events
    }

    /// What these items weigh together, 1 to 255 each, or 1 in files of version 1. Of a cone that was opened again it is the
    /// sum of the frames that the log's last record named then, and what the items behind these weigh. Of a broken cone it
    /// says no more than that so many items may weigh so much.
    pub fn weight(&self) -> u64
        ensures value { result ≡ self.now.weight }
        ensures within { IsWeightOf (version_of self.now) self.now.events result }
        ensures memory { is_broken self.now.state ≡ false → result ≡ weight_from self.now.listing.settings self.now.last self.now.listing.events }
    {
        self.weight
    }

    /// What it may still do. It is broken by its bay only where the bay's count rose since the cone was made. The bay is
    /// the one that it was made with, and tells its files exactly where it did then.
    pub fn state(&self) -> ConeState
        ensures value { result ≡ self.now.state }
        ensures later { (B.faults self.now.made ≤ B.faults self.now.bay) × (B.mark self.now.bay ≡ B.mark self.now.made)
            × Turns Anything (B.files self.now.made) (B.files self.now.bay) }
        ensures closed { is_broken result ≡ false → self.now.listing.closed ≡ is_finished result }
        ensures by_bay { result ≡ ConeState.BrokenByBay → HasRisen (B.faults self.now.made) (B.faults self.now.bay) }
    {
        self.state
    }

    /// The bay, whatever the state.
    pub fn into_bay(self) -> B
        ensures { result ≡ self.bay }
    {
        let Cone { bay, .. } = self;
        bay
    }
}

// Writes the headers into files that are all empty.
fn begin<B: Bay>(
    bay: &mut B,
    settings: &Settings,
    cone: u32,
) -> Result<(GateLog, ReportLog), CreateFault>
    requires named { cone < 2 ^ settings.now.cone_bits }
    ensures journal { IfOk result (λ logs. logs.0 ≡ record { file = JOURNAL; gate = 32; most = most_payload most_version settings.now }) }
    ensures log { IfOk result (λ logs. logs.1 ≡ record { gate = 8; most = most_record settings.now; named = 0; places = places_at_start settings.now }) }
    ensures begun { OnOk result (IfTold (B.files bay.new) (λ seen. AreNew most_version settings.now cone (B.leaves bay.new) seen)) }
    ensures fresh { IfTold (B.files bay.old) (λ seen. OnOk result (AreEmpty seen)) }
    ensures not_fresh { IfTold (B.files bay.old) (λ seen. IsErrOf result CreateFault.NotFresh → AreEmpty seen → ⊥) }
    ensures unwritten { IfTold (B.files bay.old) (λ seen. OnErr result ((AreEmpty seen → ⊥) →
        (B.files bay.new ≡ B.files bay.old) × KeepsImages (B.leaves bay.old) (B.leaves bay.new))) }
    ensures frames { Turns FramesStay (B.files bay.old) (B.files bay.new) }
    ensures kept { KeepsBay B.Bay bay.old bay.new (IsErrOf result CreateFault.Failed) }
{
    // Nothing is written before all three files are found empty.
    if !is_fresh(bay)? {
        return Err(CreateFault::NotFresh);
    }
    Ok(write_headers(bay, settings, cone)?)
}

// The state that a fault in the middle of a call leaves.
fn broken_by(fault: TakeFault) -> ConeState
    ensures { result ≡ broken_by fault }
{
    match fault {
        TakeFault::Failed => ConeState::BrokenByBay,
        TakeFault::Unsound { file, at } => ConeState::BrokenByRead { file, at },
    }
}
