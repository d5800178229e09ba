//! A cone whose journal is read again.

ghost use Rattle.std.specs.Prelude.{◌≡◌, ◌≢◌, ◌⊎◌, ℕ, ◌+◌, ◌-◌, ◌<◌, ◌≤◌, ◌^◌, if◌then◌else◌, max, List, [], ◌∷◌, ◌++◌, length, take};
ghost use Rattle.std.specs.Prelude.{All, None, Err, IfErr, IfNone, IfOk, IfSome, IsErrOf, OnErr, OnOk};
ghost use Rattle.lert_base.specs.Packet.{Packet, events_of};
ghost use Rattle.lert_bay.specs.Files.{Files, IfTold};
ghost use Rattle.lert_bay.specs.Kept.{CallsBay};
ghost use Rattle.lert_bay.specs.Settled.{IsSettled};
ghost use Rattle.lert_bay.specs.declared.bay.TheConstants.{JOURNAL, LOG, FRAMES};
ghost use Rattle.lert_gatelog.specs.Kept.{IsWhollySettled};
ghost use Rattle.lert_levels.specs.Flushed.{InNamed};
ghost use Rattle.lert_reports.specs.Log.{HasLog, most_record};
ghost use Rattle.lert_reports.specs.LogText.{LogRecord};
ghost use Rattle.lert_spec.specs.Edges.{capacity, edge};
ghost use Rattle.lert_spec.specs.Counts.{weighed, weight_of};
ghost use Rattle.lert_cone.specs.Framed.{HoldsSome};
ghost use Rattle.lert_cone.specs.KeepsLog.{IsHeadOf, KeepsLogOf, head_of};
ghost use Rattle.lert_cone.specs.JournalPlaces.{places_from};
ghost use Rattle.lert_cone.specs.Reads.{replay_cost};
ghost use Rattle.lert_cone.specs.Replay.{IsLastOf};
ghost use Rattle.lert_cone.specs.Replaying.{IsSameReplay, readied};
ghost use Rattle.lert_cone.specs.Replays.{BringsNoFlush, HasEnded, HasTaken, IsUnwritten, LeavesBehind, GoesOn, Replays, WhyRefused};
ghost use Rattle.lert_cone.specs.Room.{IsPointOf, IsRestored, weight_from};
ghost use Rattle.lert_cone.specs.Sound.{IsSound, StaysSound};
ghost use Rattle.lert_cone.specs.Stands.{StandsFor, WasSound};
ghost use Rattle.lert_cone.specs.Tally.{Shows};
ghost use Rattle.lert_cone.specs.Unread.{unread};
ghost use Rattle.lert_cone.specs.Wrote.{IsShutIfTold, LeavesAlone};

use crate::cone::Cone;
use crate::headers::greatest_payload;
use crate::items::Items;
use crate::journal_places::JournalPlace;
use crate::keys::replay_items;
use crate::packets::read_packet;
use crate::refusal::ReplayFault;
use crate::report_log::ReportLog;
use crate::room::ConeRoom;
use crate::state::ConeState;
use crate::tally::Tally;
use crate::unread::Unread;
use lert_base::{CountTable, Entry};
use lert_bay::{Bay, JOURNAL};
use lert_gatelog::GateLog;
use lert_reports::{LogPoint, greatest_record};
use std::marker::Model;
use std::snapshot::Snapshot;

/// A cone over the files of a stopped run that is given the packets of its journal again, and takes no others. At the
/// journal's end `ready` makes a `Cone` of it, which goes on; once it refused a record it takes none, and is good for its
/// bay alone.
#[derive(Drop)]
pub struct ReplayingCone<B: Bay, T: CountTable> {
    bay: B,
    made: Snapshot<B>,
    tally: Tally<B, T>,
    journal: GateLog,
    log: ReportLog,
    last: LogPoint,
    entry: Entry,
    buffer: Vec<u8>,
    events: u64,
    weight: u64,
    stopped: Option<ReplayFault>,
}

impl<B: Bay, T: CountTable> Model for ReplayingCone<B, T> {
    ghost use Rattle.std.specs.Prelude.{length};
    ghost use Rattle.lert_cone.specs.Replaying.{Replaying, IsReplaying};

    ghost Value = { Replaying B };

    ghost view = { λ c. record {
      bay = c.bay;
      made = c.made.value;
      listing = c.tally.listing;
      rows = c.tally.rows;
      reports = c.tally.due.reports;
      events = c.events;
      weight = c.weight;
      stopped = c.stopped;
      gate = c.journal.gate;
      log = c.log;
      last = c.last;
    } };

    ghost invariant = { λ c. IsReplaying B.files B.leaves B.faults B.mark (record {
      bay = c.bay;
      made = c.made.value;
      listing = c.tally.listing;
      rows = c.tally.rows;
      reports = c.tally.due.reports;
      events = c.events;
      weight = c.weight;
      stopped = c.stopped;
      gate = c.journal.gate;
      log = c.log;
      last = c.last;
    }) c.tally c.journal (length c.buffer.items) c.entry.keys.room };
}

impl<B: Bay, T: CountTable> ReplayingCone<B, T> {
    /// A cone over the files of a stopped run, from whose log the room has the levels and the reports. It is to be given
    /// the records of its journal one by one, from the one on that `last` names, by `replay`, and then `ready`. The items
    /// before that record it has without reading them: level 0 begins in it. It begins with the version and the weight that
    /// `last` says. Makes no call of the bay and takes no memory.
    pub fn adopt(room: ConeRoom<T>, cone: u32, bay: B, last: LogPoint) -> ReplayingCone<B, T>
        requires named { cone < 2 ^ room.settings.cone_bits }
        requires point { IsPointOf room.settings last }
        requires room { IsRestored last.version room.settings cone last.n0 room.zero room.levels room.store room.entry.keys (length room.buffer.items) }

        // Where the bay tells its files, the log is settled and its gate closed in every image, and the journal and the frames
        // that the log's last record names are settled.
        requires log_shut { IsShutIfTold (B.files bay) (B.leaves bay) LOG last.log_end }
        requires journal { IfTold (B.files bay) (λ seen. IsWhollySettled (B.leaves bay) seen JOURNAL) }
        requires frames { IfTold (B.files bay) (λ seen. (from to : ℕ) → InNamed room.settings last.version room.levels.rows from to → to ≤ length (seen FRAMES) →
            IsSettled (B.leaves bay) seen FRAMES from to) }
        ensures made { result ≡ record {
          bay = bay;
          made = bay;
          listing = record { settings = room.settings; version = last.version; cone = cone; events = unread last.version room.settings cone (last.first - 1) (B.files bay); closed = last.closed };
          rows = room.levels.rows;
          reports = room.store.reports;
          events = last.first - 1;
          weight = last.weight;
          stopped = None;
          gate = last.offset;
          log = record { gate = last.log_end; most = most_record room.settings; named = length room.store.reports; places = places_from room.settings (last.first - 1) };
          last = last;
        } }

        // Where the point and the room say what the log of these files does, the cone goes on with its records.
        ensures log { IfTold (B.files bay) (λ seen. (records : List LogRecord) → HasLog room.settings cone (seen LOG) records last.log_end →
            IsLastOf room.settings last.n0 last.offset last.first last.closed room.levels.rows room.store.reports records →
            IsHeadOf room.settings records (head_of result) (seen LOG)) }

        // Where these files are sound for a list, in the point's version, and the point and the room say what their log
        // does, and the point what those of the list's items weigh that the named frames hold, the cone is on its way
        // through that list's journal: it has the items of the first packets.
        ensures replays { IfTold (B.files bay) (λ seen. (records : List LogRecord) → HasLog room.settings cone (seen LOG) records last.log_end →
            IsLastOf room.settings last.n0 last.offset last.first last.closed room.levels.rows room.store.reports records →
            (h : List Packet) (sound : IsSound room.settings cone h seen) → sound.version ≡ last.version →
            weight_of weighed (take (edge room.settings 0 last.n0) (events_of h)) ≡ last.weight → (done : List Packet) × Replays B.files B.leaves result h done) }
    {
        let ConeRoom {
            settings,
            zero,
            levels,
            store,
            entry,
            buffer,
        } = room;
        let events = last.first - 1;
        let journal = GateLog::at_gate(
            JOURNAL,
            last.offset,
            greatest_payload(&settings, last.version),
        );
        let log = ReportLog::at(
            &settings,
            last.log_end,
            greatest_record(&settings),
            store.len(),
            events,
        );
        let unread = Unread::of(&bay, &settings, last.version, cone, events);
        let tally = Tally::adopted(
            &settings,
            last.version,
            cone,
            zero,
            levels,
            store,
            unread,
            last.closed,
        );
        ReplayingCone {
            made: Snapshot::of(&bay),
            bay,
            tally,
            journal,
            log,
            last,
            entry,
            buffer,
            events,
            weight: last.weight,
            stopped: None,
        }
    }

    /// Takes the packet whose record stands at this gate of the journal, and answers the next gate. None comes exactly at a
    /// closed gate with as many items before it as the log's last record has. The items up to that record's place are only
    /// counted again, and the others are taken as those of a packet that is admitted, with the calls of the bay that they
    /// cost there; nothing is written to the journal. The weight grows by what the items weigh that aren't in the frames which
    /// that record names. After a refusal it takes no more, and is good for its bay alone: files that were sound for a list
    /// are so still, and they are as they were where no flush position lies among the record's items, or where the record
    /// leaves the format. The log keeps its records in any case, also of files that are sound for no list.
    pub fn replay(&mut self, gate: u64) -> Result<Option<u64>, ReplayFault>
        requires taking { self.old.stopped ≡ None }
        requires reach { gate ≤ 2 ^ 62 }
        ensures taken { IfOk result (λ found. IfSome found (λ next. HasTaken B.files self.old self.new gate next)) }
        ensures forward { IfOk result (λ found. IfSome found (λ next. (gate < next) × (next ≤ gate + 65536))) }
        ensures ended { IfOk result (λ found. IfNone found (HasEnded B.files B.leaves self.old self.new gate)) }
        ensures refused { IfErr result (λ fault. IfTold (B.files self.old.bay) (λ seen. WhyRefused self.old (seen JOURNAL) gate fault)) }
        ensures broke { IfErr result (λ fault. self.new ≡ record self.old {
          bay = self.new.bay;
          listing = record self.old.listing { events = self.new.listing.events };
          rows = self.new.rows;
          reports = self.new.reports;
          stopped = Some fault;
          gate = self.new.gate;
          log = self.new.log;
        }) }

        // A cone on its way through a list's journal goes on by its next packet. At its end it took all. Only a call of the bay
        // may keep it from that.
        ensures replays { IfTold (B.files self.old.bay) (λ _. (h done : List Packet) → Replays B.files B.leaves self.old h done → gate ≡ self.old.gate →
            GoesOn B.files B.leaves self.new h done result) }

        // Whatever it answers, the files stay sound for that list, at each moment of the call and as the bay then reads them; and
        // they are as they were where no packet stands at the gate that the cone may take and that brings a flush.
        ensures stays_sound { IfTold (B.files self.old.bay) (λ _. (h done : List Packet) → Replays B.files B.leaves self.old h done → gate ≡ self.old.gate →
            StaysSound B.Bay self.old.listing.settings self.old.listing.cone h self.old.bay self.new.bay) }
        ensures unflushed { IfTold (B.files self.old.bay) (λ seen. BringsNoFlush self.old (seen JOURNAL) gate → IsUnwritten B.Bay self.old.bay self.new.bay) }

        // Told or not, a record that leaves the format is only read.
        ensures malformed { (at : ℕ) → IsErrOf result (ReplayFault.Malformed at) → IsUnwritten B.Bay self.old.bay self.new.bay }

        // Whatever it answers, and whether or not the files are sound for a list, the log keeps its records, and what the frames
        // hold that its last one names.
        ensures log { KeepsLogOf B.Bay self.old.listing.version self.old.listing.settings (head_of self.old) (head_of self.new) self.old.bay self.new.bay result }

        // Where the frames hold the bins of some events, whatever these are, they do so again, and none is found malformed.
        ensures framed { IfTold (B.files self.old.bay) (λ seen.
            HoldsSome self.old.listing.version self.old.listing.settings (max self.old.last.n0 (length self.old.listing.events)) self.old.rows (seen FRAMES) →
            OnOk result (IfTold (B.files self.new.bay) (λ after.
            HoldsSome self.new.listing.version self.new.listing.settings (max self.new.last.n0 (length self.new.listing.events)) self.new.rows (after FRAMES)))) }
        ensures whole { IfTold (B.files self.old.bay) (λ seen.
            HoldsSome self.old.listing.version self.old.listing.settings (max self.old.last.n0 (length self.old.listing.events)) self.old.rows (seen FRAMES) →
            (at : ℕ) → result ≢ Err (ReplayFault.Unsound 2 at)) }

        // Why it refuses where neither the format is left nor a list's journal goes on.
        ensures unsound { (file at : ℕ) → IsErrOf result (ReplayFault.Unsound file at) →
            IfTold (B.files self.new.bay) (λ seen. Shows self.new.listing.version self.new.listing.settings self.new.rows self.new.reports (seen FRAMES) file at) }
        ensures same_cone { IsSameReplay self.old self.new }
        ensures journal { LeavesAlone B.Bay JOURNAL self.old.bay self.new.bay }
        ensures kept { CallsBay B.Bay self.old.bay self.new.bay (IsErrOf result ReplayFault.Failed) }

        // It reads the record once, and a flush reads no byte of the journal.
        ensures handed { B.handed_out self.new.bay JOURNAL ≤ B.handed_out self.old.bay JOURNAL + replay_cost self.old.listing.version self.old.listing.settings gate result }
    {
        let most = greatest_payload(self.tally.settings(), self.last.version);
        self.journal = GateLog::at_gate(JOURNAL, gate, most);
        let first = self.tally.len() + 1;
        // The cone's own once its items are taken.
        let mut weight = self.weight;
        match read_packet(
            &mut self.journal,
            &mut self.bay,
            &self.tally,
            &self.last,
            &mut weight,
            &mut self.entry,
            &mut self.buffer,
        ) {
            Ok(true) => {
                if let Err(fault) = replay_items(
                    &mut self.tally,
                    &mut self.log,
                    &mut self.bay,
                    self.last.n0,
                    JournalPlace { gate, first },
                    &Items::of(&self.entry),
                    &mut self.buffer,
                ) {
                    let fault = ReplayFault::from(fault);
                    self.stopped = Some(fault);
                    return Err(fault);
                }
                self.events = self.tally.len();
                self.weight = weight;
                Ok(Some(self.journal.gate()))
            }
            Ok(false) => Ok(None),
            Err(fault) => {
                let fault = ReplayFault::from(fault);
                self.stopped = Some(fault);
                Err(fault)
            }
        }
    }

    /// How many items the packets have that it took, and those that it doesn't read.
    pub fn events(&self) -> u64
        ensures count { result ≡ self.now.events }
        ensures within { result ≤ capacity self.now.listing.settings }
    {
        self.events
    }

    /// What the items weigh that the frames hold which the log's last record names, and those behind these that it took.
    pub fn weight(&self) -> u64
        ensures { result ≡ self.now.weight }
    {
        self.weight
    }

    /// The bay, also behind a refusal.
    pub fn into_bay(self) -> B
        ensures { result ≡ self.bay }
    {
        let ReplayingCone { bay, .. } = self;
        bay
    }

    /// The cone that it is at the journal's closed gate, at which `replay` answered None: it is Finished where the log's
    /// last record is a closing one, and runs on else.
    pub fn ready(self, end: u64) -> Cone<B, T>
        requires taking { self.stopped ≡ None }
        requires passed { self.last.n0 ≤ length self.listing.events }
        requires gate { self.gate ≡ end }
        requires shut { IsShutIfTold (B.files self.bay) (B.leaves self.bay) JOURNAL end }
        ensures value { result ≡ readied self }
        ensures weighs { result.weight ≡ weight_from result.listing.settings result.last result.listing.events }

        // It stands for a list that has as many items of the same weight, where it is behind its packets, if the files were
        // sound for one.
        ensures stands_for { (h : List Packet) → All (λ packet. 0 < length packet.items) h → length (events_of h) ≡ self.events →
            weight_of weighed (events_of h) ≡ result.weight →
            (WasSound B.files result → IfTold (B.files self.bay) (λ _. Replays B.files B.leaves self h h)) →
            StandsFor B.files B.leaves B.faults result h }
    {
        let most = greatest_payload(self.tally.settings(), self.last.version);
        let state = state_behind(self.last.closed);
        let ReplayingCone {
            bay,
            made,
            tally,
            log,
            last,
            entry,
            buffer,
            events,
            weight,
            ..
        } = self;
        Cone {
            bay,
            made,
            tally,
            journal: GateLog::at_gate(JOURNAL, end, most),
            log,
            last,
            entry,
            buffer,
            events,
            weight,
            state,
            over: None,
        }
    }
}

// The state of a cone whose packets are all taken.
fn state_behind(closed: bool) -> ConeState
    ensures { result ≡ (if closed then ConeState.Finished else ConeState.Running) }
{
    if closed {
        ConeState::Finished
    } else {
        ConeState::Running
    }
}
