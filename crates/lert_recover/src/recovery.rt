//! A cone over the files of a stopped run.

ghost use Rattle.std.specs.Prelude.{◌≡◌, ◌⊎◌, ℕ, ◌+◌, ◌-◌, ◌<◌, ◌≤◌, ◌^◌, ◌++◌, List, All, None, length, if◌then◌else◌, MatchResult, IfOk, IfErr, IsErrAnd};
ghost use Rattle.lert_base.specs.declared.kept.Kept.{Kept as KeptOf};
ghost use Rattle.lert_base.specs.Packet.{Packet, events_of};
ghost use Rattle.lert_bay.specs.declared.bay.TheConstants.{JOURNAL, LOG, FRAMES};
ghost use Rattle.lert_bay.specs.Files.{Files, IfTold};
ghost use Rattle.lert_bay.specs.Kept.{CallsBay};
ghost use Rattle.lert_cone.specs.Framed.{HoldsSome};
ghost use Rattle.lert_cone.specs.Room.{weight_from};
ghost use Rattle.lert_journal.specs.Header.{version_in};
ghost use Rattle.lert_cone.specs.JournalPlaces.{IsPlaceIn, last_place};
ghost use Rattle.lert_cone.specs.Replaying.{readied};
ghost use Rattle.lert_cone.specs.Room.{IsRoom};
ghost use Rattle.lert_cone.specs.Sound.{IsSound, IsJournal, StaysSound};
ghost use Rattle.lert_cone.specs.Stands.{IsSameCone, StandsFor, WereSoundAs};
ghost use Rattle.lert_cone.specs.Wrote.{IsShutIfTold};
ghost use Rattle.lert_gatelog.specs.Gated.{IsClosed};
ghost use Rattle.lert_files.specs.Headed.{HasOther};
ghost use Rattle.lert_files.specs.Opened.{WritesNothing};
ghost use Rattle.lert_recover.specs.Moments.{AreSound};
ghost use Rattle.lert_recover.specs.Reopened.{IsReadOn, IsReopened, IsReopenRefused, IsStopped, IsUnsoundAt, most_read};
ghost use Rattle.lert_recover.specs.Replayed.{FirstLeaves, FlushesNothing, HasReplayed, IsJournalSame, ReadsRest, ReplaysSome};
ghost use Rattle.lert_reports.specs.Log.{is_closed, HasLog};
ghost use Rattle.lert_reports.specs.LogText.{LogRecord};
ghost use Rattle.lert_recover.specs.Shown.{reports_for};
ghost use Rattle.lert_recover.specs.Unharmed.{IsUnharmed, KeepsLogFrom};
ghost use Rattle.lert_spec.specs.declared.report.Report.{Report};
ghost use Rattle.lert_spec.specs.Counts.{weighed, weight_of};
ghost use Rattle.lert_spec.specs.Edges.{capacity};
ghost use Rattle.lert_spec.specs.Items.{IsVersion};
ghost use Rattle.lert_spec.specs.Limits.{IsValid};
ghost use Rattle.lert_spec.specs.Look.{look_of};

use crate::journal_rest::why_stopped;
use crate::replay::replay_all;
use lert_base::{CountTable, Settings};
use lert_bay::Bay;
use lert_cone::{Cone, ConeRoom, ConeState, LogPoint, ReplayingCone};
use lert_files::{ReopenFault, read_files};

/// A cone that wasn't reopened. Its journal reads as before, files that were sound for a list are sound for it, and files of other
/// settings, or that leave their format before the records of the journal, are as they were.
#[derive(Drop)]
pub struct ReopenRefused<B: Bay> {
    pub fault: ReopenFault,
    pub bay: B,
}

/// Makes a cone over the files of a stopped run, which stands for the packets of their journal: makes the files durable, reads
/// the journal's header, the whole log, the frames that its last record names, and then replays the journal's packets from the
/// record on that the log's last one names. Where that isn't a closing one, the cone goes on taking packets, and may write the
/// frames and the log of a flush that the run didn't come to.
///
/// A refusal hands the bay back, and lets the room go. Reads the whole log once, each named frame once, what a flush reads, and of
/// the journal the header and the records from the named one on, once; the records before it aren't read, and damage there isn't
/// found. Takes no memory. Where the store shows while the journal is replayed that the files are sound for no list, the rest of
/// the journal is read too, and the first place at which it leaves its format comes before that.
pub fn reopen<B: Bay, T: CountTable>(
    room: ConeRoom<T>,
    cone: u32,
    bay: B,
) -> Result<Cone<B, T>, ReopenRefused<B>>
    requires named { cone < 2 ^ room.settings.cone_bits }
    requires room { IsRoom room.settings room.zero room.levels room.store room.entry.keys (length room.buffer.items) }

    // Files that are told and sound for a list make a cone that stands for it, finished exactly where the log's last record is a
    // closing one. Only a call of the bay may fail.
    ensures sound_opens { IfTold (B.files bay) (λ seen. (h : List Packet) (sound : IsSound room.settings cone h seen) →
        MatchResult result
        (λ now. StandsFor B.files B.leaves B.faults now h × (now.state ≡ if is_closed sound.logged then ConeState.Finished else ConeState.Running))
        (λ refused. refused.fault ≡ ReopenFault.Failed)) }

    // Its reports are those of that list. So all that a cone showed that stood for the packets before some of the last ones are
    // among them, with their positions, and first.
    ensures reports { IfTold (B.files bay) (λ seen. (h : List Packet) (sound : IsSound room.settings cone h seen) →
        IfOk result (λ now. now.reports ≡ reports_for room.settings h (is_closed sound.logged))) }
    ensures shown { IfTold (B.files bay) (λ seen. (h more : List Packet) → IsSound room.settings cone (h ++ more) seen →
        IfOk result (λ now. (rest : List Report) × (now.reports ≡ look_of weighed room.settings (events_of h) ++ rest))) }

    // Told or not, it stands for each list of as many events of the same weight. Where the files were told and sound for a list, that
    // is such a list.
    ensures stands { IfOk result (λ now. (h : List Packet) → All (λ packet. 0 < length packet.items) h →
        (length (events_of h) ≡ now.events) × (weight_of weighed (events_of h) ≡ now.weight) →
        IfTold (B.files bay) (λ seen. (other : List Packet) → IsSound room.settings cone other seen → IsSound room.settings cone h seen) →
        StandsFor B.files B.leaves B.faults now h) }

    // Where the files are told, its items are those of the journal's packets from the record on that the log's last one names, behind
    // those that aren't read. Where that is a record of the whole journal, they are all items of the journal.
    ensures journal { IfTold (B.files bay) (λ seen. IfOk result (λ now. IsReadOn room.settings cone seen now.listing.events now.weight now.gate)) }
    ensures journal_whole { IfTold (B.files bay) (λ seen. (h : List Packet) → IsJournal (version_in (seen JOURNAL)) room.settings cone h (seen JOURNAL) →
        (records : List LogRecord) (log_end : ℕ) → HasLog room.settings cone (seen LOG) records log_end → IsPlaceIn (version_in (seen JOURNAL)) h (last_place records) →
        IfOk result (λ now. now.listing.events ≡ events_of h)) }

    // Of sound files it reads no more of the journal than some bytes for each key of level 0, whatever it answers and however long
    // the journal is.
    ensures bounded { IfTold (B.files bay) (λ seen. (h : List Packet) → IsSound room.settings cone h seen → MatchResult result
        (λ now. B.handed_out now.bay JOURNAL ≤ B.handed_out bay JOURNAL + most_read room.settings)
        (λ refused. B.handed_out refused.bay JOURNAL ≤ B.handed_out bay JOURNAL + most_read room.settings)) }

    // A place is the first one at which they leave their format. Files that leave it nowhere may be refused only where they are sound
    // for no list, and then for their log, at its start.
    ensures malformed { IfTold (B.files bay) (λ seen. IfErr result (λ refused. (file at : ℕ) → refused.fault ≡ ReopenFault.Malformed file at →
        FirstLeaves room.settings cone seen file at ⊎ IsUnsoundAt room.settings cone seen file at)) }
    ensures other { IfTold (B.files bay) (λ seen. IfErr result (λ refused. (kept : KeptOf) → refused.fault ≡ ReopenFault.OtherSettings kept →
        HasOther room.settings cone (seen JOURNAL) kept)) }

    // And where they leave it there, that is the answer, but where a call of the bay fails.
    ensures refuses { IfTold (B.files bay) (λ seen. (file at : ℕ) → FirstLeaves room.settings cone seen file at →
        IsErrAnd result (λ refused. (refused.fault ≡ ReopenFault.Failed) ⊎ (refused.fault ≡ ReopenFault.Malformed file at))) }
    ensures differs { IfTold (B.files bay) (λ seen. (kept : KeptOf) → HasOther room.settings cone (seen JOURNAL) kept →
        IsErrAnd result (λ refused. (refused.fault ≡ ReopenFault.Failed) ⊎ (refused.fault ≡ ReopenFault.OtherSettings kept))) }

    // It is closed exactly where the log is, whether or not the files are sound for a list.
    ensures closed { IfTold (B.files bay) (λ seen. IfOk result (λ now. (records : List LogRecord) × (log_end : ℕ)
        × HasLog room.settings cone (seen LOG) records log_end × (now.listing.closed ≡ is_closed records))) }

    // A refusal leaves files that are sound for a list sound for it.
    ensures stays_sound { IfTold (B.files bay) (λ seen. (h : List Packet) → IsSound room.settings cone h seen →
        IfErr result (λ refused. IfTold (B.files refused.bay) (IsSound room.settings cone h))) }

    // A stop at any moment of it leaves what it may open again: where every image is sound for a list as it begins, so is every
    // image of each moment up to its answer, whatever that is.
    ensures each_moment { IfTold (B.files bay) (λ _. (h : List Packet) → AreSound (B.leaves bay) room.settings cone h → MatchResult result
        (λ now. StaysSound B.Bay room.settings cone h bay now.bay)
        (λ refused. StaysSound B.Bay room.settings cone h bay refused.bay)) }

    // Whatever it answers, nothing is written over files that leave their format before the records of the journal, or begin with
    // other numbers, nor where no flush position above the log's last record lies among the keys from the named record on: they
    // are as they were, byte for byte. In any case the log keeps its records as a beginning, and what the frames hold that its last
    // one names. Where other settings are the answer, nothing was written.
    ensures unharmed { MatchResult result (λ now. IsUnharmed B.Bay room.settings cone bay now.bay) (λ refused. IsUnharmed B.Bay room.settings cone bay refused.bay) }
    ensures other_untouched { IfErr result (λ refused. (kept : KeptOf) → refused.fault ≡ ReopenFault.OtherSettings kept → WritesNothing B.Bay bay refused.bay ⊥) }

    // Told or not, what it is.
    ensures own { IfOk result (λ now. (now.listing.settings ≡ room.settings) × (now.listing.cone ≡ cone) × (now.events ≡ length now.listing.events)
        × (now.state ≡ if now.listing.closed then ConeState.Finished else ConeState.Running)) }
    ensures weight { IfOk result (λ now. now.weight ≡ weight_from now.listing.settings now.last now.listing.events) }
    ensures made { IfOk result (λ now. (B.files now.made ≡ B.files bay) × (B.faults bay ≤ B.faults now.made) × (B.mark now.made ≡ B.mark bay)) }
    ensures reads { MatchResult result (λ now. IsJournalSame (B.files bay) (B.files now.bay)) (λ refused. IsJournalSame (B.files bay) (B.files refused.bay)) }
    ensures kept { MatchResult result (λ now. CallsBay B.Bay bay now.bay ⊥) (λ refused. CallsBay B.Bay bay refused.bay (refused.fault ≡ ReopenFault.Failed)) }
{
    reopen_in_order(room, cone, bay)
}

// Reads the files in the order in which a place comes first, and replays.
fn reopen_in_order<B: Bay, T: CountTable>(
    mut room: ConeRoom<T>,
    cone: u32,
    mut bay: B,
) -> Result<Cone<B, T>, ReopenRefused<B>>
    requires named { cone < 2 ^ room.settings.cone_bits }
    requires room { IsRoom room.settings room.zero room.levels room.store room.entry.keys (length room.buffer.items) }
    ensures told { IfTold (B.files bay) (λ seen. MatchResult result
        (λ now. IsReopened room.settings cone seen now.listing.closed now.listing.events now.weight now.gate)
        (λ refused. IsReopenRefused room.settings cone seen refused.fault)) }
    ensures fails { IfTold (B.files bay) (λ seen. IfErr result (λ refused. (h : List Packet) → IsSound room.settings cone h seen →
        refused.fault ≡ ReopenFault.Failed)) }
    ensures bounded { IfTold (B.files bay) (λ seen. (h : List Packet) → IsSound room.settings cone h seen → MatchResult result
        (λ now. B.handed_out now.bay JOURNAL ≤ B.handed_out bay JOURNAL + most_read room.settings)
        (λ refused. B.handed_out refused.bay JOURNAL ≤ B.handed_out bay JOURNAL + most_read room.settings)) }
    ensures stands { IfOk result (λ now. (h : List Packet) → All (λ packet. 0 < length packet.items) h →
        (length (events_of h) ≡ now.events) × (weight_of weighed (events_of h) ≡ now.weight) →
        IfTold (B.files bay) (λ seen. (other : List Packet) → IsSound room.settings cone other seen → IsSound room.settings cone h seen) →
        StandsFor B.files B.leaves B.faults now h) }
    ensures stays_sound { IfTold (B.files bay) (λ seen. (h : List Packet) → IsSound room.settings cone h seen →
        IfErr result (λ refused. IfTold (B.files refused.bay) (IsSound room.settings cone h))) }
    ensures each_moment { IfTold (B.files bay) (λ _. (h : List Packet) → AreSound (B.leaves bay) room.settings cone h → MatchResult result
        (λ now. StaysSound B.Bay room.settings cone h bay now.bay)
        (λ refused. StaysSound B.Bay room.settings cone h bay refused.bay)) }
    ensures unharmed { MatchResult result (λ now. IsUnharmed B.Bay room.settings cone bay now.bay) (λ refused. IsUnharmed B.Bay room.settings cone bay refused.bay) }
    ensures own { IfOk result (λ now. (now.listing.settings ≡ room.settings) × (now.listing.cone ≡ cone) × (now.events ≡ length now.listing.events)
        × (now.state ≡ if now.listing.closed then ConeState.Finished else ConeState.Running)) }
    ensures weight { IfOk result (λ now. now.weight ≡ weight_from now.listing.settings now.last now.listing.events) }
    ensures made { IfOk result (λ now. (B.files now.made ≡ B.files bay) × (B.faults bay ≤ B.faults now.made) × (B.mark now.made ≡ B.mark bay)) }
    ensures reads { MatchResult result (λ now. IsJournalSame (B.files bay) (B.files now.bay)) (λ refused. IsJournalSame (B.files bay) (B.files refused.bay)) }
    ensures kept { MatchResult result (λ now. CallsBay B.Bay bay now.bay ⊥) (λ refused. CallsBay B.Bay bay refused.bay (refused.fault ≡ ReopenFault.Failed)) }
{
    match read_files(
        &mut bay,
        &room.settings,
        cone,
        &mut room.levels,
        &mut room.store,
        &mut room.buffer,
    ) {
        Ok(end) => {
            let settings = room.settings;
            // The journal last: levels and reports stand for its first n0 events, and level 0 is counted again from the record on that
            // holds its first one.
            let begun = ReplayingCone::adopt(room, cone, bay, end);
            replay_journal(&settings, cone, &end, begun)
        }
        Err(fault) => Err(ReopenRefused { fault, bay }),
    }
}

// Replays the journal of a cone with these settings, this number and what its log says, which has none of its packets yet.
fn replay_journal<B: Bay, T: CountTable>(
    settings: &Settings,
    number: u32,
    last: &LogPoint,
    mut cone: ReplayingCone<B, T>,
) -> Result<Cone<B, T>, ReopenRefused<B>>
    requires own { (cone.listing.settings ≡ settings.now) × (cone.listing.cone ≡ number) × (cone.last ≡ last.now) × (cone.listing.version ≡ last.now.version) }
    requires known { IsVersion last.now.version }
    requires place { last.now.n0 ≤ capacity settings.now }
    requires taking { cone.stopped ≡ None }
    requires valid { IsValid cone.listing.settings }
    requires begun { (cone.gate ≡ last.now.offset) × (cone.events ≡ length cone.listing.events) }
    requires few { cone.events ≤ last.now.n0 }
    requires near { last.now.offset ≤ 2 ^ 46 }
    requires light { cone.weight < 2 ^ 62 }
    requires log_shut { IsShutIfTold (B.files cone.bay) (B.leaves cone.bay) LOG cone.log.gate }
    ensures told { IfTold (B.files cone.bay) (λ seen. HoldsSome cone.listing.version cone.listing.settings cone.last.n0 cone.rows (seen FRAMES) → MatchResult result
        (λ now. HasReplayed cone.listing.version cone.listing.settings cone.listing.cone cone.last.n0 cone.last.closed (seen JOURNAL) cone.listing.events cone.weight last.now.offset
        now.gate now.listing.events now.weight × IsClosed (seen JOURNAL) now.gate)
        (λ refused. IsStopped cone.listing.version cone.listing.settings cone.listing.cone cone.last.n0 cone.last.closed (seen JOURNAL)
        (length cone.listing.events) cone.weight last.now.offset refused.fault)) }
    ensures fails { IfTold (B.files cone.bay) (λ _. IfErr result (λ refused. (h : List Packet) → ReplaysSome B.files B.leaves cone h →
        refused.fault ≡ ReopenFault.Failed)) }
    ensures stands { IfOk result (λ now. (h : List Packet) → All (λ packet. 0 < length packet.items) h →
        (length (events_of h) ≡ now.events) × (weight_of weighed (events_of h) ≡ now.weight) →
        (WereSoundAs B.files cone.listing.settings cone.listing.cone cone.made → IfTold (B.files cone.bay) (λ _. ReplaysSome B.files B.leaves cone h)) → StandsFor B.files B.leaves B.faults now h) }
    ensures passed { IfOk result (λ now. cone.last.n0 ≤ length now.listing.events) }
    ensures counted { IfOk result (λ now. now.events ≡ length now.listing.events) }
    ensures weight { IfOk result (λ now. now.weight ≡ weight_from now.listing.settings now.last now.listing.events) }
    ensures state { IfOk result (λ now. (now.listing.closed ≡ cone.listing.closed) × (now.state ≡ if cone.last.closed then ConeState.Finished else ConeState.Running)) }
    ensures same_cone { IfOk result (λ now. IsSameCone (readied cone) now) }
    ensures reads { MatchResult result (λ now. IsJournalSame (B.files cone.bay) (B.files now.bay)) (λ refused. IsJournalSame (B.files cone.bay) (B.files refused.bay)) }
    ensures kept { MatchResult result (λ now. CallsBay B.Bay cone.bay now.bay ⊥) (λ refused. CallsBay B.Bay cone.bay refused.bay (refused.fault ≡ ReopenFault.Failed)) }
    ensures stays_sound { IfTold (B.files cone.bay) (λ _. IfErr result (λ refused. (h : List Packet) → ReplaysSome B.files B.leaves cone h →
        IfTold (B.files refused.bay) (IsSound cone.listing.settings cone.listing.cone h))) }
    ensures each_moment { IfTold (B.files cone.bay) (λ _. (h : List Packet) → ReplaysSome B.files B.leaves cone h →
        AreSound (B.leaves cone.bay) cone.listing.settings cone.listing.cone h → MatchResult result
        (λ now. StaysSound B.Bay cone.listing.settings cone.listing.cone h cone.bay now.bay)
        (λ refused. StaysSound B.Bay cone.listing.settings cone.listing.cone h cone.bay refused.bay)) }
    ensures unflushed { IfTold (B.files cone.bay) (λ seen. FlushesNothing cone.listing.version cone.listing.settings cone.last.n0 (seen JOURNAL) (length cone.listing.events) last.now.offset →
        MatchResult result (λ now. WritesNothing B.Bay cone.bay now.bay ⊥) (λ refused. WritesNothing B.Bay cone.bay refused.bay ⊥)) }
    ensures log { MatchResult result (λ now. KeepsLogFrom B.Bay cone now.bay) (λ refused. KeepsLogFrom B.Bay cone refused.bay) }
    ensures rest { IfTold (B.files cone.bay) (λ _. (h : List Packet) → ReplaysSome B.files B.leaves cone h → MatchResult result
        (λ now. ReadsRest cone.listing.version cone.listing.settings last.now.offset h (B.handed_out cone.bay JOURNAL) (B.handed_out now.bay JOURNAL))
        (λ refused. ReadsRest cone.listing.version cone.listing.settings last.now.offset h (B.handed_out cone.bay JOURNAL) (B.handed_out refused.bay JOURNAL))) }
{
    match replay_all(&mut cone, last.offset) {
        Ok(end) => {
            // Ready only at the journal's closed gate, where the next packet goes.
            Ok(cone.ready(end))
        }
        Err(stop) => {
            let mut bay = cone.into_bay();
            // The rest of the journal is read first: a place in it comes before the log's.
            let fault = why_stopped(&mut bay, settings, number, last, &stop);
            Err(ReopenRefused { fault, bay })
        }
    }
}
