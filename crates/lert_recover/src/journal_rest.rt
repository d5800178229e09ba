//! The rest of a journal, read without a cone.

ghost use Rattle.std.specs.Prelude.{◌≡◌, ◌⊎◌, ℕ, ◌+◌, ◌-◌, ◌*◌, ◌/◌, ◌<◌, ◌≤◌, ◌^◌, List, length, IfOk, IsErr, MatchOption};
ghost use Rattle.lert_bay.specs.declared.bay.TheConstants.{JOURNAL};
ghost use Rattle.lert_bay.specs.Files.{IfTold};
ghost use Rattle.lert_bay.specs.Kept.{ReadsBay};
ghost use Rattle.lert_gatelog.specs.Gated.{IsOpen, IsClosed, next_gate};
ghost use Rattle.lert_io.specs.Fault.{HasRisen};
ghost use Rattle.lert_journal.specs.Payload.{item_len, most_payload};
ghost use Rattle.lert_recover.specs.Reopened.{IsWhy};
ghost use Rattle.lert_recover.specs.Replayed.{JournalEnds, JournalLeavesAt};
ghost use Rattle.lert_recover.specs.Rest.{IsFound, GoesOn};
ghost use Rattle.lert_spec.specs.declared.numbers.Numbers.{Numbers};
ghost use Rattle.lert_spec.specs.Edges.{capacity};
ghost use Rattle.lert_spec.specs.Items.{IsVersion};

use crate::replay::{Before, Stop};
use lert_base::Settings;
use lert_bay::{Bay, JOURNAL};
use lert_cone::{LogPoint, ReplayFault, end_left, greatest_payload, packet_left};
use lert_files::ReopenFault;
use lert_gatelog::{GateLog, LogFault};
use lert_io::Failed;
use lert_journal::{place_left, weight_behind};

// The greatest payload of a journal, whatever the settings: eight bytes, and nine for each of 4096 items.
const PAYLOAD_ROOM: usize = 36872;

// What stands at a gate of a journal, behind some keys.
#[derive(Clone, Copy)]
pub enum Found {
    // A packet that may follow, with so many keys, which add so much to the weight.
    Packet { keys: u64, more: u64 },
    // A closed gate, with as many keys before it as the log says.
    End,
    // Something that leaves the format, at this place.
    Left { at: u64 },
}

/// The place at which a journal first leaves its format, from a gate on, behind what stands before it. None where it is in it up to a closed
/// gate. Reads each record there once, changes no file and takes no memory.
pub fn find_left<B: Bay>(
    bay: &mut B,
    settings: &Settings,
    cone: u32,
    last: &LogPoint,
    gate: u64,
    before: Before,
) -> Result<Option<u64>, Failed>
    requires known { IsVersion last.now.version }
    requires place { last.now.n0 ≤ capacity settings.now }
    requires within { before.events ≤ capacity settings.now }
    requires light { before.weight < 2 ^ 62 }
    requires near { gate ≤ 2 ^ 46 + 65536 * before.events }
    ensures told { IfTold (B.files bay.old) (λ seen. IfOk result (λ found. MatchOption found
        (JournalEnds last.now.version settings.now cone last.now.n0 last.now.closed (seen JOURNAL) before.events before.weight gate)
        (λ at. JournalLeavesAt last.now.version settings.now cone last.now.n0 last.now.closed (seen JOURNAL) before.events before.weight gate at))) }
    ensures only_reads { ReadsBay B.Bay bay.old bay.new (IsErr result) }
{
    let mut buffer = [0; PAYLOAD_ROOM];
    // Its clause says that the numbers are valid.
    let _ = settings.numbers();
    let mut log = GateLog::at_gate(JOURNAL, gate, greatest_payload(settings, last.version));
    let mut now = before;
    'records: loop {
        match find_here(&mut log, bay, settings, cone, last, now, &mut buffer)? {
            Found::Packet { keys, more } => {
                now.events += keys;
                now.weight += more;
            }
            Found::End => return Ok(None),
            Found::Left { at } => return Ok(Some(at)),
        }
    }
}

/// Why a replay stopped. What shows that the files are sound for no list is told only where the rest of the journal is in its
/// format; else the place at which it leaves that comes first.
pub fn why_stopped<B: Bay>(
    bay: &mut B,
    settings: &Settings,
    cone: u32,
    last: &LogPoint,
    stop: &Stop,
) -> ReopenFault
    requires known { IsVersion last.now.version }
    requires place { last.now.n0 ≤ capacity settings.now }
    requires within { stop.now.before.events ≤ capacity settings.now }
    requires light { stop.now.before.weight < 2 ^ 62 }
    requires near { stop.now.gate ≤ 2 ^ 46 + 65536 * stop.now.before.events }
    ensures told { IfTold (B.files bay.old) (λ seen. IsWhy last.now.version settings.now cone last.now.n0 last.now.closed (seen JOURNAL)
        stop.now.before.events stop.now.before.weight stop.now.gate stop.now.fault result) }
    ensures failed { result ≡ ReopenFault.Failed → (stop.now.fault ≡ ReplayFault.Failed) ⊎ HasRisen (B.faults bay.old) (B.faults bay.new) }
    ensures only_reads { ReadsBay B.Bay bay.old bay.new ⊥ }
    ensures unread { stop.now.fault ≡ ReplayFault.Failed → B.handed_out bay.new ≡ B.handed_out bay.old }
{
    match stop.fault {
        ReplayFault::Failed => ReopenFault::Failed,
        ReplayFault::Malformed { at } => ReopenFault::Malformed { file: JOURNAL, at },
        ReplayFault::Unsound { file, at } => {
            match find_left(bay, settings, cone, last, stop.gate, stop.before) {
                Ok(None) => ReopenFault::Malformed { file, at },
                Ok(Some(place)) => ReopenFault::Malformed {
                    file: JOURNAL,
                    at: place,
                },
                Err(Failed) => ReopenFault::Failed,
            }
        }
    }
}

// What stands at the gate, and moves on behind a packet.
fn find_here<B: Bay>(
    log: &mut GateLog,
    bay: &mut B,
    settings: &Settings,
    cone: u32,
    last: &LogPoint,
    before: Before,
    buffer: &mut [u8],
) -> Result<Found, Failed>
    requires known { IsVersion last.now.version }
    requires file { log.old.file ≡ JOURNAL }
    requires most { log.old.most ≡ most_payload last.now.version settings.now }
    requires room { log.old.most ≤ length buffer.old }
    requires reach { log.old.gate ≤ 2 ^ 62 }
    requires place { last.now.n0 ≤ capacity settings.now }
    requires within { before.events ≤ capacity settings.now }
    requires light { before.weight < 2 ^ 62 }
    ensures told { IfTold (B.files bay.old) (λ seen. IfOk result (IsFound last.now.version settings.now cone last.now.n0 last.now.closed
        before.events before.weight (seen JOURNAL) log.old.gate log.new.gate)) }
    ensures forward { IfOk result (GoesOn settings.now before.events before.weight log.old.gate log.new.gate) }
    ensures file { log.new.file ≡ log.old.file }
    ensures most { log.new.most ≡ log.old.most }
    ensures only_reads { ReadsBay B.Bay bay.old bay.new (IsErr result) }
{
    let gate = log.gate();
    match log.next(bay, buffer) {
        Ok(None) => Ok(end_here(last, before.events, gate)),
        Ok(Some(count)) => Ok(packet_here(settings, cone, last, before, gate, &buffer[..count])),
        Err(LogFault::Malformed { at }) => Ok(Found::Left { at }),
        Err(LogFault::Failed) => Err(Failed),
    }
}

// What a closed gate is.
fn end_here(last: &LogPoint, events: u64, gate: u64) -> Found
    ensures told { (s : Numbers) (cone w : ℕ) (bytes : List ℕ) (next : ℕ) → IsClosed bytes gate → IsFound last.now.version s cone last.now.n0 last.now.closed events w bytes gate next result }
    ensures forward { (s : Numbers) (w next : ℕ) → GoesOn s events w gate next result }
{
    match end_left(last, events, gate) {
        Some(at) => Found::Left { at },
        None => Found::End,
    }
}

// What an open record with this payload is.
fn packet_here(
    settings: &Settings,
    cone: u32,
    last: &LogPoint,
    before: Before,
    gate: u64,
    payload: &[u8],
) -> Found
    requires known { IsVersion last.now.version }
    requires short { length payload.now ≤ most_payload last.now.version settings.now }
    requires reach { gate ≤ 2 ^ 62 }
    requires place { last.now.n0 ≤ capacity settings.now }
    requires within { before.events ≤ capacity settings.now }
    requires light { before.weight < 2 ^ 62 }
    ensures told { (bytes : List ℕ) → IsOpen (most_payload last.now.version settings.now) bytes gate payload.now →
        IsFound last.now.version settings.now cone last.now.n0 last.now.closed before.events before.weight bytes gate (next_gate gate payload.now) result }
    ensures forward { GoesOn settings.now before.events before.weight gate (next_gate gate payload.now) result }
{
    // Its clause says that the numbers are valid.
    let _ = settings.numbers();
    if let Some(place) = place_left(settings, cone, payload, last.version) {
        return Found::Left {
            at: gate + 1 + place,
        };
    }
    let Before { events, weight } = before;
    let keys = items_in(payload, last.version);
    let counted = settings.edge(0, last.n0).saturating_sub(events);
    let more = weight_behind(payload, last.version, counted);
    match packet_left(settings, last, events, keys, weight, more, gate) {
        Some(at) => Found::Left { at },
        None => Found::Packet { keys, more },
    }
}

// How many items stand in a payload, in a journal of a version.
fn items_in(payload: &[u8], version: u8) -> u64
    requires { 8 ≤ length payload.now }
    ensures { result ≡ (length payload.now - 8) / item_len version }
{
    let item_len = if version == 1 { 8 } else { 9 };
    (payload.len() as u64 - 8) / item_len
}
