//! The records of a journal that is read again.

ghost use Rattle.std.specs.Prelude.{◌≡◌, ◌⊎◌, ℕ, ◌+◌, ◌*◌, ◌<◌, ◌≤◌, ◌^◌, length, true, false, IfOk, IsErrOf, IsFalse, IsTrue, MatchOption};
ghost use Rattle.lert_base.specs.Entries.{packet_of};
ghost use Rattle.lert_bay.specs.Files.{Files, IfTold};
ghost use Rattle.lert_bay.specs.Handed.{ReadsUpTo};
ghost use Rattle.lert_bay.specs.declared.bay.TheConstants.{JOURNAL};
ghost use Rattle.lert_gatelog.specs.Gated.{IsClosed, next_gate};
ghost use Rattle.lert_journal.specs.Cost.{entry_cost};
ghost use Rattle.lert_journal.specs.Journal.{HoldsPacket};
ghost use Rattle.lert_journal.specs.Payload.{IsJournaled, payload_of};
ghost use Rattle.lert_spec.specs.Edges.{capacity, edge};
ghost use Rattle.lert_cone.specs.Reads.{OnlyReadsJournal};
ghost use Rattle.lert_cone.specs.Replay.{IsFollowing, IsLeftBy, MayFollow, ReplayLeavesAt, weight_behind};
ghost use Rattle.lert_journal.specs.Payload.{most_payload};

use crate::items::Items;
use crate::tally::Tally;
use lert_base::{CountTable, Entry, Settings};
use lert_bay::Bay;
use lert_gatelog::{GateLog, LogFault};
use lert_journal::read_entry;
use lert_reports::LogPoint;

/// Reads the packet at the journal's gate into the entry, and moves the journal on behind it, where the packet may stand
/// behind the items so far. `weight` is what these weigh, by the frames that the log's last record names and by those that
/// were read behind them: to it is added what the packet's items weigh that aren't in these frames. False comes exactly at
/// a closed gate behind as many items as that record has, and then the journal and the entry are as they were. After a
/// refusal nothing is said of these. It changes no file and takes no memory.
pub fn read_packet<B: Bay, T: CountTable>(
    journal: &mut GateLog,
    bay: &mut B,
    tally: &Tally<B, T>,
    last: &LogPoint,
    weight: &mut u64,
    entry: &mut Entry,
    buffer: &mut [u8],
) -> Result<bool, LogFault>
    requires file { journal.old.file ≡ JOURNAL }
    requires most { journal.old.most ≡ most_payload tally.now.listing.version tally.now.listing.settings }
    requires entry { 4 * tally.now.listing.settings.packet ≤ entry.old.keys.room }
    requires room { journal.old.most ≤ length buffer.old }
    requires reach { journal.old.gate ≤ 2 ^ 62 }
    requires place { last.now.n0 ≤ capacity tally.now.listing.settings }
    requires fits { length tally.now.listing.events ≤ capacity tally.now.listing.settings }
    requires light { weight.old < 2 ^ 62 }

    // Where the file is told, the answer is what stands here.
    ensures found { IfTold (B.files bay.old) (λ seen. IfOk result (λ found. IsTrue found →
        HoldsPacket tally.now.listing.version tally.now.listing.settings tally.now.listing.cone (most_payload tally.now.listing.version tally.now.listing.settings)
        (seen JOURNAL) journal.old.gate (packet_of entry.new))) }
    ensures closed { IfTold (B.files bay.old) (λ seen. IfOk result (λ found. IsFalse found → IsClosed (seen JOURNAL) journal.old.gate)) }
    ensures malformed { IfTold (B.files bay.old) (λ seen. (at : ℕ) → IsErrOf result (LogFault.Malformed at) →
        ReplayLeavesAt tally.now.listing.version tally.now.listing.settings tally.now.listing.cone last.now.n0 last.now.closed
        (length tally.now.listing.events) weight.old (seen JOURNAL) journal.old.gate at) }

    // Told or not, the packet is one that this cone's journal may hold here, and the end stands behind enough items.
    ensures journaled { IfOk result (λ found. IsTrue found → IsJournaled tally.now.listing.version tally.now.listing.settings tally.now.listing.cone (packet_of entry.new)) }
    ensures follows { IfOk result (λ found. IsTrue found →
        MayFollow tally.now.listing.settings last.now.n0 last.now.closed (length tally.now.listing.events) weight.old (packet_of entry.new)) }
    ensures weight { IfOk result (λ found. IsTrue found →
        weight.new ≡ weight.old + weight_behind (edge tally.now.listing.settings 0 last.now.n0) (length tally.now.listing.events) (packet_of entry.new).items) }
    ensures enough { IfOk result (λ found. IsFalse found → last.now.n0 ≤ length tally.now.listing.events) }
    ensures moved { IfOk result (λ found. IsTrue found →
        journal.new ≡ record journal.old { gate = next_gate journal.old.gate (payload_of tally.now.listing.version (packet_of entry.new)) }) }
    ensures forward { IfOk result (λ found. IsTrue found →
        (journal.old.gate < journal.new.gate) × (journal.new.gate ≤ journal.old.gate + 5 + most_payload tally.now.listing.version tally.now.listing.settings)) }
    ensures waits { IfOk result (λ found. IsFalse found → (journal.new ≡ journal.old) × (entry.new ≡ entry.old)) }
    ensures keeps { OnlyReadsJournal B.Bay bay.old bay.new journal.old journal.new entry.old.keys.room entry.new.keys.room (IsErrOf result LogFault.Failed) }

    // No byte of a record is read twice.
    ensures handed { ReadsUpTo JOURNAL (entry_cost tally.now.listing.version (most_payload tally.now.listing.version tally.now.listing.settings) (packet_of entry.new) result)
        (B.handed_out bay.old) (B.handed_out bay.new) }
{
    let settings = tally.settings();
    // Its clause says that the numbers are valid.
    let _ = settings.numbers();
    let n = tally.len();
    let gate = journal.gate();
    let version = tally.version();
    let is_packet = read_entry(journal, bay, settings, tally.cone(), entry, buffer, version)?;
    if !is_packet {
        return match end_left(last, n, gate) {
            Some(at) => Err(LogFault::Malformed { at }),
            None => Ok(false),
        };
    }
    let items = Items::of(entry);
    let more = weigh_behind(&items, settings.edge(0, last.n0), n);
    match packet_left(settings, last, n, items.len() as u64, *weight, more, gate) {
        Some(at) => Err(LogFault::Malformed { at }),
        None => {
            *weight += more;
            Ok(true)
        }
    }
}

/// The place at which a closed gate of a journal leaves the format, behind so many items: the gate, where the log's last
/// record has more. None where the journal may end there.
pub fn end_left(last: &LogPoint, events: u64, gate: u64) -> Option<u64>
    ensures { MatchOption result (last.now.n0 ≤ events) (λ at. (events < last.now.n0) × (at ≡ gate)) }
{
    if events < last.n0 {
        return Some(gate);
    }
    None
}

// What the items weigh that stand behind position `from`, where `n` others stand before them.
fn weigh_behind(items: &Items<'_>, from: u64, n: u64) -> u64
    requires few { length items.now < 2 ^ 32 }
    ensures value { result ≡ weight_behind from n items.now }
    ensures most { result ≤ 255 * length items.now }
{
    let skip = from.saturating_sub(n).min(items.len() as u64);
    let (_, behind) = items.split_at(skip as usize);
    behind.weight()
}

/// The place at which a packet leaves the format of a journal, with `keys` items that add `more` to the weight, behind
/// `events` items that weigh `weight`: its gate, where it goes past a closing record of the log; and its length, which
/// stands behind the gate, where they are more than a cone takes, or weigh more. None where it may follow.
pub fn packet_left(
    settings: &Settings,
    last: &LogPoint,
    events: u64,
    keys: u64,
    weight: u64,
    more: u64,
    gate: u64,
) -> Option<u64>
    requires within { events ≤ capacity settings.now }
    requires few { keys < 2 ^ 63 }
    requires reach { gate < 2 ^ 63 }
    requires place { last.now.n0 ≤ capacity settings.now }
    requires light { weight + more < 2 ^ 64 }
    ensures { MatchOption result
        (IsFollowing settings.now last.now.n0 last.now.closed events keys weight more)
        (λ at. IsLeftBy settings.now last.now.n0 last.now.closed events keys weight more gate at) }
{
    let capacity = settings.capacity();
    if last.closed && last.n0 < events + keys {
        return Some(gate);
    }
    // A closing record stands behind no more items than a cone takes.
    if capacity < events + keys || settings.weight_room() < weight + more {
        return Some(gate + 1);
    }
    None
}
