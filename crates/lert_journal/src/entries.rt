//! The entries of a journal.

ghost use Rattle.std.specs.Prelude.{◌≡◌, ◌⊎◌, ℕ, ◌+◌, ◌*◌, ◌<◌, ◌≤◌, ◌^◌, List, [], ◌∷◌, ◌++◌, length, take, flat_map, IfOk, OnOk, OnErr, IsErr, IsErrAnd, MatchResult, IsTrue, IsFalse, IsErrOf, All};
ghost use Rattle.byteorder.specs.Endian.{little_bytes};
ghost use Rattle.lert_base.specs.Entries.{packet_of};
ghost use Rattle.lert_base.specs.Keys.{items_of};
ghost use Rattle.lert_base.specs.Packet.{Packet};
ghost use Rattle.lert_bay.specs.Files.{IfTold, Turns};
ghost use Rattle.lert_bay.specs.Handed.{ReadsUpTo};
ghost use Rattle.lert_bay.specs.Kept.{KeepsBay, ReadsBay};
ghost use Rattle.lert_gatelog.specs.Gated.{appendix, next_gate, IsOpen, IsClosed};
ghost use Rattle.lert_gatelog.specs.Kept.{InEach, KeepsOthers, KeepsBefore, IsWhollySettled, OthersStay};
ghost use Rattle.lert_spec.specs.Items.{IsVersion, AreOfVersion};
ghost use Rattle.lert_journal.specs.Payload.{payload_of, item_len, item_bytes, most_payload, IsJournaled};
ghost use Rattle.lert_journal.specs.Cost.{entry_cost};
ghost use Rattle.lert_journal.specs.Journal.{HasPackets, HasPacketsOrOneMore, HoldsPacket, LeavesAt};

use crate::payload::{fill, item_len, place_left};
use lert_base::{Entry, Settings};
use lert_bay::Bay;
use lert_bay::fields::{put, put_u32, put_u64};
use lert_gatelog::{GateLog, LogFault};
use lert_io::Failed;

/// Appends the packet of an entry to a journal of a version, 1 or 2: with the first all weights are 1, and none is written.
/// `log` is the journal's, whose greatest payload has 8 + 32P bytes, or 8 + 36P, where a packet has at most 4P keys, and
/// `buffer` holds five bytes more; any bytes are in it afterwards. After Ok the log stands at the closed gate behind the
/// record, after `Failed` where it stood. Takes no memory.
pub fn append_entry<B: Bay>(
    log: &mut GateLog,
    bay: &mut B,
    entry: &Entry,
    buffer: &mut [u8],
    version: u8,
) -> Result<(), Failed>
    requires version { IsVersion version }
    requires weighed { AreOfVersion version entry.now.keys.items }
    requires some { 0 < length entry.now.keys.items }
    requires few { 8 + item_len version * length entry.now.keys.items ≤ log.old.most }
    requires room { log.old.most + 5 ≤ length buffer.old }
    requires reach { log.old.gate + 14 + item_len version * length entry.now.keys.items < 2 ^ 63 }
    requires closed { IfTold (B.files bay.old) (λ _. InEach (B.leaves bay.old) log.old.file (λ bytes. IsClosed bytes log.old.gate)) }
    ensures moved { OnOk result (log.new ≡ record log.old { gate = next_gate log.old.gate (payload_of version (packet_of entry.now)) }) }
    ensures stayed { OnErr result (log.new ≡ log.old) }

    // In every image of each moment of the call the journal has the packets from before, or those and this one.
    ensures each_moment { IfTold (B.files bay.old) (λ _. (first : ℕ) (packets : List Packet) →
        InEach (B.leaves bay.old) log.old.file (λ bytes. HasPackets version log.old.most bytes first packets log.old.gate) →
        InEach (B.left_since bay.new (B.moment bay.old)) log.old.file (HasPacketsOrOneMore version log.old.most first packets log.old.gate (packet_of entry.now))) }

    // After Ok it has those and this one.
    ensures appended { IfTold (B.files bay.old) (λ _. (first : ℕ) (packets : List Packet) →
        InEach (B.leaves bay.old) log.old.file (λ bytes. HasPackets version log.old.most bytes first packets log.old.gate) →
        OnOk result (InEach (B.leaves bay.new) log.old.file (λ bytes. HasPackets version log.old.most bytes first (packets ++ packet_of entry.now ∷ []) log.new.gate))) }
    ensures closed { IfTold (B.files bay.old) (λ _. OnOk result (InEach (B.leaves bay.new) log.old.file (λ bytes. IsClosed bytes log.new.gate))) }
    ensures settled { OnOk result (IfTold (B.files bay.new) (λ seen. IsWhollySettled (B.leaves bay.new) seen log.old.file)) }
    ensures before { IfTold (B.files bay.old) (λ seen. KeepsBefore (B.leaves bay.old) (B.left_since bay.new (B.moment bay.old)) seen log.old.file log.old.gate) }
    ensures others { IfTold (B.files bay.old) (λ seen. KeepsOthers (B.leaves bay.old) (B.left_since bay.new (B.moment bay.old)) seen log.old.file) }
    ensures seen { Turns (OthersStay log.old.file) (B.files bay.old) (B.files bay.new) }
    ensures kept { KeepsBay B.Bay bay.old bay.new (IsErr result) }
{
    // Its clause bounds the payload's length.
    let _ = log.gate();
    let len = write_text(entry, buffer, version);
    log.append(bay, &buffer[..len])
}

/// Reads the packet of the open record here into an entry, and moves on to the next gate. `log` is that of a journal of
/// a version, 1 or 2, whose greatest payload has 8 + 32P bytes, or 8 + 36P; `entry` has a room of 4P keys, and `buffer`
/// holds a payload; any bytes are in it afterwards. With the first version each key weighs 1. False comes exactly at a closed gate. After false and after a refusal the log
/// stands where it stood, and the entry is as it was. It changes no file and takes no memory.
pub fn read_entry<B: Bay>(
    log: &mut GateLog,
    bay: &mut B,
    settings: &Settings,
    cone: u32,
    entry: &mut Entry,
    buffer: &mut [u8],
    version: u8,
) -> Result<bool, LogFault>
    requires version { IsVersion version }
    requires most { log.old.most ≡ most_payload version settings.now }
    requires entry { 4 * settings.now.packet ≤ entry.old.keys.room }
    requires room { log.old.most ≤ length buffer.old }
    requires reach { log.old.gate ≤ 2 ^ 62 }

    // Where the file is told, the answer is what stands here.
    ensures found { IfTold (B.files bay.old) (λ seen. IfOk result (λ found. IsTrue found →
        IsOpen log.old.most (seen log.old.file) log.old.gate (payload_of version (packet_of entry.new)))) }
    ensures closed { IfTold (B.files bay.old) (λ seen. IfOk result (λ found. IsFalse found →
        IsClosed (seen log.old.file) log.old.gate)) }
    ensures malformed { IfTold (B.files bay.old) (λ seen. (at : ℕ) → IsErrOf result (LogFault.Malformed at) →
        LeavesAt version settings.now cone log.old.most (seen log.old.file) log.old.gate at) }

    // And what stands here is the answer, but where a call of the bay fails.
    ensures reads_back { IfTold (B.files bay.old) (λ seen. (packet : Packet) →
        HoldsPacket version settings.now cone log.old.most (seen log.old.file) log.old.gate packet →
        MatchResult result (λ found. IsTrue found × (packet_of entry.new ≡ packet)) (λ fault. fault ≡ LogFault.Failed)) }
    ensures ends { IfTold (B.files bay.old) (λ seen. IsClosed (seen log.old.file) log.old.gate →
        MatchResult result (λ found. IsFalse found) (λ fault. fault ≡ LogFault.Failed)) }
    ensures refuses { IfTold (B.files bay.old) (λ seen. (at : ℕ) →
        LeavesAt version settings.now cone log.old.most (seen log.old.file) log.old.gate at →
        IsErrAnd result (λ fault. (fault ≡ LogFault.Failed) ⊎ (fault ≡ LogFault.Malformed at))) }

    // Told or not, the packet is one that this cone's journal may hold.
    ensures journaled { IfOk result (λ found. IsTrue found → IsJournaled version settings.now cone (packet_of entry.new)) }
    ensures moved { IfOk result (λ found. IsTrue found →
        log.new ≡ record log.old { gate = next_gate log.old.gate (payload_of version (packet_of entry.new)) }) }
    ensures forward { IfOk result (λ found. IsTrue found →
        (log.old.gate < log.new.gate) × (log.new.gate ≤ log.old.gate + 13 + 4 * item_len version * settings.now.packet)) }
    ensures waits { IfOk result (λ found. IsFalse found → (log.new ≡ log.old) × (entry.new ≡ entry.old)) }
    ensures stayed { OnErr result ((log.new ≡ log.old) × (entry.new ≡ entry.old)) }
    ensures room { entry.new.keys.room ≡ entry.old.keys.room }
    ensures only_reads { ReadsBay B.Bay bay.old bay.new (IsErrOf result LogFault.Failed) }

    // No byte of a record is read twice.
    ensures handed { ReadsUpTo log.old.file (entry_cost version log.old.most (packet_of entry.new) result) (B.handed_out bay.old) (B.handed_out bay.new) }
{
    let gate = log.gate();
    let mut ahead = *log;
    let Some(count) = ahead.next(bay, buffer)? else {
        return Ok(false);
    };
    let payload = &buffer[..count];
    if let Some(place) = place_left(settings, cone, payload, version) {
        return Err(LogFault::Malformed {
            at: gate + 1 + place,
        });
    }
    // Only a payload that kept all rules changes the entry and moves the log.
    fill(entry, payload, version);
    *log = ahead;
    Ok(true)
}

// Writes to the front what a log appends for an entry: the payload behind its length, and one byte 0.
// Answers how many bytes these are.
fn write_text(entry: &Entry, into: &mut [u8], version: u8) -> usize
    requires version { IsVersion version }
    requires room { 13 + item_len version * length entry.now.keys.items ≤ length into.old }
    requires few { 8 + item_len version * length entry.now.keys.items < 2 ^ 32 }
    ensures text { take result into.new ≡ appendix (payload_of version (packet_of entry.now)) }
    ensures counted { result ≡ 13 + item_len version * length entry.now.keys.items }
{
    let keys = entry.keys.as_slice();
    let weights = entry.keys.weights();
    let payload_len = 8 + item_len(version) * keys.len();
    put_u32(into, 0, payload_len as u32);
    put_u32(into, 4, entry.by);
    put_u32(into, 8, entry.trace);
    put_items(into, keys, weights, version);
    put(into, 4 + payload_len, &[0]);
    payload_len + 5
}

// Lays the bytes of items behind the first twelve.
fn put_items(into: &mut [u8], keys: &[u64], weights: &[u8], version: u8)
    requires same { length weights.now ≡ length keys.now }
    requires room { 12 + item_len version * length keys.now ≤ length into.old }
    ensures { take (12 + item_len version * length keys.now) into.new ≡ take 12 into.old ++ flat_map (item_bytes version) (items_of keys.now weights.now) }
{
    if version == 1 {
        return put_keys(into, keys);
    }
    put_weighed(into, keys, weights);
}

// Lays the bytes of keys behind the first twelve.
fn put_keys(into: &mut [u8], keys: &[u64])
    requires { 12 + 8 * length keys.now ≤ length into.old }
    ensures { take (12 + 8 * length keys.now) into.new ≡ take 12 into.old ++ flat_map (little_bytes 8) keys.now }
{
    let mut place = 12;
    for key in keys {
        put_u64(into, place, *key);
        place += 8;
    }
}

// Lays the bytes of keys, each with its weight, behind the first twelve.
fn put_weighed(into: &mut [u8], keys: &[u64], weights: &[u8])
    requires same { length weights.now ≡ length keys.now }
    requires room { 12 + 9 * length keys.now ≤ length into.old }
    ensures { take (12 + 9 * length keys.now) into.new ≡ take 12 into.old ++ flat_map (item_bytes 2) (items_of keys.now weights.now) }
{
    let mut place = 12;
    for n in 0..keys.len() {
        put_u64(into, place, keys[n]);
        put(into, place + 8, &[weights[n]]);
        place += 9;
    }
}
