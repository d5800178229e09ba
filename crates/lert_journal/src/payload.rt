//! Payloads as they are read: where one leaves the format, and the packet in it.

ghost use Rattle.std.specs.Prelude.{◌≡◌, ℕ, ◌+◌, ◌-◌, ◌*◌, ◌/◌, ◌%◌, ◌^◌, ◌<◌, ◌≤◌, ◌==◌, not, length, drop, IfSome, IfNone};
ghost use Rattle.std.specs.List.{position_from};
ghost use Rattle.lert_base.specs.Entries.{packet_of};
ghost use Rattle.lert_spec.specs.Counts.{weighed, weight_of};
ghost use Rattle.lert_spec.specs.Items.{IsVersion, AreOfVersion};
ghost use Rattle.lert_journal.specs.Payload.{payload_of, packet_in, item_in, item_len, is_counted, is_own, stray_spot, left, IsJournaled};

use byteorder::{ByteOrder, LittleEndian};
use lert_base::{Entry, Item, Settings};
use lert_mixer::cone_of;

// The greatest number of who brings a packet, and of a trace.
const MOST_BY: u32 = 63;

const MOST_TRACE: u32 = 1023;

/// The place at which a payload of a journal of a version, 1 or 2, first leaves the format, counted from its length on,
/// which stands four bytes before it. None where it holds a packet of this cone.
pub fn place_left(settings: &Settings, cone: u32, payload: &[u8], version: u8) -> Option<u64>
    requires version { IsVersion version }
    requires short { length payload.now < 2 ^ 32 }
    ensures within { IfSome result (λ place. place < length payload.now + 4) }
    ensures place { result ≡ left version settings.now cone payload.now }
    ensures holds { IfNone result (IsJournaled version settings.now cone (packet_in version payload.now)) }
{
    if !is_counted(settings, payload.len(), version) {
        return Some(0);
    }
    if LittleEndian::read_u32(payload) > MOST_BY {
        return Some(4);
    }
    if LittleEndian::read_u32(&payload[4..]) > MOST_TRACE {
        return Some(8);
    }
    let stray = first_stray(settings, cone, payload, version)?;
    let item = item_in(payload, stray, version);
    let place = 12 + item_len(version) * stray + stray_spot(settings, cone, item, version);
    Some(place as u64)
}

/// What the items of a payload weigh together that stand behind the first `skip` ones. With the first version each
/// weighs 1.
pub fn weight_behind(payload: &[u8], version: u8, skip: u64) -> u64
    requires short { length payload.now < 2 ^ 32 }
    ensures value { result ≡ weight_of weighed (drop skip (packet_in version payload.now).items) }
    ensures most { result ≤ 255 * length (packet_in version payload.now).items }
{
    let count = payload.len().saturating_sub(8) / item_len(version);
    let first = count.min(skip as usize);
    let mut weight = 0;
    for n in first..count {
        weight += u64::from(item_in(payload, n, version).weight);
    }
    weight
}

/// Puts the packet of a payload in the place of the one that the entry carries.
pub fn fill(entry: &mut Entry, payload: &[u8], version: u8)
    requires some { 8 ≤ length payload.now }
    requires room { (length payload.now - 8) / item_len version ≤ entry.old.keys.room }
    requires weighed { AreOfVersion version (packet_in version payload.now).items }
    ensures packet { packet_of entry.new ≡ packet_in version payload.now }
    ensures text { (length payload.now - 8) % item_len version ≡ 0 → payload_of version (packet_in version payload.now) ≡ payload.now }
    ensures room { entry.new.keys.room ≡ entry.old.keys.room }
{
    entry.by = LittleEndian::read_u32(payload);
    entry.trace = LittleEndian::read_u32(&payload[4..]);
    entry.keys.clear();
    for n in 0..(payload.len() - 8) / item_len(version) {
        let item = item_in(payload, n, version);
        entry.keys.push(item.key, item.weight);
    }
}

/// How many bytes an item has in a journal of a version: its key's eight, and behind the first version its weight's.
pub(crate) fn item_len(version: u8) -> usize
    ensures value { result ≡ item_len version }
    ensures least { 8 ≤ result }
    ensures most { result ≤ 9 }
{
    if version == 1 { 8 } else { 9 }
}

// Whether a payload of this length holds whole items, at least one and at most four packets' worth.
fn is_counted(settings: &Settings, len: usize, version: u8) -> bool
    ensures { result ≡ is_counted version settings.now len }
{
    let most = 4 * settings.numbers().packet as usize;
    let items = len.saturating_sub(8) / item_len(version);
    len.saturating_sub(8) % item_len(version) == 0 && 1 <= items && items <= most
}

// Which item, from 0, is the first one of another cone or without a weight.
fn first_stray(settings: &Settings, cone: u32, payload: &[u8], version: u8) -> Option<usize>
    requires { 8 ≤ length payload.now }
    ensures within { IfSome result (λ n. 8 + item_len version * n + item_len version ≤ length payload.now) }
    ensures first { result ≡ position_from (λ item. not (is_own settings.now cone item)) 0 (packet_in version payload.now).items }
{
    (0..(payload.len() - 8) / item_len(version))
        .map(|n| item_in(payload, n, version))
        .position(|item| !is_own(settings, cone, item))
}

// Whether an item may stand in the journal of a cone.
fn is_own(settings: &Settings, cone: u32, item: Item) -> bool
    ensures { result ≡ is_own settings.now cone item }
{
    cone_of(settings, item.key) == cone && 1 <= item.weight
}

// How far behind its first byte an item breaks a rule: at its key, or else at its weight, the last byte.
fn stray_spot(settings: &Settings, cone: u32, item: Item, version: u8) -> usize
    ensures value { result ≡ stray_spot version settings.now cone item }
    ensures within { result < item_len version }
{
    if cone_of(settings, item.key) == cone {
        item_len(version) - 1
    } else {
        0
    }
}

// The item with a number, from 0.
fn item_in(payload: &[u8], n: usize, version: u8) -> Item
    requires { 8 + item_len version * n + item_len version ≤ length payload.now }
    ensures { result ≡ item_in version payload.now n }
{
    let place = 8 + item_len(version) * n;
    let key = LittleEndian::read_u64(&payload[place..]);
    let weight = if version == 1 { 1 } else { payload[place + 8] };
    Item { key, weight }
}
