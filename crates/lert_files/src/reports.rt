//! The reports in a payload: whether each key is new, and where the first one isn't.

ghost use Rattle.std.specs.Prelude.{◌≡◌, ℕ, ◌+◌, ◌*◌, ◌<◌, ◌≤◌, ◌^◌, List, ◌++◌, Some, length, MatchOption};
ghost use Rattle.lert_files.specs.Repeated.{reports_from, IsListedThere, AreNewThere};
ghost use Rattle.lert_reports.specs.declared.log.LogBefore.{LogBefore};
ghost use Rattle.lert_reports.specs.Log.{before_of, listed_in, PayloadLeavesAt};
ghost use Rattle.lert_reports.specs.LogText.{LogRecord, log_left, n0_in, number_in, report_in, reports_place};
ghost use Rattle.lert_spec.specs.Edges.{capacity};

use byteorder::{ByteOrder, LittleEndian};
use lert_base::{CountTable, Report, Settings};
use lert_reports::{ReportStore, bins};

// How many bytes a record's first four fields have.
const HEAD_LEN: u64 = 25;

/// Puts the first `count` reports of a payload into the store, the first one at `start`, up to one whose key is in it. Answers
/// the number of that one, from 0.
pub fn put_reports<T: CountTable>(
    store: &mut ReportStore<T>,
    payload: &[u8],
    start: usize,
    count: usize,
) -> Option<usize>
    requires whole { start + 16 * count ≤ length payload.now }
    requires room { length store.old.reports + count ≤ store.old.settings.room }
    ensures found { MatchOption result
        ((store.new.reports ≡ store.old.reports ++ reports_from payload.now start count) × AreNewThere store.old.reports payload.now start count)
        (λ number. (number < count) × IsListedThere store.old.reports payload.now start number × AreNewThere store.old.reports payload.now start number) }
    ensures settings { store.new.settings ≡ store.old.settings }
{
    for number in 0..count {
        let report = report_there(payload, start + 16 * number);
        if store.has(report.key) {
            return Some(number);
        }
        store.put(report);
    }
    None
}

/// The place at which a payload first leaves the format, whose fields do so at `place`: that one, or the key of a report
/// before it, if that was listed before. Any of the reports may be in the store afterwards.
pub fn first_left<T: CountTable>(
    settings: &Settings,
    store: &mut ReportStore<T>,
    payload: &[u8],
    place: u64,
) -> u64
    requires same { store.old.settings ≡ settings.now }
    requires left { (cone : ℕ) × (before : LogBefore) × (log_left settings.now cone before payload.now ≡ Some place) × (length store.old.reports ≤ before.reports) }
    requires short { length payload.now < 2 ^ 32 }
    ensures first { (cone : ℕ) (records : List LogRecord) → log_left settings.now cone (before_of records) payload.now ≡ Some place →
        store.old.reports ≡ listed_in records → PayloadLeavesAt settings.now cone records payload.now result }
    ensures within { result < 2 ^ 40 }
    ensures settings { store.new.settings ≡ store.old.settings }
{
    if place < HEAD_LEN {
        return place;
    }
    let start = reports_start(settings, number_in(payload, 1));
    if place < start {
        return place;
    }
    let whole = (place - start) / 16;
    if let Some(number) = put_reports(store, payload, start as usize, whole as usize) {
        return start + 16 * number as u64;
    }
    let next = start + 16 * whole;
    if place != next + 8 {
        return place;
    }
    if store.has(number_in(payload, next as usize)) {
        return next;
    }
    place
}

// Where the first report stands in a record after so many events.
fn reports_start(settings: &Settings, n0: u64) -> u64
    requires { n0 ≤ capacity settings.now }
    ensures value { result ≡ reports_place settings.now n0 + 4 }
    ensures within { result < 2 ^ 37 }
{
    let mut place = HEAD_LEN;
    for level in 1..settings.numbers().levels as u32 + 1 {
        place += 1 + bins(settings, level, n0);
    }
    place + 4
}

// The report whose bytes stand at a place.
fn report_there(payload: &[u8], place: usize) -> Report
    requires { place + 16 ≤ length payload.now }
    ensures { result ≡ report_in payload.now place }
{
    Report {
        key: number_in(payload, place),
        at: number_in(payload, place + 8),
    }
}

// The number in the eight bytes from a place on.
fn number_in(payload: &[u8], place: usize) -> u64
    requires { place + 8 ≤ length payload.now }
    ensures { result ≡ number_in 8 payload.now place }
{
    LittleEndian::read_u64(&payload[place..])
}
