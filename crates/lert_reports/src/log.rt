//! The records of a log.

ghost use Rattle.std.specs.Prelude.{◌≡◌, ℕ, ◌+◌, ◌*◌, ◌<◌, ◌≤◌, ◌^◌, ◌++◌, length, take, flat_map};
ghost use Rattle.lert_gatelog.specs.Gated.{appendix};
ghost use Rattle.lert_reports.specs.Log.{most_record};
ghost use Rattle.lert_reports.specs.LogText.{kind_number, log_payload, report_bytes};
ghost use Rattle.lert_spec.specs.Limits.{IsValid};

use lert_base::{Report, Settings};
use lert_bay::fields::{put, put_u32, put_u64};
pub use read::read_log;

mod read;

/// How many bytes begin a log. The first gate stands behind them.
pub const LOG_HEADER_LEN: usize = 8;

/// The bytes that begin a log: the letters LERTL, and version 1.
pub const LOG_HEADER: [u8; LOG_HEADER_LEN] = [0x4c, 0x45, 0x52, 0x54, 0x4c, 0x01, 0x00, 0x00];

/// What a record of a log is.
#[derive(Clone, Copy, Debug, PartialEq, Eq)]
pub enum LogKind {
    /// The one of a flush.
    Flush,
    /// The last one, of a cone that was closed.
    Closing,
}

/// What the records before a record of a log say of it: how many of a flush there are, after how many events the last
/// one was written, how many reports they have, and the position of the last report. All are 0 before the first record.
#[derive(Clone, Copy, Debug, PartialEq, Eq)]
pub struct LogBefore {
    pub flushes: u64,
    pub n0: u64,
    pub reports: u64,
    pub at: u64,
}

/// What stands where in the payload of a record: the directory and the first report by the places of their first bytes,
/// counted from the payload's own first byte.
#[derive(Clone, Copy, Debug, PartialEq, Eq)]
pub struct LogParts {
    pub kind: LogKind,
    pub n0: u64,
    pub offset: u64,
    pub first: u64,
    pub directory_at: usize,
    pub reports_at: usize,
    pub reports: u32,
}

/// Writes to the front what a log appends for a record: the payload behind its length, and one byte 0. Answers how many
/// bytes these are. `directory` has for each level from 1 on how many frames it has, and their numbers. Bytes behind
/// the text may change. Takes no memory.
pub fn write_log(
    kind: LogKind,
    n0: u64,
    offset: u64,
    first: u64,
    directory: &[u8],
    reports: &[Report],
    into: &mut [u8],
) -> usize
    requires room { 34 + length directory.now + 16 * length reports.now ≤ length into.old }
    requires few { 29 + length directory.now + 16 * length reports.now < 2 ^ 32 }
    ensures text { take result into.new ≡ appendix (log_payload kind n0 offset first directory.now reports.now) }
    ensures counted { result ≡ 34 + length directory.now + 16 * length reports.now }
{
    let reports_at = 29 + directory.len();
    let payload_len = reports_at + 16 * reports.len();
    put_u32(into, 0, payload_len as u32);
    put(into, 4, &[number_of(kind)]);
    put_u64(into, 5, n0);
    put_u64(into, 13, offset);
    put_u64(into, 21, first);
    put(into, 29, directory);
    put_u32(into, reports_at, reports.len() as u32);
    put_reports(into, reports_at + 4, reports);
    put(into, payload_len + 4, &[0]);
    payload_len + 5
}

// The byte of a record's kind.
fn number_of(kind: LogKind) -> u8
    ensures { result ≡ kind_number kind }
{
    match kind {
        LogKind::Flush => 1,
        LogKind::Closing => 2,
    }
}

// Lays the bytes of reports over those from a place on; those before it stay.
fn put_reports(into: &mut [u8], start: usize, reports: &[Report])
    requires { start + 16 * length reports.now ≤ length into.old }
    ensures { take (start + 16 * length reports.now) into.new ≡ take start into.old ++ flat_map report_bytes reports.now }
{
    let mut place = start;
    for report in reports {
        put_report(into, place, report);
        place += 16;
    }
}

// Lays a report's sixteen bytes over those from a place on; those before it stay.
fn put_report(into: &mut [u8], place: usize, report: &Report)
    requires { place + 16 ≤ length into.old }
    ensures { take (place + 16) into.new ≡ take place into.old ++ report_bytes report.now }
{
    put_u64(into, place, report.key);
    put_u64(into, place + 8, report.at);
}

/// The greatest length of a record's payload in a log: 29 bytes, one for each level and each of its bins, and 16 for each
/// report that there is room for.
pub fn greatest_record(settings: &Settings) -> u32
    ensures value { result ≡ most_record settings.now }
    ensures most { result ≤ 67109029 }
    ensures valid { IsValid settings.now }
{
    let numbers = settings.numbers();
    29 + numbers.levels as u32 * (1 + numbers.bins as u32) + 16 * numbers.room as u32
}
