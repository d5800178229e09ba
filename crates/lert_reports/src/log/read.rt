//! Records of a log as they are read: where one leaves the format, and what stands where in it.

ghost use Rattle.std.specs.Prelude.{◌≡◌, ℕ, ◌+◌, ◌*◌, ◌<◌, ◌≤◌, ◌^◌, min, true, false, [], ◌∷◌, None, Some, nat_lt, length, slice_index, MatchResult, IfOk, IsOkAnd};
ghost use Rattle.lert_reports.specs.LogText.{LogRecord, log_payload_of, kind_number, kind_field, n0_field, offset_field, first_field, head_fields, keeps_n0, next_flush, number_in, n0_in, is_broken};
ghost use Rattle.lert_reports.specs.LogText.{left_at, bin_count, level_place, reports_place, level_fields, directory_fields, bins_field, frame_field, frame_fields, count_field, reports_in};
ghost use Rattle.lert_reports.specs.LogText.{report_place, report_fields, all_report_fields, at_before, key_field, at_field, log_end, end_field, log_left, ArePartsOf};
ghost use Rattle.lert_reports.specs.LogRules.{KeepsRules, TellOf, record_in};
ghost use Rattle.lert_spec.specs.Edges.{capacity, edge};

use super::{LogBefore, LogKind, LogParts};
use crate::directory::bins;
use byteorder::{ByteOrder, LittleEndian};
use lert_base::Settings;
use lert_mixer::cone_of;

// The place in a journal from which it is read is at least the header's length, and at most this.
const MOST_OFFSET: u64 = 1 << 46;

/// Reads the payload of a record, behind the records that `before` tells of. The error is the place in the payload at
/// which it first leaves the format, but for the rule that no key is listed twice, which is the caller's to test.
/// Takes no memory.
pub fn read_log(
    settings: &Settings,
    cone: u32,
    before: &LogBefore,
    payload: &[u8],
) -> Result<LogParts, u64>
    ensures exact { MatchResult result
        (λ parts. (log_left settings.now cone before.now payload.now ≡ None) × ArePartsOf settings.now payload.now parts)
        (λ place. log_left settings.now cone before.now payload.now ≡ Some place) }

    // A payload that is read is that of a record that keeps the rules, and what `write_log` wrote by the rules reads back.
    ensures found { IfOk result (λ parts. KeepsRules settings.now cone before.now (record_in settings.now payload.now parts)
        × (payload.now ≡ log_payload_of (record_in settings.now payload.now parts))) }
    ensures reads_back { (record_ : LogRecord) → KeepsRules settings.now cone before.now record_ → payload.now ≡ log_payload_of record_ →
        IsOkAnd result (λ parts. TellOf record_ parts × (record_in settings.now payload.now parts ≡ record_)) }
{
    let _valid = settings.numbers();
    read_parts(settings, cone, before, payload)
}

// The parts of a payload, or the place at which it first leaves the format.
fn read_parts(
    settings: &Settings,
    cone: u32,
    before: &LogBefore,
    payload: &[u8],
) -> Result<LogParts, u64>
    ensures { MatchResult result
        (λ parts. (log_left settings.now cone before.now payload.now ≡ None) × ArePartsOf settings.now payload.now parts)
        (λ place. log_left settings.now cone before.now payload.now ≡ Some place) }
{
    let head = read_head(settings, before, payload)?;
    let count_at = read_directory(settings, head.n0, payload)?;
    let reports = read_report_count(settings, before, head.n0, count_at, payload)?;
    let reports_at = count_at + 4;
    read_reports(
        settings, cone, before, head.n0, reports_at, reports, payload,
    )?;
    read_end(settings, reports_at + 16 * reports as usize, payload)?;
    Ok(LogParts {
        kind: head.kind,
        n0: head.n0,
        offset: head.offset,
        first: head.first,
        directory_at: 25,
        reports_at,
        reports,
    })
}

/// What a record's first four fields say.
#[derive(Clone, Copy)]
pub struct Head {
    pub kind: LogKind,
    pub n0: u64,
    pub offset: u64,
    pub first: u64,
}

/// The first four fields, or the place of the first one that is broken.
pub fn read_head(settings: &Settings, before: &LogBefore, payload: &[u8]) -> Result<Head, u64>
    ensures { MatchResult result
        (λ head. (left_at payload.now (head_fields settings.now before.now payload.now) ≡ None)
        × (kind_number head.kind ≡ slice_index payload.now 0) × (head.n0 ≡ n0_in payload.now)
        × (head.offset ≡ number_in 8 payload.now 9) × (head.first ≡ number_in 8 payload.now 17)
        × (head.n0 ≤ capacity settings.now) × (25 ≤ length payload.now))
        (λ place. left_at payload.now (head_fields settings.now before.now payload.now) ≡ Some place) }
{
    let kind = read_kind(payload)?;
    let n0 = read_n0(settings, before, kind, payload)?;
    let offset = read_offset(payload)?;
    let first = read_first(settings, n0, payload)?;
    Ok(Head {
        kind,
        n0,
        offset,
        first,
    })
}

fn read_kind(payload: &[u8]) -> Result<LogKind, u64>
    ensures { MatchResult result
        (λ kind. (is_broken payload.now (kind_field payload.now) ≡ false) × (kind_number kind ≡ slice_index payload.now 0))
        (λ place. (is_broken payload.now (kind_field payload.now) ≡ true) × (place ≡ 0)) }
{
    match payload.first() {
        Some(1) => Ok(LogKind::Flush),
        Some(2) => Ok(LogKind::Closing),
        _ => Err(0),
    }
}

fn read_n0(
    settings: &Settings,
    before: &LogBefore,
    kind: LogKind,
    payload: &[u8],
) -> Result<u64, u64>
    requires { kind_number kind ≡ slice_index payload.now 0 }
    ensures { MatchResult result
        (λ n0. (is_broken payload.now (n0_field settings.now before.now payload.now) ≡ false) × (n0 ≡ n0_in payload.now) × (n0 ≤ capacity settings.now))
        (λ place. (is_broken payload.now (n0_field settings.now before.now payload.now) ≡ true) × (place ≡ 1)) }
{
    let n0 = number_at(payload, 1)?;
    if keeps_n0(settings, before, kind, n0) {
        Ok(n0)
    } else {
        Err(1)
    }
}

fn keeps_n0(settings: &Settings, before: &LogBefore, kind: LogKind, n0: u64) -> bool
    ensures value { result ≡ keeps_n0 settings.now before.now (kind_number kind) n0 }
{
    let next = next_flush(settings, before);
    let in_turn = match kind {
        LogKind::Flush => n0 == next,
        LogKind::Closing => before.n0 <= n0 && n0 < next,
    };
    n0 <= settings.capacity() && in_turn
}

// The position of the next flush, or the greatest number, where it is above that.
fn next_flush(settings: &Settings, before: &LogBefore) -> u64
    ensures { result ≡ min (next_flush settings.now before.now.flushes) 18446744073709551615 }
{
    let numbers = settings.numbers();
    numbers
        .bins
        .saturating_add(before.flushes)
        .saturating_mul(numbers.base)
}

fn read_offset(payload: &[u8]) -> Result<u64, u64>
    ensures { MatchResult result
        (λ offset. (is_broken payload.now (offset_field payload.now) ≡ false) × (offset ≡ number_in 8 payload.now 9))
        (λ place. (is_broken payload.now (offset_field payload.now) ≡ true) × (place ≡ 9)) }
{
    let offset = number_at(payload, 9)?;
    if 32 <= offset && offset <= MOST_OFFSET {
        Ok(offset)
    } else {
        Err(9)
    }
}

fn read_first(settings: &Settings, n0: u64, payload: &[u8]) -> Result<u64, u64>
    requires n0 { n0 ≡ n0_in payload.now }
    requires within { n0 ≤ capacity settings.now }
    ensures { MatchResult result
        (λ first. (is_broken payload.now (first_field settings.now payload.now) ≡ false) × (first ≡ number_in 8 payload.now 17))
        (λ place. (is_broken payload.now (first_field settings.now payload.now) ≡ true) × (place ≡ 17)) }
{
    let first = number_at(payload, 17)?;
    if 1 <= first && first - 1 <= settings.edge(0, n0) {
        Ok(first)
    } else {
        Err(17)
    }
}

// The number in eight bytes from a place on, or that place, where they aren't all there.
fn number_at(payload: &[u8], place: usize) -> Result<u64, u64>
    ensures { MatchResult result
        (λ number. (nat_lt (length payload.now) (place + 8) ≡ false) × (number ≡ number_in 8 payload.now place))
        (λ at. (nat_lt (length payload.now) (place + 8) ≡ true) × (at ≡ place)) }
{
    let bytes = payload.get(place..).unwrap_or(&[]);
    if bytes.len() < 8 {
        return Err(place as u64);
    }
    Ok(LittleEndian::read_u64(bytes))
}

/// Where a directory ends, or the place of the first of its fields that is broken.
pub fn read_directory(settings: &Settings, n0: u64, payload: &[u8]) -> Result<usize, u64>
    requires n0 { n0 ≡ n0_in payload.now }
    requires within { n0 ≤ capacity settings.now }
    requires long { 25 ≤ length payload.now }
    ensures { MatchResult result
        (λ end. (left_at payload.now (directory_fields settings.now payload.now) ≡ None)
        × (end ≡ reports_place settings.now n0) × (end ≤ length payload.now))
        (λ place. left_at payload.now (directory_fields settings.now payload.now) ≡ Some place) }
{
    let mut place = 25;
    for level in 1..settings.numbers().levels as u32 + 1 {
        place = read_level(settings, n0, level, place, payload)?;
    }
    Ok(place)
}

// Where a level's part of a directory ends, or the place of the first of its fields that is broken.
fn read_level(
    settings: &Settings,
    n0: u64,
    level: u32,
    place: usize,
    payload: &[u8],
) -> Result<usize, u64>
    requires n0 { n0 ≡ n0_in payload.now }
    requires within { n0 ≤ capacity settings.now }
    requires first { 1 ≤ level }
    requires last { level ≤ settings.now.levels }
    requires place { place ≡ level_place settings.now n0 level }
    requires long { place ≤ length payload.now }
    ensures { MatchResult result
        (λ end. (left_at payload.now (level_fields settings.now payload.now level) ≡ None)
        × (end ≡ place + 1 + bin_count settings.now level n0) × (end ≤ length payload.now))
        (λ at. left_at payload.now (level_fields settings.now payload.now level) ≡ Some at) }
{
    let frames = read_count(payload, place, bins(settings, level, n0))?;
    read_frames(settings, place + 1, frames, payload)?;
    Ok(place + 1 + frames)
}

// The number of frames at a place, or that place, where it isn't the level's number of bins.
fn read_count(payload: &[u8], place: usize, bins: u64) -> Result<usize, u64>
    ensures { MatchResult result
        (λ frames. (is_broken payload.now (bins_field payload.now place bins) ≡ false) × (frames ≡ bins) × (place < length payload.now))
        (λ at. (is_broken payload.now (bins_field payload.now place bins) ≡ true) × (at ≡ place)) }
{
    match payload.get(place) {
        Some(count) if u64::from(*count) == bins => Ok(*count as usize),
        _ => Err(place as u64),
    }
}

// Whether a level's frames are its own, each once, or the place of the first that isn't.
fn read_frames(settings: &Settings, start: usize, frames: usize, payload: &[u8]) -> Result<(), u64>
    requires { start ≤ length payload.now }
    ensures { MatchResult result
        (λ _. (left_at payload.now (frame_fields settings.now payload.now start frames) ≡ None) × (start + frames ≤ length payload.now))
        (λ at. left_at payload.now (frame_fields settings.now payload.now start frames) ≡ Some at) }
{
    for k in 0..frames {
        if is_bad_frame(settings, start, k, payload) {
            return Err((start + k) as u64);
        }
    }
    Ok(())
}

// Whether the k-th frame behind a place isn't there, is none of a level's, or stands before it already.
fn is_bad_frame(settings: &Settings, start: usize, k: usize, payload: &[u8]) -> bool
    requires { start + k ≤ length payload.now }
    ensures { result ≡ is_broken payload.now (frame_field settings.now payload.now start k) }
{
    let frames = &payload[start..];
    let Some(frame) = frames.get(k) else {
        return true;
    };
    u64::from(*frame) > settings.numbers().bins || frames[..k].contains(frame)
}

// The number of reports, or the place where it stands, where it isn't whole or there is no room for so many.
fn read_report_count(
    settings: &Settings,
    before: &LogBefore,
    n0: u64,
    place: usize,
    payload: &[u8],
) -> Result<u32, u64>
    requires n0 { n0 ≡ n0_in payload.now }
    requires place { place ≡ reports_place settings.now n0 }
    requires long { place ≤ length payload.now }
    ensures { MatchResult result
        (λ reports. (is_broken payload.now (count_field settings.now before.now payload.now) ≡ false)
        × (reports ≡ reports_in settings.now payload.now) × (place + 4 ≤ length payload.now))
        (λ at. (is_broken payload.now (count_field settings.now before.now payload.now) ≡ true)
        × (at ≡ reports_place settings.now (n0_in payload.now))) }
{
    let bytes = &payload[place..];
    if bytes.len() < 4 {
        return Err(place as u64);
    }
    let reports = LittleEndian::read_u32(bytes);
    if before.reports.saturating_add(u64::from(reports)) > settings.numbers().room {
        return Err(place as u64);
    }
    Ok(reports)
}

// Whether all reports keep their rules, or the place of the first field of one that doesn't.
fn read_reports(
    settings: &Settings,
    cone: u32,
    before: &LogBefore,
    n0: u64,
    start: usize,
    reports: u32,
    payload: &[u8],
) -> Result<(), u64>
    requires n0 { n0 ≡ n0_in payload.now }
    requires start { start ≡ reports_place settings.now n0 + 4 }
    requires reports { reports ≡ reports_in settings.now payload.now }
    requires long { start ≤ length payload.now }
    ensures { MatchResult result
        (λ _. (left_at payload.now (all_report_fields settings.now cone before.now payload.now) ≡ None) × (start + 16 * reports ≤ length payload.now))
        (λ at. left_at payload.now (all_report_fields settings.now cone before.now payload.now) ≡ Some at) }
{
    let mut earlier = before.at;
    for k in 0..reports as usize {
        earlier = read_report(settings, cone, n0, earlier, start + 16 * k, payload)?;
    }
    Ok(())
}

// The position of a report, or the place of the first of its fields that is broken.
fn read_report(
    settings: &Settings,
    cone: u32,
    n0: u64,
    earlier: u64,
    place: usize,
    payload: &[u8],
) -> Result<u64, u64>
    requires n0 { n0 ≡ n0_in payload.now }
    requires long { place ≤ length payload.now }
    ensures { MatchResult result
        (λ at. (left_at payload.now (key_field settings.now cone payload.now place ∷ at_field payload.now place earlier ∷ []) ≡ None)
        × (at ≡ number_in 8 payload.now (place + 8)) × (place + 16 ≤ length payload.now))
        (λ at. left_at payload.now (key_field settings.now cone payload.now place ∷ at_field payload.now place earlier ∷ []) ≡ Some at) }
{
    read_key(settings, cone, place, payload)?;
    let at = read_position(n0, earlier, place, payload)?;
    Ok(at)
}

fn read_key(settings: &Settings, cone: u32, place: usize, payload: &[u8]) -> Result<(), u64>
    ensures { MatchResult result
        (λ _. (is_broken payload.now (key_field settings.now cone payload.now place) ≡ false) × (place + 8 ≤ length payload.now))
        (λ at. (is_broken payload.now (key_field settings.now cone payload.now place) ≡ true) × (at ≡ place)) }
{
    let key = number_at(payload, place)?;
    if cone_of(settings, key) == cone {
        Ok(())
    } else {
        Err(place as u64)
    }
}

fn read_position(n0: u64, earlier: u64, place: usize, payload: &[u8]) -> Result<u64, u64>
    requires n0 { n0 ≡ n0_in payload.now }
    requires long { place + 8 ≤ length payload.now }
    ensures { MatchResult result
        (λ at. (is_broken payload.now (at_field payload.now place earlier) ≡ false) × (at ≡ number_in 8 payload.now (place + 8)))
        (λ there. (is_broken payload.now (at_field payload.now place earlier) ≡ true) × (there ≡ place + 8)) }
{
    let at = number_at(payload, place + 8)?;
    if 1.max(earlier) <= at && at <= n0 {
        Ok(at)
    } else {
        Err((place + 8) as u64)
    }
}

// Whether a payload ends at a place, or that place, where bytes are left over.
fn read_end(settings: &Settings, end: usize, payload: &[u8]) -> Result<(), u64>
    requires end { end ≡ log_end settings.now payload.now }
    requires long { end ≤ length payload.now }
    ensures { MatchResult result
        (λ _. (is_broken payload.now (end_field settings.now payload.now) ≡ false) × (end ≡ length payload.now))
        (λ at. (is_broken payload.now (end_field settings.now payload.now) ≡ true) × (at ≡ log_end settings.now payload.now)) }
{
    if payload.len() == end {
        Ok(())
    } else {
        Err(end as u64)
    }
}
