//! One record of the log more.

ghost use Rattle.std.specs.Prelude.{◌≡◌, ◌⊎◌, ℕ, ◌+◌, ◌*◌, ◌<◌, ◌≤◌, ◌^◌, true, false, List, [], ◌∷◌, ◌++◌, length, IfOk, IfErr, MatchResult, IsTrue, IsFalse, IsErrOf, cond};
ghost use Rattle.lert_bay.specs.declared.bay.TheConstants.{LOG};
ghost use Rattle.lert_bay.specs.Files.{IfTold};
ghost use Rattle.lert_bay.specs.Kept.{OnlyReads};
ghost use Rattle.lert_gatelog.specs.Gated.{IsOpen, IsClosed, next_gate};
ghost use Rattle.lert_files.specs.Read.{HasRead, steps};
ghost use Rattle.lert_reports.specs.Log.{is_closing, is_flush, last_at, most_record, PayloadLeavesAt, HasLogUpTo, LogLeavesAt};
ghost use Rattle.lert_reports.specs.LogText.{LogRecord, log_payload_of};

use crate::directory::Directory;
use crate::fault::ReopenFault;
use crate::payload::read_payload;
use crate::reports::{first_left, put_reports};
use lert_base::{CountTable, Report, Settings};
use lert_bay::{Bay, LOG};
use lert_gatelog::GateLog;
use lert_reports::{FIRST, LogBefore, LogKind, LogParts, OFFSET, ReportStore, read_log};

/// What the records so far say of the next one, and what the last one says.
#[derive(Clone, Copy)]
pub struct Progress {
    pub before: LogBefore,
    pub offset: u64,
    pub first: u64,
    pub closed: bool,
}

impl Progress {
    /// No record was read.
    pub fn new() -> Progress
        ensures { result ≡ record { before = record { flushes = 0; n0 = 0; reports = 0; at = 0 }; offset = 32; first = 1; closed = false } }
    {
        Progress {
            before: LogBefore {
                flushes: 0,
                n0: 0,
                reports: 0,
                at: 0,
            },
            offset: OFFSET,
            first: FIRST,
            closed: false,
        }
    }
}

/// Reads the record that the log stands at, and moves on. False comes exactly at a closed gate; all is as it was then.
pub fn read_log_record<B: Bay, T: CountTable>(
    log: &mut GateLog,
    bay: &mut B,
    settings: &Settings,
    cone: u32,
    progress: &mut Progress,
    store: &mut ReportStore<T>,
    directory: &mut Directory,
    buffer: &mut [u8],
) -> Result<bool, ReopenFault>
    requires file { log.old.file ≡ LOG }
    requires most { log.old.most ≡ most_record settings.now }
    requires reach { log.old.gate ≤ 2 ^ 62 }
    requires room { most_record settings.now ≤ length buffer.old }
    requires same { store.old.settings ≡ settings.now }
    requires read { (records : List LogRecord) × HasRead settings.now cone progress.old store.old.reports directory.old records }
    ensures more { (records : List LogRecord) → HasRead settings.now cone progress.old store.old.reports directory.old records →
        IfOk result (λ more. IsTrue more → (one : LogRecord)
        × HasRead settings.now cone progress.new store.new.reports directory.new (records ++ one ∷ [])
        × IfTold (B.files bay.old) (λ seen. HasLogUpTo settings.now cone (seen LOG) records log.old.gate → HasLogUpTo settings.now cone (seen LOG) (records ++ one ∷ []) log.new.gate)) }
    ensures closed { IfTold (B.files bay.old) (λ seen. IfOk result (λ more. IsFalse more → IsClosed (seen LOG) log.old.gate)) }
    ensures malformed { IfTold (B.files bay.old) (λ seen. (records : List LogRecord) →
        HasRead settings.now cone progress.old store.old.reports directory.old records → HasLogUpTo settings.now cone (seen LOG) records log.old.gate →
        (file at : ℕ) → IsErrOf result (ReopenFault.Malformed file at) → LogLeavesAt settings.now cone (seen LOG) at) }
    ensures waits { IfOk result (λ more. IsFalse more → (log.new ≡ log.old) × (progress.new ≡ progress.old)
        × (store.new ≡ store.old) × (directory.new ≡ directory.old)) }
    ensures steps { IfOk result (λ more. IsTrue more → steps progress.new ≡ steps progress.old + 1) }
    ensures forward { IfOk result (λ more. IsTrue more → log.new.gate ≤ log.old.gate + 5 + most_record settings.now) }
    ensures log { IfOk result (λ _. (log.new.file ≡ log.old.file) × (log.new.most ≡ log.old.most)) }
    ensures same { store.new.settings ≡ store.old.settings }
    ensures fault { IfErr result (λ fault. (fault ≡ ReopenFault.Failed) ⊎ ((at : ℕ) × (fault ≡ ReopenFault.Malformed LOG at))) }
    ensures only_reads { OnlyReads B.Bay bay.old bay.new (IsErrOf result ReopenFault.Failed) }
{
    let gate = log.gate();
    let Some(count) = read_payload(log, bay, progress.closed, buffer)? else {
        return Ok(false);
    };
    let payload = &buffer[..count];
    if let Err(place) = take_record(settings, cone, payload, progress, store, directory) {
        return Err(ReopenFault::Malformed {
            file: LOG,
            at: gate + 5 + place,
        });
    }
    Ok(true)
}

// Takes what a payload says, or answers the place in it at which it first leaves the format.
fn take_record<T: CountTable>(
    settings: &Settings,
    cone: u32,
    payload: &[u8],
    progress: &mut Progress,
    store: &mut ReportStore<T>,
    directory: &mut Directory,
) -> Result<(), u64>
    requires same { store.old.settings ≡ settings.now }
    requires short { length payload.now < 2 ^ 32 }
    requires still_open { progress.old.closed ≡ false }
    requires read { (records : List LogRecord) × HasRead settings.now cone progress.old store.old.reports directory.old records }
    ensures taken { (records : List LogRecord) → HasRead settings.now cone progress.old store.old.reports directory.old records →
        MatchResult result
        (λ _. (one : LogRecord) × HasRead settings.now cone progress.new store.new.reports directory.new (records ++ one ∷ []) × (payload.now ≡ log_payload_of one))
        (λ place. PayloadLeavesAt settings.now cone records payload.now place) }
    ensures steps { IfOk result (λ _. steps progress.new ≡ steps progress.old + 1) }
    ensures within { IfErr result (λ place. place < 2 ^ 40) }
    ensures same { store.new.settings ≡ store.old.settings }
{
    // Its clause says that the numbers are valid.
    let _ = settings.numbers();
    match read_log(settings, cone, &progress.before, payload) {
        Ok(parts) => {
            let count = parts.reports as usize;
            if let Some(number) = put_reports(store, payload, parts.reports_at, count) {
                return Err((parts.reports_at + 16 * number) as u64);
            }
            directory.replace(&payload[parts.directory_at..parts.reports_at - 4]);
            *progress = after(progress, &parts, store);
            Ok(())
        }
        Err(place) => Err(first_left(settings, store, payload, place)),
    }
}

// What is said once a record with these parts was read, all its reports being in the store.
fn after<T: CountTable>(progress: &Progress, parts: &LogParts, store: &ReportStore<T>) -> Progress
    requires { progress.now.before.flushes < 2 ^ 32 }
    ensures before { result.before ≡ record {
      flushes = progress.now.before.flushes + cond (is_flush parts.now.kind) 1 0;
      n0 = parts.now.n0;
      reports = length store.now.reports;
      at = last_at store.now.reports;
    } }
    ensures point { (result.offset ≡ parts.now.offset) × (result.first ≡ parts.now.first) }
    ensures closed { result.closed ≡ is_closing parts.now.kind }
{
    let (flushes, closed) = match parts.kind {
        LogKind::Flush => (1, false),
        LogKind::Closing => (0, true),
    };
    let reports = store.list();
    Progress {
        before: LogBefore {
            flushes: progress.before.flushes + flushes,
            n0: parts.n0,
            reports: reports.len() as u64,
            at: last_at(reports),
        },
        offset: parts.offset,
        first: parts.first,
        closed,
    }
}

// The position of the last report, 0 where there is none.
fn last_at(reports: &[Report]) -> u64
    ensures { result ≡ last_at reports.now }
{
    match reports.last() {
        Some(report) => report.at,
        None => 0,
    }
}
