//! The whole log of a cone.

ghost use Rattle.std.specs.Prelude.{◌≡◌, ◌⊎◌, ℕ, ◌<◌, ◌≤◌, ◌^◌, List, [], length, IfOk, IfErr, MatchResult, IsErrOf, IsErrAnd};
ghost use Rattle.lert_bay.specs.declared.bay.TheConstants.{LOG};
ghost use Rattle.lert_bay.specs.Files.{IfTold};
ghost use Rattle.lert_bay.specs.Kept.{OnlyReads};
ghost use Rattle.lert_bay.specs.Settled.{part};
ghost use Rattle.lert_levels.specs.rows.Named.{IsDirectory};
ghost use Rattle.lert_files.specs.Read.{IsReadOf, IsPoint, AreReportsUpTo};
ghost use Rattle.lert_reports.specs.Log.{log_header, most_record, HasLog, LogLeavesAt};
ghost use Rattle.lert_reports.specs.LogText.{LogRecord};

use crate::directory::Directory;
use crate::fault::ReopenFault;
use crate::log_header::read_log_header;
use crate::log_record::{Progress, read_log_record};
use lert_base::{CountTable, Settings};
use lert_bay::{Bay, LOG};
use lert_gatelog::GateLog;
use lert_reports::{LOG_HEADER_LEN, LogPoint, ReportStore, greatest_record};

/// Reads the log of a cone from its header to its closed gate. The reports of all records come into the store, which is empty
/// before, and the directory of the last record takes the place of what is in `directory`. After a fault any of these may be in
/// them, and any bytes are in `buffer`. Makes one look-up a report, changes no file and takes no memory.
///
/// The log doesn't say the version of the cone's files: the answer has the one that is given here. Nor does it say what
/// the items in the frames weigh, which the answer has as 0.
pub fn read_whole_log<B: Bay, T: CountTable>(
    bay: &mut B,
    settings: &Settings,
    cone: u32,
    version: u8,
    store: &mut ReportStore<T>,
    directory: &mut Directory,
    buffer: &mut [u8],
) -> Result<LogPoint, ReopenFault>
    requires same { store.old.settings ≡ settings.now }
    requires empty { store.old.reports ≡ [] }
    requires room { most_record settings.now ≤ length buffer.old }

    // Told or not, what was read is that of some records that keep the rules. Where the file is told, they are its log.
    ensures read { IfOk result (λ end. (records : List LogRecord)
        × IsReadOf settings.now cone end.n0 end.offset end.first end.closed store.new.reports directory.new records
        × IfTold (B.files bay.old) (λ seen. HasLog settings.now cone (seen LOG) records end.log_end)) }
    ensures reports { IfOk result (λ end. AreReportsUpTo settings.now cone end.n0 store.new.reports) }
    ensures point { IfOk result (λ end. IsPoint settings.now end.n0 end.offset end.first) }
    ensures directory { IfOk result (λ end. IsDirectory settings.now end.n0 directory.new) }
    ensures reach { IfOk result (λ end. end.log_end ≤ 2 ^ 62) }
    ensures version { IfOk result (λ end. end.version ≡ version) }
    ensures weight { IfOk result (λ end. end.weight ≡ 0) }
    ensures malformed { IfTold (B.files bay.old) (λ seen. (file at : ℕ) → IsErrOf result (ReopenFault.Malformed file at) →
        (file ≡ LOG) × LogLeavesAt settings.now cone (seen LOG) at) }

    // And what stands in the file is the answer, but where a call of the bay fails.
    ensures reads_back { IfTold (B.files bay.old) (λ seen. (records : List LogRecord) (log_end : ℕ) → HasLog settings.now cone (seen LOG) records log_end →
        MatchResult result
        (λ end. (end.log_end ≡ log_end) × IsReadOf settings.now cone end.n0 end.offset end.first end.closed store.new.reports directory.new records)
        (λ fault. fault ≡ ReopenFault.Failed)) }
    ensures refuses { IfTold (B.files bay.old) (λ seen. (at : ℕ) → LogLeavesAt settings.now cone (seen LOG) at →
        IsErrAnd result (λ fault. (fault ≡ ReopenFault.Failed) ⊎ (fault ≡ ReopenFault.Malformed LOG at))) }

    // Told or not, it is the bay or the log that is refused.
    ensures fault { IfErr result (λ fault. (fault ≡ ReopenFault.Failed) ⊎ ((at : ℕ) × (fault ≡ ReopenFault.Malformed LOG at))) }
    ensures same { store.new.settings ≡ store.old.settings }
    ensures only_reads { OnlyReads B.Bay bay.old bay.new (IsErrOf result ReopenFault.Failed) }
{
    // Its clause says that the numbers are valid.
    let _ = settings.numbers();
    read_log_header(bay)?;
    read_records(bay, settings, cone, version, store, directory, buffer)
}

// Reads the records behind the header.
fn read_records<B: Bay, T: CountTable>(
    bay: &mut B,
    settings: &Settings,
    cone: u32,
    version: u8,
    store: &mut ReportStore<T>,
    directory: &mut Directory,
    buffer: &mut [u8],
) -> Result<LogPoint, ReopenFault>
    requires same { store.old.settings ≡ settings.now }
    requires empty { store.old.reports ≡ [] }
    requires room { most_record settings.now ≤ length buffer.old }
    ensures read { IfOk result (λ end. (records : List LogRecord)
        × IsReadOf settings.now cone end.n0 end.offset end.first end.closed store.new.reports directory.new records
        × IfTold (B.files bay.old) (λ seen. part (seen LOG) 0 8 ≡ log_header → HasLog settings.now cone (seen LOG) records end.log_end)) }
    ensures malformed { IfTold (B.files bay.old) (λ seen. part (seen LOG) 0 8 ≡ log_header → (file at : ℕ) → IsErrOf result (ReopenFault.Malformed file at) →
        LogLeavesAt settings.now cone (seen LOG) at) }
    ensures reach { IfOk result (λ end. end.log_end ≤ 2 ^ 62) }
    ensures version { IfOk result (λ end. end.version ≡ version) }
    ensures weight { IfOk result (λ end. end.weight ≡ 0) }
    ensures same { store.new.settings ≡ store.old.settings }
    ensures fault { IfErr result (λ fault. (fault ≡ ReopenFault.Failed) ⊎ ((at : ℕ) × (fault ≡ ReopenFault.Malformed LOG at))) }
    ensures only_reads { OnlyReads B.Bay bay.old bay.new (IsErrOf result ReopenFault.Failed) }
{
    let mut log = GateLog::at_gate(LOG, LOG_HEADER_LEN as u64, greatest_record(settings));
    let mut progress = Progress::new();
    directory.clear(settings.numbers().levels as usize);
    'records: loop {
        if !read_log_record(
            &mut log,
            bay,
            settings,
            cone,
            &mut progress,
            store,
            directory,
            buffer,
        )? {
            return Ok(LogPoint {
                n0: progress.before.n0,
                offset: progress.offset,
                first: progress.first,
                closed: progress.closed,
                log_end: log.gate(),
                version,
                weight: 0,
            });
        }
    }
}
