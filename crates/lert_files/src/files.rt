//! What is read of a cone's files before the records of its journal.

ghost use Rattle.std.specs.Prelude.{◌≡◌, ◌⊎◌, ℕ, ◌+◌, ◌≤◌, ◌^◌, List, [], length, take, IfOk, OnOk, MatchResult, IsErr, IsErrOf, IsErrAnd};
ghost use Rattle.lert_base.specs.declared.kept.Kept.{Kept as KeptOf};
ghost use Rattle.lert_bay.specs.declared.bay.TheConstants.{JOURNAL, FRAMES};
ghost use Rattle.lert_bay.specs.Files.{Files, IfTold};
ghost use Rattle.lert_journal.specs.Header.{version_in};
ghost use Rattle.lert_levels.specs.declared.rows.bin_at.BinAt.{BinAt};
ghost use Rattle.lert_levels.specs.rows.Checked.{EachStands, IsWeightOf, rows_total};
ghost use Rattle.lert_levels.specs.rows.Rows.{IsAt, AreRows, HoldsBins, directory_text};
ghost use Rattle.lert_files.specs.Headed.{HasOther};
ghost use Rattle.lert_files.specs.Opened.{AreOpened, IsAsRead, IsRefused, LeaveAt, WritesNothing};
ghost use Rattle.lert_files.specs.Read.{IsReadOf, IsPoint, AreReportsUpTo};
ghost use Rattle.lert_reports.specs.Log.{most_record};
ghost use Rattle.lert_reports.specs.LogText.{LogRecord};
ghost use Rattle.lert_spec.specs.Counts.{weight_of, weighed};
ghost use Rattle.lert_spec.specs.Edges.{edge};
ghost use Rattle.lert_spec.specs.Items.{AreOfVersion, IsVersion};
ghost use Rattle.lert_spec.specs.declared.item.Item.{Item};

use crate::directory::Directory;
use crate::fault::ReopenFault;
use crate::journal_header::read_journal_header;
use crate::log::read_whole_log;
use lert_base::{CountTable, Settings};
use lert_bay::{Bay, FRAMES, JOURNAL, LOG};
use lert_io::Failed;
use lert_levels::Levels;
use lert_reports::{LogPoint, ReportStore};

/// Makes the three files of a cone durable, and reads the header of its journal, its whole log, and each frame that the
/// last record of the log names. The reports of all records come into the store, and the bins of that record into the
/// levels. The answer has the version of the files, and what the items weigh together that the frames hold, the sum of
/// their counts. After a fault any of these may be in them, and any bytes are in `buffer`.
///
/// Writes nothing and takes no memory. Costs a look-up a report, and reads each frame once, and of the journal 32 bytes.
pub fn read_files<B: Bay, T: CountTable>(
    bay: &mut B,
    settings: &Settings,
    cone: u32,
    levels: &mut Levels<T>,
    store: &mut ReportStore<T>,
    buffer: &mut [u8],
) -> Result<LogPoint, ReopenFault>
    requires levels { levels.old.settings ≡ settings.now }
    requires store { store.old.settings ≡ settings.now }
    requires empty { store.old.reports ≡ [] }
    requires room { most_record settings.now ≤ length buffer.old }

    // Told or not, what was read keeps the rules, and the weight is one that so many events may have.
    ensures point { IfOk result (λ end. IsPoint settings.now end.n0 end.offset end.first) }
    ensures reach { IfOk result (λ end. end.log_end ≤ 2 ^ 62) }
    ensures at { IfOk result (λ end. IsAt settings.now end.n0 levels.new.rows) }
    ensures rows { OnOk result (AreRows settings.now levels.new.rows) }
    ensures known { IfOk result (λ end. IsVersion end.version) }
    ensures version { IfOk result (λ end. levels.new.version ≡ end.version) }
    ensures weight { IfOk result (λ end. IsWeightOf end.version (edge settings.now 0 end.n0) end.weight) }
    ensures reports { IfOk result (λ end. AreReportsUpTo settings.now cone end.n0 store.new.reports) }

    // Where the files are told, it is what stands in them, and every image is what a read gives. The weight is the sum of
    // the counts in the frames: of events whose bins these hold, it is what those weigh that the frames have.
    ensures opened { IfTold (B.files bay.old) (λ seen. IfOk result (λ end. (records : List LogRecord)
        × IsReadOf settings.now cone end.n0 end.offset end.first end.closed store.new.reports (directory_text levels.new.rows) records
        × AreOpened settings.now cone seen records end.log_end levels.new.rows)) }
    ensures headed { IfTold (B.files bay.old) (λ seen. IfOk result (λ end. end.version ≡ version_in (seen JOURNAL))) }
    ensures stand { IfTold (B.files bay.old) (λ seen. IfOk result (λ end.
        EachStands settings.now end.version (seen FRAMES) levels.new.rows)) }
    ensures sum { IfTold (B.files bay.old) (λ seen. IfOk result (λ end.
        end.weight ≡ rows_total settings.now end.version (seen FRAMES) 1 levels.new.rows)) }
    ensures weighs { IfTold (B.files bay.old) (λ seen. (events : List Item) → IfOk result (λ end.
        edge settings.now 0 end.n0 ≤ length events → AreOfVersion end.version events →
        HoldsBins settings.now end.version events levels.new.rows (seen FRAMES) →
        end.weight ≡ weight_of weighed (take (edge settings.now 0 end.n0) events))) }
    ensures durable { IfTold (B.files bay.old) (λ seen. OnOk result ((image : Files) → B.leaves bay.new image → IsAsRead seen image)) }
    ensures malformed { IfTold (B.files bay.old) (λ seen. (file at : ℕ) → IsErrOf result (ReopenFault.Malformed file at) →
        LeaveAt settings.now cone seen file at) }
    ensures other { IfTold (B.files bay.old) (λ seen. (kept : KeptOf) → IsErrOf result (ReopenFault.OtherSettings kept) →
        HasOther settings.now cone (seen JOURNAL) kept) }

    // And what stands in them is the answer, but where a call of the bay fails.
    ensures passes { IfTold (B.files bay.old) (λ seen. (records : List LogRecord) (log_end : ℕ) (rows : List (List BinAt)) →
        AreOpened settings.now cone seen records log_end rows →
        MatchResult result
        (λ end. (end.log_end ≡ log_end) × (levels.new.rows ≡ rows)
        × IsReadOf settings.now cone end.n0 end.offset end.first end.closed store.new.reports (directory_text levels.new.rows) records)
        (λ fault. fault ≡ ReopenFault.Failed)) }
    ensures refuses { IfTold (B.files bay.old) (λ seen. (file at : ℕ) → LeaveAt settings.now cone seen file at →
        IsErrAnd result (λ fault. (fault ≡ ReopenFault.Failed) ⊎ (fault ≡ ReopenFault.Malformed file at))) }
    ensures differs { IfTold (B.files bay.old) (λ seen. (kept : KeptOf) → HasOther settings.now cone (seen JOURNAL) kept →
        IsErrAnd result (λ fault. (fault ≡ ReopenFault.Failed) ⊎ (fault ≡ ReopenFault.OtherSettings kept))) }
    ensures same { (levels.new.settings ≡ levels.old.settings) × (store.new.settings ≡ store.old.settings) }
    ensures quiet { WritesNothing B.Bay bay.old bay.new (IsErrOf result ReopenFault.Failed) }

    // Of the journal the header is read, and nothing behind it.
    ensures handed { B.handed_out bay.new JOURNAL ≤ B.handed_out bay.old JOURNAL + 32 }
{
    // Its clause says that the numbers are valid.
    let _ = settings.numbers();
    read_in_order(bay, settings, cone, levels, store, buffer)
}

// Reads them, in the order in which a place comes first.
fn read_in_order<B: Bay, T: CountTable>(
    bay: &mut B,
    settings: &Settings,
    cone: u32,
    levels: &mut Levels<T>,
    store: &mut ReportStore<T>,
    buffer: &mut [u8],
) -> Result<LogPoint, ReopenFault>
    requires levels { levels.old.settings ≡ settings.now }
    requires store { store.old.settings ≡ settings.now }
    requires empty { store.old.reports ≡ [] }
    requires room { most_record settings.now ≤ length buffer.old }
    ensures point { IfOk result (λ end. IsPoint settings.now end.n0 end.offset end.first) }
    ensures reach { IfOk result (λ end. end.log_end ≤ 2 ^ 62) }
    ensures at { IfOk result (λ end. IsAt settings.now end.n0 levels.new.rows) }
    ensures rows { OnOk result (AreRows settings.now levels.new.rows) }
    ensures known { IfOk result (λ end. IsVersion end.version) }
    ensures version { IfOk result (λ end. levels.new.version ≡ end.version) }
    ensures weight { IfOk result (λ end. IsWeightOf end.version (edge settings.now 0 end.n0) end.weight) }
    ensures reports { IfOk result (λ end. AreReportsUpTo settings.now cone end.n0 store.new.reports) }
    ensures told { IfTold (B.files bay.old) (λ seen. MatchResult result
        (λ end. (records : List LogRecord)
        × IsReadOf settings.now cone end.n0 end.offset end.first end.closed store.new.reports (directory_text levels.new.rows) records
        × AreOpened settings.now cone seen records end.log_end levels.new.rows)
        (IsRefused settings.now cone seen)) }
    ensures headed { IfTold (B.files bay.old) (λ seen. IfOk result (λ end. end.version ≡ version_in (seen JOURNAL))) }
    ensures stand { IfTold (B.files bay.old) (λ seen. IfOk result (λ end.
        EachStands settings.now end.version (seen FRAMES) levels.new.rows)) }
    ensures sum { IfTold (B.files bay.old) (λ seen. IfOk result (λ end.
        end.weight ≡ rows_total settings.now end.version (seen FRAMES) 1 levels.new.rows)) }
    ensures weighs { IfTold (B.files bay.old) (λ seen. (events : List Item) → IfOk result (λ end.
        edge settings.now 0 end.n0 ≤ length events → AreOfVersion end.version events →
        HoldsBins settings.now end.version events levels.new.rows (seen FRAMES) →
        end.weight ≡ weight_of weighed (take (edge settings.now 0 end.n0) events))) }
    ensures durable { IfTold (B.files bay.old) (λ seen. OnOk result ((image : Files) → B.leaves bay.new image → IsAsRead seen image)) }
    ensures same { (levels.new.settings ≡ levels.old.settings) × (store.new.settings ≡ store.old.settings) }
    ensures quiet { WritesNothing B.Bay bay.old bay.new (IsErrOf result ReopenFault.Failed) }
    ensures handed { B.handed_out bay.new JOURNAL ≤ B.handed_out bay.old JOURNAL + 32 }
{
    // Durable first: a second stop takes nothing back of what is read here.
    sync_files(bay)?;
    // In the order in which a place comes first; the directory before the frames that it names.
    let version = read_journal_header(bay, settings, cone)?;
    let mut directory = Directory::new();
    let end = read_whole_log(bay, settings, cone, version, store, &mut directory, buffer)?;
    levels.restore(end.n0, directory.bytes(), version);
    let weight = levels.check(bay)?;
    Ok(LogPoint { weight, ..end })
}

// Makes the three files durable.
fn sync_files<B: Bay>(bay: &mut B) -> Result<(), Failed>
    ensures durable { IfTold (B.files bay.old) (λ seen. OnOk result ((image : Files) → B.leaves bay.new image → IsAsRead seen image)) }
    ensures quiet { WritesNothing B.Bay bay.old bay.new (IsErr result) }
    ensures handed { B.handed_out bay.new ≡ B.handed_out bay.old }
{
    bay.sync(JOURNAL)?;
    bay.sync(LOG)?;
    bay.sync(FRAMES)
}
