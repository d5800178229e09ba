//! The first bytes of a cone's files.

ghost use Rattle.std.specs.Prelude.{◌≡◌, ◌↔◌, ◌<◌, ◌≤◌, ◌^◌, [], IsTrue, IfOk, OnOk, OnErr, IsErr};
ghost use Rattle.lert_bay.specs.Files.{Files, IfTold, Turns};
ghost use Rattle.lert_bay.specs.Kept.{KeepsBay, OnlyReads};
ghost use Rattle.lert_bay.specs.declared.bay.TheConstants.{JOURNAL};
ghost use Rattle.lert_reports.specs.Log.{most_record};
ghost use Rattle.lert_cone.specs.JournalPlaces.{places_at_start};
ghost use Rattle.lert_cone.specs.Sound.{AreEmpty, FramesStay};
ghost use Rattle.lert_cone.specs.History.{most_version};
ghost use Rattle.lert_cone.specs.InStep.{AreNew};
ghost use Rattle.lert_journal.specs.Payload.{most_payload};

use crate::report_log::ReportLog;
use lert_base::Settings;
use lert_bay::{Bay, FRAMES, JOURNAL, LOG};
use lert_gatelog::GateLog;
use lert_io::Failed;
use lert_journal::{HEADER_LEN, write_header};
use lert_reports::{LOG_HEADER, greatest_record};

/// The greatest version of a cone's files, and that of those that it makes.
pub const MOST_VERSION: u8 = 2;

/// The greatest length of a packet's payload in a journal of a version: eight bytes, and eight for each of its items in
/// the first version, else nine. They are at most four times as many as a packet of the settings has.
pub fn greatest_payload(settings: &Settings, version: u8) -> u32
    ensures value { result ≡ most_payload version settings.now }
    ensures most { result ≤ 36872 }
{
    let item = if version == 1 { 8 } else { 9 };
    8 + 4 * item * settings.numbers().packet as u32
}

// Whether a file is empty. It changes none.
fn is_empty<B: Bay>(bay: &mut B, file: u8) -> Result<bool, Failed>
    requires { file < 3 }
    ensures told { IfTold (B.files bay.old) (λ seen. IfOk result (λ empty. IsTrue empty ↔ seen file ≡ [])) }
    ensures only_reads { OnlyReads B.Bay bay.old bay.new (IsErr result) }
{
    Ok(bay.len(file)? == 0)
}

/// Whether all three files are empty. It changes none.
pub fn is_fresh<B: Bay>(bay: &mut B) -> Result<bool, Failed>
    ensures fresh { IfTold (B.files bay.old) (λ seen. IfOk result (λ fresh. IsTrue fresh ↔ AreEmpty seen)) }
    ensures only_reads { OnlyReads B.Bay bay.old bay.new (IsErr result) }
{
    if !is_empty(bay, JOURNAL)? {
        return Ok(false);
    }
    if !is_empty(bay, LOG)? {
        return Ok(false);
    }
    if !is_empty(bay, FRAMES)? {
        return Ok(false);
    }
    Ok(true)
}

/// Writes the header and the first gate of the journal and of the log into empty files, and syncs them.
/// Answers the journal and the log at their first gates.
pub fn write_headers<B: Bay>(
    bay: &mut B,
    settings: &Settings,
    cone: u32,
) -> Result<(GateLog, ReportLog), Failed>
    requires named { cone < 2 ^ settings.now.cone_bits }
    requires fresh { IfTold (B.files bay.old) (λ seen. AreEmpty seen) }
    ensures journal { IfOk result (λ logs. logs.0 ≡ record { file = JOURNAL; gate = 32; most = most_payload most_version settings.now }) }
    ensures log { IfOk result (λ logs. logs.1 ≡ record { gate = 8; most = most_record settings.now; named = 0; places = places_at_start settings.now }) }
    ensures begun { OnOk result (IfTold (B.files bay.new) (λ seen. AreNew most_version settings.now cone (B.leaves bay.new) seen)) }
    ensures frames { Turns FramesStay (B.files bay.old) (B.files bay.new) }
    ensures kept { KeepsBay B.Bay bay.old bay.new (IsErr result) }
{
    let mut header = [0; HEADER_LEN];
    write_header(settings, cone, &mut header);
    // The journal's first, in the order in which a recovery reads the headers.
    let journal = GateLog::create(
        bay,
        JOURNAL,
        &header,
        greatest_payload(settings, MOST_VERSION),
    )?;
    let log = GateLog::create(bay, LOG, &LOG_HEADER, greatest_record(settings))?;
    Ok((journal, ReportLog::new(log, settings)))
}
