//! The bytes that begin a log.

ghost use Rattle.std.specs.Prelude.{◌≡◌, ◌⊎◌, ℕ, ◌<◌, ◌≤◌, List, length, OnOk, IfErr, IsErrOf};
ghost use Rattle.lert_bay.specs.declared.bay.TheConstants.{LOG};
ghost use Rattle.lert_bay.specs.Files.{IfTold};
ghost use Rattle.lert_bay.specs.Kept.{OnlyReads};
ghost use Rattle.lert_bay.specs.Settled.{part};
ghost use Rattle.lert_reports.specs.Log.{log_header};
ghost use Rattle.lert_spec.specs.Agreed.{agreed};

use crate::fault::ReopenFault;
use lert_bay::{Bay, LOG};
use lert_reports::{LOG_HEADER, LOG_HEADER_LEN};
use lert_spec::agreed;

/// Reads the header of the log.
pub fn read_log_header<B: Bay>(bay: &mut B) -> Result<(), ReopenFault>
    ensures headed { IfTold (B.files bay.old) (λ seen. OnOk result (part (seen LOG) 0 8 ≡ log_header)) }
    ensures left { IfTold (B.files bay.old) (λ seen. (file at : ℕ) → IsErrOf result (ReopenFault.Malformed file at) →
        (at ≡ agreed log_header (seen LOG)) × (at < 8)) }
    ensures fault { IfErr result (λ fault. (fault ≡ ReopenFault.Failed) ⊎ ((at : ℕ) × (fault ≡ ReopenFault.Malformed LOG at))) }
    ensures only_reads { OnlyReads B.Bay bay.old bay.new (IsErrOf result ReopenFault.Failed) }
{
    let mut head = [0; LOG_HEADER_LEN];
    let count = bay.read_at(LOG, 0, &mut head)?;
    let same = agreed(&LOG_HEADER, &head[..count]);
    if same < LOG_HEADER_LEN {
        return Err(ReopenFault::Malformed {
            file: LOG,
            at: same as u64,
        });
    }
    Ok(())
}
