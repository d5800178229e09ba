//! What stands at a gate of the log.

ghost use Rattle.std.specs.Prelude.{◌≡◌, ◌⊎◌, ℕ, ◌+◌, ◌<◌, ◌≤◌, ◌^◌, true, false, length, take, IfOk, IfSome, IfNone, IfErr, MatchOption, OnErr, IsErrOf};
ghost use Rattle.lert_bay.specs.declared.bay.TheConstants.{LOG};
ghost use Rattle.lert_bay.specs.Files.{IfTold};
ghost use Rattle.lert_bay.specs.Kept.{OnlyReads};
ghost use Rattle.lert_gatelog.specs.Gated.{IsOpen, IsClosed};
ghost use Rattle.lert_files.specs.Read.{GateLeavesAt};

use crate::fault::ReopenFault;
use lert_bay::{Bay, LOG};
use lert_gatelog::{GateLog, LogFault};

/// Reads the payload of the open record here, as `GateLog::next` does. Behind a closing record an open gate leaves the format,
/// whatever stands behind it.
pub fn read_payload<B: Bay>(
    log: &mut GateLog,
    bay: &mut B,
    closed: bool,
    into: &mut [u8],
) -> Result<Option<usize>, ReopenFault>
    requires file { log.old.file ≡ LOG }
    requires room { log.old.most ≤ length into.old }
    requires reach { log.old.gate ≤ 2 ^ 62 }
    ensures opened { IfTold (B.files bay.old) (λ seen. IfOk result (λ found. IfSome found (λ count.
        IsOpen log.old.most (seen 1) log.old.gate (take count into.new)))) }
    ensures shut { IfTold (B.files bay.old) (λ seen. IfOk result (λ found. IfNone found (IsClosed (seen LOG) log.old.gate))) }
    ensures malformed { IfTold (B.files bay.old) (λ seen. (file at : ℕ) → IsErrOf result (ReopenFault.Malformed file at) →
        GateLeavesAt log.old.most closed (seen LOG) log.old.gate at) }
    ensures still_open { IfOk result (λ found. IfSome found (λ _. closed ≡ false)) }
    ensures counted { IfOk result (λ found. IfSome found (λ count. (0 < count) × (count ≤ log.old.most))) }
    ensures moved { IfOk result (λ found. MatchOption found (log.new ≡ log.old) (λ count. log.new ≡ record log.old { gate = log.old.gate + 5 + count })) }
    ensures fault { IfErr result (λ fault. (fault ≡ ReopenFault.Failed) ⊎ ((at : ℕ) × (fault ≡ ReopenFault.Malformed LOG at))) }
    ensures only_reads { OnlyReads B.Bay bay.old bay.new (IsErrOf result ReopenFault.Failed) }
{
    let gate = log.gate();
    match log.next(bay, into) {
        Ok(None) => Ok(None),
        Ok(Some(count)) => {
            if closed {
                return Err(ReopenFault::Malformed {
                    file: LOG,
                    at: gate,
                });
            }
            Ok(Some(count))
        }
        Err(LogFault::Failed) => Err(ReopenFault::Failed),
        Err(LogFault::Malformed { at }) => Err(ReopenFault::Malformed {
            file: LOG,
            at: left_behind(closed, gate, at),
        }),
    }
}

// Where a record at a gate leaves the format, that does so at a place by itself: behind a closing record at its gate, if the gate is there and open.
fn left_behind(closed: bool, gate: u64, at: u64) -> u64
    ensures alone { closed ≡ false → result ≡ at }
    ensures behind { gate ≤ at → closed ≡ true → result ≡ gate }
    ensures none { at ≤ gate → result ≡ at }
{
    if closed { at.min(gate) } else { at }
}
