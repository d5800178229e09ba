//! The header of the journal.

ghost use Rattle.std.specs.Prelude.{◌≡◌, ◌⊎◌, ℕ, ◌≤◌, List, length, take, IsTrue, IsFalse, IfOk, IfErr, MatchResult, IsErrOf, IsErrAnd};
ghost use Rattle.lert_base.specs.declared.kept.Kept.{Kept as KeptOf};
ghost use Rattle.lert_bay.specs.declared.bay.TheConstants.{JOURNAL};
ghost use Rattle.lert_bay.specs.Files.{IfTold};
ghost use Rattle.lert_bay.specs.Handed.{ReadsUpTo};
ghost use Rattle.lert_bay.specs.Kept.{ReadsBay};
ghost use Rattle.lert_files.specs.Headed.{BeginningLeaves, IsHeaded, IsOwn, HasOther, IsHeaderFault, IsOfHeader};
ghost use Rattle.lert_journal.specs.Header.{version_in};
ghost use Rattle.lert_spec.specs.Items.{IsVersion};

use crate::fault::ReopenFault;
use lert_base::{Kept, Settings};
use lert_bay::{Bay, JOURNAL};
use lert_journal::{HEADER_LEN, header_left, read_header};

/// Reads the header of the journal, and answers its version. Ok comes exactly where it is that of this cone with these
/// settings, of either version, and a gate stands behind it, but where a call of the bay fails. Reads 32 bytes and a
/// length, changes no file and takes no memory.
pub fn read_journal_header<B: Bay>(
    bay: &mut B,
    settings: &Settings,
    cone: u32,
) -> Result<u8, ReopenFault>
    // Told or not, it is a version that there is. Where the file is told, the answer is what stands there.
    ensures known { IfOk result IsVersion }
    ensures told { IfTold (B.files bay.old) (λ seen. MatchResult result
        (λ version. IsHeaded settings.now cone (seen JOURNAL) × (version ≡ version_in (seen JOURNAL)))
        (λ fault. (fault ≡ ReopenFault.Failed) ⊎ IsHeaderFault settings.now cone (seen JOURNAL) fault)) }

    // And what stands there is the answer, but where a call of the bay fails.
    ensures reads_back { IfTold (B.files bay.old) (λ seen. IsHeaded settings.now cone (seen JOURNAL) →
        MatchResult result (λ version. version ≡ version_in (seen JOURNAL)) (λ fault. fault ≡ ReopenFault.Failed)) }
    ensures refuses { IfTold (B.files bay.old) (λ seen. (at : ℕ) → BeginningLeaves settings.now cone (seen JOURNAL) at →
        IsErrAnd result (λ fault. (fault ≡ ReopenFault.Failed) ⊎ (fault ≡ ReopenFault.Malformed JOURNAL at))) }
    ensures differs { IfTold (B.files bay.old) (λ seen. (kept : KeptOf) → HasOther settings.now cone (seen JOURNAL) kept →
        IsErrAnd result (λ fault. (fault ≡ ReopenFault.Failed) ⊎ (fault ≡ ReopenFault.OtherSettings kept))) }

    // Told or not, it is the bay or the journal that is refused.
    ensures fault { IfErr result (λ fault. (fault ≡ ReopenFault.Failed) ⊎ IsOfHeader fault) }
    ensures only_reads { ReadsBay B.Bay bay.old bay.new (IsErrOf result ReopenFault.Failed) }
    ensures handed { ReadsUpTo JOURNAL 32 (B.handed_out bay.old) (B.handed_out bay.new) }
{
    // Its clause says that the numbers are valid.
    let _ = settings.numbers();
    let end = bay.len(JOURNAL)?;
    let mut head = [0; HEADER_LEN];
    let count = bay.read_at(JOURNAL, 0, &mut head)?;
    check_header(settings, cone, &head, count, end)
}

// Whether the first bytes of a file of `end` bytes, of which `count` were read, are the header of this cone, and its
// version.
fn check_header(
    settings: &Settings,
    cone: u32,
    head: &[u8; HEADER_LEN],
    count: usize,
    end: u64,
) -> Result<u8, ReopenFault>
    requires { count ≤ 32 }
    ensures known { IfOk result IsVersion }
    ensures told { (file : List ℕ) → end ≡ length file → take count head.now ≡ take 32 file →
        MatchResult result (λ version. IsHeaded settings.now cone file × (version ≡ version_in file))
        (IsHeaderFault settings.now cone file) }
    ensures fault { IfErr result IsOfHeader }
    ensures decided { ¬ IsErrOf result ReopenFault.Failed }
{
    if let Some(at) = header_left(&head[..count]) {
        return Err(ReopenFault::Malformed { file: JOURNAL, at });
    }
    let Some(kept) = read_header(head) else {
        unreachable!()
    };
    // Other settings are told of a header alone, too.
    if !is_own(settings, cone, &kept) {
        return Err(ReopenFault::OtherSettings { kept });
    }
    if end <= HEADER_LEN as u64 {
        return Err(ReopenFault::Malformed {
            file: JOURNAL,
            at: end,
        });
    }
    Ok(kept.version)
}

// Whether a header says these settings and this cone, in whatever version.
fn is_own(settings: &Settings, cone: u32, kept: &Kept) -> bool
    ensures own { IsTrue result → IsOwn settings.now cone kept.now }
    ensures other { IsFalse result → ¬ IsOwn settings.now cone kept.now }
{
    kept.cone == cone && kept.numbers == settings.numbers()
}
