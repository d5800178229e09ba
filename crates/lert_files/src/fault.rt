//! Why a cone isn't reopened.

use lert_base::Kept;
use lert_bay::FRAMES;
use lert_io::Failed;
use lert_levels::FlushFault;

#[derive(Clone, Copy, Debug, PartialEq, Eq)]
pub enum ReopenFault {
    /// A call of the bay failed.
    Failed,
    /// A file, by its number, first leaves its format at this byte.
    Malformed { file: u8, at: u64 },
    /// The journal was written with another number, or by another cone: these, valid or not.
    OtherSettings { kept: Kept },
}

impl From<Failed> for ReopenFault {
    ghost use Rattle.std.specs.Prelude.{◌≡◌};
    ghost use Rattle.lert_files.specs.declared.fault.ReopenFault.TheVariants.{Failed as FailedCall};

    ghost from_gives = { λ _ fault. fault ≡ FailedCall };

    fn from(_failed: Failed) -> ReopenFault {
        ReopenFault::Failed
    }
}

impl From<FlushFault> for ReopenFault {
    ghost use Rattle.std.specs.Prelude.{◌≡◌};
    ghost use Rattle.lert_files.specs.Opened.{checked_fault};

    ghost from_gives = { λ check fault. fault ≡ checked_fault check };

    fn from(check: FlushFault) -> ReopenFault {
        match check {
            FlushFault::Failed => ReopenFault::Failed,
            FlushFault::Malformed { at } => ReopenFault::Malformed { file: FRAMES, at },
        }
    }
}
