//! Why a log gives no record.

use lert_io::Failed;

#[derive(Clone, Copy, Debug, PartialEq, Eq)]
pub enum LogFault {
    /// A call of the bay failed.
    Failed,
    /// The file leaves the format of gated records at this byte.
    Malformed { at: u64 },
}

impl From<Failed> for LogFault {
    ghost use Rattle.std.specs.Prelude.{◌≡◌};
    ghost use Rattle.lert_gatelog.specs.declared.fault.LogFault.TheVariants.{Failed as FailedCall};

    ghost from_gives = { λ _ fault. fault ≡ FailedCall };

    fn from(_failed: Failed) -> LogFault {
        LogFault::Failed
    }
}
