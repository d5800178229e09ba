//! Why a trace can't be read on.

use lert_io::Failed;

/// Why a trace can't be read on. Places are byte offsets from the trace's begin.
#[derive(Clone, Copy, Debug, PartialEq, Eq)]
pub enum TraceFault {
    /// A read of the source failed.
    ReadFailed,
    /// The bytes differ from a trace's header first at `at`, or end there inside it.
    BadHeader { at: u64 },
    /// The last item begins at `at` and has fewer bytes than one of the trace's version.
    CutKey { at: u64 },
    /// There are more items than the reader's limit.
    TooLong,
    /// The weight at `at` is 0.
    ZeroWeight { at: u64 },
}

impl From<Failed> for TraceFault {
    ghost use Rattle.std.specs.Prelude.{◌≡◌};
    ghost use Rattle.lert_trace.specs.declared.fault.TraceFault.TheVariants.{ReadFailed};

    ghost from_gives = { λ _ fault. fault ≡ ReadFailed };

    fn from(_failed: Failed) -> TraceFault {
        TraceFault::ReadFailed
    }
}
