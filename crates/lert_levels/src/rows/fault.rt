//! Why a flush or a scan gives no totals.

use lert_base::PieceFault;
use lert_io::Failed;

/// Why a flush or a scan gives no totals. The bins are then those of before.
#[derive(Clone, Copy, Debug, PartialEq, Eq)]
pub enum FlushFault {
    /// A call of the bay failed.
    Failed,
    /// A frame of a bin leaves its format at this byte of the file of frames.
    Malformed { at: u64 },
}

impl From<PieceFault> for FlushFault {
    ghost use Rattle.std.specs.Prelude.{◌≡◌};
    ghost use Rattle.lert_levels.specs.rows.Loading.{flush_fault};

    ghost from_gives = { λ piece fault. fault ≡ flush_fault piece };

    fn from(piece: PieceFault) -> FlushFault {
        match piece {
            PieceFault::Failed => FlushFault::Failed,
            PieceFault::Malformed { at } => FlushFault::Malformed { at },
        }
    }
}

impl From<Failed> for FlushFault {
    ghost use Rattle.std.specs.Prelude.{◌≡◌};
    ghost use Rattle.lert_levels.specs.declared.rows.fault.FlushFault.TheVariants.{Failed as FailedCall};

    ghost from_gives = { λ _ fault. fault ≡ FailedCall };

    fn from(_failed: Failed) -> FlushFault {
        FlushFault::Failed
    }
}
