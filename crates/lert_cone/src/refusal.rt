//! Why a cone isn't made, or refuses a call.

ghost use Rattle.std.specs.Prelude.{◌≡◌};

use crate::room::ConeRoom;
use crate::tally::TakeFault;
use lert_base::{ConeFault, CountTable};
use lert_bay::Bay;
use lert_gatelog::LogFault;
use lert_io::Failed;

impl From<TakeFault> for ConeFault {
    ghost use Rattle.lert_cone.specs.Stands.{cone_fault};

    ghost from_gives = { λ fault given. given ≡ cone_fault fault };

    fn from(fault: TakeFault) -> ConeFault {
        match fault {
            TakeFault::Failed => ConeFault::BayFailed,
            TakeFault::Unsound { file, at } => ConeFault::Unsound { file, at },
        }
    }
}

/// Why a cone whose journal is read again doesn't take a record. It takes none any more then, and is good for its bay alone.
#[derive(Clone, Copy, Debug, PartialEq, Eq)]
pub enum ReplayFault {
    /// A call of the bay failed.
    Failed,
    /// What stands at the gate leaves the format at byte `at` of the journal: as a record of this cone's journal; at the
    /// gate, where that is closed and the log's last record has more items, or where the record goes past a closing one;
    /// or at the record's length, where the cone would have more items than it takes, or these would weigh more.
    Malformed { at: u64 },
    /// As of a packet that is admitted.
    Unsound { file: u8, at: u64 },
}

impl From<TakeFault> for ReplayFault {
    ghost use Rattle.lert_cone.specs.Replays.{of_take_fault};

    ghost from_gives = { λ fault given. given ≡ of_take_fault fault };

    fn from(fault: TakeFault) -> ReplayFault {
        match fault {
            TakeFault::Failed => ReplayFault::Failed,
            TakeFault::Unsound { file, at } => ReplayFault::Unsound { file, at },
        }
    }
}

impl From<LogFault> for ReplayFault {
    ghost use Rattle.lert_cone.specs.Replays.{of_log_fault};

    ghost from_gives = { λ fault given. given ≡ of_log_fault fault };

    fn from(fault: LogFault) -> ReplayFault {
        match fault {
            LogFault::Failed => ReplayFault::Failed,
            LogFault::Malformed { at } => ReplayFault::Malformed { at },
        }
    }
}

/// Why a cone isn't made.
#[derive(Clone, Copy, Debug, PartialEq, Eq)]
pub enum CreateFault {
    /// A call of the bay failed.
    Failed,
    /// A file has some bytes. Nothing was written.
    NotFresh,
}

impl From<Failed> for CreateFault {
    ghost use Rattle.lert_cone.specs.declared.refusal.CreateFault.TheVariants.{Failed as CallFailed};

    ghost from_gives = { λ _ fault. fault ≡ CallFailed };

    fn from(_error: Failed) -> CreateFault {
        CreateFault::Failed
    }
}

/// A cone that wasn't made, with what was handed in.
#[derive(Drop)]
pub struct CreateRefused<B: Bay, T: CountTable> {
    pub fault: CreateFault,
    pub bay: B,
    pub room: ConeRoom<T>,
}
