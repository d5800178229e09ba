//! Why a cone refuses a packet.

/// Why a cone doesn't take a packet, or doesn't finish. A refusal (`Closed`, `Broken`, `CapacityFull`, `WeightFull`,
/// `OldJournal`, tested in this order) comes before the first step, and leaves all as it was.
#[derive(Clone, Copy, Debug, PartialEq, Eq)]
pub enum ConeFault {
    /// It is finished.
    Closed,
    /// An earlier call broke off in the middle, or its journal isn't read yet.
    Broken,
    /// It has `n` items, and the `len` of the packet are more than it takes besides.
    CapacityFull { n: u64, len: u64 },
    /// A call of the bay failed. The journal has the packet or not, and the cone is broken.
    BayFailed,
    /// A frame that was read left its format at byte `at` of its file; or, with the log and place 0, one report more than
    /// there is room for would be needed. The journal has the packet, and the cone is broken.
    Unsound { file: u8, at: u64 },
    /// Its items weigh `weight`, and the packet's `more` is above what it takes besides.
    WeightFull { weight: u64, more: u64 },
    /// Its journal is of version 1, in which each item weighs 1, and the packet's item number `place`, from 1, is the first
    /// of another weight.
    OldJournal { place: u64 },
}
