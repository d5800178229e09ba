//! How a run or a recovery ends.

ghost use Rattle.std.specs.Prelude.{◌≡◌, ◌≢◌, ◌≤◌, ℕ};
ghost use Rattle.lert_ingest.specs.Status.{cone_status, status_fields, status_number, stop_status};

use lert_cone::ConeFault;
use lert_io::OutOfMemory;
use lert_trace::TraceFault;

/// How a run or a recovery ends. Each status has a number, which is the program's exit status, and each but
/// `Done` a line.
#[derive(Clone, Copy, Debug, PartialEq, Eq)]
pub enum Status {
    /// All was read and printed.
    Done,
    /// The words aren't a line of a known form (rule 0), or its numbers break a rule.
    Usage { rule: u8 },
    /// A trace or a bay can't be opened.
    PlaceFault,
    /// A read of a trace failed.
    TraceFault { trace: u32 },
    /// The bytes of a trace leave its format first at the offset `at`.
    BadTrace { trace: u32, at: u64 },
    /// A trace has more than 2^36 items.
    TooLong { trace: u32 },
    /// A file of this cone has some bytes, and those of the cones below it have none.
    NotFresh { cone: u32 },
    /// A call of this cone's bay failed.
    BayFault { cone: u32 },
    /// A cone has `n` items, and the `len` of the next packet are more than it takes besides.
    CapacityFull { cone: u32, n: u64, len: u64 },
    /// A file of this cone, by its number, left its format at the place `at`. In a run, which wrote it itself, it
    /// comes only where the cone's bay doesn't tell its files.
    Malformed { cone: u32, file: u8, at: u64 },
    /// The journal of this cone was written with other settings, or for another cone.
    OtherSettings { cone: u32 },
    /// A write of the text failed. A part of it may have been written.
    OutFault,
    /// There is no memory.
    OutOfMemory,
    /// A cone's items weigh `weight`, and the `more` of the next packet is above what it takes besides.
    WeightFull { cone: u32, weight: u64, more: u64 },
}

impl Status {
    /// The number of the status, from 0 to 13.
    pub fn number(self) -> u8
        ensures value { result ≡ status_number self }
        ensures within { result ≤ 13 }
    {
        match self {
            Status::Done => 0,
            Status::Usage { rule: _ } => 1,
            Status::PlaceFault => 2,
            Status::TraceFault { trace: _ } => 3,
            Status::BadTrace { trace: _, at: _ } => 4,
            Status::TooLong { trace: _ } => 5,
            Status::NotFresh { cone: _ } => 6,
            Status::BayFault { cone: _ } => 7,
            Status::CapacityFull {
                cone: _,
                n: _,
                len: _,
            } => 8,
            Status::Malformed {
                cone: _,
                file: _,
                at: _,
            } => 9,
            Status::OtherSettings { cone: _ } => 10,
            Status::OutFault => 11,
            Status::OutOfMemory => 12,
            Status::WeightFull {
                cone: _,
                weight: _,
                more: _,
            } => 13,
        }
    }

    /// The fields of the status in their order, with 0 for the rest of three.
    pub fn fields(self) -> (u64, u64, u64)
        ensures { result ≡ status_fields self }
    {
        match self {
            Status::Usage { rule } => (u64::from(rule), 0, 0),
            Status::TraceFault { trace } => (u64::from(trace), 0, 0),
            Status::BadTrace { trace, at } => (u64::from(trace), at, 0),
            Status::TooLong { trace } => (u64::from(trace), 0, 0),
            Status::NotFresh { cone }
            | Status::BayFault { cone }
            | Status::OtherSettings { cone } => (u64::from(cone), 0, 0),
            Status::CapacityFull { cone, n, len } => (u64::from(cone), n, len),
            Status::Malformed { cone, file, at } => (u64::from(cone), u64::from(file), at),
            Status::WeightFull { cone, weight, more } => (u64::from(cone), weight, more),
            Status::Done | Status::PlaceFault | Status::OutFault | Status::OutOfMemory => (0, 0, 0),
        }
    }

    /// The status of a run that a fault of this trace stops.
    pub fn of_trace(trace: u32, fault: TraceFault) -> Status
        ensures { result ≡ stop_status trace fault }
    {
        match fault {
            TraceFault::ReadFailed => Status::TraceFault { trace },
            TraceFault::BadHeader { at }
            | TraceFault::CutKey { at }
            | TraceFault::ZeroWeight { at } => Status::BadTrace { trace, at },
            TraceFault::TooLong => Status::TooLong { trace },
        }
    }

    /// The status of a run that a refusal of a running cone stops.
    pub fn of_cone(cone: u32, fault: ConeFault) -> Status
        requires running { fault ≢ ConeFault.Closed }
        requires whole { fault ≢ ConeFault.Broken }
        requires counted { (place : ℕ) → fault ≢ ConeFault.OldJournal place }
        ensures { result ≡ cone_status cone fault }
    {
        match fault {
            ConeFault::Closed => unreachable!(),
            ConeFault::Broken => unreachable!(),
            ConeFault::CapacityFull { n, len } => Status::CapacityFull { cone, n, len },
            ConeFault::BayFailed => Status::BayFault { cone },
            ConeFault::Unsound { file, at } => Status::Malformed { cone, file, at },
            ConeFault::WeightFull { weight, more } => Status::WeightFull { cone, weight, more },
            ConeFault::OldJournal { .. } => unreachable!(),
        }
    }
}

impl From<OutOfMemory> for Status {
    ghost use Rattle.std.specs.Prelude.{◌≡◌};
    ghost use Rattle.lert_ingest.specs.declared.status.Status.TheVariants.{OutOfMemory};

    ghost from_gives = { λ _ status. status ≡ OutOfMemory };

    fn from(_error: OutOfMemory) -> Status {
        Status::OutOfMemory
    }
}
