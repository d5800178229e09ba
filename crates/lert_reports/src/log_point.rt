//! What a log says of its cone.

ghost use Rattle.std.specs.Prelude.{◌≡◌, false};

/// Where a log without a record says that the journal is to be read from: at its first packet, whose first key has the first
/// position.
pub const OFFSET: u64 = 32;

/// The position of that key.
pub const FIRST: u64 = 1;

/// What the last record of a log says, and where the log ends. Of a log without a record `n0` is 0, `offset` 32 and
/// `first` 1, and it isn't closed.
#[derive(Clone, Copy, Debug, PartialEq, Eq)]
pub struct LogPoint {
    /// How many keys the cone had.
    pub n0: u64,
    /// The place of the gate from which on the journal is to be read.
    pub offset: u64,
    /// The position of the first key of the packet there, counted from 1.
    pub first: u64,
    /// Whether the record is the closing one.
    pub closed: bool,
    /// The place of the log's closed gate.
    pub log_end: u64,
    /// The version of the cone's files: 1, in which each item weighs 1, or 2.
    pub version: u8,
    /// What the items weigh together that the frames hold which the record names: 0 of a log without a record.
    pub weight: u64,
}

impl LogPoint {
    /// What a log without a record says, whose closed gate stands at this place, in files of a version.
    pub fn without_record(log_end: u64, version: u8) -> LogPoint
        ensures { result ≡ record { n0 = 0; offset = 32; first = 1; closed = false; log_end = log_end; version = version; weight = 0 } }
    {
        LogPoint {
            n0: 0,
            offset: OFFSET,
            first: FIRST,
            closed: false,
            log_end,
            version,
            weight: 0,
        }
    }
}
