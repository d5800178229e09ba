//! What a cone may still do.

/// The state of a cone.
#[derive(Clone, Copy, Debug, PartialEq, Eq)]
pub enum ConeState {
    /// It takes packets.
    Running,
    /// It was finished, and takes no more.
    Finished,
    /// A call of its bay failed in the middle of a packet or of the end. It writes no more.
    BrokenByBay,
    /// A frame left its format at byte `at` of its file, or one report more than the report room takes was due, which is
    /// said as place 0 of the log. It writes no more.
    BrokenByRead { file: u8, at: u64 },
}
