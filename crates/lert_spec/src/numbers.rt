//! The eight numbers of the settings, valid or not.

/// The numbers that decide how a cone counts and when it reports.
#[derive(Clone, Copy, Debug, PartialEq, Eq)]
pub struct Numbers {
    /// How often a key has to occur to be reported.
    pub threshold: u64,
    /// How many bins a level has at most.
    pub bins: u64,
    /// How much wider the bins of a level are than those of the next younger one.
    pub ratio: u64,
    /// The width of the bins of level 0, in events.
    pub base: u64,
    /// How many levels stand on disk.
    pub levels: u64,
    /// How many of the highest bits of a mixed value name the cone.
    pub cone_bits: u64,
    /// How many reports a cone has room for.
    pub room: u64,
    /// At how many keys a worker first tries to admit a ring.
    pub packet: u64,
}
