//! A bin of a level on disk, and where it stands.

/// A bin of the positions above `from`, up to `to`, which stands in this frame of its level.
#[derive(Clone, Copy, Debug, PartialEq, Eq)]
pub struct BinAt {
    /// The last position before the bin.
    pub from: u64,
    /// The last position in it.
    pub to: u64,
    /// The number of the frame, from 0 up to how many bins a level has at most.
    pub frame: u8,
}
