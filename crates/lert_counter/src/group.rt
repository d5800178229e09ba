//! A group as read.

/// The greatest count that a group can have, 2^47.
pub const GREATEST_COUNT: u64 = 140_737_488_355_328;

/// A remainder and its count, and the number of slots of their group.
#[derive(Clone, Copy, Debug, PartialEq, Eq)]
pub struct Group {
    pub x: u64,
    pub count: u64,
    pub used: usize,
}
