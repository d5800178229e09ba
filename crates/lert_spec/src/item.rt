//! An item: an event of a stream.

/// A key, and what it weighs: from 1 to 255.
#[derive(Clone, Copy, Debug, PartialEq, Eq)]
pub struct Item {
    pub key: u64,
    pub weight: u8,
}
