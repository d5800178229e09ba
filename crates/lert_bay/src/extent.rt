//! A range of a file.

/// The `count` bytes of a file from the place `at` on.
#[derive(Clone, Copy, Debug, PartialEq, Eq)]
pub struct Extent {
    pub at: u64,
    pub count: u64,
}
