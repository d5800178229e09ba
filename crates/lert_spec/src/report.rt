//! A report: that a key occurred as often as the threshold says.

/// The key, and the position at which it is reported. Positions count from 1.
#[derive(Clone, Copy, Debug, PartialEq, Eq)]
pub struct Report {
    pub key: u64,
    pub at: u64,
}
