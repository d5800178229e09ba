//! A piece: one tail of a table or of a stream, with its count.

/// A tail, and how often it occurred.
#[derive(Clone, Copy, Debug, PartialEq, Eq)]
pub struct Piece {
    pub tail: u64,
    pub count: u64,
}
