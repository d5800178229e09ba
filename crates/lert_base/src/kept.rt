//! What the header of a cone's files says that it was made with.

use lert_spec::Numbers;

/// The version of a journal, 1 or 2, and the cone and the eight numbers of its header as they stand there, valid or not.
#[derive(Clone, Copy, Debug, PartialEq, Eq)]
pub struct Kept {
    pub cone: u32,
    pub version: u8,
    pub numbers: Numbers,
}
