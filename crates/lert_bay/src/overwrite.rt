//! A write that can be taken back.

ghost use Rattle.std.specs.Prelude.{◌+◌, ◌<◌, length};

/// A write into a file and the bytes that stood in its range before, zero bytes where there were none.
#[derive(Drop)]
pub struct Overwrite {
    pub at: usize,
    pub old: Vec<u8>,
    ghost in_reach: { at + length old.items < 9223372036854775808 },
}
