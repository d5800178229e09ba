//! The directory of a log record.

ghost use Rattle.std.specs.Prelude.{◌≡◌, ◌≤◌, [], length, replicate};

use lert_bay::fields;
use std::marker::Model;

// For each of eight levels a count, and a number for each of its seventeen frames.
const DIRECTORY_ROOM: usize = 144;

// The counts of levels without frames.
const NO_FRAMES: [u8; 8] = [0; 8];

/// The bytes of a directory: for each level the number of its frames, and behind it theirs. There is room for the longest one,
/// so nothing here takes memory.
#[derive(Drop)]
pub struct Directory {
    bytes: [u8; DIRECTORY_ROOM],
    count: usize,
}

impl Model for Directory {
    ghost use Rattle.std.specs.Prelude.{◌≡◌, ◌≤◌, ℕ, List, length, take};

    ghost Value = { List ℕ };

    ghost view = { λ d. take d.count d.bytes };

    ghost invariant = { (λ d. (length d.bytes ≡ 144) × (d.count ≤ 144)) };
}

impl Directory {
    /// No byte.
    pub fn new() -> Directory
        ensures { result ≡ [] }
    {
        Directory {
            bytes: [0; DIRECTORY_ROOM],
            count: 0,
        }
    }

    /// Puts these bytes in the place of those so far.
    pub fn replace(&mut self, bytes: &[u8])
        requires { length bytes.now ≤ 144 }
        ensures { self.new ≡ bytes.now }
    {
        fields::put(&mut self.bytes, 0, bytes);
        self.count = bytes.len();
    }

    /// Puts the directory of so many levels, none of which has a frame, in the place of the bytes so far.
    pub fn clear(&mut self, levels: usize)
        requires { levels ≤ 8 }
        ensures { self.new ≡ replicate levels 0 }
    {
        self.replace(&NO_FRAMES[..levels]);
    }

    /// The bytes.
    pub fn bytes(&self) -> &[u8]
        ensures { result.now ≡ self.now }
    {
        &self.bytes[..self.count]
    }
}
