//! A source in memory that never fails.

ghost use Rattle.std.specs.Prelude.{◌≡◌, IfOk};

use crate::copy::copy_front;
use crate::faulty::{Failed, Faulty, OutOfMemory};
use crate::source::Source;
use std::alloc::Global;
use std::marker::Model;

/// Bytes that are read to their end without a fault, seen as those that are left.
#[derive(Drop)]
pub struct SteadySource {
    bytes: Vec<u8>,
    at: usize,
}

impl Model for SteadySource {
    ghost use Rattle.std.specs.Prelude.{◌≤◌, List, ℕ, drop, length};

    ghost Value = { List ℕ };

    ghost view = { λ s. drop s.at s.bytes.items };

    ghost invariant = { λ s. s.at ≤ length s.bytes.items };
}

impl SteadySource {
    /// A source of these bytes.
    pub fn new(alloc: Global, bytes: &[u8]) -> Result<SteadySource, OutOfMemory>
        ensures { IfOk result (λ source. source ≡ bytes.now) }
    {
        Ok(SteadySource {
            bytes: Vec::from_slice(alloc, bytes)?,
            at: 0,
        })
    }
}

impl Faulty for SteadySource {
    ghost faults = { λ _. 0 };

    ghost mark = { λ _. 0 };
}

impl Source for SteadySource {
    ghost use Rattle.std.specs.Prelude.{Some};

    ghost remaining = { λ s. Some s };

    fn read(&mut self, into: &mut [u8]) -> Result<usize, Failed> {
        let count = copy_front(&self.bytes[self.at..], into);
        self.at += count;
        Ok(count)
    }
}
