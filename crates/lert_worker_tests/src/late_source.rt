//! A source that waits.

ghost use Rattle.std.specs.Prelude.{◌≡◌, IfOk};

use crate::flags::Flags;
use lert_io::{Failed, Faulty, MemSource, Source};
use std::alloc::Global;
use std::sync::Arc;

/// What a source waits for before its first read.
#[derive(Clone, Copy, Debug, PartialEq, Eq)]
pub enum Awaits {
    Nothing,
    /// That a state is inside a call.
    Inside,
    /// That the first reads of so many sources are begun.
    Begun(u64),
}

/// A source in memory that may wait before its first read.
#[derive(Drop)]
pub struct LateSource {
    source: MemSource,
    flags: Arc<Flags, Global>,
    awaits: Awaits,
}

impl LateSource {
    pub fn new(source: MemSource, flags: Arc<Flags, Global>, awaits: Awaits) -> LateSource
        ensures { result.source ≡ source }
    {
        LateSource {
            source,
            flags,
            awaits,
        }
    }
}

impl Faulty for LateSource {
    ghost faults = { λ s. s.source.faults };

    ghost mark = { λ s. s.source.mark };
}

impl Source for LateSource {
    ghost use Rattle.std.specs.Prelude.{Some};

    ghost remaining = { λ s. Some s.source.left };

    fn read(&mut self, into: &mut [u8]) -> Result<usize, Failed> {
        match self.awaits {
            Awaits::Nothing => {}
            Awaits::Inside => {
                let _seen = self.flags.await_inside();
            }
            Awaits::Begun(all) => self.flags.begin(all),
        }
        self.awaits = Awaits::Nothing;
        self.source.read(into)
    }
}
