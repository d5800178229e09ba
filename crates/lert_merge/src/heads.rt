//! The memory of a merge.

ghost use Rattle.std.specs.Prelude.{◌≡◌, IfOk};
ghost use Rattle.lert_merge.specs.Givers.{Room};

use crate::order::Ahead;
use crate::sums::Sums;
use lert_io::OutOfMemory;
use std::alloc::Global;
use std::marker::Model;

/// The memory of a merge: of each stream the piece that was read ahead, and its share of the piece given last.
#[derive(Drop)]
pub struct Heads {
    pub(crate) ahead: Ahead,
    pub(crate) sums: Sums,
}

impl Model for Heads {
    ghost use Rattle.std.specs.Prelude.{◌≡◌};
    ghost use Rattle.lert_merge.specs.Givers.{Room};

    ghost Value = { Room };

    ghost view = { λ h. record { room = h.sums.room } };

    ghost invariant = { λ h. h.ahead.room ≡ h.sums.room };
}

impl Heads {
    /// Heads for at most so many streams. Its only error is want of memory.
    pub fn new(alloc: Global, streams: usize) -> Result<Heads, OutOfMemory>
        ensures { IfOk result (λ heads. heads ≡ record { room = streams }) }
    {
        Ok(Heads {
            ahead: Ahead::new(alloc, streams)?,
            sums: Sums::new(alloc, streams)?,
        })
    }
}
