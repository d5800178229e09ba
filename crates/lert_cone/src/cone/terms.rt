//! What a cone shows of itself under a lock.

ghost use Rattle.std.specs.Prelude.{◌≡◌};
ghost use Rattle.lert_cone.specs.Stands.{is_finished, terms_of};

use crate::cone::Cone;
use crate::state::ConeState;
use lert_base::{CountTable, Numbers};
use lert_bay::Bay;
use std::marker::Model;
use std::snapshot::Snapshot;

/// What no packet changes of a cone: its numbers, its own number, the version of its files, its bay as it was when the
/// cone was made, and whether the cone is finished. In files of version 1 each item weighs 1, in those of version 2 at most
/// 255. The bay is for contracts alone, and has no bytes: it tells whether it told its files, and its count of faults and
/// its mark then are seen among the terms.
#[derive(Drop)]
pub struct ConeTerms<B: Bay> {
    pub numbers: Numbers,
    pub cone: u32,
    pub version: u8,
    pub made: Snapshot<Snapshot<B>>,
    pub finished: bool,
}

impl<B: Bay> Model for ConeTerms<B> {
    ghost use Rattle.lert_cone.specs.Stands.{Terms};

    ghost Value = { Terms B };

    ghost view = { λ t. record {
      settings = t.numbers;
      cone = t.cone;
      version = t.version;
      made = t.made.value.value;
      finished = t.finished;
      faults = B.faults t.made.value.value;
      mark = B.mark t.made.value.value;
    } };
}

impl<B: Bay, T: CountTable> Cone<B, T> {
    /// What it shows under a lock. Takes no memory.
    pub fn terms(&self) -> ConeTerms<B>
        ensures value { result ≡ terms_of B.faults B.mark self.now }
    {
        ConeTerms {
            numbers: self.tally.settings().numbers(),
            cone: self.tally.cone(),
            version: self.last.version,
            made: Snapshot::of(&self.made),
            finished: is_finished(self.state),
        }
    }
}

// Whether a state is that of a cone that is finished.
fn is_finished(state: ConeState) -> bool
    ensures { result ≡ is_finished state }
{
    match state {
        ConeState::Running => false,
        ConeState::Finished => true,
        ConeState::BrokenByBay => false,
        ConeState::BrokenByRead { .. } => false,
    }
}
