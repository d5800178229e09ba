//! A piece of a merge, which is put to its landing.

ghost use Rattle.std.specs.Prelude.{◌≡◌, ℕ, ◌<◌, OnOk, IsErrOf, IfSome, length, slice_index_or};
ghost use Rattle.lert_levels.specs.landing.Landed.{taken, CanTake};
ghost use Rattle.lert_levels.specs.declared.landing.landing.Landing.{Landing};
ghost use Rattle.lert_levels.specs.flush.Merged.{is_of, with_piece};
ghost use Rattle.lert_levels.specs.flush.Writing.{LandingsWrite};

use crate::landing::{Landing, add_to};
use lert_base::{Piece, PieceFault};
use lert_bay::Bay;

// The landing of a part takes a piece. One of no part is let go.
#[inline]
pub(crate) fn put_piece<B: Bay>(
    landings: &mut [Landing],
    part: Option<usize>,
    bay: &mut B,
    piece: Piece,
) -> Result<(), PieceFault>
    requires part { IfSome part (λ own. own < length landings.old) }
    requires piece { IfSome part (λ own. (d : Landing) → CanTake (slice_index_or landings.old own d) piece) }
    ensures taken { OnOk result ((own : ℕ) (d : Landing) → own < length landings.old → taken (slice_index_or landings.new own d) ≡
        with_piece (is_of part own) piece (taken (slice_index_or landings.old own d))) }
    ensures writes { LandingsWrite B.Bay landings.old bay.old landings.new bay.new (IsErrOf result PieceFault.Failed) }
    ensures whole { (at : ℕ) → ¬ IsErrOf result (PieceFault.Malformed at) }
{
    let Some(own) = part else {
        return Ok(());
    };
    match add_to(landings, own, bay, piece) {
        Ok(()) => Ok(()),
        Err(_) => Err(PieceFault::Failed),
    }
}
