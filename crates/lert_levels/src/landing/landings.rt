//! The bins of several levels that land side by side, that of level 1 first.

ghost use Rattle.std.specs.Prelude.{◌≡◌, ◌≢◌, ℕ, ◌<◌, [], length, map, IsErr, OnOk, OnErr, slice_index_or, slice_set};
ghost use Rattle.lert_bay.specs.declared.bay.TheConstants.{FRAMES};
ghost use Rattle.lert_bay.specs.Files.{IfTold};
ghost use Rattle.lert_bay.specs.Kept.{KeepsBay};
ghost use Rattle.lert_levels.specs.rows.Landing.{KeepsRest};
ghost use Rattle.lert_spec.specs.Table.{plus};
ghost use Rattle.lert_spec.specs.declared.numbers.Numbers.{Numbers};
ghost use Rattle.lert_levels.specs.declared.landing.landing.Landing.{Landing};
ghost use Rattle.lert_levels.specs.landing.Landed.{taken, CanTake};
ghost use Rattle.lert_levels.specs.landing.Landings.{home, AreLandings, AreLanding, IsOutside, HaveEnded};

use crate::landing::landing::Landing;
use lert_base::Piece;
use lert_bay::Bay;
use lert_io::Failed;

/// One of the landings takes a piece. The others are as they were, and what they have in the file stays. After `Failed` the one
/// has taken nothing.
#[inline]
pub fn add_to<B: Bay>(
    landings: &mut [Landing],
    part: usize,
    bay: &mut B,
    piece: Piece,
) -> Result<(), Failed>
    requires part { part < length landings.old }
    requires piece { (d : Landing) → CanTake (slice_index_or landings.old part d) piece }
    ensures taken { OnOk result (map taken landings.new ≡ slice_set (map taken landings.old) part
        (plus (slice_index_or (map taken landings.old) part []) piece.tail piece.count)) }
    ensures failed { OnErr result (map taken landings.new ≡ slice_set (map taken landings.old) part []) }
    ensures others { (k : ℕ) (d : Landing) → k ≢ part → slice_index_or landings.new k d ≡ slice_index_or landings.old k d }
    ensures homes { map home landings.new ≡ map home landings.old }
    ensures landing { (s : Numbers) (version : ℕ) → AreLandings s version landings.old →
        IfTold (B.files bay.old) (λ seen. AreLanding landings.old (seen FRAMES) →
        IfTold (B.files bay.new) (λ after. AreLanding landings.new (after FRAMES))) }
    ensures rest { KeepsRest B.Bay (IsOutside landings.old) bay.old bay.new }
    ensures kept { KeepsBay B.Bay bay.old bay.new (IsErr result) }
{
    let landing = &mut landings[part];
    landing.add(bay, piece)
}

/// Ends the frames of all landings: what each took stands in its frame then. It is durable after a sync of the file of frames.
pub fn end_all<B: Bay>(landings: &mut [Landing], bay: &mut B) -> Result<(), Failed>
    ensures stand { OnOk result ((s : Numbers) (version : ℕ) → AreLandings s version landings.old →
        IfTold (B.files bay.old) (λ seen. AreLanding landings.old (seen FRAMES) →
        IfTold (B.files bay.new) (λ after. HaveEnded s version landings.old (after FRAMES)))) }
    ensures homes { map home landings.new ≡ map home landings.old }
    ensures rest { KeepsRest B.Bay (IsOutside landings.old) bay.old bay.new }
    ensures kept { KeepsBay B.Bay bay.old bay.new (IsErr result) }
{
    for landing in landings.iter_mut() {
        landing.end(bay)?;
    }
    Ok(())
}
