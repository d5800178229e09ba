//! The merge of a flush.

ghost use Rattle.std.specs.Prelude.{◌≡◌, ℕ, ◌<◌, ◌≤◌, List, [], Err, OnOk, IsErrOf, length, map};
ghost use Rattle.lert_bay.specs.declared.bay.TheConstants.{FRAMES};
ghost use Rattle.lert_bay.specs.Files.{IfTold};
ghost use Rattle.lert_bay.specs.Kept.{KeepsBay};
ghost use Rattle.lert_frames.specs.Place.{tail_limit};
ghost use Rattle.lert_levels.specs.landing.Landings.{home, AreLandings, AreLanding, IsOutside};
ghost use Rattle.lert_merge.specs.order.Ordering.{Breaks};
ghost use Rattle.lert_levels.specs.rows.Landing.{KeepsRest};
ghost use Rattle.lert_spec.specs.declared.numbers.Numbers.{Numbers};
ghost use Rattle.lert_spec.specs.declared.piece.Piece.{Piece};
ghost use Rattle.lert_spec.specs.Table.{IsTable};
ghost use Rattle.lert_levels.specs.flush.Merged.{AreParts, IsUnread, HaveRoom, AreToCome, IsMerged};

use crate::flush::bins::Bins;
use crate::flush::put::put_piece;
use crate::landing::{Landing, Sum, add_total, end_totals};
use lert_base::{PieceFault, Totals};
use lert_bay::Bay;
use lert_merge::Order;

/// Merges some bins: the sums of their pieces go to the totals, and those of each part to the part's landing. `parts` says
/// of each stream of which part it is, if of any.
///
/// It takes no memory, and reads and writes as the streams and landings do. After an error the totals and the landings took
/// some of the pieces, and nothing is said of what is still to come.
pub fn merge_bins<B: Bay, S: Bins<B>, O: Totals>(
    order: &mut Order<B, S>,
    parts: &[Option<usize>],
    landings: &mut [Landing],
    totals: &mut O,
    bay: &mut B,
) -> Result<(), PieceFault>
    requires unread { IsUnread S.Streams order.old }
    requires parts { AreParts parts.now (S.count order.old.streams) (length landings.old) }
    requires room { HaveRoom S.Streams S.version S.width order.old.streams parts.now landings.old }
    requires apart { (from to : ℕ) → S.reads order.old.streams from to → IsOutside landings.old from to }
    requires sure { IfTold (B.files bay.old) (λ seen. S.sure order.old.streams (seen FRAMES)) }
    requires totals { O.took totals.old [] }
    ensures merged { OnOk result (IsMerged S.Streams S.version S.width O.took order.old.streams bay.old parts.now landings.new totals.new) }
    ensures took { OnOk result ((s : Numbers) →
        ((k : ℕ) → k < S.count order.old.streams → S.limit order.old.streams k ≤ tail_limit s) →
        (list : List Piece) × (IsTable (tail_limit s) list × O.took totals.new list)) }
    ensures landing { (s : Numbers) (version : ℕ) → AreLandings s version landings.old →
        IfTold (B.files bay.old) (λ seen. AreLanding landings.old (seen FRAMES) →
        IfTold (B.files bay.new) (λ after. AreLanding landings.new (after FRAMES))) }
    ensures homes { map home landings.new ≡ map home landings.old }
    ensures landings { (s : Numbers) (version : ℕ) → AreLandings s version landings.old → AreLandings s version landings.new }

    // A fault is that of the bay as it was.
    ensures sound { (lists : List (List Piece)) → AreToCome S.Streams order.old.streams bay.old lists → (at : ℕ) →
        ¬ IsErrOf result (PieceFault.Malformed at) }
    ensures malformed { (at : ℕ) → result ≡ Err (PieceFault.Malformed at) → Breaks S.Streams bay.old order.old.streams at }

    ensures rest { KeepsRest B.Bay (IsOutside landings.old) bay.old bay.new }
    ensures kept { KeepsBay B.Bay bay.old bay.new (IsErrOf result PieceFault.Failed) }
    ensures streams { S.same order.old.streams order.new.streams }
    ensures count { S.count order.new.streams ≡ S.count order.old.streams }
    ensures ahead { order.new.ahead.room ≡ order.old.ahead.room }
{
    let mut sum = Sum::new();
    while let Some(next) = order.step(bay)? {
        add_total(totals, &mut sum, next.1);
        put_piece(landings, parts[next.0], bay, next.1)?;
    }
    end_totals(totals, &mut sum);
    Ok(())
}
