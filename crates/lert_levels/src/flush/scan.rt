//! A merge that lands nothing.

ghost use Rattle.std.specs.Prelude.{◌≡◌, ℕ, ◌<◌, ◌≤◌, List, [], Err, OnOk, IsErrOf};
ghost use Rattle.lert_bay.specs.Kept.{OnlyReads};
ghost use Rattle.lert_frames.specs.Place.{tail_limit};
ghost use Rattle.lert_merge.specs.order.Ordering.{Breaks};
ghost use Rattle.lert_spec.specs.declared.numbers.Numbers.{Numbers};
ghost use Rattle.lert_spec.specs.declared.piece.Piece.{Piece};
ghost use Rattle.lert_spec.specs.Table.{IsTable};
ghost use Rattle.lert_levels.specs.flush.Merged.{IsUnread, AreWide, AreToCome, AreTaken};

use crate::flush::bins::Bins;
use crate::landing::{Sum, add_total, end_totals};
use lert_base::{PieceFault, Totals};
use lert_bay::Bay;
use lert_merge::Order;

/// Merges some bins, of which none lands: the sums of their pieces go to the totals. It only reads the bay.
pub fn merge_all<B: Bay, S: Bins<B>, O: Totals>(
    order: &mut Order<B, S>,
    totals: &mut O,
    bay: &mut B,
) -> Result<(), PieceFault>
    requires unread { IsUnread S.Streams order.old }
    requires wide { (widths : List ℕ) × AreWide S.width order.old.streams widths (S.count order.old.streams) }
    requires totals { O.took totals.old [] }
    ensures merged { OnOk result ((lists : List (List Piece)) ×
        AreTaken S.Streams S.version S.width O.took order.old.streams bay.old totals.new lists) }
    ensures took { OnOk result ((s : Numbers) →
        ((k : ℕ) → k < S.count order.old.streams → S.limit order.old.streams k ≤ tail_limit s) →
        (list : List Piece) × (IsTable (tail_limit s) list × O.took totals.new list)) }
    ensures sound { (lists : List (List Piece)) → AreToCome S.Streams order.old.streams bay.old lists → (at : ℕ) →
        ¬ IsErrOf result (PieceFault.Malformed at) }
    ensures malformed { (at : ℕ) → result ≡ Err (PieceFault.Malformed at) → Breaks S.Streams bay.old order.old.streams at }
    ensures only_reads { OnlyReads B.Bay bay.old bay.new (IsErrOf result PieceFault.Failed) }
    ensures streams { S.same order.old.streams order.new.streams }
    ensures count { S.count order.new.streams ≡ S.count order.old.streams }
    ensures ahead { order.new.ahead.room ≡ order.old.ahead.room }
{
    let mut sum = Sum::new();
    while let Some(next) = order.step(bay)? {
        add_total(totals, &mut sum, next.1);
    }
    end_totals(totals, &mut sum);
    Ok(())
}
