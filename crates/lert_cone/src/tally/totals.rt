//! The totals that an item and the end give the reports.

ghost use Rattle.std.specs.Prelude.{◌≡◌, [], ◌∷◌, length, sum_by, Some, IsTrue};
ghost use Rattle.lert_spec.specs.Table.{count_of};
ghost use Rattle.lert_cone.specs.Counts.{Scans};
ghost use Rattle.lert_cone.specs.Due.{Dues, TookFrom, started};
ghost use Rattle.lert_cone.specs.Tally.{due_in};

use crate::due::{Begun, Due, DueSince};
use lert_base::CountTable;
use lert_bay::Bay;
use lert_levels::{FlushFault, Levels, Zero};

// Gives the reports the total of a tail in level 0. The tables are counted only where the total may bring a report.
pub(super) fn total_of_key<T: CountTable>(due: &mut Due<T>, zero: &Zero<T>, tail: u64)
    ensures { (start : Dues) → TookFrom start due.old []
        → TookFrom start due.new (record { tail = tail; count = sum_by (λ bin. count_of bin.pieces tail) zero.now.bins } ∷ []) }
{
    // Of most keys this is all: two bytes are looked at, and no table.
    if !zero.may_reach(tail, due.threshold()) {
        return;
    }
    if due.is_listed(tail) {
        return;
    }
    due.total(tail, zero.count(tail));
}

// Totals from now on bring reports at position `m`.
pub(super) fn begin<T: CountTable>(due: &mut Option<Due<T>>, m: u64)
    requires there { due.old ≡ Some (due_in due.old) }
    ensures there { due.new ≡ Some (due_in due.new) }
    ensures begun { due_in due.new ≡ started (due_in due.old) m }
    ensures took { TookFrom (due_in due.new) (due_in due.new) [] }
{
    let Some(due) = due else { unreachable!() };
    due.begin(m);
}

// Whether a report was due since the totals began that the report room doesn't take. The reports then fill it.
pub(super) fn is_full<T: CountTable>(due: &Option<Due<T>>) -> bool
    requires there { due.now ≡ Some (due_in due.now) }
    ensures value { result ≡ (due_in due.now).is_full }
    ensures full { IsTrue result → length (due_in due.now).reports ≡ (due_in due.now).settings.room }
{
    let Some(due) = due else { unreachable!() };
    due.is_full()
}

// Scans all levels, with the reports as the taker of the totals.
pub(super) fn scan_into<B: Bay, T: CountTable, N: Begun>(
    levels: &mut Levels<T>,
    bay: &mut B,
    zero: &Zero<T>,
    due: Due<T>,
) -> (Due<T>, Result<(), FlushFault>)
    requires start { TookFrom N.start due [] }
    requires settings { zero.now.settings ≡ levels.old.settings }
    ensures { Scans B.Bay N.start bay.old bay.new zero.now levels.old levels.new result.0 result.1 }
{
    let mut taker = DueSince::<T, N>::new(due);
    let result = levels.scan(bay, zero, &mut taker);
    (taker.into_due(), result)
}
