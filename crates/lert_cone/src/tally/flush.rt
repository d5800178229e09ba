//! The flushes of a tally: when the next one comes. A key's totals go to the reports, and at a flush position those of all
//! keys in its window.

ghost use Rattle.std.specs.Prelude.{◌≡◌, ◌≢◌, ◌+◌, ◌-◌, ◌*◌, ◌<◌, ◌≤◌, [], Some, IsTrue, IsFalse};
ghost use Rattle.lert_spec.specs.Edges.{edge, capacity, span};
ghost use Rattle.lert_spec.specs.Limits.{IsValid};
ghost use Rattle.lert_levels.specs.rows.Rows.{IsAt};
ghost use Rattle.lert_levels.specs.rows.Young.{AreLight};
ghost use Rattle.lert_cone.specs.Counts.{Flushes, GivesTotals};
ghost use Rattle.lert_cone.specs.Due.{TookFrom};
ghost use Rattle.lert_cone.specs.Tally.{due_in};

use crate::due::{Begun, Due, DueSince};
use crate::tally::totals::total_of_key;
use lert_base::{CountTable, Settings};
use lert_bay::Bay;
use lert_levels::{FlushFault, Levels, Zero};

// The least flush position from that of the last of `len` items on.
pub(super) fn flush_from(settings: &Settings, len: u64) -> u64
    requires fits { len ≤ capacity settings.now }
    ensures { result ≡ edge settings.now 0 (len - 1) + settings.now.bins * span settings.now 0 }
{
    let bins = settings.numbers().bins;
    settings.edge(0, len.saturating_sub(1)) + bins * settings.span(0)
}

// The least flush position behind `len` items, where `flush` is the least one from that of the last of them on.
pub(super) fn flush_behind(settings: &Settings, len: u64, flush: u64) -> u64
    requires fits { len < capacity settings.now }
    requires flush { flush ≡ edge settings.now 0 (len - 1) + settings.now.bins * span settings.now 0 }
    ensures { result ≡ edge settings.now 0 len + settings.now.bins * span settings.now 0 }
{
    let _valid = settings.numbers();
    if len == flush {
        return flush + settings.span(0);
    }
    flush
}

// Flushes the levels at position `m`, with the reports as the taker of the totals.
fn flush_into<B: Bay, T: CountTable, N: Begun>(
    levels: &mut Levels<T>,
    bay: &mut B,
    zero: &Zero<T>,
    m: u64,
    due: Due<T>,
) -> (Due<T>, Result<(), FlushFault>)
    requires start { TookFrom N.start due [] }
    requires first { 1 ≤ m }
    requires last { m ≤ capacity levels.old.settings }
    requires flushes { edge levels.old.settings 0 m ≢ edge levels.old.settings 0 (m - 1) }
    requires settings { zero.now.settings ≡ levels.old.settings }
    requires from { zero.now.from ≡ edge levels.old.settings 0 (m - 1) }
    requires to { zero.now.to ≡ m }
    requires rows { IsAt levels.old.settings (m - 1) levels.old.rows }
    requires light { AreLight levels.old.version zero.now.bins }
    ensures { Flushes B.Bay N.start m bay.old bay.new zero.now levels.old levels.new result.0 result.1 }
{
    let mut taker = DueSince::<T, N>::new(due);
    let result = levels.flush(bay, zero, m, &mut taker);
    (taker.into_due(), result)
}

// Gives the reports the totals that the event at position `m` brings, which level 0 has, its tail being this one. At a
// flush position the levels are flushed, and the oldest bin of level 0 is dropped. Elsewhere the reports stay in place.
pub(super) fn give_totals<B: Bay, T: CountTable, N: Begun>(
    zero: &mut Zero<T>,
    levels: &mut Levels<T>,
    bay: &mut B,
    tail: u64,
    m: u64,
    flushes: bool,
    due: &mut Option<Due<T>>,
) -> Result<(), FlushFault>
    requires there { due.old ≡ Some (due_in due.old) }
    requires start { TookFrom N.start (due_in due.old) [] }
    requires valid { IsValid levels.old.settings }
    requires first { 1 ≤ m }
    requires last { m ≤ capacity levels.old.settings }
    requires moves { IsTrue flushes → edge levels.old.settings 0 m ≢ edge levels.old.settings 0 (m - 1) }
    requires stays { IsFalse flushes → edge levels.old.settings 0 m ≡ edge levels.old.settings 0 (m - 1) }
    requires settings { zero.old.settings ≡ levels.old.settings }
    requires from { zero.old.from ≡ edge levels.old.settings 0 (m - 1) }
    requires to { zero.old.to ≡ m }
    requires rows { IsAt levels.old.settings (m - 1) levels.old.rows }
    requires light { AreLight levels.old.version zero.old.bins }
    ensures there { due.new ≡ Some (due_in due.new) }
    ensures gives { GivesTotals B.Bay N.start m tail bay.old bay.new zero.old zero.new levels.old levels.new (due_in due.new) result }
{
    if !flushes {
        let Some(due) = due else { unreachable!() };
        total_of_key(due, zero, tail);
        return Ok(());
    }
    let Some(taken) = due.take() else {
        unreachable!()
    };
    let (taken, result) = flush_into::<B, T, N>(levels, bay, zero, m, taken);
    *due = Some(taken);
    match result {
        Ok(()) => {
            // Only now: the flush has put the oldest bin's counts into a frame.
            zero.drop_oldest();
            Ok(())
        }
        Err(fault) => Err(fault),
    }
}
