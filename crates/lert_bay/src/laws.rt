//! A law of the disk.

ghost use Rattle.std.specs.Prelude.{◌↔◌, List, ℕ};
ghost use Rattle.lert_bay.specs.declared.extent.Extent.{Extent};
ghost use Rattle.lert_bay.specs.Since.{TornInTurn, IsTornSince};

/// What the writes since a sync may tear one after the other, as the calls of a bay say it, is what is
/// said of them together: any bytes in the written ranges and past the length at the sync, and any
/// length between the least and the greatest since.
pub fn torn_since_a_sync()
    ensures { (synced : List ℕ) (written : List Extent) (image : List ℕ) → TornInTurn written synced image ↔ IsTornSince synced written image }
{}
