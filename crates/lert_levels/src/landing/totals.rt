//! The sums of a merge, as a taker of totals gets them.

ghost use Rattle.std.specs.Prelude.{◌≡◌, ◌+◌, ◌<◌, ◌^◌, List, None};
ghost use Rattle.lert_spec.specs.declared.piece.Piece.{Piece};
ghost use Rattle.lert_spec.specs.Table.{plus, total};
ghost use Rattle.lert_levels.specs.landing.Whole.{Takes, AreUpTo};

use crate::landing::sum::Sum;
use lert_base::{Piece, Totals};

/// Adds a piece to the totals: the sum of its tail is open until a greater tail comes.
#[inline]
pub fn add_total<O: Totals>(totals: &mut O, sum: &mut Sum, piece: Piece)
    requires { (list : List Piece) × Takes O.took totals.old sum.old list × AreUpTo piece.tail list × (total list + piece.count < 2 ^ 63) }
    ensures { (list : List Piece) → Takes O.took totals.old sum.old list → AreUpTo piece.tail list →
        Takes O.took totals.new sum.new (plus list piece.tail piece.count) }
{
    if let Some(finished) = sum.add(piece) {
        totals.total(finished.tail, finished.count);
    }
}

/// Ends the totals: all sums are taken then.
pub fn end_totals<O: Totals>(totals: &mut O, sum: &mut Sum)
    requires { (list : List Piece) × Takes O.took totals.old sum.old list }
    ensures took { (list : List Piece) → Takes O.took totals.old sum.old list → O.took totals.new list }
    ensures none { sum.new.last ≡ None }
{
    if let Some(finished) = sum.take() {
        totals.total(finished.tail, finished.count);
    }
}
