//! A place in a table, and what was given of it.

ghost use Rattle.std.specs.Prelude.{◌≡◌, ◌+◌, ◌≤◌, ◌^◌, ◌++◌, ◌∷◌, [], MatchOption, option_to_list};
ghost use Rattle.lert_spec.specs.Table.{AreGiven};

use lert_base::{CountTable, Piece};
use lert_io::Seen;

/// A cursor of a table, and the pieces that it gave.
#[derive(Drop)]
pub struct TableCursor<T: CountTable> {
    place: T::Cursor,
    gave: Seen<Piece>,
}

impl<T: CountTable> TableCursor<T> {
    // A cursor before the first piece of a table.
    pub(crate) fn start(table: &T) -> TableCursor<T>
        requires { T.room table.now ≤ 2 ^ 39 }
        ensures stands { T.stands table.now result.place }
        ensures left { T.left table.now result.place ≡ T.pieces table.now }
        ensures gave { result.gave ≡ [] }
        ensures given { AreGiven (2 ^ (T.quotient_bits table.now + T.width table.now)) (T.pieces table.now) }
    {
        let _in_room = table.adds();
        TableCursor {
            place: table.start(),
            gave: Seen::new(),
        }
    }

    // The table's next piece.
    #[inline]
    pub(crate) fn next(&mut self, table: &T) -> Option<Piece>
        requires { T.stands table.now self.old.place }
        ensures stands { T.stands table.now self.new.place }
        ensures left { MatchOption result
            ((T.left table.now self.old.place ≡ []) × (T.left table.now self.new.place ≡ []))
            (λ p. T.left table.now self.old.place ≡ p ∷ T.left table.now self.new.place) }
        ensures gave { self.new.gave ≡ self.old.gave ++ option_to_list result }
    {
        let piece = table.step(&mut self.place)?;
        self.gave.push(&piece);
        Some(piece)
    }
}
