//! What a caller holds of a lock.

ghost use Rattle.std.specs.Prelude.{◌≡◌};

use crate::rule::Seat;
use lert_base::Held;
use std::marker::Model;

/// A caller's part of a lock: a range of numbers, under which it brings packets, and what it knows of
/// the lock's history. It takes no memory, and crosses threads where the state may. A pass can't be
/// let go: it is joined to another one, or closes the lock.
pub struct Pass<S: Held> {
    pub(crate) lo: u32,
    pub(crate) seat: Seat<S>,
}

impl<S: Held> Model for Pass<S> {
    ghost use Rattle.std.specs.Prelude.{◌≡◌, true, []};
    ghost use Rattle.lert_conelock.specs.Sight.{Sight, sight, is_idle};

    ghost Value = { Sight S S.Refusal };

    ghost view = { λ p. sight p.seat.table_id p.seat.me.0 };

    ghost invariant = { λ p. (is_idle p.seat.me.0 ≡ true) × (p.seat.me.1 ≡ [])
        × ((sight p.seat.table_id p.seat.me.0).lo ≡ p.lo) };
}

impl<S: Held> Pass<S> {
    /// The first number of the range: the one that its calls come under.
    pub fn number(&self) -> u32
        ensures { result ≡ self.now.lo }
    {
        self.lo
    }
}
