//! What a seat at the lock's table shows.

use std::marker::{Model, PhantomData};

/// What a pass shows to the rule, or nothing once it is spent. No value of it is made.
pub struct View<S, F> {
    of: PhantomData<(S, F)>,
}

impl<S, F> Model for View<S, F> {
    ghost use Rattle.std.specs.Prelude.{Option, None};
    ghost use Rattle.lert_conelock.specs.Shown.{Shown};

    ghost Value = { Option (Shown S F) };

    ghost view = { λ _. None };
}
