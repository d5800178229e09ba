//! The rule that a lock's table keeps.

ghost use Rattle.std.specs.Prelude.{Some};
ghost use Rattle.lert_conelock.specs.Shown.{whole};
ghost use Rattle.lert_conelock.specs.Rule.{Holds};

use crate::view::View;
use atomic_table::TableRule;
use lert_base::Held;
use std::marker::PhantomData;
use std::snapshot::Snapshot;

/// What a lock is made with: its first state, and how many callers it has.
pub struct Key<S> {
    pub first: Snapshot<S>,
    pub numbers: u32,
}

impl<S> Drop for Key<S> {
    fn drop(self) {
        let Self {
            first: _,
            numbers: _,
        } = self;
    }
}

/// Words, slot and passes show one history.
pub struct OneHistory<S> {
    of: PhantomData<S>,
}

impl<S: Held> TableRule<Option<S>, View<S, S::Refusal>, Key<S>> for OneHistory<S> {
    ghost holds = { λ key. Holds S.Held key.first.value key.numbers };

    ghost first = { λ key. Some (whole key.first.value key.numbers) };
}

pub type Seat<S> = atomic_table::Seat<Option<S>, View<S, <S as Held>::Refusal>>;

pub type Shared<S> = atomic_table::Shared<
    Option<S>,
    View<S, <S as Held>::Refusal>,
    Key<S>,
    OneHistory<S>,
>;
