//! What each step tells, and what it is told: types for the proof alone.

ghost use Rattle.std.specs.Prelude.{◌≡◌, ℕ, ◌∷◌, [], ◌≤◌, List, length, Bool, false, Option, Some, None};
ghost use Rattle.std.specs.Option.{option_map};
ghost use Rattle.atomic_table.specs.Table.{rest};
ghost use Rattle.lert_base.specs.Packet.{Packet};
ghost use Rattle.lert_conelock.specs.Shown.{Shown, committed, noted, freed, lower, upper, both_of};
ghost use Rattle.lert_conelock.specs.Steps.{Took, Missed, Looked};
ghost use Rattle.lert_conelock.specs.Prefix.{IsPrefix};
ghost use Rattle.lert_conelock.specs.Moves.{Move, Free, Moves};

use crate::view::View;
use atomic_table::{Join, Play, Split};
use lert_base::Held;
use std::marker::{Brand, PhantomData};

/// The packet that a take is for.
pub trait Naming {
    ghost packet: { Packet };
}

impl Naming for Brand {
    ghost packet = { record { by = 0; trace = 0; items = [] } };
}

/// The refusal that a note is of, and whether the state in hand is stopped.
pub trait Telling<F> {
    ghost told: { Option F };

    ghost stops: { Bool };
}

impl<F> Telling<F> for Brand {
    ghost told = { None };

    ghost stops = { false };
}

/// By how much a call raises the waits of its pass.
pub trait Counting {
    ghost more: { ℕ };
}

/// A call that waits for the lock.
pub struct Waiting;

impl Counting for Waiting {
    ghost more = { 1 };
}

/// A call that doesn't.
pub struct Trying;

impl Counting for Trying {
    ghost more = { 0 };
}

/// The number at which a pass is split.
pub trait Cutting {
    ghost at: { ℕ };
}

impl Cutting for Brand {
    ghost at = { 0 };
}

pub struct Takes<S, N> {
    of: PhantomData<(S, N)>,
}

impl<S: Held, N: Naming> Play<Option<S>, View<S, S::Refusal>> for Takes<S, N> {
    ghost then = { λ step before found after. (p : Shown S S.Refusal) → before.0 ≡ Some p →
        (found ≡ 0 → (state : S) × Took S.Held N.packet p state (Some state) after)
        × ((found ≡ 0 → ⊥) → Missed p after) };
}

pub struct Commits<S> {
    of: PhantomData<S>,
}

impl<S: Held> Play<Option<S>, View<S, S::Refusal>> for Commits<S> {
    ghost then = { λ step before found after. (p : Shown S S.Refusal) (e : Packet) →
        before.0 ≡ Some p → p.tries ≡ Some e → after ≡ (Some (committed e p), before.1) };
}

pub struct Notes<S, M> {
    of: PhantomData<(S, M)>,
}

impl<S: Held, M: Telling<S::Refusal>> Play<Option<S>, View<S, S::Refusal>> for Notes<S, M> {
    ghost then = { λ step before found after. (p : Shown S S.Refusal) (e : Packet) (f : S.Refusal) →
        before.0 ≡ Some p → p.tries ≡ Some e → M.told ≡ Some f → after ≡ (Some (noted e f M.stops p), before.1) };
}

pub struct Frees<S, C> {
    of: PhantomData<(S, C)>,
}

impl<S: Held, C: Counting> Play<Option<S>, View<S, S::Refusal>> for Frees<S, C> {
    ghost then = { λ step before found after. (p : Shown S S.Refusal) → before.0 ≡ Some p →
        (moves : List Move) × Moves p.lo p.moves (Free p.lo ∷ []) moves
        × (after ≡ (Some (freed C.more moves p), rest before.1)) };
}

pub struct Looks<S> {
    of: PhantomData<S>,
}

impl<S: Held> Play<Option<S>, View<S, S::Refusal>> for Looks<S> {
    ghost then = { λ step before found after. (p : Shown S S.Refusal) → before.0 ≡ Some p →
        (q : Shown S S.Refusal) × (after ≡ (Some q, before.1)) × Looked found p q };
}

pub struct Agrees<S> {
    of: PhantomData<S>,
}

impl<S: Held> Play<Option<S>, View<S, S::Refusal>> for Agrees<S> {
    ghost then = { λ step before found after. (after ≡ before)
        × ((p : Shown S S.Refusal) → before.0 ≡ Some p → length p.lesser ≤ length p.seen →
        IsPrefix p.lesser p.seen) };
}

/// Cuts a pass in two.
pub struct Halves<C> {
    of: PhantomData<C>,
}

impl<S, F, C: Cutting> Split<View<S, F>> for Halves<C> {
    ghost left = { option_map (lower C.at) };

    ghost right = { option_map (upper C.at) };
}

/// Makes one pass of two.
pub struct Both;

impl<S, F> Join<View<S, F>> for Both {
    ghost both = { both_of };

    ghost spent = { None };
}
