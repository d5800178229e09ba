//! The steps of the lock, each one step of its table.

ghost use Rattle.std.specs.Prelude.{◌≡◌, ℕ, ◌<◌, ◌≤◌, ◌^◌, [], ◌∷◌, List, length, Option, Some, None, IsTrue, IsFalse};
ghost use Rattle.atomic_table.specs.Table.{rest};
ghost use Rattle.lert_base.specs.Packet.{Packet};
ghost use Rattle.lert_base.specs.Entries.{packet_of};
ghost use Rattle.lert_conelock.specs.Prefix.{IsPrefix};
ghost use Rattle.lert_conelock.specs.Moves.{Move, Free, Moves};
ghost use Rattle.lert_conelock.specs.Shown.{Shown, committed, noted, freed, lower, upper, joined};
ghost use Rattle.lert_conelock.specs.Steps.{MayTake, IsIdle, IsTrying, Took, Missed, HasLock, Looked, IsReason};

use crate::plays::{
    Agrees, Both, Commits, Counting, Cutting, Frees, Halves, Looks, Naming, Notes, Takes, Telling,
};
use crate::rule::{Seat, Shared};
use lert_base::{Entry, Held};

/// Takes the lock if it is free, and says whether it did.
pub fn take<S: Held, N: Naming>(shared: &Shared<S>, seat: &mut Seat<S>, entry: &Entry) -> bool
    requires sized { (shared.now.table_id.words ≡ 2) × (shared.now.table_id.slots ≡ 1) }
    requires table { seat.old.table_id ≡ shared.now.table_id }
    requires named { N.packet ≡ packet_of entry.now }
    requires idle { MayTake seat.old.me (packet_of entry.now) }
    ensures seat { (seat.new.table_id ≡ seat.old.table_id) × (seat.new.id ≡ seat.old.id) }
    ensures won { (p : Shown S S.Refusal) → seat.old.me.0 ≡ Some p → IsTrue result →
        (state : S) × Took S.Held (packet_of entry.now) p state (Some state) seat.new.me }
    ensures lost { (p : Shown S S.Refusal) → seat.old.me.0 ≡ Some p → IsFalse result →
        Missed p seat.new.me }
{
    shared.compare_exchange::<Takes<S, N>>(seat, 0, 0, 1) == 0
}

/// Counts the packet that the lock was taken for into the history.
pub fn commit<S: Held>(shared: &Shared<S>, seat: &mut Seat<S>)
    requires sized { shared.now.table_id.words ≡ 2 }
    requires table { seat.old.table_id ≡ shared.now.table_id }
    requires trying { IsTrying seat.old.me }
    requires short { (p : Shown S S.Refusal) → seat.old.me.0 ≡ Some p → length p.seen < 2 ^ 40 }
    ensures seat { (seat.new.table_id ≡ seat.old.table_id) × (seat.new.id ≡ seat.old.id) }
    ensures committed { (p : Shown S S.Refusal) (e : Packet) → seat.old.me.0 ≡ Some p →
        p.tries ≡ Some e → seat.new.me ≡ (Some (committed e p), seat.old.me.1) }
{
    shared.fetch_add::<Commits<S>>(seat, 1, 1);
}

/// Notes that the packet was refused, by a state that stands as it is now.
pub fn note<S: Held, M: Telling<S::Refusal>>(
    shared: &Shared<S>,
    seat: &mut Seat<S>,
    refusal: &S::Refusal,
    state: &S,
)
    requires sized { shared.now.table_id.words ≡ 2 }
    requires table { seat.old.table_id ≡ shared.now.table_id }
    requires trying { IsTrying seat.old.me }
    requires told { (M.told ≡ Some refusal.now) × (M.stops ≡ S.stopped state.now) }
    requires reason { (p : Shown S S.Refusal) (e : Packet) → seat.old.me.0 ≡ Some p →
        p.tries ≡ Some e → IsReason S.Held (S.stopped state.now) p e refusal.now }
    ensures seat { (seat.new.table_id ≡ seat.old.table_id) × (seat.new.id ≡ seat.old.id) }
    ensures noted { (p : Shown S S.Refusal) (e : Packet) → seat.old.me.0 ≡ Some p →
        p.tries ≡ Some e → seat.new.me ≡ (Some (noted e refusal.now (S.stopped state.now) p), seat.old.me.1) }
{
    shared.load::<Notes<S, M>>(seat, 1);
}

/// Brings the state home and frees the lock.
pub fn free<S: Held, C: Counting>(shared: &Shared<S>, seat: &mut Seat<S>)
    requires sized { (shared.now.table_id.words ≡ 2) × (shared.now.table_id.slots ≡ 1) }
    requires table { seat.old.table_id ≡ shared.now.table_id }
    requires lock { (state : S) × HasLock S.Held state (Some state) seat.old.me }
    ensures seat { (seat.new.table_id ≡ seat.old.table_id) × (seat.new.id ≡ seat.old.id) }
    ensures freed { (p : Shown S S.Refusal) → seat.old.me.0 ≡ Some p →
        (moves : List Move) × Moves p.lo p.moves (Free p.lo ∷ []) moves
        × (seat.new.me ≡ (Some (freed C.more moves p), rest seat.old.me.1)) }
{
    shared.swap::<Frees<S, C>>(seat, 0, 0);
}

/// Looks at the count of the history, and knows the history from then on.
pub fn look<S: Held>(shared: &Shared<S>, seat: &mut Seat<S>) -> u64
    requires sized { shared.now.table_id.words ≡ 2 }
    requires table { seat.old.table_id ≡ shared.now.table_id }
    requires idle { IsIdle seat.old.me }
    ensures seat { (seat.new.table_id ≡ seat.old.table_id) × (seat.new.id ≡ seat.old.id) }
    ensures looked { (p : Shown S S.Refusal) → seat.old.me.0 ≡ Some p → (q : Shown S S.Refusal)
        × (seat.new.me ≡ (Some q, seat.old.me.1)) × Looked result p q }
{
    shared.load::<Looks<S>>(seat, 1)
}

/// Reads the count of the history and changes nothing. The lesser of the two histories that a join
/// brought together begins the other.
pub fn agree<S: Held>(shared: &Shared<S>, seat: &mut Seat<S>)
    requires sized { shared.now.table_id.words ≡ 2 }
    requires table { seat.old.table_id ≡ shared.now.table_id }
    ensures seat { (seat.new.table_id ≡ seat.old.table_id) × (seat.new.id ≡ seat.old.id)
        × (seat.new.me ≡ seat.old.me) }
    ensures agreed { (p : Shown S S.Refusal) → seat.old.me.0 ≡ Some p →
        length p.lesser ≤ length p.seen → IsPrefix p.lesser p.seen }
{
    shared.load::<Agrees<S>>(seat, 1);
}

/// Cuts a pass in two.
pub fn split<S: Held, C: Cutting>(shared: &Shared<S>, seat: &mut Seat<S>, at: u32) -> Seat<S>
    requires sized { shared.now.table_id.words ≡ 2 }
    requires table { seat.old.table_id ≡ shared.now.table_id }
    requires cut { C.at ≡ at }
    requires idle { IsIdle seat.old.me }
    requires within { (p : Shown S S.Refusal) → seat.old.me.0 ≡ Some p → (p.lo < at) × (at < p.hi) }
    ensures seat { (seat.new.table_id ≡ seat.old.table_id) × (result.table_id ≡ seat.old.table_id) }
    ensures halves { (p : Shown S S.Refusal) → seat.old.me.0 ≡ Some p →
        (seat.new.me ≡ (Some (lower at p), seat.old.me.1)) × (result.me ≡ (Some (upper at p), [])) }
{
    shared.split_seat::<Halves<C>>(seat)
}

/// Makes one pass of two.
pub fn join<S: Held>(shared: &Shared<S>, seat: &mut Seat<S>, other: Seat<S>)
    requires sized { shared.now.table_id.words ≡ 2 }
    requires table { (seat.old.table_id ≡ shared.now.table_id)
        × (other.table_id ≡ shared.now.table_id) }
    requires idle { IsIdle seat.old.me × IsIdle other.me }
    requires meets { (p q : Shown S S.Refusal) → seat.old.me.0 ≡ Some p → other.me.0 ≡ Some q →
        q.lo ≡ p.hi }
    ensures seat { seat.new.table_id ≡ seat.old.table_id }
    ensures joined { (p q : Shown S S.Refusal) → seat.old.me.0 ≡ Some p → other.me.0 ≡ Some q →
        seat.new.me ≡ (Some (joined p q), seat.old.me.1) }
{
    shared.join_seat::<Both>(seat, other);
}
