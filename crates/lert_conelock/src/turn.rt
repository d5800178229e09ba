//! One try of a call: take the lock, apply, note what came of it, free the lock.

ghost use Rattle.std.specs.Prelude.{◌≡◌, ℕ, ◌<◌, ◌≤◌, ◌^◌, [], ◌∷◌, ◌++◌, List, length, Option, Some, None, IsTrue, IfSome, IfNone, IfOk, IfErr};
ghost use Rattle.lert_base.specs.Packet.{Packet};
ghost use Rattle.lert_base.specs.Entries.{packet_of};
ghost use Rattle.lert_conelock.specs.Shown.{Shown, freed};
ghost use Rattle.lert_conelock.specs.Moves.{Move, Free, Moves};
ghost use Rattle.lert_conelock.specs.Steps.{MayTake, Took, Missed, HasLock};
ghost use Rattle.lert_conelock.specs.Turns.{Waited, WasTaken, WasRefused};

use crate::plays::{Counting, Waiting};
use crate::rule::{Seat, Shared};
use crate::steps;
use lert_base::{Entry, Held};
use std::marker::Brand;
use std::sync::Wait;

/// What became of one try of a call.
#[derive(Clone, Copy, Debug, PartialEq, Eq, Drop)]
pub enum Turn<A, F> {
    /// The packet was taken in, and is answered so.
    Done(A),
    /// It was refused, and is answered so.
    Refused(F),
    /// Another caller held the lock. Nothing was tried.
    Busy,
}

/// Takes the lock and the state, if the lock is free.
fn take_state<S: Held>(shared: &Shared<S>, seat: &mut Seat<S>, entry: &Entry) -> Option<S>
    requires sized { (shared.now.table_id.words ≡ 2) × (shared.now.table_id.slots ≡ 1) }
    requires table { seat.old.table_id ≡ shared.now.table_id }
    requires idle { MayTake seat.old.me (packet_of entry.now) }
    ensures seat { (seat.new.table_id ≡ seat.old.table_id) × (seat.new.id ≡ seat.old.id) }
    ensures won { (p : Shown S S.Refusal) → seat.old.me.0 ≡ Some p →
        IfSome result (λ state. Took S.Held (packet_of entry.now) p state None seat.new.me) }
    ensures lost { (p : Shown S S.Refusal) → seat.old.me.0 ≡ Some p →
        IfNone result (Missed p seat.new.me) }
{
    if steps::take::<S, Brand>(shared, seat, entry) {
        shared.exchange(seat, 0, None)
    } else {
        None
    }
}

/// Brings the state home, frees the lock, and wakes one caller that waits for it.
fn bring_home<S: Held, C: Counting>(shared: &Shared<S>, seat: &mut Seat<S>, state: S)
    requires sized { (shared.now.table_id.words ≡ 2) × (shared.now.table_id.slots ≡ 1) }
    requires table { seat.old.table_id ≡ shared.now.table_id }
    requires lock { HasLock S.Held state None seat.old.me }
    ensures seat { (seat.new.table_id ≡ seat.old.table_id) × (seat.new.id ≡ seat.old.id) }
    ensures freed { (p : Shown S S.Refusal) → seat.old.me.0 ≡ Some p →
        (moves : List Move) × Moves p.lo p.moves (Free p.lo ∷ []) moves
        × (seat.new.me ≡ (Some (freed C.more moves p), [])) }
{
    match shared.exchange(seat, 0, Some(state)) {
        Some(_) => unreachable!(),
        None => {}
    }
    steps::free::<S, C>(shared, seat);
    shared.wake_one(0);
}

/// Tries once to have the packet of an entry applied.
pub fn try_turn<S: Held, C: Counting>(
    shared: &Shared<S>,
    seat: &mut Seat<S>,
    entry: &Entry,
) -> Turn<S::Reply, S::Refusal>
    requires sized { (shared.now.table_id.words ≡ 2) × (shared.now.table_id.slots ≡ 1) }
    requires table { seat.old.table_id ≡ shared.now.table_id }
    requires idle { MayTake seat.old.me (packet_of entry.now) }
    requires fits { (p : Shown S S.Refusal) → seat.old.me.0 ≡ Some p →
        S.fits (S.terms p.first) (packet_of entry.now) }
    ensures seat { (seat.new.table_id ≡ seat.old.table_id) × (seat.new.id ≡ seat.old.id) }
    ensures done { (p : Shown S S.Refusal) (reply : S.Reply) → seat.old.me.0 ≡ Some p →
        result ≡ Turn.Done reply → (q : Shown S S.Refusal) × (seat.new.me ≡ (Some q, []))
        × WasTaken S.Held (packet_of entry.now) reply C.more p q }
    ensures refused { (p : Shown S S.Refusal) (refusal : S.Refusal) → seat.old.me.0 ≡ Some p →
        result ≡ Turn.Refused refusal → (q : Shown S S.Refusal) × (seat.new.me ≡ (Some q, []))
        × WasRefused S.Held (packet_of entry.now) refusal C.more p q }
    ensures busy { (p : Shown S S.Refusal) → seat.old.me.0 ≡ Some p → result ≡ Turn.Busy →
        Missed p seat.new.me }
{
    let Some(mut state) = take_state(shared, seat, entry) else {
        return Turn::Busy;
    };
    match state.apply(entry) {
        Ok(reply) => {
            steps::commit(shared, seat);
            bring_home::<S, C>(shared, seat, state);
            Turn::Done(reply)
        }
        Err(refusal) => {
            steps::note::<S, Brand>(shared, seat, &refusal, &state);
            bring_home::<S, C>(shared, seat, state);
            Turn::Refused(refusal)
        }
    }
}

/// Tries until the lock is free, and sleeps between two tries while it is held.
pub fn take_turn<S: Held, R: Wait>(
    rt: &R,
    shared: &Shared<S>,
    seat: &mut Seat<S>,
    entry: &Entry,
) -> Result<S::Reply, S::Refusal>
    requires sized { (shared.now.table_id.words ≡ 2) × (shared.now.table_id.slots ≡ 1) }
    requires table { seat.old.table_id ≡ shared.now.table_id }
    requires idle { MayTake seat.old.me (packet_of entry.now) }
    requires fits { (p : Shown S S.Refusal) → seat.old.me.0 ≡ Some p →
        S.fits (S.terms p.first) (packet_of entry.now) }
    ensures seat { seat.new.table_id ≡ seat.old.table_id }
    ensures done { (p : Shown S S.Refusal) → seat.old.me.0 ≡ Some p → IfOk result (λ reply.
        (w q : Shown S S.Refusal) × Waited p w × (seat.new.me ≡ (Some q, []))
        × WasTaken S.Held (packet_of entry.now) reply 1 w q) }
    ensures refused { (p : Shown S S.Refusal) → seat.old.me.0 ≡ Some p → IfErr result (λ refusal.
        (w q : Shown S S.Refusal) × Waited p w × (seat.new.me ≡ (Some q, []))
        × WasRefused S.Held (packet_of entry.now) refusal 1 w q) }
{
    for _ in rt.forever() {
        match try_turn::<S, Waiting>(shared, seat, entry) {
            Turn::Done(reply) => return Ok(reply),
            Turn::Refused(refusal) => return Err(refusal),
            Turn::Busy => shared.park(rt, 0, 1),
        }
    }
    unreachable!()
}
