//! The lock itself.

ghost use Rattle.std.specs.Prelude.{◌≡◌, ℕ, ◌+◌, ◌<◌, ◌≤◌, List, [], ◌∷◌, length, Some, IfOk, IfErr, IsTrue};
ghost use Rattle.lert_base.specs.Packet.{Packet, own};
ghost use Rattle.lert_base.specs.Entries.{packet_of};
ghost use Rattle.lert_conelock.specs.Prefix.{IsPrefix};
ghost use Rattle.lert_conelock.specs.Sight.{first_pass, BelongsTo, Keeps, Loses, Joined, Acted, Declined, Closed};
ghost use Rattle.lert_conelock.specs.Lost.{lost, moves_of};
ghost use Rattle.lert_conelock.specs.Moves.{Moves, waits_and_takes};

use crate::pass::Pass;
use crate::plays::Trying;
use crate::rule::{Key, OneHistory};
use crate::steps;
use crate::turn::{Turn, take_turn, try_turn};
use crate::view::View;
use atomic_table::{Refused, Table};
use lert_base::{Entry, Held};
use std::alloc::Global;
use std::marker::{Brand, Model};
use std::snapshot::Snapshot;
use std::sync::Wait;

/// A state that one caller at a time may apply packets to.
pub struct ConeLock<S: Held> {
    table: Table<Option<S>, View<S, S::Refusal>, Key<S>, OneHistory<S>, Global>,
}

impl<S: Held> Model for ConeLock<S> {
    ghost use Rattle.std.specs.Prelude.{◌≡◌};
    ghost use Rattle.lert_conelock.specs.Sight.{LockSight};

    ghost Value = { LockSight S };

    ghost view = { λ l. let shared = l.table.shared in
        record { id = shared.table_id; first = shared.key.first.value; numbers = shared.key.numbers } };

    ghost invariant = { λ l. let id = l.table.shared.table_id in (id.words ≡ 2) × (id.slots ≡ 1) };
}

impl<S: Held> ConeLock<S> {
    /// A lock round the state, for callers of the numbers below `numbers`, with a pass of all of them.
    /// A refusal is want of memory, and hands the state back. The only call that takes memory.
    pub fn new(alloc: Global, state: S, numbers: u32) -> Result<(ConeLock<S>, Pass<S>), S>
    where
        S: Send,
        requires numbers { (1 ≤ numbers) × (numbers ≤ 64) }
        requires opened { (h : List Packet) × S.stands_for state h }
        ensures lock { IfOk result (λ made. (made.0.first ≡ state) × (made.0.numbers ≡ numbers)) }
        ensures pass { IfOk result (λ made. made.1 ≡ first_pass made.0) }
        ensures back { IfErr result (λ back. back ≡ state) }
    {
        let key = Key {
            first: Snapshot::of(&state),
            numbers,
        };
        let Ok(mut slots) = Vec::with_capacity(alloc, 1) else {
            return Err(state);
        };
        slots.push_reserved(Some(state));
        match Table::new(alloc, &[0, 0], slots, &key) {
            Ok((table, seat)) => Ok((ConeLock { table }, Pass { lo: 0, seat })),
            Err(Refused { mut slots }) => match slots.pop() {
                Some(Some(state)) => {
                    slots.destroy_empty();
                    Err(state)
                }
                _ => unreachable!(),
            },
        }
    }

    /// Cuts the pass at a number: it keeps the numbers below, and the answer has the others. Both have
    /// seen what it had. Takes no memory.
    pub fn split(&self, pass: &mut Pass<S>, at: u32) -> Pass<S>
        requires belongs { BelongsTo pass.old self.now }
        requires within { (pass.old.lo < at) × (at < pass.old.hi) }
        ensures kept { pass.new ≡ record pass.old { hi = at } }
        ensures cut { result ≡ record pass.old { lo = at; met = 0; waits = 0 } }
    {
        let seat = steps::split::<S, Brand>(&self.table.shared, &mut pass.seat, at);
        Pass { lo: at, seat }
    }

    /// Puts the pass that begins where this one ends behind it. Takes no memory.
    pub fn join(&self, pass: &mut Pass<S>, other: Pass<S>)
        requires belongs { BelongsTo pass.old self.now × BelongsTo other self.now }
        requires meets { other.lo ≡ pass.old.hi }
        ensures { Joined pass.old other pass.new }
    {
        let Pass { lo: _, seat } = other;
        let shared = &self.table.shared;
        steps::join(shared, &mut pass.seat, seat);
        steps::agree(shared, &mut pass.seat);
    }

    /// Has the packet of an entry applied, if no other caller holds the lock just now. Takes no memory
    /// and waits for nobody. Whatever it answers, the pass keeps its lock, its range and what it had seen.
    pub fn try_act(&self, pass: &mut Pass<S>, entry: &Entry) -> Turn<S::Reply, S::Refusal>
        requires belongs { BelongsTo pass.old self.now }
        requires number { entry.now.by ≡ pass.old.lo }
        requires fits { S.fits (S.terms self.now.first) (packet_of entry.now) }
        ensures kept { Keeps pass.old pass.new }
        ensures done { (reply : S.Reply) → result ≡ Turn.Done reply →
            Acted S.Held self.now.first (packet_of entry.now) reply 0 pass.old pass.new }
        ensures refused { (refusal : S.Refusal) → result ≡ Turn.Refused refusal →
            Declined S.Held self.now.first (packet_of entry.now) refusal 0 pass.old pass.new }
        ensures busy { result ≡ Turn.Busy → Loses pass.old pass.new }
        ensures met { pass.new.met ≡ pass.old.met + lost result }
        ensures moved { Moves pass.old.lo pass.old.moves
            (moves_of pass.old.lo pass.old.hi result) pass.new.moves }
    {
        try_turn::<S, Trying>(&self.table.shared, &mut pass.seat, entry)
    }

    /// Has the packet of an entry applied, and waits for the lock where it must. Takes no memory. Whatever
    /// it answers, the pass keeps its lock, its range and what it had seen.
    pub fn act<R: Wait>(
        &self,
        rt: &R,
        pass: &mut Pass<S>,
        entry: &Entry,
    ) -> Result<S::Reply, S::Refusal>
        requires belongs { BelongsTo pass.old self.now }
        requires number { entry.now.by ≡ pass.old.lo }
        requires fits { S.fits (S.terms self.now.first) (packet_of entry.now) }
        ensures kept { Keeps pass.old pass.new }
        ensures done { IfOk result (λ reply.
            Acted S.Held self.now.first (packet_of entry.now) reply 1 pass.old pass.new) }
        ensures refused { IfErr result (λ refusal.
            Declined S.Held self.now.first (packet_of entry.now) refusal 1 pass.old pass.new) }
        ensures moved { (lost : ℕ) × (pass.new.met ≡ pass.old.met + lost) × Moves pass.old.lo
            pass.old.moves (waits_and_takes pass.old.lo pass.old.hi lost) pass.new.moves }
    {
        take_turn(rt, &self.table.shared, &mut pass.seat, entry)
    }

    /// How many packets were taken in so far: the pass has seen them from then on. Takes no memory and
    /// waits for nobody.
    pub fn admitted(&self, pass: &mut Pass<S>) -> u64
        requires { BelongsTo pass.old self.now }
        ensures count { result ≡ length pass.new.seen }
        ensures more { IsPrefix pass.old.seen pass.new.seen }
        ensures shows { pass.new ≡ record pass.old { seen = pass.new.seen } }
        ensures calls { (n : ℕ) → pass.new.lo ≤ n → n < pass.new.hi →
            own pass.new.seen n ≡ own pass.new.calls n }
    {
        steps::look(&self.table.shared, &mut pass.seat)
    }

    /// The state, once all passes are joined to one. Takes no memory and waits for nobody.
    pub fn close(self, pass: Pass<S>) -> S
        requires belongs { BelongsTo pass self }
        requires whole { (pass.lo ≡ 0) × (pass.hi ≡ self.numbers) }
        ensures { Closed S.Held self pass result }
    {
        let Pass { lo: _, seat } = pass;
        let ConeLock { table } = self;
        let mut closed = table.close_with(seat);
        match closed.take(0) {
            Some(state) => {
                closed.free();
                state
            }
            None => unreachable!(),
        }
    }
}
