//! The locks of all cones.

ghost use Rattle.std.specs.Prelude.{◌≡◌, ℕ, ◌+◌, ◌<◌, ◌≤◌, List, length, slice_get, Some, All, IfOk, IfErr, OnOk, OnErr};
ghost use Rattle.lert_base.specs.Packet.{Packet};
ghost use Rattle.lert_base.specs.Entries.{packet_of};
ghost use Rattle.lert_conelock.specs.Sight.{LockSight, Keeps, Loses, Acted, Declined};
ghost use Rattle.lert_conelock.specs.Lost.{lost, moves_of};
ghost use Rattle.lert_conelock.specs.Moves.{Moves, waits_and_takes};
ghost use Rattle.lert_fleet.specs.Cones.{IsFleetOf, IsPassOf, IsWhole, first_passes, below, from, AtCone, ChangesOnly, JoinsEach, ClosesEach};

use crate::pass::FleetPass;
use crate::rows::{Locks, close_each, lock_each};
use lert_base::{Entry, Held};
use lert_conelock::Turn;
use lert_io::OutOfMemory;
use std::alloc::Global;
use std::marker::Model;
use std::sync::Wait;

/// The locks of all cones, each round the state of its cone.
pub struct Fleet<S: Held> {
    locks: Locks<S>,
    alloc: Global,
}

impl<S: Held> Model for Fleet<S> {
    ghost use Rattle.std.specs.Prelude.{◌≤◌, map, length};
    ghost use Rattle.crossbeam_utils.specs.Padded.{padded_value};
    ghost use Rattle.lert_fleet.specs.Cones.{FleetSight};

    ghost Value = { FleetSight S };

    ghost view = { λ f. map padded_value f.locks.items };

    ghost invariant = { λ f. length f.locks.items ≤ 256 };
}

impl<S: Held> Fleet<S> {
    /// A lock round each of 1 to 256 states, in their order, for callers of the numbers below `numbers`
    /// (1 to 64), with a pass of all numbers. Takes the memory of each lock and of two lists of the
    /// cones. A refusal is want of memory, and hands all states back as they were.
    pub fn new(
        alloc: Global,
        mut states: Vec<S>,
        numbers: u32,
    ) -> Result<(Fleet<S>, FleetPass<S>), Vec<S>>
    where
        S: Send,
        requires cones { (1 ≤ length states.items) × (length states.items ≤ 256) }
        requires numbers { (1 ≤ numbers) × (numbers ≤ 64) }
        requires opened { All (λ state. (h : List Packet) × S.stands_for state h) states.items }
        ensures locks { IfOk result (λ made. IsFleetOf states.items numbers made.0) }
        ensures pass { IfOk result (λ made. made.1 ≡ first_passes numbers made.0) }
        ensures belongs { IfOk result (λ made. IsPassOf made.1 made.0) }
        ensures whole { IfOk result (λ made. IsWhole made.1 made.0) }
        ensures back { IfErr result (λ back. back.items ≡ states.items) }
    {
        let cones = states.len();
        let Ok(locks) = Vec::with_capacity(alloc, cones) else {
            return Err(states);
        };
        let Ok(passes) = Vec::with_capacity(alloc, cones) else {
            locks.destroy_empty();
            return Err(states);
        };
        states.reverse();
        let (locks, passes, states) = lock_each(alloc, states, numbers, locks, passes)?;
        let pass = FleetPass {
            lo: 0,
            hi: numbers,
            cones: passes,
            states,
        };
        Ok((Fleet { locks, alloc }, pass))
    }

    /// How many cones there are. Takes no memory.
    pub fn cones(&self) -> u32
        ensures number { result ≡ length self.now }
        ensures few { result ≤ 256 }
    {
        self.locks.len() as u32
    }

    /// Cuts the pass at a number: it keeps the numbers below, and the answer has the others. For every
    /// cone both have seen what it had. Takes the memory of a list of the cones. A refusal is want of
    /// memory, and leaves the pass as it was.
    pub fn split(&self, pass: &mut FleetPass<S>, at: u32) -> Result<FleetPass<S>, OutOfMemory>
        requires belongs { IsPassOf pass.old self.now }
        requires within { (pass.old.lo < at) × (at < pass.old.hi) }
        ensures kept { OnOk result (pass.new ≡ below at pass.old) }
        ensures cut { IfOk result (λ other. other ≡ from at pass.old) }
        ensures unchanged { OnErr result (pass.new ≡ pass.old) }
        ensures belongs { IsPassOf pass.new self.now }
        ensures other_belongs { IfOk result (λ other. IsPassOf other self.now) }
    {
        let mut cones = Vec::with_capacity(self.alloc, self.locks.len())?;
        for cone in 0..self.locks.len() {
            cones.push_reserved(self.locks[cone].split(&mut pass.cones[cone], at));
        }
        let hi = pass.hi;
        pass.hi = at;
        Ok(FleetPass {
            lo: at,
            hi,
            cones,
            states: Vec::new(self.alloc),
        })
    }

    /// Puts the pass that begins where this one ends behind it, for every cone. Takes no memory and
    /// waits for nobody.
    pub fn join(&self, pass: &mut FleetPass<S>, other: FleetPass<S>)
        requires belongs { IsPassOf pass.old self.now × IsPassOf other self.now }
        requires meets { other.lo ≡ pass.old.hi }
        ensures joined { JoinsEach pass.old other pass.new }
        ensures belongs { IsPassOf pass.new self.now }
    {
        let FleetPass {
            lo: _,
            hi,
            mut cones,
            states,
        } = other;
        while let Some(own) = cones.pop() {
            let cone = cones.len();
            self.locks[cone].join(&mut pass.cones[cone], own);
        }
        cones.destroy_empty();
        states.destroy_empty();
        pass.hi = hi;
    }

    /// Has the packet of an entry applied to the state of a cone, if no other caller holds that cone's
    /// lock just now. The entry comes under the pass's number. Takes no memory and waits for nobody.
    pub fn try_admit(
        &self,
        pass: &mut FleetPass<S>,
        cone: u32,
        entry: &Entry,
    ) -> Turn<S::Reply, S::Refusal>
        requires cone { cone < length self.now }
        requires belongs { IsPassOf pass.old self.now }
        requires number { entry.now.by ≡ pass.old.lo }
        requires fits { (lock : LockSight S) → slice_get self.now cone ≡ Some lock →
            S.fits (S.terms lock.first) (packet_of entry.now) }
        ensures others { ChangesOnly cone pass.old pass.new }
        ensures belongs { IsPassOf pass.new self.now }
        ensures kept { AtCone (λ lock old new. Keeps old new) self.now cone pass.old pass.new }
        ensures done { (reply : S.Reply) → result ≡ Turn.Done reply →
            AtCone (λ lock. Acted S.Held lock.first (packet_of entry.now) reply 0)
            self.now cone pass.old pass.new }
        ensures refused { (refusal : S.Refusal) → result ≡ Turn.Refused refusal →
            AtCone (λ lock. Declined S.Held lock.first (packet_of entry.now) refusal 0)
            self.now cone pass.old pass.new }
        ensures busy { result ≡ Turn.Busy → AtCone (λ lock old new. Loses old new)
            self.now cone pass.old pass.new }
        ensures met { AtCone (λ lock old new. new.met ≡ old.met + lost result)
            self.now cone pass.old pass.new }
        ensures moved { AtCone (λ lock old new. Moves old.lo old.moves (moves_of old.lo old.hi result)
            new.moves) self.now cone pass.old pass.new }
    {
        let own = &mut pass.cones[cone as usize];
        self.locks[cone as usize].try_act(own, entry)
    }

    /// Has the packet of an entry applied to the state of a cone, and waits for that cone's lock where it
    /// must, for no other. The entry comes under the pass's number. Takes no memory.
    pub fn admit<R: Wait>(
        &self,
        rt: &R,
        pass: &mut FleetPass<S>,
        cone: u32,
        entry: &Entry,
    ) -> Result<S::Reply, S::Refusal>
        requires cone { cone < length self.now }
        requires belongs { IsPassOf pass.old self.now }
        requires number { entry.now.by ≡ pass.old.lo }
        requires fits { (lock : LockSight S) → slice_get self.now cone ≡ Some lock →
            S.fits (S.terms lock.first) (packet_of entry.now) }
        ensures others { ChangesOnly cone pass.old pass.new }
        ensures belongs { IsPassOf pass.new self.now }
        ensures kept { AtCone (λ lock old new. Keeps old new) self.now cone pass.old pass.new }
        ensures done { IfOk result (λ reply.
            AtCone (λ lock. Acted S.Held lock.first (packet_of entry.now) reply 1)
            self.now cone pass.old pass.new) }
        ensures refused { IfErr result (λ refusal.
            AtCone (λ lock. Declined S.Held lock.first (packet_of entry.now) refusal 1)
            self.now cone pass.old pass.new) }
        ensures moved { AtCone (λ lock old new. (lost : ℕ) × (new.met ≡ old.met + lost)
            × Moves old.lo old.moves (waits_and_takes old.lo old.hi lost) new.moves)
            self.now cone pass.old pass.new }
    {
        let own = &mut pass.cones[cone as usize];
        self.locks[cone as usize].act(rt, own, entry)
    }

    /// The states, in the cones' order and in the list that `new` took, once all passes are joined to
    /// one. Takes no memory and waits for nobody.
    pub fn close(self, pass: FleetPass<S>) -> Vec<S>
        requires belongs { IsPassOf pass self }
        requires whole { IsWhole pass self }
        ensures { ClosesEach S.Held self pass result.items }
    {
        let FleetPass {
            lo: _,
            hi: _,
            cones,
            states,
        } = pass;
        let Fleet { locks, alloc: _ } = self;
        close_each(locks, cones, states)
    }
}
