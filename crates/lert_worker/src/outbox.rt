//! Items on their way to the cones.

ghost use Rattle.std.specs.Prelude.{◌≡◌, ◌⊎◌, ◌^◌, ◌<◌, [], IfErr, MatchResult, OnOk};
ghost use Rattle.lert_buffers.specs.Rings.{ring_of, with_ring};
ghost use Rattle.lert_fleet.specs.Cones.{ChangesOnly};

use lert_base::{ConeFault, Entry, Held, Settings};
use lert_buffers::{Buffers, Fill};
use lert_fleet::{Fleet, FleetPass, Turn};
use std::sync::Wait;

/// The settings of the cones, a ring for each, and the entry that a ring's items go out in, under the worker's number.
#[derive(Drop)]
pub struct Outbox {
    pub settings: Settings,
    pub rings: Buffers,
    pub entry: Entry,
}

impl Outbox {
    ghost use Rattle.lert_worker.specs.Outbox.{IsIdle, IsResting, IsSame, IsSameOutbox, IsSendable, MaySend};
    ghost use Rattle.lert_worker.specs.Sending.{AtOwn, Goes, IsBrought, Stays, WasTurned, packet_with, waits_at};

    /// Moves the items of a cone's ring to the cone as their number asks for: four packets in each case, one to three only if
    /// no other caller holds the cone's lock just now, and other numbers not yet. A refusal is the cone's.
    pub fn bring<H: Held<Refusal = ConeFault>, R: Wait>(
        &mut self,
        rt: &R,
        fleet: &Fleet<H>,
        pass: &mut FleetPass<H>,
        cone: u32,
        fill: Fill,
    ) -> Result<(), ConeFault>
        requires may { MaySend H.Held fleet.now pass.old self.old }
        requires cone { cone < 2 ^ self.old.settings.cone_bits }
        requires items { IsSendable self.old.settings cone (ring_of self.old.rings cone) }
        ensures may { MaySend H.Held fleet.now pass.new self.new }
        ensures same { IsSame self.old self.new pass.old pass.new }
        ensures others { ChangesOnly cone pass.old pass.new }
        ensures brought { MatchResult result
            (λ _. IsBrought fill (packet_with self.old (ring_of self.old.rings cone)) cone self.old.rings self.new.rings pass.old pass.new)
            (λ fault. AtOwn (WasTurned (packet_with self.old (ring_of self.old.rings cone)) fault (waits_at fill)) cone pass.old pass.new) }
        ensures dropped { IfErr result (λ _. self.new.rings ≡ with_ring self.old.rings cone []) }
    {
        match fill {
            Fill::Low => Ok(()),
            Fill::Ready => self.try_packet(fleet, pass, cone),
            Fill::MustGo => self.wait_packet(rt, fleet, pass, cone),
        }
    }

    // Moves the items of a cone's ring to the cone as one packet, if no other caller holds its lock just now. A refusal is the
    // cone's.
    fn try_packet<H: Held<Refusal = ConeFault>>(
        &mut self,
        fleet: &Fleet<H>,
        pass: &mut FleetPass<H>,
        cone: u32,
    ) -> Result<(), ConeFault>
        requires may { MaySend H.Held fleet.now pass.old self.old }
        requires cone { cone < 2 ^ self.old.settings.cone_bits }
        requires items { IsSendable self.old.settings cone (ring_of self.old.rings cone) }
        ensures may { MaySend H.Held fleet.now pass.new self.new }
        ensures same { IsSame self.old self.new pass.old pass.new }
        ensures others { ChangesOnly cone pass.old pass.new }
        ensures done { OnOk result (
            Goes (packet_with self.old (ring_of self.old.rings cone)) 0 cone self.old.rings self.new.rings pass.old pass.new
            ⊎ Stays cone self.old.rings self.new.rings pass.old pass.new) }
        ensures refused { IfErr result (λ fault.
            AtOwn (WasTurned (packet_with self.old (ring_of self.old.rings cone)) fault 0) cone pass.old pass.new) }
        ensures dropped { IfErr result (λ _. self.new.rings ≡ with_ring self.old.rings cone []) }
    {
        self.rings.take(cone, &mut self.entry);
        match fleet.try_admit(pass, cone, &self.entry) {
            Turn::Done(_) => {
                self.entry.keys.clear();
                Ok(())
            }
            Turn::Refused(fault) => {
                self.entry.keys.clear();
                Err(fault)
            }
            Turn::Busy => {
                self.rings.give_back(cone, &mut self.entry);
                Ok(())
            }
        }
    }

    /// Moves the items of a cone's ring to the cone as one packet, and waits for its lock where it must. A refusal is the
    /// cone's.
    pub fn wait_packet<H: Held<Refusal = ConeFault>, R: Wait>(
        &mut self,
        rt: &R,
        fleet: &Fleet<H>,
        pass: &mut FleetPass<H>,
        cone: u32,
    ) -> Result<(), ConeFault>
        requires may { MaySend H.Held fleet.now pass.old self.old }
        requires cone { cone < 2 ^ self.old.settings.cone_bits }
        requires items { IsSendable self.old.settings cone (ring_of self.old.rings cone) }
        ensures may { MaySend H.Held fleet.now pass.new self.new }
        ensures same { IsSame self.old self.new pass.old pass.new }
        ensures others { ChangesOnly cone pass.old pass.new }
        ensures done { OnOk result (
            Goes (packet_with self.old (ring_of self.old.rings cone)) 1 cone self.old.rings self.new.rings pass.old pass.new) }
        ensures refused { IfErr result (λ fault.
            AtOwn (WasTurned (packet_with self.old (ring_of self.old.rings cone)) fault 1) cone pass.old pass.new) }
        ensures dropped { IfErr result (λ _. self.new.rings ≡ with_ring self.old.rings cone []) }
    {
        self.rings.take(cone, &mut self.entry);
        let admitted = fleet.admit(rt, pass, cone, &self.entry);
        self.entry.keys.clear();
        match admitted {
            Ok(_) => Ok(()),
            Err(fault) => Err(fault),
        }
    }

    /// Lets the items in all rings go.
    pub fn drop_items(&mut self)
        requires { IsIdle self.old }
        ensures resting { IsResting self.new }
        ensures same { IsSameOutbox self.old self.new }
    {
        for cone in 0..self.settings.cones() {
            self.rings.take(cone, &mut self.entry);
            self.entry.keys.clear();
        }
    }
}
