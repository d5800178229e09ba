//! The items of one trace, brought to their cones.

ghost use Rattle.std.specs.Prelude.{◌≡◌, ◌+◌, ◌^◌, ◌<◌, ◌≤◌, [], ◌∷◌, ◌++◌, List, IfErr, OnOk};
ghost use Rattle.lert_buffers.specs.Rings.{with_ring};
ghost use Rattle.lert_fleet.specs.Cones.{FleetPassSight};
ghost use Rattle.lert_spec.specs.declared.item.Item.{Item};
ghost use Rattle.lert_worker.specs.Outbox.{AreDrained, HaveRoom, IsResting, IsSame, MaySend};
ghost use Rattle.lert_worker.specs.Sending.{AreSent, Lanes};
ghost use Rattle.lert_worker.specs.Trace.{HasReadTrace, HasSentTrace, IsByCone};

use crate::end::WorkerEnd;
use crate::outbox::Outbox;
use lert_base::{ConeFault, Held};
use lert_fleet::{Fleet, FleetPass};
use lert_io::Source;
use lert_mixer::cone_of;
use lert_spec::Item;
use lert_trace::TraceReader;
use std::sync::Wait;

// Puts an item into the ring of its cone, and brings the ring there where it is time. A refusal is the cone's.
fn take_item<H: Held<Refusal = ConeFault>, R: Wait>(
    rt: &R,
    fleet: &Fleet<H>,
    pass: &mut FleetPass<H>,
    outbox: &mut Outbox,
    item: Item,
) -> Result<(), WorkerEnd>
    requires weight { 1 ≤ item.weight }
    requires may { MaySend H.Held fleet.now pass.old outbox.old }
    requires room { HaveRoom outbox.old.settings outbox.old.rings }
    ensures may { MaySend H.Held fleet.now pass.new outbox.new }
    ensures room { HaveRoom outbox.new.settings outbox.new.rings }
    ensures same { IsSame outbox.old outbox.new pass.old pass.new }
    ensures taken { (start : FleetPassSight H ConeFault) (items : List Item) →
        Lanes outbox.old.settings outbox.old.entry.by outbox.old.entry.trace 0 items start pass.old outbox.old.rings →
        OnOk result (Lanes outbox.old.settings outbox.old.entry.by outbox.old.entry.trace 0 (items ++ item ∷ []) start pass.new outbox.new.rings) }
    ensures refused { (start : FleetPassSight H ConeFault) (items : List Item) →
        Lanes outbox.old.settings outbox.old.entry.by outbox.old.entry.trace 0 items start pass.old outbox.old.rings →
        IfErr result (λ end. AreSent outbox.old.settings outbox.old.entry.by outbox.old.entry.trace (2 ^ outbox.old.settings.cone_bits)
        (items ++ item ∷ []) end start pass.new) }
    ensures by_cone { IfErr result (IsByCone (2 ^ outbox.old.settings.cone_bits)) }
{
    let cone = cone_of(&outbox.settings, item.key);
    let fill = outbox.rings.push(cone, item.key, item.weight);
    match outbox.bring(rt, fleet, pass, cone, fill) {
        Ok(()) => Ok(()),
        Err(fault) => Err(WorkerEnd::Cone { cone, fault }),
    }
}

// Reads a trace to its end, and takes each item.
fn read_items<S: Source, H: Held<Refusal = ConeFault>, R: Wait>(
    rt: &R,
    fleet: &Fleet<H>,
    pass: &mut FleetPass<H>,
    outbox: &mut Outbox,
    reader: &mut TraceReader<S>,
) -> Result<(), WorkerEnd>
    requires may { MaySend H.Held fleet.now pass.old outbox.old }
    requires resting { IsResting outbox.old }
    ensures may { MaySend H.Held fleet.now pass.new outbox.new }
    ensures room { HaveRoom outbox.new.settings outbox.new.rings }
    ensures same { IsSame outbox.old outbox.new pass.old pass.new }
    ensures read { HasReadTrace S.remaining S.faults S.mark outbox.old pass.old reader.old pass.new reader.new outbox.new.rings result }
{
    loop {
        let item = match reader.next() {
            Ok(Some(item)) => item,
            Ok(None) => return Ok(()),
            Err(fault) => {
                return Err(WorkerEnd::Trace {
                    trace: outbox.entry.trace,
                    fault,
                });
            }
        };
        if let Err(end) = take_item(rt, fleet, pass, outbox, item) {
            return Err(end);
        }
    }
}

// Brings what a cone's ring still holds to the cone, if anything. A refusal is the cone's.
fn send_rest<H: Held<Refusal = ConeFault>, R: Wait>(
    rt: &R,
    fleet: &Fleet<H>,
    pass: &mut FleetPass<H>,
    outbox: &mut Outbox,
    cone: u32,
) -> Result<(), WorkerEnd>
    requires may { MaySend H.Held fleet.now pass.old outbox.old }
    requires room { HaveRoom outbox.old.settings outbox.old.rings }
    requires cone { cone < 2 ^ outbox.old.settings.cone_bits }
    ensures may { MaySend H.Held fleet.now pass.new outbox.new }
    ensures room { HaveRoom outbox.new.settings outbox.new.rings }
    ensures same { IsSame outbox.old outbox.new pass.old pass.new }
    ensures rings { outbox.new.rings ≡ with_ring outbox.old.rings cone [] }
    ensures lanes { (start : FleetPassSight H ConeFault) (items : List Item) →
        Lanes outbox.old.settings outbox.old.entry.by outbox.old.entry.trace cone items start pass.old outbox.old.rings →
        OnOk result (Lanes outbox.old.settings outbox.old.entry.by outbox.old.entry.trace (cone + 1) items start pass.new outbox.new.rings) }
    ensures sent { (start : FleetPassSight H ConeFault) (items : List Item) →
        Lanes outbox.old.settings outbox.old.entry.by outbox.old.entry.trace cone items start pass.old outbox.old.rings →
        AreSent outbox.old.settings outbox.old.entry.by outbox.old.entry.trace cone items WorkerEnd.Ran start pass.old →
        OnOk result (AreSent outbox.old.settings outbox.old.entry.by outbox.old.entry.trace (cone + 1) items WorkerEnd.Ran start pass.new) }
    ensures refused { (start : FleetPassSight H ConeFault) (items : List Item) →
        Lanes outbox.old.settings outbox.old.entry.by outbox.old.entry.trace cone items start pass.old outbox.old.rings →
        AreSent outbox.old.settings outbox.old.entry.by outbox.old.entry.trace cone items WorkerEnd.Ran start pass.old →
        IfErr result (λ end. AreSent outbox.old.settings outbox.old.entry.by outbox.old.entry.trace (2 ^ outbox.old.settings.cone_bits)
        items end start pass.new) }
    ensures by_cone { IfErr result (IsByCone (2 ^ outbox.old.settings.cone_bits)) }
{
    let left = outbox.rings.len(cone);
    if left == 0 {
        return Ok(());
    }
    match outbox.wait_packet(rt, fleet, pass, cone) {
        Ok(()) => Ok(()),
        Err(fault) => Err(WorkerEnd::Cone { cone, fault }),
    }
}

// Brings what all rings still hold to the cones, in ascending order.
fn send_rests<H: Held<Refusal = ConeFault>, R: Wait>(
    rt: &R,
    fleet: &Fleet<H>,
    pass: &mut FleetPass<H>,
    outbox: &mut Outbox,
) -> Result<(), WorkerEnd>
    requires may { MaySend H.Held fleet.now pass.old outbox.old }
    requires room { HaveRoom outbox.old.settings outbox.old.rings }
    ensures may { MaySend H.Held fleet.now pass.new outbox.new }
    ensures same { IsSame outbox.old outbox.new pass.old pass.new }
    ensures drained { OnOk result (AreDrained (2 ^ outbox.new.settings.cone_bits) outbox.new.rings) }
    ensures sent { (start : FleetPassSight H ConeFault) (items : List Item) →
        Lanes outbox.old.settings outbox.old.entry.by outbox.old.entry.trace 0 items start pass.old outbox.old.rings →
        OnOk result (AreSent outbox.old.settings outbox.old.entry.by outbox.old.entry.trace (2 ^ outbox.old.settings.cone_bits)
        items WorkerEnd.Ran start pass.new) }
    ensures refused { (start : FleetPassSight H ConeFault) (items : List Item) →
        Lanes outbox.old.settings outbox.old.entry.by outbox.old.entry.trace 0 items start pass.old outbox.old.rings →
        IfErr result (λ end. AreSent outbox.old.settings outbox.old.entry.by outbox.old.entry.trace (2 ^ outbox.old.settings.cone_bits)
        items end start pass.new) }
    ensures by_cone { IfErr result (IsByCone (2 ^ outbox.old.settings.cone_bits)) }
{
    for cone in 0..outbox.settings.cones() {
        if let Err(end) = send_rest(rt, fleet, pass, outbox, cone) {
            return Err(end);
        }
    }
    Ok(())
}

/// Reads a trace to its end, and brings its items to the cones of a fleet. After another end than `Ran` the items in the rings
/// are dropped.
pub fn send_trace<S: Source, H: Held<Refusal = ConeFault>, R: Wait>(
    rt: &R,
    fleet: &Fleet<H>,
    pass: &mut FleetPass<H>,
    outbox: &mut Outbox,
    reader: &mut TraceReader<S>,
) -> WorkerEnd
    requires may { MaySend H.Held fleet.now pass.old outbox.old }
    requires resting { IsResting outbox.old }
    ensures may { MaySend H.Held fleet.now pass.new outbox.new }
    ensures resting { IsResting outbox.new }
    ensures same { IsSame outbox.old outbox.new pass.old pass.new }
    ensures sent { HasSentTrace S.remaining S.faults S.mark outbox.old pass.old reader.old pass.new reader.new result }
{
    if let Err(end) = read_items(rt, fleet, pass, outbox, reader) {
        outbox.drop_items();
        return end;
    }
    if let Err(end) = send_rests(rt, fleet, pass, outbox) {
        outbox.drop_items();
        return end;
    }
    WorkerEnd::Ran
}
