//! Cones over the bays of a run, and the bays of cones again.

ghost use Rattle.std.specs.Prelude.{◌≡◌, ℕ, ◌+◌, ◌^◌, ◌<◌, ◌≤◌, ◌++◌, [], ◌∷◌, true, false};
ghost use Rattle.std.specs.Prelude.{All, length, slice_get, Some, None, IfOk, IfErr, OnOk, OnErr, vec_len, vec_capacity};
ghost use Rattle.std.specs.VecDeque.{deque_capacity, deque_len};
ghost use Rattle.lert_spec.specs.Limits.{IsValid};
ghost use Rattle.lert_ingest.specs.Bays.{AreFresh, AreLater, AreUnused, bays_of};
ghost use Rattle.lert_ingest.specs.Cones.{AreNew, IsNewRoom};
ghost use Rattle.lert_top.specs.cones.Unmade.{IsUnmade};
ghost use Rattle.lert_ingest.specs.Status.{create_status};

use crate::cones::rooms::make_rooms;
use lert_base::Settings;
use lert_bay::Bay;
use lert_cone::{Cone, ConeRoom, CreateFault, CreateRefused};
use lert_cqf::Cqf;
use lert_ingest::Status;
use std::alloc::Global;
use std::collections::VecDeque;
use std::random::RandomSource;
use std::thread::Threads;

/// Cones without a packet over all bays, in ascending order, for which the memory is taken first, by at most so many threads.
/// A refusal leaves the bays, and Ok an emptied list with room for them.
pub fn make_cones<B: Bay, R: Threads + Sync + RandomSource>(
    rt: &R,
    alloc: Global,
    settings: &Settings,
    threads: u32,
    bays: &mut VecDeque<B>,
) -> Result<Vec<Cone<B, Cqf>>, Status>
    requires number { length bays.old.items ≡ 2 ^ settings.now.cone_bits }
    requires room { length bays.old.items ≤ deque_capacity bays.old }
    requires fresh { AreFresh B.files bays.old.items }
    ensures new_cones { IfOk result (λ cones. AreNew B.files B.leaves B.faults settings.now cones.items) }
    ensures number { IfOk result (λ cones. length cones.items ≡ 2 ^ settings.now.cone_bits) }
    ensures emptied { OnOk result (bays.new.items ≡ []) }
    ensures room { deque_capacity bays.new ≡ deque_capacity bays.old }
    ensures later { IfOk result (λ cones. AreLater B.files B.faults B.mark bays.old.items (bays_of cones.items)) }
    ensures unused { IfOk result (λ cones. AreUnused B.files settings.now bays.old.items (bays_of cones.items)) }
    ensures kept { OnErr result (AreLater B.files B.faults B.mark bays.old.items bays.new.items) }
    ensures unmade { IfErr result (IsUnmade B.files B.faults settings.now bays.old.items bays.new.items) }
{
    let mut rooms = make_rooms(rt, alloc, settings, threads)?;
    let Ok(mut cones) = Vec::with_capacity(alloc, settings.cones() as usize) else {
        return Err(Status::OutOfMemory);
    };
    match fill_rooms(settings, &mut rooms, bays, &mut cones) {
        Ok(()) => Ok(cones),
        Err(status) => {
            bring_back(cones, bays);
            Err(status)
        }
    }
}

// A cone over each bay, in ascending order, in an empty list with room for all. Both lists are lent, so that no exit has to
// let go a cone's memory: after a refusal the cones that were made have the bays before those that are left.
fn fill_rooms<B: Bay>(
    settings: &Settings,
    rooms: &mut Vec<ConeRoom<Cqf>>,
    bays: &mut VecDeque<B>,
    cones: &mut Vec<Cone<B, Cqf>>,
) -> Result<(), Status>
    requires number { length bays.old.items ≡ 2 ^ settings.now.cone_bits }
    requires room { length bays.old.items ≤ deque_capacity bays.old }
    requires fresh { AreFresh B.files bays.old.items }
    requires rooms_number { length rooms.old.items ≡ 2 ^ settings.now.cone_bits }
    requires rooms { All (IsNewRoom settings.now) rooms.old.items }
    requires none { cones.old.items ≡ [] }
    requires cones_room { 2 ^ settings.now.cone_bits ≤ vec_capacity cones.old }
    ensures new_cones { OnOk result (AreNew B.files B.leaves B.faults settings.now cones.new.items) }
    ensures number { OnOk result (length cones.new.items ≡ 2 ^ settings.now.cone_bits) }
    ensures emptied { OnOk result (bays.new.items ≡ []) }
    ensures room { deque_capacity bays.new ≡ deque_capacity bays.old }
    ensures later { AreLater B.files B.faults B.mark bays.old.items (bays_of cones.new.items ++ bays.new.items) }
    ensures unused { OnOk result (AreUnused B.files settings.now bays.old.items (bays_of cones.new.items ++ bays.new.items)) }
    ensures unmade { IfErr result (IsUnmade B.files B.faults settings.now bays.old.items (bays_of cones.new.items ++ bays.new.items)) }
{
    for number in 0..settings.cones() {
        let Some(bay) = bays.pop_front() else {
            unreachable!()
        };
        let Some(room) = rooms.pop() else {
            unreachable!()
        };
        match Cone::create(room, number, bay) {
            Ok(cone) => cones.push_reserved(cone),
            Err(refused) => {
                let fault = refused.fault;
                bays.push_front_reserved(bay_of(refused));
                return Err(status_of(number, fault));
            }
        }
    }
    Ok(())
}

// The bay that no cone was made over. The cone's memory is let go.
fn bay_of<B: Bay>(refused: CreateRefused<B, Cqf>) -> B
    ensures { result ≡ refused.bay }
{
    let CreateRefused { bay, .. } = refused;
    bay
}

// The status of a run in which the cone of a number wasn't made.
fn status_of(number: u32, fault: CreateFault) -> Status
    ensures { result ≡ create_status number fault }
{
    match fault {
        CreateFault::NotFresh => Status::NotFresh { cone: number },
        CreateFault::Failed => Status::BayFault { cone: number },
    }
}

/// Puts the bays of cones before those of a list, which has room for them.
pub fn bring_back<B: Bay>(mut cones: Vec<Cone<B, Cqf>>, bays: &mut VecDeque<B>)
    requires { length cones.items + length bays.old.items ≤ deque_capacity bays.old }
    ensures bays { bays.new.items ≡ bays_of cones.items ++ bays.old.items }
    ensures room { deque_capacity bays.new ≡ deque_capacity bays.old }
{
    while let Some(cone) = cones.pop() {
        bays.push_front_reserved(cone.into_bay());
    }
    cones.destroy_empty();
}
