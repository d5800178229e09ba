//! Cones over the files that runs left.

ghost use Rattle.std.specs.Prelude.{◌≡◌, ℕ, ◌+◌, ◌^◌, ◌<◌, ◌≤◌, ◌++◌, [], ◌∷◌, All, length, slice_get, Some, IfOk, IfErr, OnOk, OnErr, vec_capacity};
ghost use Rattle.std.specs.VecDeque.{deque_capacity};
ghost use Rattle.lert_ingest.specs.Bays.{bays_of};
ghost use Rattle.lert_ingest.specs.Cones.{IsNewRoom};
ghost use Rattle.lert_top.specs.recovery.Moments.{AreReread};
ghost use Rattle.lert_top.specs.recovery.Recovered.{AreOpenOver, IsUnopened, reopen_status};

use crate::cones::{bring_back, draw_secret, make_rooms_alone};
use lert_base::Settings;
use lert_bay::Bay;
use lert_cone::{Cone, ConeRoom};
use lert_cqf::Cqf;
use lert_ingest::Status;
use lert_recover::{ReopenFault, ReopenRefused, reopen};
use std::alloc::Global;
use std::collections::VecDeque;
use std::random::RandomSource;

/// Opens cones over the files of all bays, in ascending order, for which the memory is taken first, up to the first that is
/// refused. A refusal leaves the bays, just as they were where the memory is wanting, and Ok an emptied list with room for them.
pub fn reopen_cones<B: Bay, R: RandomSource>(
    rt: &R,
    alloc: Global,
    settings: &Settings,
    bays: &mut VecDeque<B>,
) -> Result<Vec<Cone<B, Cqf>>, Status>
    requires number { length bays.old.items ≡ 2 ^ settings.now.cone_bits }
    requires room { length bays.old.items ≤ deque_capacity bays.old }
    ensures open { IfOk result (λ cones. AreOpenOver B.files B.leaves B.faults settings.now bays.old.items cones.items) }
    ensures number { IfOk result (λ cones. length cones.items ≡ 2 ^ settings.now.cone_bits) }
    ensures emptied { OnOk result (bays.new.items ≡ []) }
    ensures room { deque_capacity bays.new ≡ deque_capacity bays.old }
    ensures reread { IfOk result (λ cones. AreReread B.Bay settings.now bays.old.items (bays_of cones.items)) }
    ensures reread_kept { OnErr result (AreReread B.Bay settings.now bays.old.items bays.new.items) }
    ensures unopened { IfErr result (IsUnopened B.files B.faults settings.now bays.old.items bays.new.items) }
{
    let secret = draw_secret(rt);
    let mut rooms = make_rooms_alone(alloc, settings, secret, settings.cones())?;
    let Ok(mut cones) = Vec::with_capacity(alloc, settings.cones() as usize) else {
        return Err(Status::OutOfMemory);
    };
    match reopen_rooms(settings, &mut rooms, bays, &mut cones) {
        Ok(()) => Ok(cones),
        Err(status) => {
            bring_back(cones, bays);
            Err(status)
        }
    }
}

// Opens a cone over the files of each bay, in ascending order, in an empty list with room for all. After a refusal the cones
// that were opened have the bays before those that are left.
fn reopen_rooms<B: Bay>(
    settings: &Settings,
    rooms: &mut Vec<ConeRoom<Cqf>>,
    bays: &mut VecDeque<B>,
    cones: &mut Vec<Cone<B, Cqf>>,
) -> Result<(), Status>
    requires number { length bays.old.items ≡ 2 ^ settings.now.cone_bits }
    requires room { length bays.old.items ≤ deque_capacity bays.old }
    requires rooms_number { length rooms.old.items ≡ 2 ^ settings.now.cone_bits }
    requires rooms { All (IsNewRoom settings.now) rooms.old.items }
    requires none { cones.old.items ≡ [] }
    requires cones_room { 2 ^ settings.now.cone_bits ≤ vec_capacity cones.old }
    ensures open { OnOk result (AreOpenOver B.files B.leaves B.faults settings.now bays.old.items cones.new.items) }
    ensures number { OnOk result (length cones.new.items ≡ 2 ^ settings.now.cone_bits) }
    ensures emptied { OnOk result (bays.new.items ≡ []) }
    ensures room { deque_capacity bays.new ≡ deque_capacity bays.old }
    ensures reread { AreReread B.Bay settings.now bays.old.items (bays_of cones.new.items ++ bays.new.items) }
    ensures unopened { IfErr result (IsUnopened B.files B.faults settings.now bays.old.items (bays_of cones.new.items ++ bays.new.items)) }
{
    for number in 0..settings.cones() {
        let Some(bay) = bays.pop_front() else {
            unreachable!()
        };
        let Some(room) = rooms.pop() else {
            unreachable!()
        };
        match reopen(room, number, bay) {
            Ok(cone) => cones.push_reserved(cone),
            Err(refused) => {
                let ReopenRefused { fault, bay } = refused;
                bays.push_front_reserved(bay);
                return Err(status_of(number, fault));
            }
        }
    }
    Ok(())
}

// The status of a recovery in which the cone of a number wasn't opened.
fn status_of(number: u32, fault: ReopenFault) -> Status
    ensures { result ≡ reopen_status number fault }
{
    match fault {
        ReopenFault::Failed => Status::BayFault { cone: number },
        ReopenFault::Malformed { file, at } => Status::Malformed {
            cone: number,
            file,
            at,
        },
        ReopenFault::OtherSettings { .. } => Status::OtherSettings { cone: number },
    }
}
