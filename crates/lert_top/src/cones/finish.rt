//! The end of all cones of a run.

ghost use Rattle.std.specs.Prelude.{◌≡◌, ◌^◌, ◌<◌, ℕ, List, length, IfErr, OnErr, OnOk};
ghost use Rattle.lert_base.specs.Packet.{Packet};
ghost use Rattle.lert_cone.specs.Stands.{IsSameCone, StandsFor, WasSound, is_refusal};
ghost use Rattle.lert_ingest.specs.Bays.{AreLater, IsLater, bays_of};
ghost use Rattle.lert_io.specs.Fault.{HasRisen};
ghost use Rattle.lert_top.specs.cones.Finish.{AreFinished, AreRunning, HasBroken, HasStopped, IsFinished};

use lert_bay::Bay;
use lert_cone::{Cone, ConeFault, ConeState};
use lert_cqf::Cqf;
use lert_ingest::Status;

/// Finishes all cones of a run, in ascending order, up to the first that its bay or a frame of it refuses.
pub fn finish_cones<B: Bay>(cones: &mut Vec<Cone<B, Cqf>>) -> Result<(), Status>
    requires running { AreRunning cones.old.items }
    requires few { length cones.old.items < 2 ^ 32 }
    ensures finished { OnOk result (AreFinished B.files B.leaves B.faults B.mark cones.old.items cones.new.items) }
    ensures stopped { IfErr result (HasStopped B.files B.leaves B.faults B.mark cones.old.items cones.new.items) }
{
    for number in 0..cones.len() {
        if let Err(fault) = finish_cone(&mut cones[number]) {
            return Err(Status::of_cone(number as u32, fault));
        }
    }
    Ok(())
}

// Finishes a running cone. A refusal leaves it broken, by its bay or by a frame.
fn finish_cone<B: Bay>(cone: &mut Cone<B, Cqf>) -> Result<(), ConeFault>
    requires { cone.old.state ≡ ConeState.Running }
    ensures finished { OnOk result (IsFinished B.files B.leaves B.faults B.mark cone.old cone.new) }
    ensures broke { IfErr result (λ fault. HasBroken B.files B.leaves B.faults B.mark fault cone.old cone.new) }
{
    match cone.finish() {
        Ok(_) => Ok(()),
        Err(fault) => Err(fault),
    }
}
