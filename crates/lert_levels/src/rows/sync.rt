//! The sync behind the new bins of a flush.

ghost use Rattle.std.specs.Prelude.{◌≡◌, OnOk, IsErr};
ghost use Rattle.lert_bay.specs.declared.bay.TheConstants.{FRAMES};
ghost use Rattle.lert_bay.specs.Files.{Files, IfTold};
ghost use Rattle.lert_bay.specs.Kept.{KeepsBay};
ghost use Rattle.lert_levels.specs.rows.Landing.{Anywhere, KeepsRest};

use lert_bay::{Bay, FRAMES};
use lert_io::Failed;

/// Makes the file of frames durable: after Ok a crash leaves it as a read gives it. It is one call of the bay and changes no
/// byte, whatever it answers.
pub fn sync_frames<B: Bay>(bay: &mut B) -> Result<(), Failed>
    ensures seen { B.files bay.new ≡ B.files bay.old }
    ensures durable { OnOk result (IfTold (B.files bay.new) (λ seen. (image : Files) → B.leaves bay.new image → image FRAMES ≡ seen FRAMES)) }
    ensures rest { KeepsRest B.Bay Anywhere bay.old bay.new }
    ensures kept { KeepsBay B.Bay bay.old bay.new (IsErr result) }
{
    bay.sync(FRAMES)
}
