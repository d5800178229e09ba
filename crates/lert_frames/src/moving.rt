//! Bytes of the file of frames are moved down.

ghost use Rattle.std.specs.Prelude.{◌≡◌, ℕ, ◌+◌, ◌<◌, ◌≤◌, ◌^◌, ◌++◌, List, length, IsErr, OnOk};
ghost use Rattle.lert_bay.specs.declared.bay.TheConstants.{FRAMES};
ghost use Rattle.lert_bay.specs.Files.{IfTold};
ghost use Rattle.lert_bay.specs.Settled.{part};
ghost use Rattle.lert_frames.specs.Calls.{Writes};
ghost use Rattle.lert_frames.specs.Outlet.{IsOut, next_place, size_of};

use crate::outlet::Outlet;
use lert_bay::Bay;
use lert_io::Failed;

/// Moves bytes, by whole buffers.
pub fn move_down<B: Bay>(
    bay: &mut B,
    outlet: &mut Outlet,
    from: u64,
    to: u64,
    count: u64,
) -> Result<(), Failed>
    requires order { to ≤ from }
    requires reach { from + count < 2 ^ 63 }
    requires size { size_of outlet.old ≡ 8192 }
    ensures moved { IfTold (B.files bay.old) (λ seen. IfTold (B.files bay.new) (λ after. from + count ≤ length (seen FRAMES) →
        OnOk result (part (after FRAMES) to (to + count) ≡ part (seen FRAMES) from (from + count)))) }
    ensures empty { OnOk result (outlet.new.len ≡ 0) }
    ensures place { OnOk result (outlet.new.at ≡ to + count) }
    ensures size { size_of outlet.new ≡ 8192 }
    ensures writes { (begin end : ℕ) → begin ≤ to → to + count ≤ end → Writes B.Bay begin end bay.old bay.new (IsErr result) }
{
    outlet.start(to);
    let mut moved = 0;
    while moved < count {
        let more = (count - moved).min(8192);
        move_part(bay, outlet, from + moved, more as usize)?;
        moved += more;
    }
    Ok(())
}

// Puts bytes of the file behind those of an outlet, and all of them into the file.
fn move_part<B: Bay>(
    bay: &mut B,
    outlet: &mut Outlet,
    from: u64,
    count: usize,
) -> Result<(), Failed>
    requires reach { next_place outlet.old + count < 2 ^ 63 }
    requires size { count ≤ size_of outlet.old }
    requires empty { outlet.old.len ≡ 0 }
    ensures out { IfTold (B.files bay.old) (λ seen. IfTold (B.files bay.new) (λ after. from + count ≤ length (seen FRAMES) → (begin : ℕ) (text : List ℕ) →
        IsOut begin text (seen FRAMES) outlet.old → OnOk result (IsOut begin (text ++ part (seen FRAMES) from (from + count)) (after FRAMES) outlet.new))) }
    ensures empty { OnOk result (outlet.new.len ≡ 0) }
    ensures place { OnOk result (outlet.new.at ≡ outlet.old.at + count) }
    ensures size { size_of outlet.new ≡ size_of outlet.old }
    ensures writes { (begin end : ℕ) → begin ≤ outlet.old.at → outlet.old.at + count ≤ end → Writes B.Bay begin end bay.old bay.new (IsErr result) }
{
    outlet.copy(bay, from, count)?;
    outlet.flush(bay)
}
