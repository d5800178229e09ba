//! Bytes that are wanted at hand, and where the file ends before them.

ghost use Rattle.std.specs.Prelude.{◌≡◌, ◌↔◌, ℕ, ◌+◌, ◌<◌, ◌≤◌, ◌^◌, IfOk, IfErr, OnOk, IsErrOf, IsTrue, IsFalse, length};
ghost use Rattle.lert_bay.specs.declared.bay.TheConstants.{FRAMES};
ghost use Rattle.lert_bay.specs.Files.{IfTold};
ghost use Rattle.lert_bay.specs.Kept.{OnlyReads};
ghost use Rattle.lert_frames.specs.Steps.{ReadsAhead};
ghost use Rattle.lert_frames.specs.Window.{at_hand, count_of, place_of, room_of, to_come};

use crate::window::Window;
use lert_base::PieceFault;
use lert_bay::{Bay, FRAMES};

/// A text that goes on where the file ends is left at the file's end.
pub fn file_end<B: Bay>(bay: &mut B) -> PieceFault
    ensures told { IfTold (B.files bay.old) (λ seen. (at : ℕ) → result ≡ PieceFault.Malformed at → at ≡ length (seen FRAMES)) }
    ensures only_reads { OnlyReads B.Bay bay.old bay.new (result ≡ PieceFault.Failed) }
{
    match bay.len(FRAMES) {
        Ok(at) => PieceFault::Malformed { at },
        Err(_failed) => PieceFault::Failed,
    }
}

/// Whether so many bytes are at hand, after a read where they weren't.
pub fn need<B: Bay>(window: &mut Window, bay: &mut B, count: usize) -> Result<bool, PieceFault>
    requires fits { count ≤ room_of window.old }
    requires reach { place_of window.old + room_of window.old < 2 ^ 63 }
    ensures enough { IfOk result (λ enough. IsTrue enough ↔ (count ≤ count_of window.new)) }
    ensures ends { IfTold (B.files bay.old) (λ seen. IfOk result (λ enough. IsFalse enough → at_hand window.new ≡ to_come window.old (seen FRAMES))) }
    ensures ahead { ReadsAhead B.Bay bay.old window.old window.new }
    ensures failed { IfErr result (λ fault. fault ≡ PieceFault.Failed) }
    ensures only_reads { OnlyReads B.Bay bay.old bay.new (IsErrOf result PieceFault.Failed) }
{
    match window.need(bay, count) {
        Ok(enough) => Ok(enough),
        Err(_failed) => Err(PieceFault::Failed),
    }
}

/// Has so many bytes at hand, or answers that the text is left at the file's end.
pub fn demand<B: Bay>(window: &mut Window, bay: &mut B, count: usize) -> Result<(), PieceFault>
    requires fits { count ≤ room_of window.old }
    requires reach { place_of window.old + room_of window.old < 2 ^ 63 }
    ensures enough { OnOk result (count ≤ count_of window.new) }
    ensures short { IfTold (B.files bay.old) (λ seen. (at : ℕ) → IsErrOf result (PieceFault.Malformed at) → length (to_come window.old (seen FRAMES)) < count) }
    ensures end { IfTold (B.files bay.old) (λ seen. (at : ℕ) → IsErrOf result (PieceFault.Malformed at) → at ≡ length (seen FRAMES)) }
    ensures ahead { ReadsAhead B.Bay bay.old window.old window.new }
    ensures only_reads { OnlyReads B.Bay bay.old bay.new (IsErrOf result PieceFault.Failed) }
{
    if need(window, bay, count)? {
        return Ok(());
    }
    Err(file_end(bay))
}
