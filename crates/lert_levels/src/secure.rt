//! Frames that are made sure of before a flush writes anything.

ghost use Rattle.std.specs.Prelude.{◌≡◌, ℕ, ◌≤◌, length, map, OnOk, IsErrOf};
ghost use Rattle.lert_bay.specs.declared.bay.TheConstants.{FRAMES};
ghost use Rattle.lert_bay.specs.Files.{IfTold};
ghost use Rattle.lert_bay.specs.Kept.{OnlyReads};
ghost use Rattle.lert_levels.specs.rows.Loading.{OneBreaks, RowBreaks};
ghost use Rattle.lert_levels.specs.rows.Rows.{IsRow, AreFirst};
ghost use Rattle.lert_levels.specs.Sources.{of_bin, placed_at, AllOf, IsSecure, AreSecure};
ghost use Rattle.lert_spec.specs.Items.{IsVersion};

use crate::rows::{BinAt, FlushFault, Row};
use crate::streams::StreamRoom;
use lert_base::{CountTable, PieceFault, Settings};
use lert_bay::{Bay, FRAMES};

/// Makes sure of the frames of the rows' bins: each that the file of frames hasn't wholly is read to its end. So a frame that is
/// cut at the file's end is found while nothing is written. It changes no file and takes no memory.
pub fn secure_rows<T: CountTable, B: Bay>(
    settings: &Settings,
    version: u8,
    rows: &[Row],
    room: &mut StreamRoom<T>,
    bay: &mut B,
) -> Result<(), FlushFault>
    requires same { room.old ≡ settings.now }
    requires version { IsVersion version }
    requires rows { AreFirst settings.now rows.now }
    ensures secure { IfTold (B.files bay.old) (λ seen. OnOk result (AreSecure settings.now version (seen FRAMES) 1 rows.now)) }
    ensures malformed { IfTold (B.files bay.old) (λ seen. (at : ℕ) → IsErrOf result (FlushFault.Malformed at) →
        OneBreaks settings.now version rows.now (seen FRAMES) at) }
    ensures room { room.new ≡ settings.now }
    ensures only_reads { OnlyReads B.Bay bay.old bay.new (IsErrOf result FlushFault.Failed) }
{
    let len = bay.len(FRAMES)?;
    secure_levels(settings, version, rows, room, len, bay)?;
    Ok(())
}

// The same for a file of at least so many bytes.
fn secure_levels<T: CountTable, B: Bay>(
    settings: &Settings,
    version: u8,
    rows: &[Row],
    room: &mut StreamRoom<T>,
    len: u64,
    bay: &mut B,
) -> Result<(), PieceFault>
    requires same { room.old ≡ settings.now }
    requires version { IsVersion version }
    requires rows { AreFirst settings.now rows.now }
    ensures secure { IfTold (B.files bay.old) (λ seen. len ≤ length (seen FRAMES) → OnOk result (AreSecure settings.now version (seen FRAMES) 1 rows.now)) }
    ensures malformed { IfTold (B.files bay.old) (λ seen. (at : ℕ) → IsErrOf result (PieceFault.Malformed at) →
        OneBreaks settings.now version rows.now (seen FRAMES) at) }
    ensures room { room.new ≡ settings.now }
    ensures only_reads { OnlyReads B.Bay bay.old bay.new (IsErrOf result PieceFault.Failed) }
{
    let _valid = settings.numbers();
    for (lower, row) in rows.iter().enumerate() {
        secure_row(room, version, lower as u32 + 1, row.bins(), len, bay)?;
    }
    Ok(())
}

// The same for a level's row.
fn secure_row<T: CountTable, B: Bay>(
    room: &mut StreamRoom<T>,
    version: u8,
    level: u32,
    row: &[BinAt],
    len: u64,
    bay: &mut B,
) -> Result<(), PieceFault>
    requires version { IsVersion version }
    requires first { 1 ≤ level }
    requires last { level ≤ room.old.levels }
    requires row { IsRow room.old level row.now }
    ensures secure { IfTold (B.files bay.old) (λ seen. len ≤ length (seen FRAMES) → OnOk result (AllOf (IsSecure room.old version (seen FRAMES)) (map of_bin (map (placed_at level) row.now)))) }
    ensures malformed { IfTold (B.files bay.old) (λ seen. (at : ℕ) → IsErrOf result (PieceFault.Malformed at) →
        RowBreaks room.old version level row.now (seen FRAMES) at) }
    ensures room { room.new ≡ room.old }
    ensures only_reads { OnlyReads B.Bay bay.old bay.new (IsErrOf result PieceFault.Failed) }
{
    for bin in row {
        let width = bin.to - bin.from;
        room.secure(bay, len, version, level, u32::from(bin.frame), width)?;
    }
    Ok(())
}
