//! A check of the frames in which the bins of levels stand.

ghost use Rattle.std.specs.Prelude.{◌≡◌, ℕ, ◌<◌, ◌≤◌, ◌^◌, Some, None, IfOk, OnOk, IsErrOf};
ghost use Rattle.lert_bay.specs.declared.bay.TheConstants.{FRAMES};
ghost use Rattle.lert_bay.specs.Files.{IfTold};
ghost use Rattle.lert_bay.specs.Kept.{OnlyReads};
ghost use Rattle.lert_spec.specs.Items.{IsVersion};
ghost use Rattle.lert_spec.specs.Edges.{span};
ghost use Rattle.lert_spec.specs.Table.{total};
ghost use Rattle.lert_levels.specs.rows.Checked.{pieces_in, IsWeightOf, RowStands, EachStands, bin_left, row_left, row_total, row_width, rows_left, rows_total, rows_width};
ghost use Rattle.lert_levels.specs.rows.Loading.{width_of, Stands};
ghost use Rattle.lert_levels.specs.rows.Rows.{IsRow, AreFirst};

use crate::rows::bin_at::BinAt;
use crate::rows::row::Row;
use lert_base::{PieceFault, Settings};
use lert_bay::Bay;
use lert_frames::FrameReader;

/// Reads the frame of each bin of the rows, from level 1 on, each level's oldest first, and answers the sum of all
/// counts. It changes no file and no image. It takes no memory.
pub fn check_rows<B: Bay>(
    settings: &Settings,
    version: u8,
    rows: &[Row],
    reader: &mut FrameReader,
    bay: &mut B,
) -> Result<u64, PieceFault>
    requires version { IsVersion version }
    requires rows { AreFirst settings.now rows.now }
    requires reader { reader.old.settings ≡ settings.now }
    ensures stand { IfTold (B.files bay.old) (λ seen. OnOk result (EachStands settings.now version (seen FRAMES) rows.now)) }
    ensures whole { IfTold (B.files bay.old) (λ seen. OnOk result (rows_left settings.now version (seen FRAMES) rows.now ≡ None)) }
    ensures malformed { IfTold (B.files bay.old) (λ seen. (at : ℕ) → IsErrOf result (PieceFault.Malformed at) →
        rows_left settings.now version (seen FRAMES) rows.now ≡ Some at) }
    ensures between { IfOk result (λ sum. IsWeightOf version (rows_width rows.now) sum) }
    ensures sum { IfTold (B.files bay.old) (λ seen. IfOk result (λ sum. sum ≡ rows_total settings.now version (seen FRAMES) 1 rows.now)) }
    ensures reader { reader.new.settings ≡ settings.now }
    ensures only_reads { OnlyReads B.Bay bay.old bay.new (IsErrOf result PieceFault.Failed) }
{
    let _valid = settings.numbers();
    let mut sum = 0;
    for (lower, row) in rows.iter().enumerate() {
        let of_row = check_row(reader, version, lower as u32 + 1, row.bins(), bay)?;
        sum += of_row;
    }
    Ok(sum)
}

// Reads the frame of each bin of a level's row, the oldest first, and answers the sum of the counts.
fn check_row<B: Bay>(
    reader: &mut FrameReader,
    version: u8,
    level: u32,
    row: &[BinAt],
    bay: &mut B,
) -> Result<u64, PieceFault>
    requires version { IsVersion version }
    requires first { 1 ≤ level }
    requires last { level ≤ reader.old.settings.levels }
    requires row { IsRow reader.old.settings level row.now }
    ensures stand { IfTold (B.files bay.old) (λ seen. OnOk result (RowStands reader.old.settings version (seen FRAMES) level row.now)) }
    ensures whole { IfTold (B.files bay.old) (λ seen. OnOk result (row_left reader.old.settings version (seen FRAMES) level row.now ≡ None)) }
    ensures malformed { IfTold (B.files bay.old) (λ seen. (at : ℕ) → IsErrOf result (PieceFault.Malformed at) →
        row_left reader.old.settings version (seen FRAMES) level row.now ≡ Some at) }
    ensures between { IfOk result (λ sum. IsWeightOf version (row_width row.now) sum) }
    ensures sum { IfTold (B.files bay.old) (λ seen. IfOk result (λ sum. sum ≡ row_total reader.old.settings version (seen FRAMES) level row.now)) }
    ensures settings { reader.new.settings ≡ reader.old.settings }
    ensures only_reads { OnlyReads B.Bay bay.old bay.new (IsErrOf result PieceFault.Failed) }
{
    let mut sum = 0;
    for bin in row {
        let of_bin = check_bin(reader, version, level, bin, bay)?;
        sum += of_bin;
    }
    Ok(sum)
}

// Reads the frame of a bin of a level, lets its pieces go, and answers the sum of their counts.
fn check_bin<B: Bay>(
    reader: &mut FrameReader,
    version: u8,
    level: u32,
    bin: &BinAt,
    bay: &mut B,
) -> Result<u64, PieceFault>
    requires version { IsVersion version }
    requires first { 1 ≤ level }
    requires last { level ≤ reader.old.settings.levels }
    requires frame { bin.now.frame ≤ reader.old.settings.bins }
    requires some { bin.now.from < bin.now.to }
    requires width { width_of bin.now ≤ span reader.old.settings level }
    requires end { bin.now.to < 2 ^ 32 }
    ensures stand { IfTold (B.files bay.old) (λ seen. OnOk result (Stands reader.old.settings version level (seen FRAMES) (pieces_in reader.old.settings version (seen FRAMES) level) bin.now)) }
    ensures whole { IfTold (B.files bay.old) (λ seen. OnOk result (bin_left reader.old.settings version (seen FRAMES) level bin.now ≡ None)) }
    ensures malformed { IfTold (B.files bay.old) (λ seen. (at : ℕ) → IsErrOf result (PieceFault.Malformed at) →
        bin_left reader.old.settings version (seen FRAMES) level bin.now ≡ Some at) }
    ensures between { IfOk result (λ sum. IsWeightOf version (width_of bin.now) sum) }
    ensures sum { IfTold (B.files bay.old) (λ seen. IfOk result (λ sum. sum ≡ total (pieces_in reader.old.settings version (seen FRAMES) level bin.now))) }
    ensures settings { reader.new.settings ≡ reader.old.settings }
    ensures only_reads { OnlyReads B.Bay bay.old bay.new (IsErrOf result PieceFault.Failed) }
{
    let frame = u32::from(bin.frame);
    let width = bin.to - bin.from;
    reader.start_at(version, level, frame, width);
    reader.check(bay, version, frame, width)
}
