//! A write and its sync.

ghost use Rattle.std.specs.Prelude.{◌+◌, ◌<◌, ◌^◌, length};
ghost use Rattle.lert_gatelog.specs.Written.{WritesDurably};

use lert_bay::Bay;
use lert_io::Failed;

/// Writes `bytes` into a file at the place `at` and syncs it. After `Failed` any bytes stand in their
/// range.
pub fn write_durably<B: Bay>(bay: &mut B, file: u8, at: u64, bytes: &[u8]) -> Result<(), Failed>
    requires file { file < 3 }
    requires reach { at + length bytes.now < 2 ^ 63 }
    ensures { WritesDurably B.Bay file at bytes.now bay.old bay.new result }
{
    bay.write_at(file, at, bytes)?;
    // Until this sync a crash leaves any bytes in the range; after it just these.
    bay.sync(file)
}
