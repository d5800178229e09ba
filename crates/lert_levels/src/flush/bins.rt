//! The bins of a flush.

ghost use Rattle.std.specs.Prelude.{◌≡◌, ◌≢◌, ℕ, ◌<◌, ◌≤◌, List, Some, None, ◌↔◌};
ghost use Rattle.lert_bay.specs.declared.bay.TheConstants.{FRAMES};
ghost use Rattle.lert_bay.specs.Files.{Files};
ghost use Rattle.lert_bay.specs.Kept.{OnlyReads};
ghost use Rattle.lert_levels.specs.rows.Landing.{LeavesRest};
ghost use Rattle.lert_spec.specs.Table.{costs};
ghost use Rattle.lert_levels.specs.flush.Staying.{NoneFailed, ComesTheSame};

use lert_bay::Bay;
use lert_merge::Streams;

/// The bins of a flush: streams over a bay, of which those on disk read the file of frames while other places of it are written.
pub trait Bins<B: Bay>: Streams<B> {
    /// The version of the files by which the counts of a stream cost something.
    ghost version: { Self → ℕ → ℕ };

    /// What they cost at most.
    ghost width: { Self → ℕ → ℕ };

    /// The ranges of the file of frames that they read.
    ghost reads: { Self → ℕ → ℕ → Type 0 };

    /// A file of frames of which no write elsewhere changes what they have to come.
    ghost sure: { Self → List ℕ → Type 0 };

    /// What a stream gave costs no more than its width.
    ghost summed: { (bins : Self) (stream : ℕ) → stream < Self.count bins → costs (version bins stream) (Self.given bins stream) ≤ width bins stream };

    /// Calls change neither the versions and widths, nor what is read, nor which files are sure.
    ghost version_same: { (old new : Self) → Self.same old new → (stream : ℕ) → version new stream ≡ version old stream };

    ghost width_same: { (old new : Self) → Self.same old new → (stream : ℕ) → width new stream ≡ width old stream };

    ghost reads_same: { (old new : Self) → Self.same old new → (from to : ℕ) → reads new from to → reads old from to };

    ghost sure_same: { (old new : Self) (before after : B) (seen : Files) → Self.same old new →
        B.files before ≡ Some seen → B.files after ≡ Some seen →
        ((stream at : ℕ) → stream < Self.count old → Self.breaks new stream after at → Self.breaks old stream before at) →
        sure old (seen FRAMES) → sure new (seen FRAMES) };

    /// Where the ranges that they read stay, the same is to come of each stream, and the same breaks.
    ghost stays: { (bins : Self) (before after : B) (seen later : Files) →
        B.files before ≡ Some seen → B.files after ≡ Some later → sure bins (seen FRAMES) → LeavesRest (reads bins) seen later →
        (stream : ℕ) → stream < Self.count bins → ComesTheSame Self.to_come Self.breaks bins stream before after };

    /// And the file is sure still.
    ghost sure_stays: { (bins : Self) (before after : B) (seen later : Files) →
        B.files before ≡ Some seen → B.files after ≡ Some later → sure bins (seen FRAMES) → LeavesRest (reads bins) seen later →
        sure bins (later FRAMES) };

    /// Of a bay that doesn't tell its files it is the same at any time.
    ghost stays_untold: { (bins : Self) (before after : B) → B.files before ≡ None → B.files after ≡ None →
        (stream : ℕ) → stream < Self.count bins → ComesTheSame Self.to_come Self.breaks bins stream before after };

    /// They tell just where the bay tells its files.
    ghost telling: { (bay : B) → Self.tells bay ↔ (B.files bay ≢ None) };

    /// They only read the bay.
    ghost reading: { (before after : B) → Self.keeps before after → OnlyReads B.Bay before after NoneFailed };
}
