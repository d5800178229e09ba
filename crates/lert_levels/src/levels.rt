//! The levels on disk.

ghost use Rattle.std.specs.Prelude.{◌≡◌, ◌⊎◌, ℕ, ◌+◌, ◌-◌, ◌<◌, ◌≤◌, List, [], Some, None, take, replicate, IfOk, IfErr, OnOk, OnErr, MatchResult, IsErrOf, IsErrAnd, length, slice_range};
ghost use Rattle.lert_bay.specs.declared.bay.TheConstants.{FRAMES};
ghost use Rattle.lert_bay.specs.Files.{Files, IfTold};
ghost use Rattle.lert_bay.specs.Kept.{KeepsBay, OnlyReads};
ghost use Rattle.lert_frames.specs.Place.{tail_limit};
ghost use Rattle.lert_spec.specs.declared.piece.Piece.{Piece};
ghost use Rattle.lert_spec.specs.declared.item.Item.{Item};
ghost use Rattle.lert_spec.specs.Bins.{tally};
ghost use Rattle.lert_spec.specs.Counts.{weight_of, weighed};
ghost use Rattle.lert_spec.specs.Items.{IsVersion, AreOfVersion};
ghost use Rattle.lert_spec.specs.Edges.{edge, depth, lookback, capacity};
ghost use Rattle.lert_spec.specs.Table.{IsTable};
ghost use Rattle.lert_levels.specs.declared.rows.bin_at.BinAt.{BinAt};
ghost use Rattle.lert_levels.specs.rows.Checked.{IsWeightOf, EachStands, held_after, rows_left, rows_total};
ghost use Rattle.lert_levels.specs.Flushed.{AreEvents, AreAllEvents, InNamed};
ghost use Rattle.lert_levels.specs.rows.Landing.{AreApart, KeepsRest};
ghost use Rattle.lert_levels.specs.rows.Loading.{AllStand, OneBreaks};
ghost use Rattle.lert_levels.specs.rows.Named.{IsDirectory};
ghost use Rattle.lert_levels.specs.Ready.{HasMade};
ghost use Rattle.lert_spec.specs.Limits.{IsValid};
ghost use Rattle.lert_levels.specs.rows.Rows.{row_of, IsAt, AreRows, HoldsBins, moved, directory_text};
ghost use Rattle.lert_levels.specs.rows.Young.{AreLight};

use crate::merger::{Reading, Writing, count_rows, merge_rows};
use crate::rows::{
    BinAt, FlushFault, Row, Zero, check_rows, empty_rows, lay_directory, move_rows, restore_rows,
    sync_frames,
};
use lert_base::{CountTable, Settings, Totals};
use lert_bay::Bay;
use lert_frames::FrameReader;
use lert_io::OutOfMemory;
use std::alloc::Global;
use std::marker::Model;

/// The levels of a cone on disk, seen as its settings, the version of its files, and a row of bins for each level from
/// 1 on. The bins stand in the file of frames, in the places of that version, and level 0 in memory, in tables of type
/// `T`.
///
/// Only `new` takes memory: some 19 KiB for each bin on disk, and as much for each level twice.
#[derive(Drop)]
pub struct Levels<T: CountTable> {
    settings: Settings,
    // That of the cone's files.
    version: u8,
    rows: Vec<Row>,
    directory: Vec<u8>,
    // For checks.
    reader: FrameReader,
    // None while a merge has it.
    reading: Option<Reading<T>>,
    writing: Writing,
}

// The version of the files that a made cone has.
const MADE: u8 = 2;

impl<T: CountTable> Model for Levels<T> {
    ghost use Rattle.std.specs.Prelude.{◌≡◌, ◌+◌, ◌*◌, ◌≤◌, IsSomeAnd, vec_capacity};
    ghost use Rattle.lert_levels.specs.OnDisk.{OnDisk, AreKept};
    ghost use Rattle.lert_levels.specs.Ready.{CanLand};

    ghost Value = { OnDisk };

    ghost view = { λ l. record { settings = l.settings; version = l.version; rows = l.rows.items } };

    ghost invariant = { λ l. AreKept l.settings l.version l.rows.items l.directory.items (vec_capacity l.directory) l.reader
        × IsSomeAnd l.reading (λ reading. (reading.room ≡ l.settings) × ((l.settings.levels + 1) * l.settings.bins ≤ reading.ahead.room))
        × CanLand l.settings l.writing.landings.items (vec_capacity l.writing.parts) };
}

impl<T: CountTable> Levels<T> {
    /// No bin, and version 2, that of the files which a made cone has. Its only error is want of memory.
    pub fn new(alloc: Global, settings: &Settings) -> Result<Levels<T>, OutOfMemory>
        ensures { IfOk result (λ levels. levels ≡ record { settings = settings.now; version = 2; rows = replicate settings.now.levels [] }) }
    {
        let numbers = settings.numbers();
        let bins = numbers.bins as usize;
        let levels = numbers.levels as usize;
        let rows = empty_rows(alloc, levels)?;
        let mut directory = Vec::with_capacity(alloc, levels * (1 + bins))?;
        lay_directory(&rows, &mut directory);
        Ok(Levels {
            settings: *settings,
            version: MADE,
            rows,
            directory,
            reader: FrameReader::new(alloc, settings, 1)?,
            writing: Writing::new(alloc, settings)?,
            reading: Some(Reading::new(alloc, settings)?),
        })
    }

    /// Puts the bins of the levels after `n0` events in the place of those so far, each in the frame that the directory
    /// names: for each level from 1 on a byte with the number of its bins, and behind it their frames, oldest first.
    /// Such a directory leaves no choice of the bins. From then on the files are of `version`, 1 or 2. It takes no
    /// memory and reads no frame.
    pub fn restore(&mut self, n0: u64, directory: &[u8], version: u8)
        requires within { n0 ≤ capacity self.old.settings }
        requires directory { IsDirectory self.old.settings n0 directory.now }
        requires version { IsVersion version }
        ensures settings { self.new.settings ≡ self.old.settings }
        ensures version { self.new.version ≡ version }
        ensures at { IsAt self.new.settings n0 self.new.rows }
        ensures rows { AreRows self.new.settings self.new.rows }
        ensures directory { directory_text self.new.rows ≡ directory.now }
    {
        let _valid = self.settings.numbers();
        self.version = version;
        restore_rows(&self.settings, n0, directory, &mut self.rows);
        lay_directory(&self.rows, &mut self.directory);
    }

    /// The bins of a level on disk, oldest first.
    pub fn bins(&self, level: u32) -> &[BinAt]
        requires first { 1 ≤ level }
        requires last { level ≤ self.now.settings.levels }
        ensures { result.now ≡ row_of self.now.rows level }
    {
        self.rows[level as usize - 1].bins()
    }

    /// Flushes at position `m`: merges level 0 and the levels on disk that the flush reaches, writes the new bin of each level
    /// from 1 on that it reaches into the least frame in which no bin of that level stands, and makes the file of frames
    /// durable. `zero` has the positions above the edge of level 0 before `m`, up to `m`; its oldest bin stays there.
    /// With version 1 each of its events has to weigh 1, so that the counts of a bin are no more than its positions.
    ///
    /// `totals` takes each tail with its sum, in ascending tails. A refusal leaves the bins and the directory as they were, and
    /// no frame that the directory names is written, whatever it answers. After a refusal nothing is said of what `totals` took.
    /// The new bins are written while the others are read. It takes no memory.
    pub fn flush<B: Bay, O: Totals>(
        &mut self,
        bay: &mut B,
        zero: &Zero<T>,
        m: u64,
        totals: &mut O,
    ) -> Result<(), FlushFault>
        requires same { zero.now.settings ≡ self.old.settings }
        requires first { 1 ≤ m }
        requires last { m ≤ capacity self.old.settings }
        requires from { zero.now.from ≡ edge self.old.settings 0 (m - 1) }
        requires to { zero.now.to ≡ m }
        requires at { IsAt self.old.settings (m - 1) self.old.rows }
        requires light { AreLight self.old.version zero.now.bins }
        requires none_taken { O.took totals.old [] }

        // The rows become those of the levels after m events.
        ensures ok { OnOk result (self.new ≡ record self.old { rows = moved self.old.settings m self.old.rows }) }
        ensures at { OnOk result (IsAt self.new.settings m self.new.rows) }
        ensures refused { OnErr result (self.new ≡ self.old) }

        // Where the frames held the bins of the events before m, those of the rows then hold theirs, and the totals are the counts
        // above the lookback. Only a call of the bay may fail.
        ensures told { IfTold (B.files bay.old) (λ seen. (events : List Item) → AreEvents self.old m zero.now.bins events (seen FRAMES) → MatchResult result
            (λ _. IfTold (B.files bay.new) (λ after. HoldsBins self.old.settings self.old.version events (moved self.old.settings m self.old.rows) (after FRAMES)) ×
            O.took totals.new (tally weighed self.old.settings (slice_range events (lookback self.old.settings m) m)))
            (λ fault. fault ≡ FlushFault.Failed)) }
        ensures took { OnOk result ((list : List Piece) × O.took totals.new list × IsTable (tail_limit self.old.settings) list) }

        // After Ok a crash leaves the file of frames as a read gives it. In the other files, and in the frames that the directory
        // named, all reads as before, and what was settled stays settled.
        ensures durable { OnOk result (IfTold (B.files bay.new) (λ seen. (image : Files) → B.leaves bay.new image → image FRAMES ≡ seen FRAMES)) }
        ensures rest { KeepsRest B.Bay (InNamed self.old.settings self.old.version self.old.rows) bay.old bay.new }

        // Where the bay tells its files, Ok comes only where each frame that is read was in its format to the end.
        ensures whole { IfTold (B.files bay.old) (λ seen. OnOk result (rows_left self.old.settings self.old.version (seen FRAMES) (take (depth self.old.settings m) self.old.rows) ≡ None)) }

        // Malformed comes nowhere where the frames hold bins of their widths, whatever these count.
        ensures sound { IfTold (B.files bay.old) (λ seen. (held : BinAt → List Piece) →
            AllStand self.old.settings self.old.version (seen FRAMES) held (take (depth self.old.settings m) self.old.rows) →
            IfErr result (λ fault. fault ≡ FlushFault.Failed)) }
        ensures malformed { IfTold (B.files bay.old) (λ seen. (at : ℕ) → IsErrOf result (FlushFault.Malformed at) →
            OneBreaks self.old.settings self.old.version (take (depth self.old.settings m) self.old.rows) (seen FRAMES) at) }

        // It stands in a frame that was named, so the file of frames has it afterwards too.
        ensures malformed_after { IfTold (B.files bay.new) (λ after. (at : ℕ) → IsErrOf result (FlushFault.Malformed at) →
            OneBreaks self.old.settings self.old.version (take (depth self.old.settings m) self.old.rows) (after FRAMES) at) }
        ensures kept { KeepsBay B.Bay bay.old bay.new (IsErrOf result FlushFault.Failed) }
    {
        self.merge(zero, m, bay, totals)?;
        // The frames are durable before the directory moves: a failed sync leaves the old one.
        sync_frames(bay)?;
        self.move_on(m);
        Ok(())
    }

    /// Merges level 0 with all levels on disk, and writes nothing. `totals` takes each tail with its sum, in ascending tails.
    /// After a refusal nothing is said of what it took. It takes no memory.
    pub fn scan<B: Bay, O: Totals>(
        &mut self,
        bay: &mut B,
        zero: &Zero<T>,
        totals: &mut O,
    ) -> Result<(), FlushFault>
        requires same { zero.now.settings ≡ self.old.settings }
        requires none_taken { O.took totals.old [] }
        ensures same { self.new ≡ self.old }
        ensures told { IfTold (B.files bay.old) (λ seen. (events : List Item) → AreAllEvents self.old zero.now.bins events (seen FRAMES) → MatchResult result
            (λ _. O.took totals.new (tally weighed self.old.settings events))
            (λ fault. fault ≡ FlushFault.Failed)) }
        ensures took { OnOk result ((list : List Piece) × O.took totals.new list × IsTable (tail_limit self.old.settings) list) }

        // Where the bay tells its files, Ok comes only where each frame was in its format to the end.
        ensures whole { IfTold (B.files bay.old) (λ seen. OnOk result (rows_left self.old.settings self.old.version (seen FRAMES) self.old.rows ≡ None)) }
        ensures sound { IfTold (B.files bay.old) (λ seen. (held : BinAt → List Piece) →
            AllStand self.old.settings self.old.version (seen FRAMES) held self.old.rows →
            IfErr result (λ fault. fault ≡ FlushFault.Failed)) }
        ensures malformed { IfTold (B.files bay.old) (λ seen. (at : ℕ) → IsErrOf result (FlushFault.Malformed at) →
            OneBreaks self.old.settings self.old.version self.old.rows (seen FRAMES) at) }
        ensures only_reads { OnlyReads B.Bay bay.old bay.new (IsErrOf result FlushFault.Failed) }
    {
        let Some(reading) = self.reading.take() else {
            unreachable!()
        };
        let _valid = self.settings.numbers();
        let (reading, counted) = count_rows(zero, self.version, &self.rows, reading, totals, bay);
        self.reading = Some(reading);
        counted
    }

    /// Reads each frame that the directory names to its end, the levels ascending and each level's oldest bin first, up
    /// to the first one that leaves its format, or whose counts cost more than the width of its bin or don't reach it.
    /// It answers the sum of all counts: what the events up to the edge of level 0 weigh. It writes nothing and takes
    /// no memory.
    pub fn check<B: Bay>(&mut self, bay: &mut B) -> Result<u64, FlushFault>
        ensures same { self.new ≡ self.old }

        // The sum is one that so many events may weigh, whether the bay tells its files or not. Where it does, it is
        // that of the counts in the file, and what the events weigh where the frames hold their bins.
        ensures between { (n : ℕ) → n ≤ capacity self.old.settings → IsAt self.old.settings n self.old.rows →
            IfOk result (λ sum. IsWeightOf self.old.version (edge self.old.settings 0 n) sum) }
        ensures sum { IfTold (B.files bay.old) (λ seen. IfOk result (λ sum. sum ≡ rows_total self.old.settings self.old.version (seen FRAMES) 1 self.old.rows)) }
        ensures weighs { IfTold (B.files bay.old) (λ seen. (n : ℕ) (events : List Item) → n ≤ capacity self.old.settings → IsAt self.old.settings n self.old.rows →
            edge self.old.settings 0 n ≤ length events → AreOfVersion self.old.version events →
            HoldsBins self.old.settings self.old.version events self.old.rows (seen FRAMES) →
            IfOk result (λ sum. sum ≡ weight_of weighed (take (edge self.old.settings 0 n) events))) }

        // Where the file is told, each frame stands after Ok, so that a flush or a scan of these rows finds none malformed.
        // Malformed names the first place at which one leaves its format. Only a call of the bay may fail beside it.
        ensures stand { IfTold (B.files bay.old) (λ seen. OnOk result (EachStands self.old.settings self.old.version (seen FRAMES) self.old.rows)) }
        ensures held { IfTold (B.files bay.old) (λ seen. (n : ℕ) → IsAt self.old.settings n self.old.rows →
            OnOk result (AllStand self.old.settings self.old.version (seen FRAMES) (held_after self.old.settings self.old.version n (seen FRAMES)) self.old.rows)) }
        ensures whole { IfTold (B.files bay.old) (λ seen. OnOk result (rows_left self.old.settings self.old.version (seen FRAMES) self.old.rows ≡ None)) }
        ensures malformed { IfTold (B.files bay.old) (λ seen. (at : ℕ) → IsErrOf result (FlushFault.Malformed at) →
            rows_left self.old.settings self.old.version (seen FRAMES) self.old.rows ≡ Some at) }
        ensures refuses { IfTold (B.files bay.old) (λ seen. (at : ℕ) → rows_left self.old.settings self.old.version (seen FRAMES) self.old.rows ≡ Some at →
            IsErrAnd result (λ fault. (fault ≡ FlushFault.Malformed at) ⊎ (fault ≡ FlushFault.Failed))) }
        ensures sound { IfTold (B.files bay.old) (λ seen. (held : BinAt → List Piece) →
            AllStand self.old.settings self.old.version (seen FRAMES) held self.old.rows →
            IfErr result (λ fault. fault ≡ FlushFault.Failed)) }
        ensures only_reads { OnlyReads B.Bay bay.old bay.new (IsErrOf result FlushFault.Failed) }
    {
        let _valid = self.settings.numbers();
        Ok(check_rows(
            &self.settings,
            self.version,
            &self.rows,
            &mut self.reader,
            bay,
        )?)
    }

    // Merges level 0 and the levels that the flush at position `m` reaches, and writes the new bins into their frames.
    fn merge<B: Bay, O: Totals>(
        &mut self,
        zero: &Zero<T>,
        m: u64,
        bay: &mut B,
        totals: &mut O,
    ) -> Result<(), FlushFault>
        requires same { zero.now.settings ≡ self.old.settings }
        requires first { 1 ≤ m }
        requires last { m ≤ capacity self.old.settings }
        requires from { zero.now.from ≡ edge self.old.settings 0 (m - 1) }
        requires to { zero.now.to ≡ m }
        requires at { IsAt self.old.settings (m - 1) self.old.rows }
        requires light { AreLight self.old.version zero.now.bins }
        requires none_taken { O.took totals.old [] }
        ensures same { self.new ≡ self.old }
        ensures made { OnOk result (HasMade self.old.settings self.old.version m zero.now.bins (take (depth self.old.settings m) self.old.rows)
            (O.took totals.new) (B.files bay.old) (B.files bay.new)) }
        ensures malformed { IfTold (B.files bay.old) (λ seen. (at : ℕ) → IsErrOf result (FlushFault.Malformed at) →
            OneBreaks self.old.settings self.old.version (take (depth self.old.settings m) self.old.rows) (seen FRAMES) at) }
        ensures malformed_after { IfTold (B.files bay.new) (λ after. (at : ℕ) → IsErrOf result (FlushFault.Malformed at) →
            OneBreaks self.old.settings self.old.version (take (depth self.old.settings m) self.old.rows) (after FRAMES) at) }
        ensures valid { IsValid self.old.settings }
        ensures rows { AreRows self.old.settings self.old.rows }
        ensures rest { KeepsRest B.Bay (AreApart self.old.settings self.old.version m (take (depth self.old.settings m) self.old.rows)) bay.old bay.new }
        ensures kept { KeepsBay B.Bay bay.old bay.new (IsErrOf result FlushFault.Failed) }
    {
        let Some(reading) = self.reading.take() else {
            unreachable!()
        };
        let _tables = zero.tables();
        let _valid = self.settings.numbers();
        let depth = self.settings.depth(m) as usize;
        let rows = &self.rows[..depth];
        let Writing { landings, parts } = &mut self.writing;
        let (reading, landed) = merge_rows(
            zero,
            self.version,
            m,
            rows,
            reading,
            landings,
            parts,
            totals,
            bay,
        );
        self.reading = Some(reading);
        landed
    }

    // Moves the rows on through the flush at position `m`.
    fn move_on(&mut self, m: u64)
        requires first { 1 ≤ m }
        requires last { m ≤ capacity self.old.settings }
        requires at { IsAt self.old.settings (m - 1) self.old.rows }
        ensures { self.new ≡ record self.old { rows = moved self.old.settings m self.old.rows } }
    {
        let _valid = self.settings.numbers();
        move_rows(&self.settings, m, &mut self.rows);
        lay_directory(&self.rows, &mut self.directory);
    }

    /// For each level from 1 on the number of its bins, and behind it the frames in which they stand, oldest first.
    /// `restore` brings the bins back by it.
    pub fn directory(&self) -> &[u8]
        ensures text { result.now ≡ directory_text self.now.rows }
        ensures restores { (n : ℕ) → IsAt self.now.settings n self.now.rows → IsDirectory self.now.settings n result.now }
    {
        &self.directory
    }
}
