//! A bin that is written while its pieces come.

ghost use Rattle.std.specs.Prelude.{◌≡◌, ℕ, ◌+◌, ◌≤◌, ◌++◌, List, [], IfOk, IsErr, OnOk, OnErr, option_to_list};
ghost use Rattle.lert_bay.specs.declared.bay.TheConstants.{FRAMES};
ghost use Rattle.lert_bay.specs.Files.{IfTold};
ghost use Rattle.lert_bay.specs.Kept.{KeepsBay};
ghost use Rattle.lert_frames.specs.Frame.{HoldsFrame};
ghost use Rattle.lert_frames.specs.Place.{tail_limit};
ghost use Rattle.lert_spec.specs.Items.{IsVersion};
ghost use Rattle.lert_frames.specs.Writing.{IsWriting};
ghost use Rattle.lert_levels.specs.rows.Landing.{IsApart, KeepsRest, CanStand};
ghost use Rattle.lert_spec.proofs.GivenLaws.{given_prop};
ghost use Rattle.lert_spec.specs.Table.{plus, AreGiven};
ghost use Rattle.lert_levels.specs.landing.Whole.{whole, IsTaking};

use crate::landing::sum::Sum;
use lert_base::{Piece, Settings};
use lert_bay::Bay;
use lert_frames::FrameWriter;
use lert_io::{Failed, OutOfMemory};
use std::alloc::Global;

/// A bin of a level that lands in its frame piece by piece: what it took is the table of the pieces' sums.
///
/// Only `new` takes memory. A call makes the calls of the bay that `FrameWriter` makes for a sum that is finished. After `Failed`
/// nothing is taken, and the frame begins anew.
#[derive(Drop)]
pub struct Landing {
    writer: FrameWriter,
    version: u8,
    frame: u32,
    sum: Sum,
    ghost taking: { IsTaking writer version frame sum },
    ghost given: { AreGiven (tail_limit writer.settings) (whole writer.put sum) } by { given_prop (tail_limit writer.settings) (whole writer.put sum) },
}

impl Landing {
    ghost use Rattle.lert_levels.specs.landing.Landed.{taken, CanTake, IsLanding, IsOfLevel, Lands};

    /// A landing of a level, which begins at frame 0, as by `start`. Its only error is want of memory.
    pub fn new(alloc: Global, settings: &Settings, level: u32) -> Result<Landing, OutOfMemory>
        requires first { 1 ≤ level }
        requires last { level ≤ settings.now.levels }
        ensures landing { IfOk result (λ l. (file : List ℕ) → IsLanding l file) }
        ensures taken { IfOk result (λ l. taken l ≡ []) }
        ensures is { IfOk result (λ l. IsOfLevel settings.now level l) }
    {
        Ok(Landing {
            writer: FrameWriter::new(alloc, settings, level, 0)?,
            version: 1,
            frame: 0,
            sum: Sum::new(),
        })
    }

    /// Begins a frame of this version, 1 or 2, with nothing taken. It writes nothing.
    pub fn start(&mut self, version: u8, frame: u32)
        requires version { IsVersion version }
        requires frame { frame ≤ self.old.writer.settings.bins }
        ensures landing { (file : List ℕ) → IsLanding self.new file }
        ensures taken { taken self.new ≡ [] }
        ensures frame { self.new.frame ≡ frame }
        ensures version { self.new.writer.version ≡ version }
        ensures settings { self.new.writer.settings ≡ self.old.writer.settings }
        ensures level { self.new.writer.level ≡ self.old.writer.level }
    {
        self.version = version;
        self.frame = frame;
        self.sum = Sum::new();
        self.writer.start(version, frame);
    }

    /// Takes a piece, whose tail is that of the last one or greater.
    #[inline]
    pub fn add<B: Bay>(&mut self, bay: &mut B, piece: Piece) -> Result<(), Failed>
        requires { CanTake self.old piece }
        ensures taken { OnOk result (taken self.new ≡ plus (taken self.old) piece.tail piece.count) }
        ensures failed { OnErr result (taken self.new ≡ []) }
        ensures lands { Lands B.Bay self.old self.new bay.old bay.new (IsErr result) }
    {
        let Some(finished) = self.sum.add(piece) else {
            return Ok(());
        };
        if let Err(failed) = self.writer.put(bay, finished) {
            self.sum = Sum::new();
            self.writer.start(self.version, self.frame);
            return Err(failed);
        }
        Ok(())
    }

    /// Ends the frame: all that was taken stands in the file then. Nothing is taken behind it, and the frame begins anew.
    pub fn end<B: Bay>(&mut self, bay: &mut B) -> Result<(), Failed>
        ensures stands { OnOk result (IfTold (B.files bay.old) (λ seen. IsLanding self.old (seen FRAMES) →
            IfTold (B.files bay.new) (λ after.
            HoldsFrame self.old.writer.settings self.old.writer.version self.old.writer.level self.old.frame (after FRAMES) (taken self.old)))) }
        ensures taken { taken self.new ≡ [] }
        ensures lands { Lands B.Bay self.old self.new bay.old bay.new (IsErr result) }
    {
        let last = self.sum.take();
        let ended = end_frame(&mut self.writer, last, bay);
        self.writer.start(self.version, self.frame);
        ended
    }
}

// Puts the last sum, and ends the frame.
fn end_frame<B: Bay>(
    writer: &mut FrameWriter,
    last: Option<Piece>,
    bay: &mut B,
) -> Result<(), Failed>
    requires { CanStand writer.old.settings writer.old.version writer.old.level (writer.old.put ++ option_to_list last) }
    ensures stands { OnOk result (IfTold (B.files bay.old) (λ seen. IsWriting writer.old (seen FRAMES) →
        IfTold (B.files bay.new) (λ after.
        HoldsFrame writer.old.settings writer.old.version writer.old.level writer.old.frame (after FRAMES) (writer.old.put ++ option_to_list last)))) }
    ensures settings { writer.new.settings ≡ writer.old.settings }
    ensures version { writer.new.version ≡ writer.old.version }
    ensures level { writer.new.level ≡ writer.old.level }
    ensures rest { KeepsRest B.Bay (IsApart writer.old.settings writer.old.version writer.old.level writer.old.frame) bay.old bay.new }
    ensures kept { KeepsBay B.Bay bay.old bay.new (IsErr result) }
{
    let Some(piece) = last else {
        return writer.end(bay);
    };
    writer.put(bay, piece)?;
    writer.end(bay)
}
