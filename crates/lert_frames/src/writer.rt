//! Frames as they are written.

ghost use Rattle.std.specs.Prelude.{◌≡◌, ℕ, ◌+◌, ◌/◌, ◌<◌, ◌≤◌, ◌^◌, ◌++◌, [], ◌∷◌, List, max, IfOk, IsErr, OnOk, OnErr};
ghost use Rattle.lert_bay.specs.declared.bay.TheConstants.{FRAMES};
ghost use Rattle.lert_bay.specs.Files.{IfTold};
ghost use Rattle.lert_bay.specs.Kept.{KeepsBay};
ghost use Rattle.lert_blocks.specs.Filling.{IsFilled};
ghost use Rattle.lert_blocks.specs.Text.{quotient_of};
ghost use Rattle.lert_frames.specs.Frame.{HoldsFrame};
ghost use Rattle.lert_frames.specs.Growing.{IsGrowing, IsHolding};
ghost use Rattle.lert_frames.specs.Kept.{KeepsOutside, WritesWithin};
ghost use Rattle.lert_frames.specs.Outlet.{IsOut, next_place, size_of};
ghost use Rattle.lert_frames.specs.Place.{block_count, frame_len, frame_place, tail_limit};
ghost use Rattle.lert_spec.specs.Items.{IsVersion};
ghost use Rattle.lert_spec.specs.declared.piece.Piece.{Piece};
ghost use Rattle.lert_spec.proofs.GivenLaws.{given_prop};
ghost use Rattle.lert_spec.specs.Edges.{span};
ghost use Rattle.lert_spec.specs.Table.{costs, AreGiven};

use crate::closing::{close, close_last};
use crate::long::{Long, begin_long, let_go};
use crate::outlet::Outlet;
use crate::place::{FIRST, block_count, cost, frame_place, slots_each};
use lert_base::{Piece, Settings};
use lert_bay::Bay;
use lert_blocks::Block;
use lert_io::{Failed, OutOfMemory, Seen};
use std::alloc::Global;

/// The bytes that are gathered before they are written, and those of the run ends of a long block.
const TEXT_BYTES: usize = 8192;

const ENDS_BYTES: usize = 512;

/// A frame of a level as it is written, piece by piece in ascending tails, through fixed buffers. Only `new` takes
/// memory. `put` makes a call of the bay for each 8,192 bytes of text; in a block of more than 512 slots, which
/// is written in parts, more by one for each 4,096 slots, and, at the block's end, two for each 8,192 bytes of
/// its slots. After `Failed` the frame has to be started again.
#[derive(Drop)]
pub struct FrameWriter {
    settings: Settings,
    version: u8,
    level: u32,
    frame: u32,
    // The bits of a remainder, the frame's place, the present block, and how much more what is put may cost.
    width: u32,
    place: u64,
    number: u64,
    left: u64,
    // The text, and the words of run ends of a long block.
    outlet: Outlet,
    ends: Outlet,
    // The present block, or, where parts of it are out, the others.
    block: Block,
    long: Option<Long>,
    put: Seen<Piece>,
    ghost growing: { IsGrowing settings version level frame width place },
    ghost holding: { IsHolding settings version level place number left outlet ends block.len long put },
    ghost given: { AreGiven (tail_limit settings) put } by { given_prop (tail_limit settings) put },
}

impl FrameWriter {
    ghost use Rattle.lert_frames.specs.Writing.{IsAt, IsWriting, Proceeds, Stays, EndsFrame};

    /// A writer that begins a frame of version 1 of a level, as by `start`. Its only error is want of memory.
    pub fn new(
        alloc: Global,
        settings: &Settings,
        level: u32,
        frame: u32,
    ) -> Result<FrameWriter, OutOfMemory>
        requires first { 1 ≤ level }
        requires last { level ≤ settings.now.levels }
        requires frame { frame ≤ settings.now.bins }
        ensures writing { IfOk result (λ w. (file : List ℕ) → IsWriting w file) }
        ensures put { IfOk result (λ w. w.put ≡ []) }
        ensures frame { IfOk result (λ w. w.frame ≡ frame) }
        ensures settings { IfOk result (λ w. w.settings ≡ settings.now) }
        ensures version { IfOk result (λ w. w.version ≡ 1) }
        ensures level { IfOk result (λ w. w.level ≡ level) }
    {
        let outlet = Outlet::new(alloc, TEXT_BYTES)?;
        let ends = Outlet::new(alloc, ENDS_BYTES)?;
        let block = Block::new(alloc)?;
        let mut writer = FrameWriter::of(settings, level, outlet, ends, block);
        writer.start(FIRST, frame);
        Ok(writer)
    }

    // A writer over these buffers, which begins the level's first frame.
    fn of(
        settings: &Settings,
        level: u32,
        mut outlet: Outlet,
        ends: Outlet,
        mut block: Block,
    ) -> FrameWriter
        requires first { 1 ≤ level }
        requires last { level ≤ settings.now.levels }
        requires size { size_of outlet ≡ 8192 }
        requires ends_size { size_of ends ≡ 512 }
        ensures settings { result.settings ≡ settings.now }
        ensures level { result.level ≡ level }
    {
        let _valid = settings.numbers();
        let place = frame_place(settings, FIRST, level, 0);
        restart(&mut outlet, &mut block, place);
        FrameWriter {
            settings: *settings,
            version: FIRST,
            level,
            frame: 0,
            width: settings.width(level),
            place,
            number: 0,
            left: settings.span(level),
            outlet,
            ends,
            block,
            long: None,
            put: Seen::new(),
        }
    }

    /// Begins a frame of this version, 1 or 2, to which nothing is put yet. It writes nothing.
    pub fn start(&mut self, version: u8, frame: u32)
        requires version { IsVersion version }
        requires frame { frame ≤ self.old.settings.bins }
        ensures writing { (file : List ℕ) → IsWriting self.new file }
        ensures put { self.new.put ≡ [] }
        ensures frame { self.new.frame ≡ frame }
        ensures settings { self.new.settings ≡ self.old.settings }
        ensures version { self.new.version ≡ version }
        ensures level { self.new.level ≡ self.old.level }
    {
        self.version = version;
        self.frame = frame;
        self.place = frame_place(&self.settings, version, self.level, frame);
        self.number = 0;
        self.left = self.settings.span(self.level);
        restart(&mut self.outlet, &mut self.block, self.place);
        self.long = None;
        self.put = Seen::new();
    }

    /// Puts a piece behind those so far. All together cost no more than a bin of the level is wide.
    #[inline]
    pub fn put<B: Bay>(&mut self, bay: &mut B, piece: Piece) -> Result<(), Failed>
        requires given { AreGiven (tail_limit self.old.settings) (self.old.put ++ piece ∷ []) }
        requires fits { costs self.old.version (self.old.put ++ piece ∷ []) ≤ span self.old.settings self.old.level }
        ensures put { OnOk result (self.new.put ≡ self.old.put ++ piece ∷ []) }
        ensures writing { OnOk result (IfTold (B.files bay.old) (λ seen. IsWriting self.old (seen FRAMES) →
            IfTold (B.files bay.new) (λ after. IsWriting self.new (after FRAMES)))) }
        ensures failed { OnErr result (self.new.put ≡ self.old.put) }
        ensures settings { self.new.settings ≡ self.old.settings }
        ensures version { self.new.version ≡ self.old.version }
        ensures level { self.new.level ≡ self.old.level }
        ensures frame { self.new.frame ≡ self.old.frame }

        // Nothing but the frame's place is written, whatever it answers.
        ensures within { WritesWithin B.Bay
            (frame_place self.old.settings self.old.version self.old.level self.old.frame)
            (frame_place self.old.settings self.old.version self.old.level self.old.frame + frame_len self.old.settings self.old.version self.old.level) bay.old bay.new }
        ensures outside { IfTold (B.files bay.old) (λ seen. KeepsOutside B.Bay bay.old bay.new seen FRAMES
            (frame_place self.old.settings self.old.version self.old.level self.old.frame)
            (frame_place self.old.settings self.old.version self.old.level self.old.frame + frame_len self.old.settings self.old.version self.old.level)) }
        ensures kept { KeepsBay B.Bay bay.old bay.new (IsErr result) }
    {
        self.ready(bay, piece)?;
        self.take(piece);
        Ok(())
    }

    /// Ends the frame: all that was put stands in the file then. `start` begins the next one.
    pub fn end<B: Bay>(&mut self, bay: &mut B) -> Result<(), Failed>
        ensures stands { OnOk result (IfTold (B.files bay.old) (λ seen. IsWriting self.old (seen FRAMES) →
            IfTold (B.files bay.new) (λ after. HoldsFrame self.old.settings self.old.version self.old.level self.old.frame (after FRAMES) self.old.put))) }
        ensures settings { self.new.settings ≡ self.old.settings }
        ensures version { self.new.version ≡ self.old.version }
        ensures level { self.new.level ≡ self.old.level }
        ensures frame { self.new.frame ≡ self.old.frame }

        // Nothing but the frame's place is written, whatever it answers.
        ensures within { WritesWithin B.Bay
            (frame_place self.old.settings self.old.version self.old.level self.old.frame)
            (frame_place self.old.settings self.old.version self.old.level self.old.frame + frame_len self.old.settings self.old.version self.old.level) bay.old bay.new }
        ensures outside { IfTold (B.files bay.old) (λ seen. KeepsOutside B.Bay bay.old bay.new seen FRAMES
            (frame_place self.old.settings self.old.version self.old.level self.old.frame)
            (frame_place self.old.settings self.old.version self.old.level self.old.frame + frame_len self.old.settings self.old.version self.old.level)) }
        ensures kept { KeepsBay B.Bay bay.old bay.new (IsErr result) }
    {
        self.reach(bay, self.last_block())?;
        self.end_last(bay)
    }

    // The frame's last block.
    fn last_block(&self) -> u64
        ensures { result + 1 ≡ block_count self.now.settings self.now.level }
    {
        block_count(&self.settings, self.level) - 1
    }

    // Ends the blocks before that of a piece, and makes room for it.
    #[inline]
    fn ready<B: Bay>(&mut self, bay: &mut B, piece: Piece) -> Result<(), Failed>
        requires { piece.tail < tail_limit self.old.settings }
        ensures proceeds { Proceeds B.Bay self.old self.new bay.old bay.new (IsErr result) }
        ensures stays { OnOk result (Stays B.Bay self.old self.new bay.old bay.new) }
        ensures number { OnOk result (self.old.number ≤ quotient_of self.old.width piece / 64 → self.new.number ≡ quotient_of self.old.width piece / 64) }
        ensures room { OnOk result (self.new.block.len + 9 ≤ 512) }
    {
        self.reach(bay, piece.tail >> self.width >> 6)?;
        self.make_room(bay)
    }

    // Puts a piece into the present block.
    #[inline]
    fn take(&mut self, piece: Piece)
        requires given { AreGiven (tail_limit self.old.settings) (self.old.put ++ piece ∷ []) }
        requires fits { costs self.old.version (self.old.put ++ piece ∷ []) ≤ span self.old.settings self.old.level }
        requires room { self.old.block.len + 9 ≤ 512 }
        ensures put { self.new.put ≡ self.old.put ++ piece ∷ [] }
        ensures writing { (file : List ℕ) → quotient_of self.old.width piece / 64 ≡ self.old.number → IsAt self.old file → IsWriting self.new file }
        ensures settings { self.new.settings ≡ self.old.settings }
        ensures version { self.new.version ≡ self.old.version }
        ensures level { self.new.level ≡ self.old.level }
        ensures frame { self.new.frame ≡ self.old.frame }
    {
        self.block.put(self.width, piece);
        let spent = cost(self.version, piece.count);
        self.left -= spent;
        self.put.push(&piece);
    }

    // Ends the blocks before this one.
    #[inline]
    fn reach<B: Bay>(&mut self, bay: &mut B, block: u64) -> Result<(), Failed>
        requires { block < block_count self.old.settings self.old.level }
        ensures proceeds { Proceeds B.Bay self.old self.new bay.old bay.new (IsErr result) }
        ensures stays { OnOk result (Stays B.Bay self.old self.new bay.old bay.new) }
        ensures number { OnOk result (self.new.number ≡ max self.old.number block) }
    {
        while self.number < block {
            self.end_block(bay)?;
        }
        Ok(())
    }

    // Ends the present block.
    fn end_block<B: Bay>(&mut self, bay: &mut B) -> Result<(), Failed>
        requires { self.old.number + 1 < block_count self.old.settings self.old.level }
        ensures proceeds { Proceeds B.Bay self.old self.new bay.old bay.new (IsErr result) }
        ensures stays { OnOk result (Stays B.Bay self.old self.new bay.old bay.new) }
        ensures number { OnOk result (self.new.number ≡ self.old.number + 1) }
    {
        if let Err(failed) = close(
            bay,
            &mut self.outlet,
            &mut self.ends,
            &self.block,
            self.long,
        ) {
            restart(&mut self.outlet, &mut self.block, self.place);
            self.long = None;
            return Err(failed);
        }
        self.block.clear();
        self.long = None;
        self.number += 1;
        Ok(())
    }

    // Ends the last block, and writes all.
    fn end_last<B: Bay>(&mut self, bay: &mut B) -> Result<(), Failed>
        requires { self.old.number + 1 ≡ block_count self.old.settings self.old.level }
        ensures proceeds { Proceeds B.Bay self.old self.new bay.old bay.new (IsErr result) }
        ensures stands { OnOk result (EndsFrame B.Bay self.old bay.old bay.new) }
    {
        if let Err(failed) = close_last(
            bay,
            &mut self.outlet,
            &mut self.ends,
            &self.block,
            self.long,
        ) {
            restart(&mut self.outlet, &mut self.block, self.place);
            self.long = None;
            return Err(failed);
        }
        restart(&mut self.outlet, &mut self.block, self.place);
        self.long = None;
        Ok(())
    }

    // Makes room for a piece.
    #[inline]
    fn make_room<B: Bay>(&mut self, bay: &mut B) -> Result<(), Failed>
        ensures proceeds { Proceeds B.Bay self.old self.new bay.old bay.new (IsErr result) }
        ensures stays { OnOk result (Stays B.Bay self.old self.new bay.old bay.new) }
        ensures number { self.new.number ≡ self.old.number }
        ensures room { OnOk result (self.new.block.len + 9 ≤ 512) }
    {
        if self.block.has_room() {
            return Ok(());
        }
        self.spill(bay)
    }

    // The present block is written in parts: those at its front are let go.
    #[cold]
    fn spill<B: Bay>(&mut self, bay: &mut B) -> Result<(), Failed>
        requires { 0 < self.old.block.len }
        ensures proceeds { Proceeds B.Bay self.old self.new bay.old bay.new (IsErr result) }
        ensures stays { OnOk result (Stays B.Bay self.old self.new bay.old bay.new) }
        ensures number { self.new.number ≡ self.old.number }
        ensures room { OnOk result (self.new.block.len + 9 ≤ 512) }
    {
        let long = self.long_block(bay)?;
        let gone = let_go(bay, &mut self.outlet, &mut self.ends, &mut self.block, long)?;
        self.long = Some(gone);
        Ok(())
    }

    // The present block, which is a long one from now on.
    fn long_block<B: Bay>(&mut self, bay: &mut B) -> Result<Long, Failed>
        requires { 0 < self.old.block.len }
        ensures proceeds { Proceeds B.Bay self.old self.new bay.old bay.new (IsErr result) }
        ensures stays { OnOk result (Stays B.Bay self.old self.new bay.old bay.new) }
        ensures number { self.new.number ≡ self.old.number }
        ensures block { self.new.block.len ≡ self.old.block.len }
        ensures long { IfOk result (λ l. self.new.long ≡ Some l) }
    {
        if let Some(long) = self.long {
            return Ok(long);
        }
        self.outlet.flush(bay)?;
        let each = slots_each(self.version);
        let most = self.block.slots().len() as u64 + each * self.left;
        let long = begin_long(&mut self.outlet, &mut self.ends, most);
        self.long = Some(long);
        Ok(long)
    }
}

// Begins anew at a place: nothing is in memory.
fn restart(outlet: &mut Outlet, block: &mut Block, place: u64)
    requires { place < 2 ^ 63 }
    ensures out { (file : List ℕ) → IsOut place [] file outlet.new }
    ensures place { next_place outlet.new ≡ place }
    ensures at { outlet.new.at ≡ place }
    ensures size { size_of outlet.new ≡ size_of outlet.old }
    ensures filled { (width number : ℕ) → IsFilled width number 0 [] block.new }
    ensures len { block.new.len ≡ 0 }
{
    outlet.start(place);
    block.clear();
}
