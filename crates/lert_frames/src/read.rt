//! Reading a frame.

ghost use Rattle.std.specs.Prelude.{◌≡◌, ◌↔◌, ℕ, ◌≤◌, ◌+◌, ◌*◌, ◌++◌, List, [], ◌∷◌, Some, None, Ok, OnOk, OnErr, IfOk, IsErrOf, drop, MatchOption};
ghost use Rattle.lert_bay.specs.declared.bay.TheConstants.{FRAMES};
ghost use Rattle.lert_bay.specs.Files.{IfTold};
ghost use Rattle.lert_bay.specs.Kept.{OnlyReads};
ghost use Rattle.lert_blocks.specs.Frame.{blocks_len};
ghost use Rattle.lert_frames.specs.Decoded.{decoder_end, decoder_found, decoder_floor, decoder_limit};
ghost use Rattle.lert_frames.specs.Frame.{HoldsFrame, IsBin, frame_found, frame_left, frame_pieces};
ghost use Rattle.lert_frames.specs.Place.{block_count, frame_place, tail_limit};
ghost use Rattle.lert_spec.specs.Items.{most_weight, IsVersion};
ghost use Rattle.lert_frames.specs.Reading.{StandsIn};
ghost use Rattle.lert_frames.specs.ToCome.{left_of, pieces_of, IsOver, IsWithin, HandsOut};
ghost use Rattle.lert_frames.specs.Window.{IsRead, place_of};
ghost use Rattle.lert_spec.specs.Edges.{span};
ghost use Rattle.lert_spec.specs.Limits.{IsValid};
ghost use Rattle.lert_spec.specs.Table.{costs, total};

use crate::decoder::Decoder;
use crate::place::{FIRST, block_count, frame_place, most_slots};
use crate::reader::{FrameReader, Sum};
use lert_base::{Piece, PieceFault, Pieces, Settings};
use lert_bay::Bay;
use lert_io::{OutOfMemory, Seen};
use std::alloc::Global;

// How many pieces there is room for: those of a step beside as many.
const ROOM: usize = 128;

impl FrameReader {
    /// A reader of the frames of a level, which gives nothing before `start` or `start_at`. Its only error is want of
    /// memory: it takes some 19 KiB.
    pub fn new(alloc: Global, settings: &Settings, level: u32) -> Result<FrameReader, OutOfMemory>
        requires first { 1 ≤ level }
        requires last { level ≤ settings.now.levels }
        ensures settings { IfOk result (λ r. r.settings ≡ settings.now) }
        ensures level { IfOk result (λ r. r.level ≡ level) }
    {
        let mut decoder = Decoder::new(alloc)?;
        let place = begin(&mut decoder, settings, FIRST, level, 0);
        Ok(FrameReader {
            settings: *settings,
            version: FIRST,
            level,
            place,
            wide: 0,
            sum: Sum::Left { most: 0, due: 0 },
            decoder,
            pieces: Vec::with_capacity(alloc, ROOM)?,
            given: 0,
            fault: Some(place),
            gave: Seen::new(),
        })
    }

    /// Begins a frame of the level and of this version, 1 or 2, that of a bin of this width. It reads nothing.
    pub fn start(&mut self, version: u8, frame: u32, width: u64)
        requires version { IsVersion version }
        requires frame { frame ≤ self.old.settings.bins }
        requires some { 1 ≤ width }
        requires width { width ≤ span self.old.settings self.old.level }
        ensures left { (file : List ℕ) → left_of self.new file ≡ frame_left self.new.settings version self.new.level frame width file }
        ensures pieces { (file : List ℕ) → pieces_of self.new file ≡ frame_pieces self.new.settings version self.new.level frame file }
        ensures within { (file : List ℕ) → IsWithin self.new file }
        ensures place { self.new.place ≡ frame_place self.new.settings version self.new.level frame }
        ensures gave { self.new.gave ≡ [] }
        ensures wide { self.new.wide ≡ width }
        ensures settings { self.new.settings ≡ self.old.settings }
        ensures version { self.new.version ≡ version }
        ensures level { self.new.level ≡ self.old.level }
    {
        self.start_at(version, self.level, frame, width);
    }

    /// Begins a frame of any level and of this version, 1 or 2, that of a bin of this width: a reader of that level from
    /// then on. It reads nothing.
    pub fn start_at(&mut self, version: u8, level: u32, frame: u32, width: u64)
        requires version { IsVersion version }
        requires first { 1 ≤ level }
        requires last { level ≤ self.old.settings.levels }
        requires frame { frame ≤ self.old.settings.bins }
        requires some { 1 ≤ width }
        requires width { width ≤ span self.old.settings level }
        ensures left { (file : List ℕ) → left_of self.new file ≡ frame_left self.new.settings version self.new.level frame width file }
        ensures pieces { (file : List ℕ) → pieces_of self.new file ≡ frame_pieces self.new.settings version self.new.level frame file }
        ensures within { (file : List ℕ) → IsWithin self.new file }
        ensures place { self.new.place ≡ frame_place self.new.settings version self.new.level frame }
        ensures gave { self.new.gave ≡ [] }
        ensures wide { self.new.wide ≡ width }
        ensures settings { self.new.settings ≡ self.old.settings }
        ensures version { self.new.version ≡ version }
        ensures level { self.new.level ≡ level }
    {
        self.version = version;
        self.level = level;
        self.place = begin(&mut self.decoder, &self.settings, version, level, frame);
        self.wide = width;
        self.sum = Sum::Left {
            most: width,
            due: width,
        };
        self.pieces.clear();
        self.given = 0;
        self.fault = None;
        self.gave = Seen::new();
    }

    /// Reads a frame of the level and of this version, 1 or 2, that of a bin of this width, to its end, and lets its pieces
    /// go. It answers the sum of their counts.
    pub fn check<B: Bay>(
        &mut self,
        bay: &mut B,
        version: u8,
        frame: u32,
        width: u64,
    ) -> Result<u64, PieceFault>
        requires version { IsVersion version }
        requires frame { frame ≤ self.old.settings.bins }
        requires some { 1 ≤ width }
        requires width { width ≤ span self.old.settings self.old.level }
        ensures whole { IfTold (B.files bay.old) (λ seen. OnOk result (frame_left self.old.settings version self.old.level frame width (seen FRAMES) ≡ None)) }
        ensures bin { IfTold (B.files bay.old) (λ seen. OnOk result (IsBin version (tail_limit self.old.settings) width (frame_pieces self.old.settings version self.old.level frame (seen FRAMES)))) }
        ensures stands { IfTold (B.files bay.old) (λ seen. OnOk result (HoldsFrame self.old.settings version self.old.level frame (seen FRAMES)
            (frame_pieces self.old.settings version self.old.level frame (seen FRAMES)))) }
        ensures malformed { IfTold (B.files bay.old) (λ seen. (at : ℕ) → IsErrOf result (PieceFault.Malformed at) →
            frame_left self.old.settings version self.old.level frame width (seen FRAMES) ≡ Some at) }

        // The sum is one that so many items may weigh as the bin has positions, whether the bay tells its files or not.
        ensures between { IfOk result (λ sum. (width ≤ sum) × (sum ≤ most_weight version * width)) }
        ensures sum { IfTold (B.files bay.old) (λ seen. IfOk result (λ sum. sum ≡ total (frame_pieces self.old.settings version self.old.level frame (seen FRAMES)))) }
        ensures settings { self.new.settings ≡ self.old.settings }
        ensures version { self.new.version ≡ version }
        ensures level { self.new.level ≡ self.old.level }
        ensures only_reads { OnlyReads B.Bay bay.old bay.new (IsErrOf result PieceFault.Failed) }
    {
        self.start(version, frame, width);
        let mut sum = 0;
        while let Some(piece) = self.next(bay)? {
            sum += piece.count;
        }
        Ok(sum)
    }

    // Gives the first piece that is ready.
    #[inline]
    fn give(&mut self) -> Option<Piece>
        ensures { HandsOut self.old self.new result }
    {
        if self.given >= self.pieces.len() {
            return None;
        }
        let piece = self.pieces[self.given];
        self.given += 1;
        self.gave.push(&piece);
        Some(piece)
    }
}

// What is to come is what the file says from where the reader stands; its counts cost no more than the bin's width and
// reach it, whether the bay tells its files or not.
impl<B: Bay> Pieces<B> for FrameReader {
    ghost use Rattle.std.specs.Prelude.{Err, option_to_list};
    ghost use Rattle.std.proofs.Common.{ap, ◌∙◌};
    ghost use Rattle.lert_bay.proofs.KeptLaws.{reads_none, reads_on};
    ghost use Rattle.lert_frames.specs.InOrder.{in_order as frame_in_order, breaks_same};
    ghost use Rattle.lert_frames.specs.ToCome.{told_of, Breaks};
    ghost use Rattle.lert_io.specs.Fault.{HasRisen};
    ghost use Rattle.lert_spec.specs.declared.piece.Piece.{Piece};
    ghost use Rattle.lert_spec.specs.Table.{AreGiven};

    ghost to_come = { λ r bay. told_of (B.files bay) r };

    ghost given = { λ r. r.gave };

    ghost limit = { λ r. tail_limit r.settings };

    ghost breaks = { λ r bay at. Breaks (B.files bay) r at };

    ghost keeps = { λ before after. OnlyReads B.Bay before after ⊥ };

    ghost in_order = { λ r bay pieces told. frame_in_order (B.files bay) r pieces told };

    ghost keeps_same = { λ bay. reads_none
        (record { faults = B.faults; mark = B.mark; files = B.files; leaves = B.leaves; moment = B.moment; left_since = B.left_since; handed_out = B.handed_out })
        (record { as_read = B.as_read; since_now = B.since_now; only_now = B.only_now; since_earlier = B.since_earlier })
        bay ⊥ (λ none. none) };

    ghost keeps_on = { λ a b c one two. reads_on
        (record { faults = B.faults; mark = B.mark; files = B.files; leaves = B.leaves; moment = B.moment; left_since = B.left_since; handed_out = B.handed_out })
        (record { as_read = B.as_read; since_now = B.since_now; only_now = B.only_now; since_earlier = B.since_earlier })
        a b c ⊥ ⊥ one two };

    ghost keeps_told = { λ other a b ps one told. ap (λ files. told_of files other) one.seen ∙ told };

    ghost keeps_untold = { λ other a b one untold. ap (λ files. told_of files other) one.seen ∙ untold };

    ghost keeps_breaks = { λ other a b at one. breaks_same (B.files b) (B.files a) other at one.seen };

    fn next(&mut self, ctx: &mut B) -> Result<Option<Piece>, PieceFault>
        ensures told { (ps : List Piece) → told_of (B.files ctx.old) self.old ≡ Some ps → IfOk result (λ piece.
            MatchOption piece
            ((ps ≡ []) × (told_of (B.files ctx.new) self.new ≡ Some []))
            (λ p. (rest : List Piece) × (ps ≡ p ∷ rest) × (told_of (B.files ctx.new) self.new ≡ Some rest))) }
        ensures untold { told_of (B.files ctx.old) self.old ≡ None → told_of (B.files ctx.new) self.new ≡ None }

        ensures given { IfOk result (λ piece. self.new.gave ≡ self.old.gave ++ option_to_list piece) }
        ensures refused { OnErr result (self.new.gave ≡ self.old.gave) }
        ensures ascending { AreGiven (tail_limit self.new.settings) self.new.gave }
        ensures limit { tail_limit self.new.settings ≡ tail_limit self.old.settings }

        ensures failed { result ≡ Err PieceFault.Failed → HasRisen (B.faults ctx.old) (B.faults ctx.new) }
        ensures malformed { (at : ℕ) → result ≡ Err (PieceFault.Malformed at) →
            (told_of (B.files ctx.old) self.old ≡ None) × Breaks (B.files ctx.old) self.old at }
        ensures breaks { (at : ℕ) → Breaks (B.files ctx.new) self.new at ↔ Breaks (B.files ctx.old) self.old at }

        ensures faults { B.faults ctx.old ≤ B.faults ctx.new }
        ensures mark { B.mark ctx.new ≡ B.mark ctx.old }
        ensures keeps { OnlyReads B.Bay ctx.old ctx.new ⊥ }

        // The counts of the pieces that were given cost no more than the bin's width, and reach it at the end. With version 1
        // they add up to it then.
        ensures sum { OnOk result (costs self.new.version self.new.gave ≤ self.new.wide) }
        ensures all { result ≡ Ok None → self.new.wide ≤ total self.new.gave }

        ensures settings { self.new.settings ≡ self.old.settings }
        ensures version { self.new.version ≡ self.old.version }
        ensures level { self.new.level ≡ self.old.level }
        ensures place { self.new.place ≡ self.old.place }
        ensures wide { self.new.wide ≡ self.old.wide }

        // All that was read are bytes, to the frame's end.
        ensures within { IfTold (B.files ctx.old) (λ seen. IsWithin self.old (seen FRAMES) → OnOk result (IsWithin self.new (seen FRAMES))) }
        ensures over { result ≡ Ok None → IsOver self.new }
        ensures only_reads { OnlyReads B.Bay ctx.old ctx.new (IsErrOf result PieceFault.Failed) }
    {
        if let Some(piece) = self.give() {
            return Ok(Some(piece));
        }
        self.fill(ctx)?;
        Ok(self.give())
    }
}

// Begins a frame of a level, and answers its place.
fn begin(decoder: &mut Decoder, settings: &Settings, version: u8, level: u32, frame: u32) -> u64
    requires version { IsVersion version }
    requires first { 1 ≤ level }
    requires last { level ≤ settings.now.levels }
    requires frame { frame ≤ settings.now.bins }
    ensures valid { IsValid settings.now }
    ensures place { result ≡ frame_place settings.now version level frame }
    ensures found { (file : List ℕ) → decoder_found decoder.new file ≡ frame_found settings.now version level frame file }
    ensures floor { decoder_floor decoder.new ≡ 0 }
    ensures limit { decoder_limit decoder.new ≡ tail_limit settings.now }
    ensures read { (file : List ℕ) → IsRead decoder.new.window result file }
    ensures from { place_of decoder.new.window ≡ result }
    ensures stands { StandsIn settings.now version level result decoder.new }
    ensures end { (file : List ℕ) → decoder_end decoder.new file ≡ result + blocks_len (block_count settings.now level) (drop result file) }
{
    let _valid = settings.numbers();
    let place = frame_place(settings, version, level, frame);
    let width = settings.width(level);
    let most = most_slots(settings, version, level);
    decoder.start(width, place, block_count(settings, level), most);
    place
}
