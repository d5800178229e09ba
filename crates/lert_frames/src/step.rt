//! The steps of a decoder: the fields before a block's slots, or the slots of one word of run ends.

ghost use Rattle.std.specs.Prelude.{◌≡◌, ◌↔◌, ℕ, ◌+◌, ◌-◌, ◌*◌, ◌<◌, ◌≤◌, ◌^◌, [], List, All, IfOk, IfErr, OnOk, OnErr, IsErrOf, IsTrue, Some, drop, length, min, take, vec_capacity};
ghost use Rattle.lert_bay.specs.declared.bay.TheConstants.{FRAMES};
ghost use Rattle.lert_bay.specs.Files.{IfTold};
ghost use Rattle.lert_bay.specs.Kept.{OnlyReads};
ghost use Rattle.lert_blocks.specs.Frame.{blocks_found, blocks_len};
ghost use Rattle.lert_blocks.specs.Walk.{nothing};
ghost use Rattle.lert_frames.specs.Decoded.{decoder_end, decoder_floor, decoder_found, decoder_limit, work_of, Gives, IsBetween};
ghost use Rattle.lert_frames.specs.Place.{blocks_bytes};
ghost use Rattle.lert_frames.specs.Steps.{PassesWord, PutsBehind, ReadsWord, Steps};
ghost use Rattle.lert_frames.specs.Window.{count_of, place_of, IsRead};
ghost use Rattle.lert_spec.specs.Table.{AscendsFrom};

use crate::decoder::{Ahead, Decoder, Present};
use crate::ending::file_end;
use crate::fields::{Head, pass_fields, read_head};
use crate::slots::{NEAR_SLOTS, WordEnds, read_ends, read_slots};
use crate::window::Window;
use lert_base::{Piece, PieceFault};
use lert_bay::Bay;
use lert_blocks::{Slots, Walk, decode};
use lert_io::OutOfMemory;
use std::alloc::Global;

/// The most pieces that one step gives: a word of run ends has so many slots.
pub const STEP_PIECES: usize = 64;

/// How many bytes are read at once.
const WINDOW_LEN: usize = 8192;

/// A word's slots as they are at hand.
#[derive(Clone, Copy)]
struct Word {
    ends: WordEnds,
    // How many slots are at hand.
    count: usize,
}

// The block that begins with these fields.
fn begun(next: u64, head: Head) -> Present
    requires { 64 * next < 2 ^ 64 }
    ensures { result ≡ record { first = 64 * next; some = head.count; from = 0; walk = record { occupied = head.occupied; least = 0 } } }
{
    Present {
        first: 64 * next,
        some: u64::from(head.count),
        from: 0,
        walk: Walk {
            occupied: head.occupied,
            least: 0,
        },
    }
}

// The blocks behind the next one, which has so many slots.
fn behind(ahead: Ahead, count: u32) -> Ahead
    requires some { 1 ≤ ahead.blocks }
    requires most { count ≤ ahead.most }
    requires next { ahead.next + 1 < 2 ^ 64 }
    ensures { result ≡ record { next = ahead.next + 1; blocks = ahead.blocks - 1; most = ahead.most - count } }
{
    Ahead {
        next: ahead.next + 1,
        blocks: ahead.blocks - 1,
        most: ahead.most - u64::from(count),
    }
}

// The place of a slot of those at hand, or the file's end.
fn slot_fault<B: Bay>(window: &Window, bay: &mut B, at: usize, count: usize) -> PieceFault
    requires few { count ≤ 72 }
    requires reach { place_of window.now < 2 ^ 43 }
    ensures here { at < count → result ≡ PieceFault.Malformed (place_of window.now + 8 * at) }
    ensures end { count ≤ at → IfTold (B.files bay.old) (λ seen. (spot : ℕ) → result ≡ PieceFault.Malformed spot → spot ≡ length (seen FRAMES)) }
    ensures only_reads { OnlyReads B.Bay bay.old bay.new (result ≡ PieceFault.Failed) }
{
    if at < count {
        return PieceFault::Malformed {
            at: window.place() + 8 * at as u64,
        };
    }
    file_end(bay)
}

impl Decoder {
    /// A decoder that has nothing to decode. Its only error is want of memory.
    pub fn new(alloc: Global) -> Result<Decoder, OutOfMemory> {
        Ok(Decoder {
            width: 8,
            block: Present {
                first: 0,
                some: 0,
                from: 0,
                walk: Walk {
                    occupied: 0,
                    least: 0,
                },
            },
            ahead: Ahead {
                next: 0,
                blocks: 0,
                most: 0,
            },
            window: Window::new(alloc, WINDOW_LEN)?,
            ends: Window::new(alloc, WINDOW_LEN)?,
            slots: vec![in alloc; 0; NEAR_SLOTS]?,
        })
    }

    /// Begins a frame of so many blocks at a place of the file, with remainders of `width` bits, which has at most `most`
    /// slots. It reads nothing.
    pub fn start(&mut self, width: u32, place: u64, blocks: u64, most: u64)
        requires narrow { 8 ≤ width }
        requires wide { width ≤ 58 }
        requires some { 1 ≤ blocks }
        requires tails { 64 * blocks * 2 ^ width ≤ 2 ^ 64 }
        requires count { blocks < 2 ^ 32 }
        requires most { most ≤ 2 ^ 32 }
        requires reach { place + 20 * blocks + 9 * most < 2 ^ 43 }
        ensures found { (file : List ℕ) → decoder_found self.new file ≡ blocks_found blocks width 0 most place (length file) (drop place file) }
        ensures end { (file : List ℕ) → decoder_end self.new file ≡ place + blocks_len blocks (drop place file) }
        ensures floor { decoder_floor self.new ≡ 0 }
        ensures limit { decoder_limit self.new ≡ 64 * blocks * 2 ^ width }
        ensures read { (file : List ℕ) → IsRead self.new.window place file }
        ensures place { place_of self.new.window ≡ place }
        ensures between { IsBetween place (place + blocks_bytes blocks most) self.new }
    {
        self.width = width;
        self.block = Present {
            first: 0,
            some: 0,
            from: 0,
            walk: Walk {
                occupied: 0,
                least: 0,
            },
        };
        self.ahead = Ahead {
            next: 0,
            blocks,
            most,
        };
        self.window.start(place);
    }

    /// Whether all blocks are decoded.
    pub fn is_done(&self) -> bool
        ensures done { IsTrue result → (file : List ℕ) → decoder_found self.now file ≡ nothing }
        ensures more { IsTrue result ↔ (work_of self.now ≡ 0) }
        ensures end { IsTrue result → (file : List ℕ) → decoder_end self.now file ≤ self.now.window.at }
    {
        self.block.some == 0 && self.ahead.blocks == 0
    }

    /// Decodes the fields before a block's slots, or the slots of one word of run ends, and puts the pieces behind
    /// `pieces`, whose room must be enough for 64 more. After an error nothing was put there, and the decoder stands
    /// where it stood. It makes a call of the bay for each 8,192 bytes of a frame, and, in a block of more than
    /// 65,408 slots, two more for each 8,192 bytes of run ends.
    pub fn step<B: Bay>(&mut self, bay: &mut B, pieces: &mut Vec<Piece>) -> Result<(), PieceFault>
        requires more { 0 < work_of self.old }
        requires room { length pieces.old.items + 64 ≤ vec_capacity pieces.old }
        ensures { PutsBehind B.Bay bay.old bay.new self.old self.new pieces.old.items pieces.new.items (vec_capacity pieces.old) (vec_capacity pieces.new) result }
    {
        if self.block.some == 0 {
            self.begin(bay)
        } else {
            self.word(bay, pieces)
        }
    }

    // Decodes the fields before the next block's slots.
    fn begin<B: Bay>(&mut self, bay: &mut B) -> Result<(), PieceFault>
        requires decoded { self.old.block.some ≡ 0 }
        requires more { 1 ≤ self.old.ahead.blocks }
        ensures { Steps B.Bay bay.old bay.new self.old self.new [] result }
    {
        let head = read_head(&mut self.window, bay, self.ahead.most)?;
        pass_fields(&mut self.window, &mut self.ends, bay, head)?;
        self.block = begun(self.ahead.next, head);
        self.ahead = behind(self.ahead, head.count);
        Ok(())
    }

    // Decodes the slots of the present word of run ends.
    fn word<B: Bay>(&mut self, bay: &mut B, pieces: &mut Vec<Piece>) -> Result<(), PieceFault>
        requires some { 0 < self.old.block.some }
        requires room { length pieces.old.items + 64 ≤ vec_capacity pieces.old }
        ensures { PutsBehind B.Bay bay.old bay.new self.old self.new pieces.old.items pieces.new.items (vec_capacity pieces.old) (vec_capacity pieces.new) result }
    {
        let word = self.read_word(bay)?;
        let len = pieces.len();
        let mut walk = self.block.walk;
        let slots = Slots {
            slots: &self.slots[..word.count],
            some: self.block.some as usize,
            ends: word.ends.first,
            next_ends: word.ends.next,
        };
        match decode(
            self.width,
            self.block.first,
            slots,
            self.block.from,
            &mut walk,
            pieces,
        ) {
            Ok(upto) => {
                self.pass_word(walk, upto);
                Ok(())
            }
            Err(at) => {
                pieces.truncate(len);
                Err(slot_fault(&self.window, bay, at, word.count))
            }
        }
    }

    // Has the slots of the present word at hand, and those to which its groups may reach.
    fn read_word<B: Bay>(&mut self, bay: &mut B) -> Result<Word, PieceFault>
        requires { 0 < self.old.block.some }
        ensures { ReadsWord B.Bay bay.old bay.new self.old self.new result }
    {
        let some = self.block.some;
        let ends = read_ends(&mut self.ends, bay, some)?;
        let count = read_slots(&mut self.window, bay, some, ends.words, &mut self.slots)?;
        Ok(Word { ends, count })
    }

    // Passes a word whose groups end at this slot.
    fn pass_word(&mut self, walk: Walk, upto: usize)
        requires some { 0 < self.old.block.some }
        requires word { min self.old.block.some 64 ≤ upto }
        requires last { upto ≤ self.old.block.some }
        requires near { upto ≤ 72 }
        requires hand { 8 * upto ≤ count_of self.old.window }
        requires ends { 8 ≤ count_of self.old.ends }
        requires next { 64 < upto → 16 ≤ count_of self.old.ends }
        requires least { walk.least ≤ 2 ^ self.old.width }
        ensures { PassesWord walk upto self.old self.new }
    {
        let passed = self.block.some.min(STEP_PIECES as u64) as usize;
        self.window.skip(8 * passed);
        self.ends.skip(8);
        self.block.some -= passed as u64;
        self.block.from = upto - passed;
        self.block.walk = walk;
    }
}
