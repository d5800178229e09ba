//! The words of a block's run ends, as they are passed over.

ghost use Rattle.std.specs.Prelude.{◌≡◌, ◌≤◌, ◌<◌, ℕ, ◌+◌, ◌*◌, ◌^◌, ◌++◌, [], ◌∷◌, List, IfOk, OnOk, IsErrOf, length, drop};
ghost use Rattle.lert_bay.specs.declared.bay.TheConstants.{FRAMES};
ghost use Rattle.lert_bay.specs.Files.{IfTold};
ghost use Rattle.lert_bay.specs.Kept.{OnlyReads};
ghost use Rattle.lert_blocks.specs.Frame.{numbers_in, ends_agree};
ghost use Rattle.lert_blocks.specs.Text.{word_count};
ghost use Rattle.byteorder.specs.Endian.{little_number};
ghost use Rattle.lert_frames.specs.Steps.{AreCounted, PassesWords};
ghost use Rattle.lert_frames.specs.Window.{place_of, room_of, to_come, IsRead};

use crate::ending::demand;
use crate::window::Window;
use byteorder::{ByteOrder, LittleEndian};
use lert_base::PieceFault;
use lert_bay::Bay;

/// The words that were passed: how many bits are set, and the last word.
#[derive(Clone, Copy)]
pub struct RunEnds {
    set: u64,
    last: u64,
}

impl RunEnds {
    fn none() -> RunEnds
        ensures { AreCounted [] result }
    {
        RunEnds { set: 0, last: 0 }
    }

    // With one word more.
    fn with(self, word: u64) -> RunEnds
        requires { self.set < 2 ^ 63 }
        ensures counted { (words : List ℕ) → AreCounted words self → AreCounted (words ++ word ∷ []) result }
        ensures few { result.set ≤ self.set + 64 }
    {
        RunEnds {
            set: self.set + u64::from(word.count_ones()),
            last: word,
        }
    }

    /// Whether these are the run ends of so many slots, of as many runs as quotients have one: none is behind the last
    /// slot, which is one.
    pub fn agree(self, occupied: u64, count: u32) -> bool
        requires { count ≡ 0 → occupied ≡ 0 }
        ensures { (words : List ℕ) → length words ≡ word_count count → AreCounted words self → result ≡ ends_agree occupied count words }
    {
        if count == 0 {
            return true;
        }
        self.set == u64::from(occupied.count_ones()) && self.last >> ((count - 1) % 64) == 1
    }
}

/// Those that bytes hold.
pub fn run_ends_of(bytes: &[u8], words: usize) -> RunEnds
    requires long { length bytes.now ≡ 8 * words }
    requires few { words ≤ 2 ^ 32 }
    ensures { AreCounted (numbers_in words bytes.now) result }
{
    let mut found = RunEnds::none();
    for word in 0..words {
        found = found.with(LittleEndian::read_u64(&bytes[8 * word..]));
    }
    found
}

// The word at the front of a window, which it passes.
fn pass_word<B: Bay>(ends: &mut Window, bay: &mut B) -> Result<u64, PieceFault>
    requires room { room_of ends.old ≡ 8192 }
    requires reach { place_of ends.old < 2 ^ 43 }
    ensures word { IfTold (B.files bay.old) (λ seen. IfOk result (λ word. word ≡ little_number 8 (to_come ends.old (seen FRAMES)))) }
    ensures long { IfTold (B.files bay.old) (λ seen. OnOk result (8 ≤ length (to_come ends.old (seen FRAMES)))) }
    ensures short { IfTold (B.files bay.old) (λ seen. (at : ℕ) → IsErrOf result (PieceFault.Malformed at) → length (to_come ends.old (seen FRAMES)) < 8) }
    ensures end { IfTold (B.files bay.old) (λ seen. (at : ℕ) → IsErrOf result (PieceFault.Malformed at) → at ≡ length (seen FRAMES)) }
    ensures come { IfTold (B.files bay.old) (λ seen. OnOk result (to_come ends.new (seen FRAMES) ≡ drop 8 (to_come ends.old (seen FRAMES)))) }
    ensures bytes { IfTold (B.files bay.old) (λ seen. (from : ℕ) → from ≤ ends.old.at → IsRead ends.old from (seen FRAMES) → IsRead ends.new from (seen FRAMES)) }
    ensures behind { OnOk result (place_of ends.new ≡ place_of ends.old + 8) }
    ensures within { place_of ends.new ≤ place_of ends.old + 8 }
    ensures later { ends.old.at ≤ ends.new.at }
    ensures room { room_of ends.new ≡ room_of ends.old }
    ensures only_reads { OnlyReads B.Bay bay.old bay.new (IsErrOf result PieceFault.Failed) }
{
    demand(ends, bay, 8)?;
    let word = LittleEndian::read_u64(ends.at_hand());
    ends.skip(8);
    Ok(word)
}

/// Those of so many words of a window, which it passes.
pub fn pass_run_ends<B: Bay>(
    ends: &mut Window,
    bay: &mut B,
    words: usize,
) -> Result<RunEnds, PieceFault>
    requires few { words ≤ 2 ^ 32 }
    requires room { room_of ends.old ≡ 8192 }
    requires reach { place_of ends.old + 8 * words < 2 ^ 43 }
    ensures passes { IfOk result (PassesWords B.Bay bay.old words ends.old ends.new) }
    ensures short { IfTold (B.files bay.old) (λ seen. (at : ℕ) → IsErrOf result (PieceFault.Malformed at) → length (to_come ends.old (seen FRAMES)) < 8 * words) }
    ensures end { IfTold (B.files bay.old) (λ seen. (at : ℕ) → IsErrOf result (PieceFault.Malformed at) → at ≡ length (seen FRAMES)) }
    ensures within { place_of ends.new ≤ place_of ends.old + 8 * words }
    ensures room { room_of ends.new ≡ room_of ends.old }
    ensures only_reads { OnlyReads B.Bay bay.old bay.new (IsErrOf result PieceFault.Failed) }
{
    let mut found = RunEnds::none();
    for _word in 0..words {
        found = found.with(pass_word(ends, bay)?);
    }
    Ok(found)
}
