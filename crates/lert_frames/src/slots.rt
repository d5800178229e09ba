//! The slots of a word of run ends.

ghost use Rattle.std.specs.Prelude.{◌≡◌, ◌≤◌, ◌<◌, ℕ, ◌+◌, ◌*◌, ◌/◌, ◌^◌, ◌++◌, [], List, min, IfErr, IfOk, IsErrOf, length, take};
ghost use Rattle.lert_bay.specs.declared.bay.TheConstants.{FRAMES};
ghost use Rattle.lert_bay.specs.Files.{IfTold};
ghost use Rattle.lert_bay.specs.Kept.{OnlyReads};
ghost use Rattle.lert_blocks.specs.Frame.{numbers_in};
ghost use Rattle.lert_blocks.specs.Text.{word_count};
ghost use Rattle.lert_frames.specs.Steps.{AreEnds, ReadsAhead};
ghost use Rattle.lert_frames.specs.Window.{at_hand, count_of, place_of, room_of, to_come};

use crate::ending::need;
use crate::window::Window;
use byteorder::{ByteOrder, LittleEndian};
use lert_base::PieceFault;
use lert_bay::Bay;

/// The slots to which the groups of a word reach: its 64, and eight behind them.
pub const NEAR_SLOTS: usize = 72;

/// The present word of run ends and the next one.
#[derive(Clone, Copy)]
pub struct WordEnds {
    /// How many of the two are there.
    pub words: usize,
    /// Which slots end a run: none of a word that isn't there.
    pub first: u64,
    pub next: u64,
}

impl WordEnds {
    // Those at the front of bytes, for so many slots.
    fn of(bytes: &[u8], some: u64) -> WordEnds
        requires { 1 ≤ some }
        ensures there { (rest : List ℕ) → (length bytes.now < 8 * min 2 (word_count some) → rest ≡ []) → AreEnds some (bytes.now ++ rest) result }
        ensures hand { 8 * result.words ≤ length bytes.now }
        ensures few { result.words ≤ 2 }
        ensures one { 8 ≤ length bytes.now → 1 ≤ result.words }
    {
        if bytes.len() < 8 {
            return WordEnds {
                words: 0,
                first: 0,
                next: 0,
            };
        }
        let first = LittleEndian::read_u64(bytes);
        if some <= 64 {
            return WordEnds {
                words: 1,
                first,
                next: 0,
            };
        }
        if bytes.len() < 16 {
            return WordEnds {
                words: 1,
                first,
                next: 0,
            };
        }
        WordEnds {
            words: 2,
            first,
            next: LittleEndian::read_u64(&bytes[8..]),
        }
    }
}

/// The words of run ends to come, for so many slots.
pub fn read_ends<B: Bay>(ends: &mut Window, bay: &mut B, some: u64) -> Result<WordEnds, PieceFault>
    requires some { 1 ≤ some }
    requires few { some < 2 ^ 32 }
    requires room { room_of ends.old ≡ 8192 }
    requires reach { place_of ends.old < 2 ^ 43 }
    ensures there { IfTold (B.files bay.old) (λ seen. IfOk result (AreEnds some (to_come ends.old (seen FRAMES)))) }
    ensures hand { IfOk result (λ word. 8 * word.words ≤ count_of ends.new) }
    ensures few { IfOk result (λ word. word.words ≤ 2) }
    ensures one { IfOk result (λ word. 8 ≤ count_of ends.old → 1 ≤ word.words) }
    ensures ahead { ReadsAhead B.Bay bay.old ends.old ends.new }
    ensures failed { IfErr result (λ fault. fault ≡ PieceFault.Failed) }
    ensures only_reads { OnlyReads B.Bay bay.old bay.new (IsErrOf result PieceFault.Failed) }
{
    let words = ((some + 63) / 64).min(2) as usize;
    need(ends, bay, 8 * words)?;
    Ok(WordEnds::of(ends.at_hand(), some))
}

/// Reads numbers from the front of bytes, as many as are there of `most`.
fn read_numbers(bytes: &[u8], most: usize, into: &mut [u64]) -> usize
    requires { most ≤ length into.old }
    ensures count { result ≡ min most (length bytes.now / 8) }
    ensures numbers { take result into.new ≡ numbers_in result bytes.now }
{
    let count = most.min(bytes.len() / 8);
    LittleEndian::read_u64_into(&bytes[..8 * count], &mut into[..count]);
    count
}

/// Reads the slots to come to which a word's groups reach, of so many slots, as far as they are there and so many words
/// of their run ends.
pub fn read_slots<B: Bay>(
    window: &mut Window,
    bay: &mut B,
    some: u64,
    words: usize,
    into: &mut [u64],
) -> Result<usize, PieceFault>
    requires words { words ≤ 2 }
    requires into { length into.old ≡ 72 }
    requires room { room_of window.old ≡ 8192 }
    requires reach { place_of window.old < 2 ^ 43 }
    ensures count { IfOk result (λ count. count ≡ min (min (min some 72) (64 * words)) (count_of window.new / 8)) }
    ensures slots { IfOk result (λ count. take count into.new ≡ numbers_in count (at_hand window.new)) }
    ensures all { IfTold (B.files bay.old) (λ seen. IfOk result (λ count. count < min (min some 72) (64 * words) → at_hand window.new ≡ to_come window.old (seen FRAMES))) }
    ensures ahead { ReadsAhead B.Bay bay.old window.old window.new }
    ensures failed { IfErr result (λ fault. fault ≡ PieceFault.Failed) }
    ensures only_reads { OnlyReads B.Bay bay.old bay.new (IsErrOf result PieceFault.Failed) }
{
    let most = (some.min(NEAR_SLOTS as u64) as usize).min(64 * words);
    need(window, bay, 8 * most)?;
    Ok(read_numbers(window.at_hand(), most, into))
}
