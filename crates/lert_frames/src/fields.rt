//! The fields before a block's slots.

ghost use Rattle.std.specs.Prelude.{◌≡◌, ◌≤◌, ◌<◌, ℕ, ◌+◌, ◌*◌, ◌-◌, ◌^◌, ◌==◌, ◌||◌, ◌&&◌, not, true, nat_lt, None, Some, List, IfOk, IsErrOf, IsTrue, IsFalse, length, take, drop};
ghost use Rattle.lert_bay.specs.declared.bay.TheConstants.{FRAMES};
ghost use Rattle.lert_bay.specs.Files.{IfTold};
ghost use Rattle.lert_bay.specs.Kept.{OnlyReads};
ghost use Rattle.lert_blocks.specs.Frame.{head_left};
ghost use Rattle.lert_blocks.specs.Text.{word_count};
ghost use Rattle.lert_frames.specs.Steps.{AreFields, IsFitting, PassesFields, ReadsAhead, fields_len};
ghost use Rattle.lert_frames.specs.Window.{at_hand, count_of, place_of, room_of, to_come};

use crate::ending::demand;
use crate::run_ends::{pass_run_ends, run_ends_of};
use crate::window::Window;
use byteorder::{ByteOrder, LittleEndian};
use lert_base::PieceFault;
use lert_bay::Bay;

/// How many bytes stand before the words of a block's run ends.
const HEAD_LEN: usize = 12;

/// The most bytes of a block's fields that are looked at at once.
const NEAR_LEN: usize = 8192;

/// The first fields of a block.
#[derive(Clone, Copy)]
pub struct Head {
    /// Which of its quotients have a run.
    pub occupied: u64,
    /// How many slots it has.
    pub count: u32,
}

impl Head {
    // Those at the front of bytes.
    fn of(bytes: &[u8]) -> Head
        requires { 12 ≤ length bytes.now }
        ensures fields { AreFields result bytes.now }
        ensures small { result.count < 2 ^ 32 }
    {
        Head {
            occupied: LittleEndian::read_u64(bytes),
            count: LittleEndian::read_u32(&bytes[8..]),
        }
    }

    // How many words its run ends take.
    fn words(self) -> usize
        ensures { result ≡ word_count self.count }
    {
        (self.count as usize + 63) / 64
    }

    // How many bytes stand before its slots.
    fn len(self) -> usize
        ensures { result ≡ fields_len self }
    {
        HEAD_LEN + 8 * self.words()
    }

    // Whether a block may have so many slots.
    fn is_fitting(self, most: u64) -> bool
        ensures fits { IsTrue result → IsFitting most self }
        ensures not { IsFalse result → (nat_lt most self.count || (self.count == 0) && not (self.occupied == 0)) ≡ true }
    {
        if u64::from(self.count) > most {
            return false;
        }
        self.count > 0 || self.occupied == 0
    }
}

/// The first fields of the block to come, which may have `most` slots.
pub fn read_head<B: Bay>(window: &mut Window, bay: &mut B, most: u64) -> Result<Head, PieceFault>
    requires room { room_of window.old ≡ 8192 }
    requires reach { place_of window.old < 2 ^ 43 }
    ensures fields { IfOk result (λ head. AreFields head (at_hand window.new)) }
    ensures fits { IfOk result (IsFitting most) }
    ensures small { IfOk result (λ head. head.count < 2 ^ 32) }
    ensures malformed { IfTold (B.files bay.old) (λ seen. (at : ℕ) → IsErrOf result (PieceFault.Malformed at) →
        head_left most (place_of window.old) (length (seen FRAMES)) (to_come window.old (seen FRAMES)) ≡ Some at) }
    ensures ahead { ReadsAhead B.Bay bay.old window.old window.new }
    ensures only_reads { OnlyReads B.Bay bay.old bay.new (IsErrOf result PieceFault.Failed) }
{
    demand(window, bay, HEAD_LEN)?;
    let head = Head::of(window.at_hand());
    if !head.is_fitting(most) {
        return Err(PieceFault::Malformed {
            at: window.place() + 8,
        });
    }
    Ok(head)
}

// Puts at hand in `ends` what a window has at hand behind the first fields.
fn hold_behind(window: &Window, ends: &mut Window)
    requires some { 12 ≤ count_of window.now }
    requires room { room_of window.now ≡ room_of ends.old }
    requires reach { place_of window.now < 2 ^ 43 }
    ensures come { (file : List ℕ) → to_come ends.new file ≡ drop 12 (to_come window.now file) }
    ensures place { place_of ends.new ≡ place_of window.now + 12 }
    ensures end { ends.new.at ≡ window.now.at }
    ensures room { room_of ends.new ≡ room_of ends.old }
{
    let bytes = window.at_hand();
    ends.hold(&bytes[HEAD_LEN..], window.place() + bytes.len() as u64);
}

// The fields of a block that are looked at at once.
fn pass_near_fields<B: Bay>(
    window: &mut Window,
    ends: &mut Window,
    bay: &mut B,
    head: Head,
) -> Result<(), PieceFault>
    requires fields { AreFields head (at_hand window.old) }
    requires some { head.count ≡ 0 → head.occupied ≡ 0 }
    requires room { room_of window.old ≡ 8192 }
    requires ends_room { room_of ends.old ≡ 8192 }
    requires reach { place_of window.old + fields_len head < 2 ^ 43 }
    requires near { fields_len head ≤ 8192 }
    ensures { PassesFields B.Bay bay.old bay.new head window.old ends.old window.new ends.new result }
{
    let len = head.len();
    demand(window, bay, len)?;
    let words = between(window.at_hand(), HEAD_LEN, len);
    if !run_ends_of(words, head.words()).agree(head.occupied, head.count) {
        return Err(left_at_last_word(window, head));
    }
    ends.hold(words, window.place() + len as u64);
    window.skip(len);
    Ok(())
}

// Those of a block with more run ends than that: they are passed once for the test.
fn pass_far_fields<B: Bay>(
    window: &mut Window,
    ends: &mut Window,
    bay: &mut B,
    head: Head,
) -> Result<(), PieceFault>
    requires fields { AreFields head (at_hand window.old) }
    requires some { head.count ≡ 0 → head.occupied ≡ 0 }
    requires room { room_of window.old ≡ 8192 }
    requires ends_room { room_of ends.old ≡ 8192 }
    requires reach { place_of window.old + fields_len head < 2 ^ 43 }
    requires far { 8192 < fields_len head }
    ensures { PassesFields B.Bay bay.old bay.new head window.old ends.old window.new ends.new result }
{
    hold_behind(window, ends);
    let found = pass_run_ends(ends, bay, head.words())?;
    if !found.agree(head.occupied, head.count) {
        return Err(left_at_last_word(window, head));
    }
    hold_behind(window, ends);
    window.start(window.place() + head.len() as u64);
    Ok(())
}

/// Passes the fields of a block, of which these are the first, once its run ends agree with them: these are to come of
/// `ends` then. After an error the block is to come as before.
pub fn pass_fields<B: Bay>(
    window: &mut Window,
    ends: &mut Window,
    bay: &mut B,
    head: Head,
) -> Result<(), PieceFault>
    requires fields { AreFields head (at_hand window.old) }
    requires some { head.count ≡ 0 → head.occupied ≡ 0 }
    requires room { room_of window.old ≡ 8192 }
    requires ends_room { room_of ends.old ≡ 8192 }
    requires reach { place_of window.old + fields_len head < 2 ^ 43 }
    ensures { PassesFields B.Bay bay.old bay.new head window.old ends.old window.new ends.new result }
{
    if head.len() > NEAR_LEN {
        pass_far_fields(window, ends, bay, head)
    } else {
        pass_near_fields(window, ends, bay, head)
    }
}

// The text is left at the last word of run ends.
fn left_at_last_word(window: &Window, head: Head) -> PieceFault
    requires { place_of window.now + fields_len head < 2 ^ 43 }
    ensures { result ≡ PieceFault.Malformed (place_of window.now + fields_len head - 8) }
{
    PieceFault::Malformed {
        at: window.place() + head.len() as u64 - 8,
    }
}

// The bytes from one place up to another.
fn between(bytes: &[u8], from: usize, upto: usize) -> &[u8]
    requires order { from ≤ upto }
    requires within { upto ≤ length bytes.now }
    ensures value { result.now ≡ take (upto - from) (drop from bytes.now) }
    ensures count { length result.now ≡ upto - from }
{
    &bytes[from..upto]
}
