//! The end of a block: all of it goes into the file.

ghost use Rattle.std.specs.Prelude.{◌≡◌, ℕ, ◌+◌, ◌*◌, ◌<◌, ◌≤◌, ◌^◌, ◌++◌, List, Option, length, IsErr, OnOk};
ghost use Rattle.byteorder.specs.Endian.{little_bytes};
ghost use Rattle.lert_bay.specs.declared.bay.TheConstants.{FRAMES};
ghost use Rattle.lert_bay.specs.Files.{IfTold};
ghost use Rattle.lert_bay.specs.Settled.{part};
ghost use Rattle.lert_blocks.specs.Filling.{IsFilled};
ghost use Rattle.lert_blocks.specs.Text.{block_text, numbers_text};
ghost use Rattle.lert_frames.specs.Calls.{Writes};
ghost use Rattle.lert_frames.specs.Laid.{laid_len};
ghost use Rattle.lert_frames.specs.Outlet.{IsOut, next_place, size_of};
ghost use Rattle.lert_frames.specs.Spilt.{Reaches, HasRoom, IsSpilt, IsBehind, block_bytes, first_place, last_place, closed_place};
ghost use Rattle.lert_spec.specs.declared.piece.Piece.{Piece};
ghost use Rattle.lert_spec.specs.Table.{AscendsFrom};

use crate::long::Long;
use crate::moving::move_down;
use crate::outlet::Outlet;
use byteorder::{ByteOrder, LittleEndian};
use lert_bay::Bay;
use lert_blocks::Block;
use lert_io::Failed;

/// Puts the text of a block, or what is left of it, into the outlet, which stands behind the block then.
pub fn close<B: Bay>(
    bay: &mut B,
    outlet: &mut Outlet,
    ends: &mut Outlet,
    block: &Block,
    long: Option<Long>,
) -> Result<(), Failed>
    requires room { HasRoom long block.now.len (2 ^ 62) ends.old outlet.old }
    requires size { size_of outlet.old ≡ 8192 }
    requires ends_size { size_of ends.old ≡ 512 }
    ensures out { IfTold (B.files bay.old) (λ seen. IfTold (B.files bay.new) (λ after.
        (place width number limit : ℕ) (text : List ℕ) (pieces : List Piece) → AscendsFrom 0 limit pieces →
        IsBehind long place text width number pieces (seen FRAMES) ends.old outlet.old block.now →
        OnOk result (IsOut place (text ++ block_text width number pieces) (after FRAMES) outlet.new))) }
    ensures place { OnOk result (next_place outlet.new ≡ closed_place long block.now.len outlet.old) }
    ensures at { OnOk result (first_place long outlet.old ≤ outlet.new.at) }
    ensures size { size_of outlet.new ≡ 8192 }
    ensures ends_size { size_of ends.new ≡ 512 }
    ensures writes { (begin end : ℕ) → begin ≤ first_place long outlet.old → last_place long block.now.len outlet.old ≤ end →
        Writes B.Bay begin end bay.old bay.new (IsErr result) }
{
    match long {
        None => close_short(bay, outlet, block),
        Some(long) => close_long(bay, outlet, ends, block, long),
    }
}

/// The same, and all of it into the file.
pub fn close_last<B: Bay>(
    bay: &mut B,
    outlet: &mut Outlet,
    ends: &mut Outlet,
    block: &Block,
    long: Option<Long>,
) -> Result<(), Failed>
    requires room { HasRoom long block.now.len (2 ^ 62) ends.old outlet.old }
    requires size { size_of outlet.old ≡ 8192 }
    requires ends_size { size_of ends.old ≡ 512 }
    ensures there { IfTold (B.files bay.old) (λ seen. IfTold (B.files bay.new) (λ after.
        (place width number limit : ℕ) (text : List ℕ) (pieces : List Piece) → AscendsFrom 0 limit pieces →
        IsBehind long place text width number pieces (seen FRAMES) ends.old outlet.old block.now →
        OnOk result (part (after FRAMES) place (place + length (text ++ block_text width number pieces)) ≡ text ++ block_text width number pieces))) }
    ensures size { size_of outlet.new ≡ 8192 }
    ensures ends_size { size_of ends.new ≡ 512 }
    ensures writes { (begin end : ℕ) → begin ≤ first_place long outlet.old → last_place long block.now.len outlet.old ≤ end →
        closed_place long block.now.len outlet.old ≤ end → Writes B.Bay begin end bay.old bay.new (IsErr result) }
{
    close(bay, outlet, ends, block, long)?;
    outlet.flush(bay)
}

// Puts the text of a block that is whole into the outlet.
fn close_short<B: Bay>(bay: &mut B, outlet: &mut Outlet, block: &Block) -> Result<(), Failed>
    requires reach { next_place outlet.old + block_bytes block.now.len ≤ 2 ^ 62 }
    requires size { size_of outlet.old ≡ 8192 }
    ensures out { IfTold (B.files bay.old) (λ seen. IfTold (B.files bay.new) (λ after.
        (place width number : ℕ) (text : List ℕ) (pieces : List Piece) → IsFilled width number 0 pieces block.now →
        IsOut place text (seen FRAMES) outlet.old → OnOk result (IsOut place (text ++ block_text width number pieces) (after FRAMES) outlet.new))) }
    ensures place { OnOk result (next_place outlet.new ≡ next_place outlet.old + block_bytes block.now.len) }
    ensures at { outlet.old.at ≤ outlet.new.at }
    ensures size { size_of outlet.new ≡ 8192 }
    ensures writes { (begin end : ℕ) → begin ≤ outlet.old.at → next_place outlet.old ≤ end → Writes B.Bay begin end bay.old bay.new (IsErr result) }
{
    outlet.make_room(bay, text_len(block))?;
    outlet.put_block(block);
    Ok(())
}

// How long the text of a block is.
fn text_len(block: &Block) -> usize
    ensures value { result ≡ laid_len block.now }
    ensures few { result ≤ 4172 }
{
    12 + 8 * block.ends().len() + 8 * block.slots().len()
}

// Puts the rest of a long block into the file, moves its slots down to behind the words of run ends, and writes the
// fields before these.
fn close_long<B: Bay>(
    bay: &mut B,
    outlet: &mut Outlet,
    ends: &mut Outlet,
    block: &Block,
    long: Long,
) -> Result<(), Failed>
    requires reach { Reaches long block.now.len (2 ^ 62) ends.old outlet.old }
    requires some { 0 < block.now.len }
    requires few { 64 * long.words + block.now.len < 2 ^ 32 }
    requires size { size_of outlet.old ≡ 8192 }
    requires ends_size { size_of ends.old ≡ 512 }
    ensures there { IfTold (B.files bay.old) (λ seen. IfTold (B.files bay.new) (λ after.
        (width number limit : ℕ) (pieces : List Piece) → AscendsFrom 0 limit pieces →
        IsSpilt width number pieces long (seen FRAMES) ends.old outlet.old block.now →
        OnOk result (part (after FRAMES) long.begin outlet.new.at ≡ block_text width number pieces))) }
    ensures place { OnOk result (outlet.new.at ≡ long.begin + block_bytes (64 * long.words + block.now.len)) }
    ensures empty { OnOk result (outlet.new.len ≡ 0) }
    ensures size { size_of outlet.new ≡ 8192 }
    ensures ends_size { size_of ends.new ≡ 512 }
    ensures writes { (begin end : ℕ) → begin ≤ long.begin → next_place outlet.old + 8 * block.now.len ≤ end → Writes B.Bay begin end bay.old bay.new (IsErr result) }
{
    write_numbers(bay, ends, block.ends())?;
    write_numbers(bay, outlet, block.slots())?;
    let count = 64 * long.words + block.slots().len() as u64;
    let target = long.begin + 12 + 8 * count.div_ceil(64);
    move_down(bay, outlet, long.slots, target, 8 * count)?;
    write_head(bay, ends, long.begin, block.occupied(), count as u32)
}

// Puts numbers behind what an outlet has, and all of it into the file.
fn write_numbers<B: Bay>(bay: &mut B, outlet: &mut Outlet, numbers: &[u64]) -> Result<(), Failed>
    requires size { 8 * length numbers.now ≤ size_of outlet.old }
    requires reach { next_place outlet.old + 8 * length numbers.now < 2 ^ 63 }
    ensures out { IfTold (B.files bay.old) (λ seen. IfTold (B.files bay.new) (λ after. (begin : ℕ) (text : List ℕ) →
        IsOut begin text (seen FRAMES) outlet.old → OnOk result (IsOut begin (text ++ numbers_text numbers.now) (after FRAMES) outlet.new))) }
    ensures empty { OnOk result (outlet.new.len ≡ 0) }
    ensures place { OnOk result (next_place outlet.new ≡ next_place outlet.old + 8 * length numbers.now) }
    ensures size { size_of outlet.new ≡ size_of outlet.old }
    ensures writes { (begin end : ℕ) → begin ≤ outlet.old.at → next_place outlet.old + 8 * length numbers.now ≤ end → Writes B.Bay begin end bay.old bay.new (IsErr result) }
{
    outlet.make_room(bay, 8 * numbers.len())?;
    outlet.put_numbers(numbers);
    outlet.flush(bay)
}

// Writes the fields before the words of run ends of a block.
fn write_head<B: Bay>(
    bay: &mut B,
    outlet: &mut Outlet,
    begin: u64,
    occupied: u64,
    count: u32,
) -> Result<(), Failed>
    requires reach { begin + 12 < 2 ^ 63 }
    requires size { 12 ≤ size_of outlet.old }
    ensures there { IfTold (B.files bay.old) (λ seen. IfTold (B.files bay.new) (λ after.
        OnOk result (part (after FRAMES) begin (begin + 12) ≡ little_bytes 8 occupied ++ little_bytes 4 count))) }
    ensures size { size_of outlet.new ≡ size_of outlet.old }
    ensures writes { (low high : ℕ) → low ≤ begin → begin + 12 ≤ high → Writes B.Bay low high bay.old bay.new (IsErr result) }
{
    let mut head = [0; 12];
    LittleEndian::write_u64(&mut head, occupied);
    LittleEndian::write_u32(&mut head[8..], count);
    outlet.start(begin);
    outlet.put(&head);
    outlet.flush(bay)
}
