//! A block that is longer than its memory, as it is written in parts.

ghost use Rattle.std.specs.Prelude.{◌≡◌, ℕ, ◌+◌, ◌-◌, ◌*◌, ◌<◌, ◌≤◌, ◌^◌, List, IsErr, IfOk, OnOk, OnErr};
ghost use Rattle.lert_bay.specs.declared.bay.TheConstants.{FRAMES};
ghost use Rattle.lert_bay.specs.Files.{IfTold};
ghost use Rattle.lert_blocks.specs.declared.block.Block.{Block};
ghost use Rattle.lert_blocks.specs.Filling.{IsFilled};
ghost use Rattle.lert_blocks.specs.Text.{word_count};
ghost use Rattle.lert_frames.specs.Calls.{Writes};
ghost use Rattle.lert_frames.specs.Outlet.{next_place, size_of};
ghost use Rattle.lert_frames.specs.Spilt.{Reaches, IsSpilt, block_bytes};
ghost use Rattle.lert_spec.specs.declared.piece.Piece.{Piece};
ghost use Rattle.lert_spec.specs.Table.{AscendsFrom};

use crate::outlet::Outlet;
use lert_bay::Bay;
use lert_blocks::Block;
use lert_io::Failed;

/// The slots at the front of a block and the words of their run ends are on their way into the file. How many
/// words there will be isn't known, so the slots begin behind room for those of all slots that may come.
#[derive(Clone, Copy, Debug, PartialEq, Eq)]
pub struct Long {
    /// The place of the block, and that of its first slot as yet.
    pub begin: u64,
    pub slots: u64,
    /// How many words of run ends are out, with 64 slots for each.
    pub words: u64,
}

/// Begins a long block of at most so many slots where the outlet stands, which must have written all.
pub fn begin_long(outlet: &mut Outlet, ends: &mut Outlet, most: u64) -> Long
    requires { next_place outlet.old + block_bytes most < 2 ^ 62 }
    ensures begin { result.begin ≡ next_place outlet.old }
    ensures words { result.words ≡ 0 }
    ensures reach { (end : ℕ) → next_place outlet.old + block_bytes most ≤ end → Reaches result most end ends.new outlet.new }
    ensures spilt { (width number : ℕ) (pieces : List Piece) (file : List ℕ) (block : Block) → IsFilled width number 0 pieces block →
        IsSpilt width number pieces result file ends.new outlet.new block }
    ensures size { size_of outlet.new ≡ size_of outlet.old }
    ensures ends_size { size_of ends.new ≡ size_of ends.old }
{
    let begin = outlet.place();
    let slots = begin + 12 + 8 * most.div_ceil(64);
    ends.start(begin + 12);
    outlet.start(slots);
    Long {
        begin,
        slots,
        words: 0,
    }
}

/// Lets the slots at a block's front go, all but those of the last word of run ends. After `Failed` none are.
pub fn let_go<B: Bay>(
    bay: &mut B,
    outlet: &mut Outlet,
    ends: &mut Outlet,
    block: &mut Block,
    long: Long,
) -> Result<Long, Failed>
    requires some { 0 < block.old.len }
    requires reach { Reaches long block.old.len (2 ^ 62) ends.old outlet.old }
    requires size { size_of outlet.old ≡ 8192 }
    requires ends_size { size_of ends.old ≡ 512 }
    ensures spilt { IfTold (B.files bay.old) (λ seen. IfTold (B.files bay.new) (λ after.
        (width number limit : ℕ) (pieces : List Piece) → AscendsFrom 0 limit pieces →
        IsSpilt width number pieces long (seen FRAMES) ends.old outlet.old block.old →
        IfOk result (λ l. IsSpilt width number pieces l (after FRAMES) ends.new outlet.new block.new))) }
    ensures reach { (slots end : ℕ) → block.old.len ≤ slots → Reaches long slots end ends.old outlet.old →
        IfOk result (λ l. Reaches l (slots - (block.old.len - block.new.len)) end ends.new outlet.new) }
    ensures failed { (slots end : ℕ) → Reaches long slots end ends.old outlet.old → OnErr result (Reaches long slots end ends.new outlet.new) }
    ensures begin { IfOk result (λ l. l.begin ≡ long.begin) }
    ensures words { IfOk result (λ l. 64 * l.words + block.new.len ≡ 64 * long.words + block.old.len) }
    ensures room { OnOk result ((0 < block.new.len) × (block.new.len ≤ 64)) }
    ensures stays { OnErr result (block.new.len ≡ block.old.len) }
    ensures less { block.new.len ≤ block.old.len }
    ensures size { size_of outlet.new ≡ 8192 }
    ensures ends_size { size_of ends.new ≡ 512 }
    ensures writes { (begin end : ℕ) → begin ≤ long.begin → next_place outlet.old ≤ end → Writes B.Bay begin end bay.old bay.new (IsErr result) }
{
    let words = (block.slots().len() - 1) / 64;
    outlet.make_room(bay, 512 * words)?;
    ends.make_room(bay, 8 * words)?;
    outlet.put_numbers(&block.slots()[..64 * words]);
    ends.put_numbers(&block.ends()[..words]);
    block.drop_front(words);
    Ok(Long {
        words: long.words + words as u64,
        ..long
    })
}
