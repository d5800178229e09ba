//! A block is laid as its text, pieces come back from its slots, and a slot that breaks a rule is told.

ghost use Rattle.std.specs.Prelude.{◌≡◌, ◌+◌, ◌*◌, ◌<◌, ◌≤◌, ◌^◌, length, vec_capacity};

use lert_base::Piece;
use lert_blocks::{Block, Slots, Walk, decode};
use std::alloc::Global;
use std::process::Abort;

// The text of tail 1 twice, in a frame of 64 quotients without cones: its quotient is 45.
const ONE: [u8; 36] =
    *b"\0\0\0\0\0\x20\0\0\x02\0\0\0\x02\0\0\0\0\0\0\0\x2c\xcb\xc2\x34\xfc\xbc\x56\0\x2c\xcb\xc2\x34\xfc\xbc\x56\0";

const TAIL: u64 = 0xb456_bcfc_34c2_cb2c;

// Counts at which the group gets another slot, or nearly.
const COUNTS: [u64; 8] = [1, 2, 3, 255, 256, 257, 65_536, 1 << 47];

// Remainders of eight bits at which the digits are written in another way.
const REMAINDERS: [u64; 6] = [0, 1, 2, 128, 254, 255];

// Whether the block of a piece alone is laid as this text.
fn is_laid_as(block: &mut Block, piece: Piece, text: &[u8]) -> bool
    requires some { 1 ≤ piece.count }
    requires count { piece.count ≤ 2 ^ 47 }
{
    if !block.has_room() {
        return false;
    }
    block.put(58, piece);
    let mut bytes = [0xff; 4800];
    let len = block.lay(&mut bytes);
    len == text.len() && bytes.starts_with(text)
}

#[test]
fn a_block_is_laid_as_its_text(rt: HostRuntime) {
    let mut block = Block::new(rt.alloc()).expect(&rt, "memory");
    let piece = Piece {
        tail: TAIL,
        count: 2,
    };
    assert!(rt; is_laid_as(&mut block, piece, &ONE));
}

// Decodes the slots of a block, whose remainders have eight bits, and answers whether they could be.
fn is_decoded(block: &Block, pieces: &mut Vec<Piece>) -> bool
    requires { length pieces.old.items + 64 ≤ vec_capacity pieces.old }
{
    let slots = block.slots();
    let ends = block.ends();
    if slots.len() > 72 || ends.is_empty() {
        return false;
    }
    let mut walk = Walk {
        occupied: block.occupied(),
        least: 0,
    };
    let word = Slots {
        slots,
        some: slots.len(),
        ends: ends[0],
        next_ends: 0,
    };
    decode(8, 0, word, 0, &mut walk, pieces).is_ok()
}

// The piece that the slots of a block of this piece alone decode to.
fn decoded(rt: &impl Abort, alloc: Global, piece: Piece) -> Option<Piece>
    requires some { 1 ≤ piece.count }
    requires count { piece.count ≤ 2 ^ 47 }
{
    let mut block = Block::new(alloc).expect(rt, "memory");
    assert!(rt; block.has_room());
    block.put(8, piece);
    let mut pieces = Vec::with_capacity(alloc, 64).expect(rt, "memory");
    assert!(rt; is_decoded(&block, &mut pieces));
    pieces.first().copied()
}

#[test]
fn counts_of_all_lengths_come_back(rt: HostRuntime) {
    for tail in REMAINDERS {
        for count in COUNTS {
            let piece = Piece { tail, count };
            assert!(rt;
                decoded(&rt, rt.alloc(), piece) == Some(piece),
                "{tail} {count}"
            );
        }
    }
}
