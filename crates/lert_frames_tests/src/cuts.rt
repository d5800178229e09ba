//! A frame that is cut is left where the file ends.

ghost use Rattle.std.specs.Prelude.{◌≤◌};

use crate::bins::{WIDE, checked, pieces_of, text_of, width_of};
use lert_base::PieceFault;
use std::alloc::Global;
use std::process::Abort;

// Lengths of texts: such as end in the first block, whose fields come first, and any below the 800,000 bytes that the
// slots of 100,000 pieces have. They were drawn.
const LENS: [usize; 12] = [
    174, 344_153, 196, 592_870, 34, 439_795, 130, 486_902, 89, 546_746, 123, 130_802,
];

// Counts whose groups have several slots.
const COUNTS: [u64; 7] = [1, 2, 3, 255, 256, 257, 65_536];

// The first length at which the text that is cut there isn't left, or that of the whole text where it isn't read. The
// counts add up to the width.
fn first_untold(rt: &impl Abort, alloc: Global, text: &[u8], width: u64) -> Option<usize> {
    if checked(rt, alloc, WIDE, 1, text, width) != Ok(width) {
        return Some(text.len());
    }
    for len in LENS {
        let fault = PieceFault::Malformed { at: len as u64 };
        if len > text.len() || checked(rt, alloc, WIDE, 1, &text[..len], width) != Err(fault) {
            return Some(len);
        }
    }
    None
}

// That of the text of 100,000 pieces, which are so far apart.
fn first_untold_of(rt: &impl Abort, alloc: Global, counts: &[u64], gap: u64) -> Option<usize>
    requires { 1 ≤ gap }
{
    let pieces = pieces_of(alloc, counts, 100_000, gap, 262_144).expect(rt, "memory");
    assert!(rt; pieces.len() == 100_000);
    let text = text_of(rt, alloc, WIDE, &pieces);
    first_untold(rt, alloc, &text, width_of(&pieces))
}

#[test]
fn a_frame_that_is_cut_is_left_at_the_end_of_the_file(rt: HostRuntime) {
    // Pieces of one quotient, whose run ends fill several buffers; and pieces over all blocks.
    let untold = [
        first_untold_of(&rt, rt.alloc(), &[], 1),
        first_untold_of(&rt, rt.alloc(), &COUNTS, (1 << 47) - 1),
    ];
    assert_eq!(rt; untold, [None, None]);
}
