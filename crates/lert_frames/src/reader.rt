//! A frame as a stream of pieces.

ghost use Rattle.std.specs.Prelude.{vec_capacity};
ghost use Rattle.lert_frames.specs.Reading.{IsReading, reading_prop};

use crate::decoder::Decoder;
use lert_base::{Piece, Settings};
use lert_io::Seen;

/// What the counts to come of a frame may cost, and what they have to reach.
#[derive(Clone, Copy, Debug, PartialEq, Eq)]
pub enum Sum {
    /// Of the bin's width so much is left by the costs, and so much by the counts, or nothing where these are more.
    Left { most: u64, due: u64 },
    /// They cost more than the width.
    Over,
}

/// A frame of a level, which it reads from front to back and gives piece by piece, over every bay. Other places may be
/// written meanwhile: where the file has all of the frame's place, or its text is whole, the same is to come.
///
/// It reads by whole buffers of 8,192 bytes and decodes some 64 pieces ahead of those that it gives. Only
/// `new` takes memory.
#[derive(Drop)]
pub struct FrameReader {
    pub(crate) settings: Settings,
    pub(crate) version: u8,
    pub(crate) level: u32,
    // The frame's place, and the width of its bin.
    pub(crate) place: u64,
    pub(crate) wide: u64,
    // What the counts of the pieces that aren't decoded may cost and have to reach.
    pub(crate) sum: Sum,
    pub(crate) decoder: Decoder,
    // Those that are decoded, of which the first were given.
    pub(crate) pieces: Vec<Piece>,
    pub(crate) given: usize,
    // Where the frame leaves its text, once that was found.
    pub(crate) fault: Option<u64>,
    pub(crate) gave: Seen<Piece>,
    ghost reading: { IsReading settings version level place wide sum decoder pieces.items (vec_capacity pieces) given gave } by { reading_prop settings version level place wide sum decoder pieces.items (vec_capacity pieces) given gave },
}
