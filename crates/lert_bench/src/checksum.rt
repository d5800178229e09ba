//! What came of a merge, in two numbers.

use lert_base::{Piece, Totals};

/// The totals in their order, and the pieces with their streams, where equal tails may come in any order.
#[derive(Drop)]
pub struct Checksum {
    pub totals: u64,
    pub pieces: u64,
}

impl Checksum {
    pub fn new() -> Checksum {
        Checksum {
            totals: 0,
            pieces: 0,
        }
    }

    #[inline]
    pub fn piece(&mut self, stream: usize, piece: Piece) {
        let number = (stream as u64).wrapping_add(1);
        self.pieces = self
            .pieces
            .wrapping_add((piece.tail ^ piece.count).wrapping_mul(number));
    }
}

impl Totals for Checksum {
    ghost use Rattle.lert_bench.specs.Streams.{took_any};

    ghost took = { took_any };

    #[inline]
    fn total(&mut self, tail: u64, count: u64) {
        self.totals = self.totals.rotate_left(1) ^ tail ^ count.rotate_left(32);
    }
}
