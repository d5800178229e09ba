//! Pieces that follow from a seed.

ghost use Rattle.std.specs.Prelude.{◌+◌, ◌<◌, ◌≤◌, ◌^◌, IfOk};
ghost use Rattle.lert_spec.specs.Table.{total, AreGiven};

use crate::random::Random;
use lert_base::Piece;
use std::alloc::{AllocError, Global};

/// How pieces are drawn.
#[derive(Clone, Copy)]
pub enum Kind {
    /// Tails that lie close together, with counts of 1 to 16.
    Near,
    /// Far apart; each count is 1.
    Distinct,
    /// Far apart; three counts of four are 1, and among the others one above n is about as rare as 1/n.
    Skewed,
}

impl Kind {
    pub fn named(name: &str) -> Option<Kind> {
        match name {
            "distinct" => Some(Kind::Distinct),
            "skewed" => Some(Kind::Skewed),
            _ => None,
        }
    }

    /// Two tails in turn are at most so far apart. Of those far apart a million reach over almost all that there are.
    fn farthest(self) -> u64
        ensures { 0 < result }
    {
        match self {
            Kind::Near => 320,
            Kind::Distinct | Kind::Skewed => 35_000_000_000_000,
        }
    }

    /// By how much the count of a piece is above 1.
    fn excess(self, drawn: u64, random: &mut Random) -> u64 {
        match self {
            Kind::Near => drawn >> 60,
            Kind::Distinct => 0,
            Kind::Skewed => rare(random.next()),
        }
    }
}

// Mostly 0, and else of up to 17 bits.
fn rare(drawn: u64) -> u64 {
    if drawn >> 62 != 0 {
        return 0;
    }
    let bits = drawn.trailing_zeros().min(16);
    (drawn >> 32) & (u64::MAX >> (63 - bits))
}

/// A piece of at least this tail, with at most so many events beside its first one.
fn draw(random: &mut Random, kind: Kind, least: u64, spare: u64) -> Piece
    requires { spare ≤ 2 ^ 40 }
    ensures tail { least ≤ result.tail }
    ensures count { (1 ≤ result.count) × (result.count ≤ 1 + spare) }
{
    let drawn = random.next();
    Piece {
        tail: least.saturating_add(drawn % kind.farthest()),
        count: 1 + kind.excess(drawn, random).min(spare),
    }
}

/// So many pieces in ascending tails, or fewer where the tails are at their end. Their counts add up to at most `most`.
pub fn pieces(
    random: &mut Random,
    alloc: Global,
    kind: Kind,
    len: u32,
    most: u64,
) -> Result<Vec<Piece>, AllocError>
    requires few { len ≤ most }
    requires most { most ≤ 2 ^ 40 }
    ensures given { IfOk result (λ pieces. AreGiven (2 ^ 64) pieces.items) }
    ensures fits { IfOk result (λ pieces. total pieces.items ≤ most) }
{
    let mut pieces = Vec::new(alloc);
    let mut least = 0u64;
    let mut spare = most - u64::from(len);
    for _ in 0..len {
        let piece = draw(random, kind, least, spare);
        let Some(above) = piece.tail.checked_add(1) else {
            break;
        };
        pieces.push(piece)?;
        spare -= piece.count - 1;
        least = above;
    }
    Ok(pieces)
}
