//! The pieces in the slots of one word of run ends.

ghost use Rattle.std.specs.Prelude.{◌≡◌, ℕ, ◌+◌, ◌-◌, ◌*◌, ◌^◌, ◌<◌, ◌≤◌, ◌++◌, Bool, List, length, take, drop, min, All, OnOk, IfOk, IfErr, MatchResult, Some, vec_capacity};
ghost use Rattle.lert_spec.specs.Table.{AscendsFrom};
ghost use Rattle.lert_spec.specs.declared.piece.Piece.{Piece};
ghost use Rattle.lert_blocks.specs.Decoding.{AreSlots, GoesOn, IsPieceOf, floor_of, rest_found, with_front};

use crate::step::{Step, are_whole, next_step};
use lert_counter::Group;
use lert_spec::Piece;

/// Where a walk over the slots of a block stands.
#[derive(Clone, Copy, Debug, PartialEq, Eq)]
pub struct Walk {
    /// The quotients of the block that have a run, but those that are passed.
    pub occupied: u64,
    /// The least remainder that the next group may have: 0 where a run begins.
    pub least: u64,
}

/// The slots of one word of run ends, from its first one on, and the eight behind them to which a group may
/// reach, as far as they are there.
#[derive(Clone, Copy)]
pub struct Slots<'a> {
    pub slots: &'a [u64],
    /// How many slots the block has from here on.
    pub some: usize,
    /// Which of these slots end a run, and which of the 64 behind them.
    pub ends: u64,
    pub next_ends: u64,
}

/// The piece of a group, whose quotient is the first one that isn't passed.
fn piece_of(width: u32, first: u64, occupied: u64, group: Group) -> Piece
    requires wide { width ≤ 58 }
    requires reach { (first + 64) * 2 ^ width ≤ 2 ^ 64 }
    requires some { 0 < occupied }
    requires remainder { group.x < 2 ^ width }
    ensures { IsPieceOf width first occupied group result }
{
    let quotient = first + u64::from(occupied.trailing_zeros());
    Piece {
        tail: (quotient << width) + group.x,
        count: group.count,
    }
}

/// The walk behind a group, from the quotients that aren't passed before it.
fn behind(occupied: u64, step: Step) -> Walk
    requires some { 0 < occupied }
    requires remainder { step.group.x < 2 ^ 58 }
    ensures { GoesOn step occupied result }
{
    if step.ends_run {
        return Walk {
            occupied: occupied & (occupied - 1),
            least: 0,
        };
    }
    Walk {
        occupied,
        least: step.group.x + 1,
    }
}

/// Decodes the groups that begin in a word's slots, from the slot `from` on, and puts their pieces behind
/// `pieces`, whose room must be enough for 64 more. `first` is the block's first quotient. Answers the first
/// slot behind these groups, up to eight behind the word, or the slot at which the text is left: the number
/// of slots, where it isn't there. After an error the walk is as it was, and pieces may stand behind `pieces`.
pub fn decode(
    width: u32,
    first: u64,
    slots: Slots,
    from: usize,
    walk: &mut Walk,
    pieces: &mut Vec<Piece>,
) -> Result<usize, usize>
    requires narrow { 8 ≤ width }
    requires wide { width ≤ 58 }
    requires reach { (first + 64) * 2 ^ width ≤ 2 ^ 64 }
    requires few { length slots.slots.now ≤ min slots.some 72 }
    requires from { from ≤ length slots.slots.now }
    requires word { from ≤ 64 }
    requires room { length pieces.old.items + 64 ≤ vec_capacity pieces.old }

    // What is found behind these slots has the new pieces before it; an error is the place that is found.
    ensures found { (ends : List Bool) (more : List ℕ) → AreSlots slots.entry ends more → MatchResult result
        (λ upto. (put : List Piece) × (pieces.new.items ≡ pieces.old.items ++ put)
        × (rest_found width first walk.old (drop from ends) (drop from (slots.entry.slots.now ++ more))
        ≡ with_front put (upto - from) (rest_found width first walk.new (drop upto ends) (drop upto (slots.entry.slots.now ++ more)))))
        (λ at. (rest_found width first walk.old (drop from ends) (drop from (slots.entry.slots.now ++ more))).left ≡ Some (at - from)) }

    ensures upto { IfOk result (λ upto. (min slots.entry.some 64 ≤ upto) × (upto ≤ length slots.entry.slots.now) × (upto ≤ 72) × (from ≤ upto)) }
    ensures at { IfErr result (λ at. (from ≤ at) × (at ≤ length slots.entry.slots.now) × (at < 72)) }

    // The new pieces ascend, from the least tail that may come to that of what is to come then.
    ensures ascend { OnOk result (AscendsFrom (floor_of width first walk.old) (floor_of width first walk.new) (drop (length pieces.old.items) pieces.new.items)) }
    ensures counts { OnOk result (All (λ piece. piece.count ≤ 2 ^ 47) (drop (length pieces.old.items) pieces.new.items)) }
    ensures rises { floor_of width first walk.old ≤ floor_of width first walk.new }
    ensures least { walk.old.least ≤ 2 ^ width → walk.new.least ≤ 2 ^ width }
    ensures kept { take (length pieces.old.items) pieces.new.items ≡ pieces.old.items }
    ensures few { length pieces.new.items ≤ length pieces.old.items + 64 }
    ensures capacity { vec_capacity pieces.new ≡ vec_capacity pieces.old }
    ensures same { IfErr result (λ _. walk.new ≡ walk.old) }
{
    let whole = are_whole(width, slots, from);
    let word = slots.some.min(64);
    let mut occupied = walk.occupied;
    let mut least = walk.least;
    let mut at = from;
    while at < word {
        if occupied == 0 {
            return Err(at);
        }
        let step = next_step(width, least, whole, slots, at)?;
        pieces.push_reserved(piece_of(width, first, occupied, step.group));
        let next = behind(occupied, step);
        occupied = next.occupied;
        least = next.least;
        at += step.group.used;
    }
    *walk = Walk { occupied, least };
    Ok(at)
}
