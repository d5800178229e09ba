//! Steps of a merge, each of a piece that goes to a landing.

ghost use Rattle.std.specs.Prelude.{◌<◌, ◌≤◌, ◌^◌, IsTrue};

use lert_base::Piece;
use std::alloc::Global;
use std::process::Abort;

/// A piece of a merge, and the landing that it goes to.
#[derive(Clone, Copy)]
pub struct Step {
    pub part: usize,
    pub piece: Piece,
}

// Puts the events of a piece behind these steps, one by one: their tails are equal.
fn push_events(rt: &impl Abort, steps: &mut Vec<Step>, part: usize, piece: Piece) {
    for _ in 0..piece.count {
        let event = Piece { count: 1, ..piece };
        steps.push(Step { part, piece: event }).expect(rt, "memory");
    }
}

/// The events of pieces, all for landing 0.
pub fn steps_of(rt: &impl Abort, alloc: Global, pieces: &[Piece]) -> Vec<Step> {
    let mut steps = Vec::new(alloc);
    for piece in pieces {
        push_events(rt, &mut steps, 0, *piece);
    }
    steps
}

/// Those of two lists with the same tails, in turn: the first list's for landing 0, the second one's for landing 1.
pub fn steps_of_both(
    rt: &impl Abort,
    alloc: Global,
    first: &[Piece],
    second: &[Piece],
) -> Vec<Step> {
    let mut steps = Vec::new(alloc);
    for number in 0..first.len() {
        if number < second.len() {
            push_events(rt, &mut steps, 0, first[number]);
            push_events(rt, &mut steps, 1, second[number]);
        }
    }
    steps
}

/// Whether a step may come: its tail isn't below the last one, and so many events are left.
pub fn may_come(step: &Step, parts: usize, last: u64, left: u64) -> bool
    ensures part { IsTrue result → step.now.part < parts }
    ensures ascends { IsTrue result → last ≤ step.now.piece.tail }
    ensures word { IsTrue result → step.now.piece.tail < 2 ^ 64 }
    ensures some { IsTrue result → 1 ≤ step.now.piece.count }
    ensures fits { IsTrue result → step.now.piece.count ≤ left }
{
    step.part < parts && last <= step.piece.tail && step.piece.count > 0 && step.piece.count <= left
}
