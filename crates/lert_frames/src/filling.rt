//! Decoding ahead of the pieces that a reader gives.

ghost use Rattle.std.specs.Prelude.{◌≡◌, ℕ, ◌+◌, ◌<◌, ◌≤◌, ◌^◌, ◌⊎◌, List, [], Some, None, OnOk, IsErrOf, IsTrue, IsFalse, All, length, take, drop, vec_capacity};
ghost use Rattle.lert_bay.specs.declared.bay.TheConstants.{FRAMES};
ghost use Rattle.lert_bay.specs.Files.{IfTold};
ghost use Rattle.lert_bay.specs.Kept.{OnlyReads};
ghost use Rattle.lert_frames.specs.Decoded.{work_of};
ghost use Rattle.lert_frames.specs.Reading.{sum_less, pieces_kept, IsReached};
ghost use Rattle.lert_frames.specs.ToCome.{left_of, ready_of, IsOver, IsSameFrame, IsSameToCome, IsWithin};
ghost use Rattle.lert_spec.specs.Table.{costs, total};

use crate::place::cost;
use crate::reader::{FrameReader, Sum};
use lert_base::{Piece, PieceFault};
use lert_bay::Bay;

// As long as no more pieces are decoded, a step more is made.
const ENOUGH: usize = 64;

impl FrameReader {
    /// Decodes more, where no piece is ready: some 64 pieces, or the rest of the frame.
    pub(crate) fn fill<B: Bay>(&mut self, bay: &mut B) -> Result<(), PieceFault>
        requires { ready_of self.old ≡ [] }
        ensures frame { IsSameFrame self.old self.new }
        ensures to_come { IfTold (B.files bay.old) (λ seen. IsSameToCome self.old self.new (seen FRAMES)) }
        ensures malformed { IfTold (B.files bay.old) (λ seen. (at : ℕ) → IsErrOf result (PieceFault.Malformed at) → left_of self.old (seen FRAMES) ≡ Some at) }
        ensures over { OnOk result (ready_of self.new ≡ [] → IsOver self.new) }
        ensures within { IfTold (B.files bay.old) (λ seen. IsWithin self.old (seen FRAMES) → OnOk result (IsWithin self.new (seen FRAMES))) }
        ensures only_reads { OnlyReads B.Bay bay.old bay.new (IsErrOf result PieceFault.Failed) }
    {
        if let Some(at) = self.fault {
            return Err(PieceFault::Malformed { at });
        }
        self.let_go();
        while self.wants_more() {
            self.advance(bay)?;
        }
        self.judge()
    }

    // Lets go of the pieces that were given.
    fn let_go(&mut self)
        requires { ready_of self.old ≡ [] }
        ensures frame { IsSameFrame self.old self.new }
        ensures ready { ready_of self.new ≡ [] }
        ensures given { self.new.given ≡ 0 }
        ensures to_come { (file : List ℕ) → IsSameToCome self.old self.new file }
        ensures fault { self.new.fault ≡ self.old.fault }
        ensures within { (file : List ℕ) → IsWithin self.old file → IsWithin self.new file }
    {
        self.pieces.clear();
        self.given = 0;
    }

    // Whether a step more is to be made.
    fn wants_more(&self) -> bool
        ensures few { IsTrue result → length self.now.pieces.items ≤ 64 }
        ensures more { IsTrue result → 0 < work_of self.now.decoder }
        ensures enough { IsFalse result → (64 < length self.now.pieces.items) ⊎ (work_of self.now.decoder ≡ 0) }
    {
        if self.pieces.len() > ENOUGH {
            return false;
        }
        !self.decoder.is_done()
    }

    // Makes one step of the decoder.
    fn advance<B: Bay>(&mut self, bay: &mut B) -> Result<(), PieceFault>
        requires fault { self.old.fault ≡ None }
        requires few { length self.old.pieces.items ≤ 64 }
        requires more { 0 < work_of self.old.decoder }
        ensures frame { IsSameFrame self.old self.new }
        ensures to_come { IfTold (B.files bay.old) (λ seen. IsSameToCome self.old self.new (seen FRAMES)) }
        ensures malformed { IfTold (B.files bay.old) (λ seen. (at : ℕ) → IsErrOf result (PieceFault.Malformed at) → left_of self.old (seen FRAMES) ≡ Some at) }
        ensures given { self.new.given ≡ self.old.given }
        ensures fault { OnOk result (self.new.fault ≡ None) }
        ensures work { OnOk result (work_of self.new.decoder < work_of self.old.decoder) }
        ensures within { IfTold (B.files bay.old) (λ seen. IsWithin self.old (seen FRAMES) → OnOk result (IsWithin self.new (seen FRAMES))) }
        ensures only_reads { OnlyReads B.Bay bay.old bay.new (IsErrOf result PieceFault.Failed) }
    {
        let before = self.pieces.len();
        match self.decoder.step(bay, &mut self.pieces) {
            Ok(()) => {
                self.sum = settle(self.version, self.sum, &mut self.pieces, before);
                Ok(())
            }
            Err(fault) => {
                self.fault = place_in(fault);
                Err(fault)
            }
        }
    }

    // Whether what was decoded adds up, where the frame is at its end.
    fn judge(&mut self) -> Result<(), PieceFault>
        requires fault { self.old.fault ≡ None }
        requires given { self.old.given ≡ 0 }
        requires enough { (64 < length self.old.pieces.items) ⊎ (work_of self.old.decoder ≡ 0) }
        ensures frame { IsSameFrame self.old self.new }
        ensures to_come { (file : List ℕ) → IsSameToCome self.old self.new file }
        ensures malformed { (file : List ℕ) (at : ℕ) → IsErrOf result (PieceFault.Malformed at) → left_of self.old file ≡ Some at }
        ensures failed { ¬ IsErrOf result PieceFault.Failed }
        ensures over { OnOk result (ready_of self.new ≡ [] → IsOver self.new) }
        ensures within { (file : List ℕ) → IsWithin self.old file → OnOk result (IsWithin self.new file) }
    {
        if !self.decoder.is_done() {
            return Ok(());
        }
        if is_reached(self.sum) {
            return Ok(());
        }
        self.fault = Some(self.place);
        Err(PieceFault::Malformed { at: self.place })
    }
}

// The place that breaks a rule.
fn place_in(fault: PieceFault) -> Option<u64>
    ensures malformed { (at : ℕ) → fault ≡ PieceFault.Malformed at → result ≡ Some at }
    ensures failed { fault ≡ PieceFault.Failed → result ≡ None }
{
    match fault {
        PieceFault::Malformed { at } => Some(at),
        PieceFault::Failed => None,
    }
}

// Whether nothing is due any more.
fn is_reached(sum: Sum) -> bool
    ensures yes { IsTrue result → IsReached sum }
    ensures no { IsFalse result → ¬ IsReached sum }
{
    match sum {
        Sum::Left { due, .. } => due == 0,
        Sum::Over => false,
    }
}

// What is left of a sum behind the pieces from a place on. Where they cost more than that, they aren't kept.
fn settle(version: u8, sum: Sum, pieces: &mut Vec<Piece>, from: usize) -> Sum
    requires from { from ≤ length pieces.old.items }
    requires few { length pieces.old.items ≤ from + 64 }
    requires counts { All (λ piece. piece.count ≤ 2 ^ 47) (drop from pieces.old.items) }
    ensures sum { result ≡ sum_less version sum (drop from pieces.old.items) }
    ensures kept { pieces.new.items ≡ pieces_kept result (take from pieces.old.items) (drop from pieces.old.items) }
    ensures capacity { vec_capacity pieces.new ≡ vec_capacity pieces.old }
{
    let left = less(version, sum, &pieces[from..]);
    if let Sum::Over = left {
        pieces.truncate(from);
    }
    left
}

// What is left of a sum behind pieces.
fn less(version: u8, sum: Sum, pieces: &[Piece]) -> Sum
    requires few { length pieces.now ≤ 64 }
    requires counts { All (λ piece. piece.count ≤ 2 ^ 47) pieces.now }
    ensures { result ≡ sum_less version sum pieces.now }
{
    let Sum::Left { most, due } = sum else {
        return Sum::Over;
    };
    let more = add_up(version, pieces);
    if most < more.costs {
        return Sum::Over;
    }
    Sum::Left {
        most: most - more.costs,
        due: due.saturating_sub(more.counts),
    }
}

// What pieces cost together, and what their counts add up to.
#[derive(Clone, Copy)]
struct Sums {
    costs: u64,
    counts: u64,
}

// Those of a step's pieces.
fn add_up(version: u8, pieces: &[Piece]) -> Sums
    requires few { length pieces.now ≤ 64 }
    requires counts { All (λ piece. piece.count ≤ 2 ^ 47) pieces.now }
    ensures costs { result.costs ≡ costs version pieces.now }
    ensures counts { result.counts ≡ total pieces.now }
{
    let mut costs = 0;
    let mut counts = 0;
    for piece in pieces {
        costs += cost(version, piece.count);
        counts += piece.count;
    }
    Sums { costs, counts }
}
