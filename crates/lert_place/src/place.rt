//! Where the top call finds its traces and bays, and where it puts them back.

ghost use Rattle.std.specs.Prelude.{◌≡◌, ◌≢◌, ℕ, ◌<◌, ◌++◌, List, [], ◌∷◌, length, Option, Some, is_ok, IfOk, OnErr};
ghost use Rattle.lert_io.specs.Fault.{HasCause};
ghost use Rattle.lert_place.specs.Openings.{bays_granted, traces_granted};

use crate::opening::{Opening, Wanted};
use lert_bay::Bay;
use lert_io::{Failed, Faulty, Source};

/// A place of traces and bays. It opens them by name, and by directory and cone, and takes them back under
/// their numbers. Of each that it handed out or took back it shows the object as it was then, and so its
/// mark, its count of faults, what it tells of its content, and of a bay the images that a crash may leave.
pub trait Place: Faulty {
    ghost use Rattle.lert_place.specs.declared.opening.Opening.{Opening};

    /// A trace that was opened. Another thread may read it.
    type Trace: Source + Send;

    /// The three files of a cone that were opened. Another thread may use them.
    type Bay: Bay + Send;

    /// The openings that it was asked for, of both kinds, in their order.
    ghost asked: { Self → List Opening };

    /// The traces that its openings handed out, in their order, as they were then.
    ghost handed_traces: { Self → List Self.Trace };

    /// The bays that its openings handed out, in their order, as they were then.
    ghost handed_bays: { Self → List Self.Bay };

    /// The trace that was last put back under a number, as it was then.
    ghost returned_trace: { Self → ℕ → Option Self.Trace };

    /// The bay that was last put back under a number, as it was then.
    ghost returned_bay: { Self → ℕ → Option Self.Bay };

    /// Opens the trace of this name. Its mark is its number, from 0, among the traces handed out. A place that
    /// runs out of numbers, which are below 2^32, refuses: a counted fault.
    fn open_trace(&mut self, name: &str) -> Result<Self::Trace, Failed>
        ensures asked { asked self.new ≡ asked self.old ++ record { wanted = Wanted.Trace name.now; opened = is_ok result } ∷ [] }
        ensures handed { IfOk result (λ trace. handed_traces self.new ≡ handed_traces self.old ++ trace ∷ []) }
        ensures number { IfOk result (λ trace. Self.Trace.mark trace ≡ length (handed_traces self.old)) }
        ensures refused { OnErr result (handed_traces self.new ≡ handed_traces self.old) }
        ensures bays { handed_bays self.new ≡ handed_bays self.old }
        ensures returned_traces { (number : ℕ) → returned_trace self.new number ≡ returned_trace self.old number }
        ensures returned_bays { (number : ℕ) → returned_bay self.new number ≡ returned_bay self.old number }
        ensures cause { HasCause (Self.faults self.old) (Self.faults self.new) result }
        ensures mark { Self.mark self.new ≡ Self.mark self.old };

    /// Opens the files of this cone in this directory. The bay's mark is its number, from 0, among the bays
    /// handed out, which run out as those of traces do.
    fn open_bay(&mut self, dir: &str, cone: u32) -> Result<Self::Bay, Failed>
        ensures asked { asked self.new ≡ asked self.old ++ record { wanted = Wanted.Bay dir.now cone; opened = is_ok result } ∷ [] }
        ensures handed { IfOk result (λ bay. handed_bays self.new ≡ handed_bays self.old ++ bay ∷ []) }
        ensures number { IfOk result (λ bay. Self.Bay.mark bay ≡ length (handed_bays self.old)) }
        ensures refused { OnErr result (handed_bays self.new ≡ handed_bays self.old) }
        ensures traces { handed_traces self.new ≡ handed_traces self.old }
        ensures returned_traces { (number : ℕ) → returned_trace self.new number ≡ returned_trace self.old number }
        ensures returned_bays { (number : ℕ) → returned_bay self.new number ≡ returned_bay self.old number }
        ensures cause { HasCause (Self.faults self.old) (Self.faults self.new) result }
        ensures mark { Self.mark self.new ≡ Self.mark self.old };

    /// Takes back a trace that was handed out, under its number. It can't fail, and takes no memory.
    fn put_back_trace(&mut self, number: u32, trace: Self::Trace)
        requires handed { number < length (handed_traces self.old) }
        requires marked { Self.Trace.mark trace ≡ number }
        ensures returned { returned_trace self.new number ≡ Some trace }
        ensures others { (other : ℕ) → other ≢ number → returned_trace self.new other ≡ returned_trace self.old other }
        ensures returned_bays { (other : ℕ) → returned_bay self.new other ≡ returned_bay self.old other }
        ensures asked { asked self.new ≡ asked self.old }
        ensures traces { handed_traces self.new ≡ handed_traces self.old }
        ensures bays { handed_bays self.new ≡ handed_bays self.old }
        ensures faults { Self.faults self.new ≡ Self.faults self.old }
        ensures mark { Self.mark self.new ≡ Self.mark self.old };

    /// Takes back a bay that was handed out, under its number. It can't fail, and takes no memory.
    fn put_back_bay(&mut self, cone: u32, bay: Self::Bay)
        requires handed { cone < length (handed_bays self.old) }
        requires marked { Self.Bay.mark bay ≡ cone }
        ensures returned { returned_bay self.new cone ≡ Some bay }
        ensures others { (other : ℕ) → other ≢ cone → returned_bay self.new other ≡ returned_bay self.old other }
        ensures returned_traces { (other : ℕ) → returned_trace self.new other ≡ returned_trace self.old other }
        ensures asked { asked self.new ≡ asked self.old }
        ensures traces { handed_traces self.new ≡ handed_traces self.old }
        ensures bays { handed_bays self.new ≡ handed_bays self.old }
        ensures faults { Self.faults self.new ≡ Self.faults self.old }
        ensures mark { Self.mark self.new ≡ Self.mark self.old };

    /// As many traces were handed out as openings of traces were granted.
    ghost tied_traces: { (place : Self) → length (handed_traces place) ≡ traces_granted (asked place) };

    /// As many bays were handed out as openings of bays were granted.
    ghost tied_bays: { (place : Self) → length (handed_bays place) ≡ bays_granted (asked place) };
}
