//! What a place was asked for, and what it handed out of it.

ghost use Rattle.std.specs.Prelude.{◌≡◌, ◌<◌, ◌++◌, ◌∷◌, [], true, false, length, slice_set, slice_index_or, Some, None, IfSome, IfNone, OnOk, OnErr};
ghost use Rattle.lert_place.specs.Openings.{bays_granted, traces_granted};

use crate::lent::Lent;
use crate::opening::{Opening, Wanted};
use lert_io::{OutOfMemory, Seen};
use std::alloc::Global;

/// The openings that were asked for, which contracts alone see, and the loans of both kinds: of each as many as
/// openings were granted.
#[derive(Drop)]
pub struct Ledger<T: Drop, B: Drop> {
    pub asked: Seen<Opening>,
    pub traces: Lent<T>,
    pub bays: Lent<B>,
    ghost tied_traces: { length traces.handed ≡ traces_granted asked },
    ghost tied_bays: { length bays.handed ≡ bays_granted asked },
}

impl<T: Drop, B: Drop> Ledger<T, B> {
    /// Nothing was asked for.
    pub fn new(alloc: Global) -> Ledger<T, B>
        ensures asked { result.asked ≡ [] }
        ensures traces { result.traces ≡ record { handed = []; returned = [] } }
        ensures bays { result.bays ≡ record { handed = []; returned = [] } }
    {
        Ledger {
            asked: Seen::new(),
            traces: Lent::new(alloc),
            bays: Lent::new(alloc),
        }
    }

    /// Notes an opening that failed.
    pub fn refuse(&mut self, opening: &Opening)
        requires { opening.now.opened ≡ false }
        ensures asked { self.new.asked ≡ self.old.asked ++ opening.now ∷ [] }
        ensures traces { self.new.traces ≡ self.old.traces }
        ensures bays { self.new.bays ≡ self.old.bays }
    {
        self.asked.push(opening);
    }

    /// Hands out the trace of a name, with the room for it to come back. A refusal changes nothing; it comes
    /// also behind 2^32 - 1 of them.
    pub fn hand_out_trace(&mut self, name: &str, trace: &T) -> Result<(), OutOfMemory>
        ensures asked { OnOk result (self.new.asked ≡ self.old.asked ++ record { wanted = Wanted.Trace name.now; opened = true } ∷ []) }
        ensures traces { OnOk result (self.new.traces ≡ record {
          handed = self.old.traces.handed ++ trace.now ∷ [];
          returned = self.old.traces.returned ++ None ∷ [];
        }) }
        ensures asked_still { OnErr result (self.new.asked ≡ self.old.asked) }
        ensures traces_still { OnErr result (self.new.traces ≡ self.old.traces) }
        ensures bays { self.new.bays ≡ self.old.bays }
    {
        self.traces.hand_out(trace)?;
        self.asked.push(&Opening::of_trace(name, true));
        Ok(())
    }

    /// Hands out the bay of this cone in this directory, as `hand_out_trace` does a trace.
    pub fn hand_out_bay(&mut self, dir: &str, cone: u32, bay: &B) -> Result<(), OutOfMemory>
        ensures asked { OnOk result (self.new.asked ≡ self.old.asked ++ record { wanted = Wanted.Bay dir.now cone; opened = true } ∷ []) }
        ensures bays { OnOk result (self.new.bays ≡ record {
          handed = self.old.bays.handed ++ bay.now ∷ [];
          returned = self.old.bays.returned ++ None ∷ [];
        }) }
        ensures asked_still { OnErr result (self.new.asked ≡ self.old.asked) }
        ensures bays_still { OnErr result (self.new.bays ≡ self.old.bays) }
        ensures traces { self.new.traces ≡ self.old.traces }
    {
        self.bays.hand_out(bay)?;
        self.asked.push(&Opening::of_bay(dir, cone, true));
        Ok(())
    }

    /// Takes back a trace under its number.
    pub fn take_back_trace(&mut self, number: u32, trace: T)
        requires { number < length self.old.traces.handed }
        ensures within { number < length self.old.traces.returned }
        ensures back { self.new.traces ≡ record self.old.traces { returned = slice_set self.old.traces.returned number (Some trace) } }
        ensures asked { self.new.asked ≡ self.old.asked }
        ensures bays { self.new.bays ≡ self.old.bays }
    {
        self.traces.take_back(number, trace);
    }

    /// Takes back a bay under its number.
    pub fn take_back_bay(&mut self, number: u32, bay: B)
        requires { number < length self.old.bays.handed }
        ensures within { number < length self.old.bays.returned }
        ensures back { self.new.bays ≡ record self.old.bays { returned = slice_set self.old.bays.returned number (Some bay) } }
        ensures asked { self.new.asked ≡ self.old.asked }
        ensures traces { self.new.traces ≡ self.old.traces }
    {
        self.bays.take_back(number, bay);
    }
}
