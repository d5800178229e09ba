//! What a place was asked for and handed out, where it keeps no room for what comes back.

ghost use Rattle.std.specs.Prelude.{◌≡◌, ◌++◌, ◌∷◌, [], true, false, length};
ghost use Rattle.lert_place.specs.Openings.{bays_granted, traces_granted};

use crate::opening::{Opening, Wanted};
use lert_io::Seen;

/// The openings that were asked for, and the objects of both kinds that were handed out, as they were then. Contracts alone see
/// them: of each kind as many as openings were granted.
#[derive(Drop)]
pub struct Handed<T, B> {
    pub asked: Seen<Opening>,
    pub traces: Seen<T>,
    pub bays: Seen<B>,
    ghost tied_traces: { length traces ≡ traces_granted asked },
    ghost tied_bays: { length bays ≡ bays_granted asked },
}

impl<T, B> Handed<T, B> {
    /// Nothing was asked for.
    pub fn new() -> Handed<T, B>
        ensures asked { result.asked ≡ [] }
        ensures traces { result.traces ≡ [] }
        ensures bays { result.bays ≡ [] }
    {
        Handed {
            asked: Seen::new(),
            traces: Seen::new(),
            bays: Seen::new(),
        }
    }

    /// Notes an opening that failed.
    pub fn refuse(&mut self, opening: &Opening)
        requires { opening.now.opened ≡ false }
        ensures asked { self.new.asked ≡ self.old.asked ++ opening.now ∷ [] }
        ensures traces { self.new.traces ≡ self.old.traces }
        ensures bays { self.new.bays ≡ self.old.bays }
    {
        self.asked.push(opening);
    }

    /// Notes the trace of a name, which is handed out.
    pub fn hand_out_trace(&mut self, name: &str, trace: &T)
        ensures asked { self.new.asked ≡ self.old.asked ++ record { wanted = Wanted.Trace name.now; opened = true } ∷ [] }
        ensures traces { self.new.traces ≡ self.old.traces ++ trace.now ∷ [] }
        ensures bays { self.new.bays ≡ self.old.bays }
    {
        self.traces.push(trace);
        self.asked.push(&Opening::of_trace(name, true));
    }

    /// Notes the bay of this cone in this directory, which is handed out.
    pub fn hand_out_bay(&mut self, dir: &str, cone: u32, bay: &B)
        ensures asked { self.new.asked ≡ self.old.asked ++ record { wanted = Wanted.Bay dir.now cone; opened = true } ∷ [] }
        ensures bays { self.new.bays ≡ self.old.bays ++ bay.now ∷ [] }
        ensures traces { self.new.traces ≡ self.old.traces }
    {
        self.bays.push(bay);
        self.asked.push(&Opening::of_bay(dir, cone, true));
    }
}
