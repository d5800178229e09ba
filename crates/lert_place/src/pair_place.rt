//! A place of two sources that meet and one bay, for tests of two workers.

ghost use Rattle.std.specs.Prelude.{◌≡◌, ◌⊎◌, ◌+◌, ◌<◌, ◌≤◌, ◌++◌, ◌∷◌, [], false, min, length, is_ok, Some, None, IfOk, OnOk, OnErr, MatchOption};
ghost use Rattle.lert_bay.specs.Memory.{Disk};
ghost use Rattle.lert_io.specs.Fault.{HasCause, HasRisen};
ghost use Rattle.lert_io.specs.Memory.{Pairing};
ghost use Rattle.lert_place.specs.Pair.{IsEmptyBay, of_one, of_two, ready};

use crate::handed::Handed;
use crate::opening::{Opening, Wanted};
use crate::place::Place;
use lert_bay::MemBay;
use lert_io::{Failed, Faulty, PairedSource};

/// Two traces and one bay. Whatever the names are, the first opening of a trace hands out the first one, the second the second
/// one, and the first opening of a bay the bay, each marked with its number; each further opening is a counted fault. It takes
/// no memory.
#[derive(Drop)]
pub struct PairPlace {
    first: Option<PairedSource>,
    second: Option<PairedSource>,
    bay: Option<MemBay>,
    handed: Handed<PairedSource, MemBay>,
    opened: u32,
    first_back: Option<PairedSource>,
    second_back: Option<PairedSource>,
    bay_back: Option<MemBay>,
    faults: u64,
    ghost counted: { opened ≡ length handed.traces },
    ghost few: { opened ≤ 2 },
    ghost few_bays: { length handed.bays ≤ 1 },
    ghost one_bay: { 1 ≤ length handed.bays → bay ≡ None },
}

impl PairPlace {
    /// A place of two traces and a bay, whose three files are empty.
    pub fn new(first: PairedSource, second: PairedSource, bay: MemBay) -> PairPlace
        requires { IsEmptyBay bay }
        ensures first { result.first ≡ Some first }
        ensures second { result.second ≡ Some second }
        ensures bay { result.bay ≡ Some bay }
        ensures asked { result.handed.asked ≡ [] }
        ensures opened { result.opened ≡ 0 }
        ensures first_back { result.first_back ≡ None }
        ensures second_back { result.second_back ≡ None }
        ensures bay_back { result.bay_back ≡ None }
        ensures faults { result.faults ≡ 0 }
    {
        PairPlace {
            first: Some(first),
            second: Some(second),
            bay: Some(bay),
            handed: Handed::new(),
            opened: 0,
            first_back: None,
            second_back: None,
            bay_back: None,
            faults: 0,
        }
    }

    /// The trace that was last put back under a number. None comes exactly where nothing was.
    pub fn trace(&self, number: u32) -> Option<&PairedSource>
        ensures { MatchOption result (of_two self.now.first_back self.now.second_back number ≡ None)
            (λ trace. of_two self.now.first_back self.now.second_back number ≡ Some trace.now) }
    {
        if number == 0 {
            return self.first_back.as_ref();
        }
        if number == 1 {
            return self.second_back.as_ref();
        }
        None
    }

    /// The bay that was last put back under a number. None comes exactly where nothing was.
    pub fn bay(&self, cone: u32) -> Option<&MemBay>
        ensures { MatchOption result (of_one self.now.bay_back cone ≡ None) (λ bay. of_one self.now.bay_back cone ≡ Some bay.now) }
    {
        if cone == 0 {
            return self.bay_back.as_ref();
        }
        None
    }

    /// An opening of a trace: the next of the two, marked with its number. It fails where both are gone.
    pub fn hand_out_trace(&mut self, name: &str) -> Result<PairedSource, Failed>
        ensures next { IfOk result (λ trace. (source : Pairing) × (ready self.old.first self.old.second ≡ source ∷ ready self.new.first self.new.second)
            × (trace ≡ record source { mark = length self.old.handed.traces })) }
        ensures none { OnErr result ((ready self.old.first self.old.second ≡ []) ⊎ (length self.old.handed.traces ≡ 2)) }
        ensures asked { self.new.handed.asked ≡ self.old.handed.asked ++ record { wanted = Wanted.Trace name.now; opened = is_ok result } ∷ [] }
        ensures handed { IfOk result (λ trace. self.new.handed.traces ≡ self.old.handed.traces ++ trace ∷ []) }
        ensures still { OnErr result (self.new.handed.traces ≡ self.old.handed.traces) }
        ensures bays { self.new.handed.bays ≡ self.old.handed.bays }
        ensures first_back { self.new.first_back ≡ self.old.first_back }
        ensures second_back { self.new.second_back ≡ self.old.second_back }
        ensures bay_back { self.new.bay_back ≡ self.old.bay_back }
        ensures bay { self.new.bay ≡ self.old.bay }
        ensures no_fault { OnOk result (self.new.faults ≡ self.old.faults) }
        ensures failed { OnErr result (self.new.faults ≡ min (self.old.faults + 1) 18446744073709551615) }
        ensures cause { HasCause self.old.faults self.new.faults result }
    {
        if self.opened == 2 {
            self.handed.refuse(&Opening::of_trace(name, false));
            self.faults = self.faults.saturating_add(1);
            return Err(Failed);
        }
        let Some(trace) = take_next(&mut self.first, &mut self.second) else {
            self.handed.refuse(&Opening::of_trace(name, false));
            self.faults = self.faults.saturating_add(1);
            return Err(Failed);
        };
        let trace = trace.marked(u64::from(self.opened));
        self.handed.hand_out_trace(name, &trace);
        self.opened += 1;
        Ok(trace)
    }

    /// An opening of a bay: the bay, marked with 0. It fails where it is gone.
    pub fn hand_out_bay(&mut self, dir: &str, cone: u32) -> Result<MemBay, Failed>
        ensures next { IfOk result (λ bay. (source : Disk) × (self.old.bay ≡ Some source) × (self.new.bay ≡ None) × (bay ≡ record source { mark = 0 })) }
        ensures none { OnErr result (self.old.bay ≡ None) }
        ensures asked { self.new.handed.asked ≡ self.old.handed.asked ++ record { wanted = Wanted.Bay dir.now cone; opened = is_ok result } ∷ [] }
        ensures first_one { OnOk result (self.old.handed.bays ≡ []) }
        ensures handed { IfOk result (λ bay. self.new.handed.bays ≡ self.old.handed.bays ++ bay ∷ []) }
        ensures still { OnErr result (self.new.handed.bays ≡ self.old.handed.bays) }
        ensures traces { self.new.handed.traces ≡ self.old.handed.traces }
        ensures first_back { self.new.first_back ≡ self.old.first_back }
        ensures second_back { self.new.second_back ≡ self.old.second_back }
        ensures bay_back { self.new.bay_back ≡ self.old.bay_back }
        ensures no_fault { OnOk result (self.new.faults ≡ self.old.faults) }
        ensures failed { OnErr result (self.new.faults ≡ min (self.old.faults + 1) 18446744073709551615) }
        ensures cause { HasCause self.old.faults self.new.faults result }
    {
        let Some(bay) = self.bay.take() else {
            self.handed.refuse(&Opening::of_bay(dir, cone, false));
            self.faults = self.faults.saturating_add(1);
            return Err(Failed);
        };
        let bay = bay.marked(0);
        self.handed.hand_out_bay(dir, cone, &bay);
        Ok(bay)
    }
}

// The next of two that are still there.
fn take_next(
    first: &mut Option<PairedSource>,
    second: &mut Option<PairedSource>,
) -> Option<PairedSource>
    ensures { MatchOption result (ready first.old second.old ≡ []) (λ trace. ready first.old second.old ≡ trace ∷ ready first.new second.new) }
{
    match first.take() {
        Some(trace) => Some(trace),
        None => second.take(),
    }
}

impl Faulty for PairPlace {
    ghost faults = { λ p. p.faults };

    ghost mark = { λ _. 0 };
}

impl Place for PairPlace {
    type Trace = PairedSource;

    type Bay = MemBay;

    ghost use Rattle.lert_place.specs.Pair.{of_one, of_two};

    ghost asked = { λ p. p.handed.asked };

    ghost handed_traces = { λ p. p.handed.traces };

    ghost handed_bays = { λ p. p.handed.bays };

    ghost returned_trace = { λ p number. of_two p.first_back p.second_back number };

    ghost returned_bay = { λ p number. of_one p.bay_back number };

    ghost tied_traces = { λ p. p.handed.tied_traces };

    ghost tied_bays = { λ p. p.handed.tied_bays };

    fn open_trace(&mut self, name: &str) -> Result<PairedSource, Failed> {
        self.hand_out_trace(name)
    }

    fn open_bay(&mut self, dir: &str, cone: u32) -> Result<MemBay, Failed> {
        self.hand_out_bay(dir, cone)
    }

    fn put_back_trace(&mut self, number: u32, trace: PairedSource) {
        if number == 0 {
            self.first_back = Some(trace);
        } else {
            self.second_back = Some(trace);
        }
    }

    fn put_back_bay(&mut self, _cone: u32, bay: MemBay) {
        self.bay_back = Some(bay);
    }
}
