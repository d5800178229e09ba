//! A place in memory, for tests: traces and bays that were added, and what came back.

ghost use Rattle.std.specs.Prelude.{◌≡◌, ◌+◌, ◌≤◌, ◌++◌, ◌∷◌, [], false, min, length, slice_index_or, is_ok, Some, None, IfOk, IfSome, IfNone, OnOk, OnErr};
ghost use Rattle.lert_io.specs.Fault.{HasCause, HasRisen};
ghost use Rattle.lert_place.specs.Shelf.{IsTraceCopy, IsBayCopy, is_of};

use crate::ledger::Ledger;
use crate::opening::{Opening, Wanted};
use crate::place::Place;
use lert_bay::MemBay;
use lert_io::{Failed, Faulty, MemSource, OutOfMemory};
use std::alloc::Global;
use std::marker::Model;

// A trace under a name.
#[derive(Drop)]
struct NamedTrace {
    name: String,
    source: MemSource,
}

impl Model for NamedTrace {
    ghost use Rattle.std.specs.String.{string_bytes};
    ghost use Rattle.lert_place.specs.Shelf.{NamedTrace as Trace};

    ghost Value = { Trace };

    ghost view = { λ t. record { name = string_bytes t.name; source = t.source } };
}

// The bay of a cone in a directory.
#[derive(Drop)]
struct NamedBay {
    dir: String,
    cone: u32,
    bay: MemBay,
}

impl Model for NamedBay {
    ghost use Rattle.std.specs.String.{string_bytes};
    ghost use Rattle.lert_place.specs.Shelf.{NamedBay as Cone};

    ghost Value = { Cone };

    ghost view = { λ b. record { dir = string_bytes b.dir; cone = b.cone; bay = b.bay } };
}

impl NamedBay {
    // Whether it is the bay of this cone in this directory.
    fn is_of(&self, dir: &str, cone: u32) -> bool
        ensures { result ≡ is_of self.now dir.now cone }
    {
        self.cone == cone && self.dir.as_str() == dir
    }
}

/// Traces under names, and bays under directories and cones. An opening hands out a copy, so that what was
/// added stays as it was.
#[derive(Drop)]
pub struct MemPlace {
    alloc: Global,
    traces: Vec<NamedTrace>,
    bays: Vec<NamedBay>,
    ledger: Ledger<MemSource, MemBay>,
    faults: u64,
}

impl Model for MemPlace {
    ghost use Rattle.lert_place.specs.Kept.{Shelf};

    ghost Value = { Shelf };

    ghost view = { λ p. record { traces = p.traces.items; bays = p.bays.items; ledger = p.ledger; faults = p.faults } };
}

impl MemPlace {
    /// A place with no trace and no bay.
    pub fn new(alloc: Global) -> Result<MemPlace, OutOfMemory>
        ensures empty { IfOk result (λ place. (place.traces ≡ []) × (place.bays ≡ [])) }
        ensures asked { IfOk result (λ place. place.ledger.asked ≡ []) }
        ensures traces { IfOk result (λ place. place.ledger.traces ≡ record { handed = []; returned = [] }) }
        ensures bays { IfOk result (λ place. place.ledger.bays ≡ record { handed = []; returned = [] }) }
        ensures faults { IfOk result (λ place. place.faults ≡ 0) }
    {
        Ok(MemPlace {
            alloc,
            traces: Vec::new(alloc),
            bays: Vec::new(alloc),
            ledger: Ledger::new(alloc),
            faults: 0,
        })
    }

    /// Adds a trace under a name. Where the name has a trace already, that one stays the one that is
    /// opened. A refusal leaves the place as it was.
    pub fn add_trace(&mut self, name: &str, source: MemSource) -> Result<(), OutOfMemory>
        ensures ok { OnOk result (self.new ≡ record self.old { traces = self.old.traces ++ record { name = name.now; source = source } ∷ [] }) }
        ensures err { OnErr result (self.new ≡ self.old) }
    {
        let name = String::from_str(self.alloc, name)?;
        self.traces.push(NamedTrace { name, source })?;
        Ok(())
    }

    /// Adds the bay of a cone in a directory. Where that cone has a bay there already, that one stays the
    /// one that is opened. A refusal leaves the place as it was.
    pub fn add_bay(&mut self, dir: &str, cone: u32, bay: MemBay) -> Result<(), OutOfMemory>
        ensures ok { OnOk result (self.new ≡ record self.old { bays = self.old.bays ++ record { dir = dir.now; cone = cone; bay = bay } ∷ [] }) }
        ensures err { OnErr result (self.new ≡ self.old) }
    {
        let dir = String::from_str(self.alloc, dir)?;
        self.bays.push(NamedBay { dir, cone, bay })?;
        Ok(())
    }

    /// The trace that was last put back under a number. None comes exactly where nothing was.
    pub fn trace(&self, number: u32) -> Option<&MemSource>
        ensures some { IfSome result (λ trace. slice_index_or self.now.ledger.traces.returned number None ≡ Some trace.now) }
        ensures none { IfNone result (slice_index_or self.now.ledger.traces.returned number None ≡ None) }
    {
        self.ledger.traces.returned(number)
    }

    /// The bay that was last put back under a number. None comes exactly where nothing was.
    pub fn bay(&self, cone: u32) -> Option<&MemBay>
        ensures some { IfSome result (λ bay. slice_index_or self.now.ledger.bays.returned cone None ≡ Some bay.now) }
        ensures none { IfNone result (slice_index_or self.now.ledger.bays.returned cone None ≡ None) }
    {
        self.ledger.bays.returned(cone)
    }

    /// An opening of a trace: a copy of the first one that was added under this name, marked with its
    /// number. It fails where no trace has the name, or no memory is left for the copy.
    pub fn hand_out_trace(&mut self, name: &str) -> Result<MemSource, Failed>
        ensures copy { IfOk result (IsTraceCopy self.old.traces name.now (length self.old.ledger.traces.handed)) }
        ensures asked { self.new.ledger.asked ≡ self.old.ledger.asked ++ record { wanted = Wanted.Trace name.now; opened = is_ok result } ∷ [] }
        ensures handed { IfOk result (λ trace. self.new.ledger.traces ≡ record {
          handed = self.old.ledger.traces.handed ++ trace ∷ [];
          returned = self.old.ledger.traces.returned ++ None ∷ [];
        }) }
        ensures still { OnErr result (self.new.ledger.traces ≡ self.old.ledger.traces) }
        ensures others { self.new ≡ record self.old { ledger = self.new.ledger; faults = self.new.faults } }
        ensures bays { self.new.ledger.bays ≡ self.old.ledger.bays }
        ensures no_fault { OnOk result (self.new.faults ≡ self.old.faults) }
        ensures failed { OnErr result (self.new.faults ≡ min (self.old.faults + 1) 18446744073709551615) }
        ensures cause { HasCause self.old.faults self.new.faults result }
    {
        let Some(trace) = self.trace_copy(name) else {
            return Err(self.refuse(&Opening::of_trace(name, false)));
        };
        if self.ledger.hand_out_trace(name, &trace).is_err() {
            return Err(self.refuse(&Opening::of_trace(name, false)));
        }
        Ok(trace)
    }

    /// An opening of a bay: a copy of the first one that was added for this cone in this directory, marked
    /// with its number. It fails where there is none, or no memory is left for the copy.
    pub fn hand_out_bay(&mut self, dir: &str, cone: u32) -> Result<MemBay, Failed>
        ensures copy { IfOk result (IsBayCopy self.old.bays dir.now cone (length self.old.ledger.bays.handed)) }
        ensures asked { self.new.ledger.asked ≡ self.old.ledger.asked ++ record { wanted = Wanted.Bay dir.now cone; opened = is_ok result } ∷ [] }
        ensures handed { IfOk result (λ bay. self.new.ledger.bays ≡ record {
          handed = self.old.ledger.bays.handed ++ bay ∷ [];
          returned = self.old.ledger.bays.returned ++ None ∷ [];
        }) }
        ensures still { OnErr result (self.new.ledger.bays ≡ self.old.ledger.bays) }
        ensures others { self.new ≡ record self.old { ledger = self.new.ledger; faults = self.new.faults } }
        ensures traces { self.new.ledger.traces ≡ self.old.ledger.traces }
        ensures no_fault { OnOk result (self.new.faults ≡ self.old.faults) }
        ensures failed { OnErr result (self.new.faults ≡ min (self.old.faults + 1) 18446744073709551615) }
        ensures cause { HasCause self.old.faults self.new.faults result }
    {
        let Some(bay) = self.bay_copy(dir, cone) else {
            return Err(self.refuse(&Opening::of_bay(dir, cone, false)));
        };
        if self.ledger.hand_out_bay(dir, cone, &bay).is_err() {
            return Err(self.refuse(&Opening::of_bay(dir, cone, false)));
        }
        Ok(bay)
    }

    // A copy of the trace of this name, marked with the number of the next trace.
    fn trace_copy(&self, name: &str) -> Option<MemSource>
        ensures { IfSome result (IsTraceCopy self.now.traces name.now (length self.now.ledger.traces.handed)) }
    {
        for trace in &self.traces {
            if trace.name.as_str() == name {
                let copy = trace.source.copied(self.alloc).ok()?;
                return Some(copy.marked(u64::from(self.ledger.traces.count())));
            }
        }
        None
    }

    // A copy of the bay of this cone in this directory, marked with the number of the next bay.
    fn bay_copy(&self, dir: &str, cone: u32) -> Option<MemBay>
        ensures { IfSome result (IsBayCopy self.now.bays dir.now cone (length self.now.ledger.bays.handed)) }
    {
        for bay in &self.bays {
            if bay.is_of(dir, cone) {
                let copy = bay.bay.copied(self.alloc).ok()?;
                return Some(copy.marked(u64::from(self.ledger.bays.count())));
            }
        }
        None
    }

    // Notes an opening that failed, and counts it.
    fn refuse(&mut self, opening: &Opening) -> Failed
        requires { opening.now.opened ≡ false }
        ensures asked { self.new.ledger.asked ≡ self.old.ledger.asked ++ opening.now ∷ [] }
        ensures traces { self.new.ledger.traces ≡ self.old.ledger.traces }
        ensures bays { self.new.ledger.bays ≡ self.old.ledger.bays }
        ensures refused { self.new ≡ record self.old { ledger = self.new.ledger; faults = min (self.old.faults + 1) 18446744073709551615 } }
        ensures counted { HasRisen self.old.faults self.new.faults }
        ensures never_falls { self.old.faults ≤ self.new.faults }
    {
        self.ledger.refuse(opening);
        self.faults = self.faults.saturating_add(1);
        Failed
    }
}

impl Faulty for MemPlace {
    ghost faults = { λ p. p.faults };

    ghost mark = { λ _. 0 };
}

impl Place for MemPlace {
    type Trace = MemSource;

    type Bay = MemBay;

    ghost use Rattle.std.specs.Prelude.{slice_index_or, None};

    ghost asked = { λ p. p.ledger.asked };

    ghost handed_traces = { λ p. p.ledger.traces.handed };

    ghost handed_bays = { λ p. p.ledger.bays.handed };

    ghost returned_trace = { λ p number. slice_index_or p.ledger.traces.returned number None };

    ghost returned_bay = { λ p number. slice_index_or p.ledger.bays.returned number None };

    ghost tied_traces = { λ p. p.ledger.tied_traces };

    ghost tied_bays = { λ p. p.ledger.tied_bays };

    fn open_trace(&mut self, name: &str) -> Result<MemSource, Failed> {
        self.hand_out_trace(name)
    }

    fn open_bay(&mut self, dir: &str, cone: u32) -> Result<MemBay, Failed> {
        self.hand_out_bay(dir, cone)
    }

    fn put_back_trace(&mut self, number: u32, trace: MemSource) {
        self.ledger.take_back_trace(number, trace);
    }

    fn put_back_bay(&mut self, cone: u32, bay: MemBay) {
        self.ledger.take_back_bay(cone, bay);
    }
}
