//! Which calls of an object in memory are to fail.

ghost use Rattle.std.specs.Prelude.{◌≡◌, ◌↔◌, [], ◌∷◌, ◌++◌, IfOk, OnOk, OnErr, IsTrue, Contains};

use crate::faulty::OutOfMemory;
use std::alloc::Global;
use std::marker::Model;

/// The numbers, from 1, of the calls that are to fail, seen as their list.
#[derive(Drop)]
pub struct CallList {
    calls: Vec<u64>,
}

impl Model for CallList {
    ghost use Rattle.std.specs.Prelude.{List, ℕ};

    ghost Value = { List ℕ };

    ghost view = { λ list. list.calls.items };
}

impl CallList {
    /// No call.
    pub fn new(alloc: Global) -> Result<CallList, OutOfMemory>
        ensures { IfOk result (λ list. list ≡ []) }
    {
        Ok(CallList {
            calls: Vec::new(alloc),
        })
    }

    /// Adds the call with this number. A refusal leaves the list as it was.
    pub fn push(&mut self, call: u64) -> Result<(), OutOfMemory>
        ensures ok { OnOk result (self.new ≡ self.old ++ call ∷ []) }
        ensures err { OnErr result (self.new ≡ self.old) }
    {
        self.calls.push(call)?;
        Ok(())
    }

    /// Whether the call with this number is to fail. One look at each number of the list.
    pub fn contains(&self, call: u64) -> bool
        ensures { IsTrue result ↔ Contains self.now call }
    {
        self.calls.contains(&call)
    }

    /// The same list in memory of its own.
    pub fn copied(&self, alloc: Global) -> Result<CallList, OutOfMemory>
        ensures { IfOk result (λ list. list ≡ self.now) }
    {
        Ok(CallList {
            calls: Vec::from_slice(alloc, self.calls.as_slice())?,
        })
    }
}
