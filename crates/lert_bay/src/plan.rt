//! Which calls of a bay in memory are to fail.

ghost use Rattle.std.specs.Prelude.{◌≡◌, ◌↔◌, IsTrue};

/// The number of the call that is to fail, and that of the first call from which on all fail, both
/// counted from the next call, which has the number 1.
#[derive(Clone, Copy)]
pub struct Plan {
    pub fail: Option<u64>,
    pub stop: Option<u64>,
}

impl Plan {
    ghost use Rattle.lert_bay.specs.Memory.{Strikes, ticked, calm};

    /// No call is to fail.
    pub fn calm() -> Plan
        ensures { result ≡ calm }
    {
        Plan {
            fail: None,
            stop: None,
        }
    }

    /// Whether the next call is to fail. The call behind it is then the next one.
    pub fn tick(&mut self) -> bool
        ensures strikes { IsTrue result ↔ Strikes self.old }
        ensures plan { self.new ≡ ticked self.old }
    {
        let strikes = self.fail == Some(1) || self.stop.is_some_and(|number| number <= 1);
        self.fail = self.fail.map(|number| number.saturating_sub(1));
        self.stop = self.stop.map(|number| number.saturating_sub(1));
        strikes
    }
}
