//! Where the bins of level 0 stand, in numbers.

ghost use Rattle.std.specs.Prelude.{◌≡◌, ◌≢◌, ◌+◌, ◌-◌, ◌^◌, ◌≤◌, ◌<◌, ◌==◌, if◌then◌else◌};

/// The bins of level 0 in numbers, which are kept so that no event divides.
#[derive(Clone, Copy, Drop)]
pub(crate) struct Extent {
    // The last position before the oldest bin.
    pub(crate) from: u64,
    // The last position in the newest one.
    pub(crate) to: u64,
    // How many bins there are.
    pub(crate) bins: u64,
    // The last position that the newest bin has room for, `from` where there is none.
    pub(crate) end: u64,
}

impl Extent {
    /// The bins once position `m` is in the newest one, or in a new one of this span where the newest is whole.
    pub(crate) fn grow(&mut self, m: u64, span: u64)
        requires first { 1 ≤ m }
        requires last { m + span < 2 ^ 63 }
        requires few { self.old.bins < 2 ^ 63 }
        ensures from { self.new.from ≡ (if self.old.from == self.old.to then m - 1 else self.old.from) }
        ensures to { self.new.to ≡ m }
        ensures begins { self.old.to ≡ self.old.end → (self.new.bins ≡ self.old.bins + 1) × (self.new.end ≡ m - 1 + span) }
        ensures grows { self.old.to ≢ self.old.end → (self.new.bins ≡ self.old.bins) × (self.new.end ≡ self.old.end) }
    {
        if self.from == self.to {
            self.from = m - 1;
        }
        if self.to == self.end {
            self.bins += 1;
            self.end = m - 1 + span;
        }
        self.to = m;
    }
}
