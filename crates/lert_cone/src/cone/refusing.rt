//! The tests of a call, before its first step.

ghost use Rattle.std.specs.Prelude.{◌≡◌, ◌↔◌, ℕ, ◌+◌, ◌<◌, ◌≤◌, ◌^◌, true, length, None, Some, Err, IfErr, MatchResult, OnOk};
ghost use Rattle.lert_spec.specs.Edges.{capacity, weight_room};
ghost use Rattle.lert_cone.specs.Refuses.{FailsTest, IsStoppedBy, PassesTest, first_weighed};
ghost use Rattle.lert_cone.specs.Stands.{is_broken, is_refusal};

use crate::cone::Cone;
use crate::items::Items;
use crate::state::ConeState;
use lert_base::{ConeFault, CountTable, Entry};
use lert_bay::Bay;

impl<B: Bay, T: CountTable> Cone<B, T> {
    // The tests of a packet, in their order. Answers what its items weigh.
    pub(crate) fn test(&self, entry: &Entry) -> Result<u64, ConeFault>
        requires few { length entry.now.keys.items < 2 ^ 32 }
        ensures { MatchResult result (PassesTest self.now entry.now.keys.items) (FailsTest self.now entry.now.keys.items) }
    {
        self.test_state()?;
        let items = Items::of(entry);
        self.test_len(items.len() as u64)?;
        let more = items.weight();
        self.test_weight(more)?;
        test_version(self.last.version, &items)?;
        Ok(more)
    }

    // Whether it has a place for so many items.
    fn test_len(&self, len: u64) -> Result<(), ConeFault>
        requires { len < 2 ^ 32 }
        ensures { MatchResult result
            (λ _. self.now.events + len ≤ capacity self.now.listing.settings)
            (λ fault. (fault ≡ ConeFault.CapacityFull self.now.events len) × (capacity self.now.listing.settings < self.now.events + len)) }
    {
        if self.events + len > self.tally.settings().capacity() {
            return Err(ConeFault::CapacityFull {
                n: self.events,
                len,
            });
        }
        Ok(())
    }

    // Whether it takes so much weight.
    fn test_weight(&self, more: u64) -> Result<(), ConeFault>
        requires { more < 2 ^ 40 }
        ensures { MatchResult result
            (λ _. self.now.weight + more ≤ weight_room self.now.listing.settings)
            (λ fault. (fault ≡ ConeFault.WeightFull self.now.weight more) × (weight_room self.now.listing.settings < self.now.weight + more)) }
    {
        if self.weight + more > self.tally.settings().weight_room() {
            return Err(ConeFault::WeightFull {
                weight: self.weight,
                more,
            });
        }
        Ok(())
    }

    // The tests of any call.
    pub(crate) fn test_state(&self) -> Result<(), ConeFault>
        ensures ok { OnOk result (self.now.state ≡ ConeState.Running) }
        ensures closed { (result ≡ Err ConeFault.Closed) ↔ (self.now.state ≡ ConeState.Finished) }
        ensures broken { (result ≡ Err ConeFault.Broken) ↔ (is_broken self.now.state ≡ true) }
        ensures refusal { IfErr result (λ fault. is_refusal fault ≡ true) }
        ensures why { IfErr result (IsStoppedBy self.now.state) }
    {
        match self.state {
            ConeState::Running => Ok(()),
            ConeState::Finished => Err(ConeFault::Closed),
            ConeState::BrokenByBay => Err(ConeFault::Broken),
            ConeState::BrokenByRead { .. } => Err(ConeFault::Broken),
        }
    }
}

// Whether files of this version can say what these items weigh: those of version 1 say of none that it weighs another
// amount than 1.
fn test_version(version: u8, items: &Items<'_>) -> Result<(), ConeFault>
    ensures { MatchResult result
        (λ _. version ≡ 1 → first_weighed items.now ≡ None)
        (λ fault. (place : ℕ) × (version ≡ 1) × (first_weighed items.now ≡ Some place) × (fault ≡ ConeFault.OldJournal place)) }
{
    if version != 1 {
        return Ok(());
    }
    match items.first_weighed() {
        Some(place) => Err(ConeFault::OldJournal { place }),
        None => Ok(()),
    }
}
