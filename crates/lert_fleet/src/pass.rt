//! What a caller holds of a fleet.

ghost use Rattle.std.specs.Prelude.{◌≡◌};

use lert_base::Held;
use lert_conelock::Pass;
use std::marker::Model;

/// A caller's part of a fleet: a range of numbers, and for each cone the pass of its lock with that
/// range. It takes the memory of a list of the cones, and crosses threads where the state may. It can't
/// be let go: it is joined to another one, or closes the fleet.
pub struct FleetPass<S: Held> {
    pub(crate) lo: u32,
    pub(crate) hi: u32,
    pub(crate) cones: Vec<Pass<S>>,
    // Emptied. In the pass that has number 0 it is the list that the states came in, which `close` fills
    // again. It isn't in the fleet, since threads share that where a state may only cross them.
    pub(crate) states: Vec<S>,
}

impl<S: Held> Model for FleetPass<S> {
    ghost use Rattle.std.specs.Prelude.{◌≡◌, ◌≤◌, [], length, vec_capacity};
    ghost use Rattle.lert_fleet.specs.Cones.{FleetPassSight};

    ghost Value = { FleetPassSight S S.Refusal };

    ghost view = { λ p. record { lo = p.lo; hi = p.hi; cones = p.cones.items } };

    ghost invariant = { λ p. (p.states.items ≡ [])
        × (p.lo ≡ 0 → length p.cones.items ≤ vec_capacity p.states) };
}

impl<S: Held> FleetPass<S> {
    /// The first number of the range: the one that its calls come under.
    pub fn number(&self) -> u32
        ensures { result ≡ self.now.lo }
    {
        self.lo
    }
}
