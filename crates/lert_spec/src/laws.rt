//! The time bound.

ghost use Rattle.std.specs.Prelude.{List, ◌≤◌, length};
ghost use Rattle.lert_spec.specs.Edges.{capacity};
ghost use Rattle.lert_spec.specs.Limits.{IsValid};
ghost use Rattle.lert_spec.specs.Counts.{weighed};
ghost use Rattle.lert_spec.specs.declared.item.Item.{Item};
ghost use Rattle.lert_spec.specs.Look.{look_of, closing_of};
ghost use Rattle.lert_spec.specs.Timely.{IsTimelyIn, IsTimelySoFarIn};

use crate::Numbers;

/// For valid settings, and events within the capacity, each key that weighs T is reported once at the close, late
/// by no more than the time bound says; and until then, so far, each key that is due by the bound.
pub fn reports_come_in_time(s: &Numbers)
    requires { IsValid s.now }
    ensures closing { (events : List Item) → length events ≤ capacity s.now → IsTimelyIn weighed s.now.threshold s.now.bins events (closing_of weighed s.now events) }
    ensures so_far { (events : List Item) → length events ≤ capacity s.now → IsTimelySoFarIn weighed s.now.threshold s.now.bins events (look_of weighed s.now events) }
{}
