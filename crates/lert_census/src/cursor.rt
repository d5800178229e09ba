//! A place between two keys of a region.

use crate::region::Region;
use lert_cqf::CqfCursor;
use std::marker::Model;
use std::snapshot::Snapshot;

/// A place between two keys of a region, seen as that region as it was at the start, and the keys that are still to come
/// with what they weigh. It is of use as long as the region stays.
#[derive(Drop)]
pub struct RegionCursor {
    pub(crate) made: Snapshot<Region>,
    pub(crate) at: CqfCursor,
}

impl Model for RegionCursor {
    ghost use Rattle.std.specs.Prelude.{drop};
    ghost use Rattle.lert_census.specs.Census.{IsWalking, Walk, lines_of};

    ghost Value = { Walk };

    ghost view = { λ c. record { region = c.made.value; left = drop c.at.given (lines_of c.made.value) } };

    ghost invariant = { λ c. IsWalking c.made.value c.at };
}
