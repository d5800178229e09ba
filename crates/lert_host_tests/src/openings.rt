//! Openings of any place, which tell nothing of it.

use lert_place::Place;
use std::process::Abort;

/// The bay of a cone in a directory.
pub fn open<P: Place>(rt: &impl Abort, place: &mut P, dir: &str, cone: u32) -> P::Bay {
    place.open_bay(dir, cone).expect(rt, "a bay")
}

/// Whether there is a bay of a cone in a directory.
pub fn opens<P: Place>(place: &mut P, dir: &str, cone: u32) -> bool
where
    P::Bay: Drop,
{
    place.open_bay(dir, cone).is_ok()
}
