//! The cones of a run or a recovery: over bays that were opened, with memory made by several threads, finished, printed, and
//! their bays put back.
//!
//! The one contract is that of the cones' life: `make_cones` leaves cones without a packet over fresh bays, `finish_cones`
//! finishes each, and `print_cones` writes the text of what they stand for; a refusal names the first cone that it concerns, and
//! leaves all bays. Runs, drills and recoveries stand on it.

mod bays;
mod cones;
mod finish;
mod print;
mod rooms;

pub(crate) use bays::{find_stale, open_bays, put_back_bays};
pub(crate) use cones::{bring_back, make_cones};
pub(crate) use finish::finish_cones;
pub(crate) use print::print_cones;
pub(crate) use rooms::{draw_secret, make_rooms, make_rooms_alone};
