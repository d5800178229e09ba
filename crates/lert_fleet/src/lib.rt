//! A lock for each cone, and the passes of all of them, for callers on any threads.
//!
//! Every call says of the cone that it names just what that cone's lock says, and leaves what the pass
//! has for the other cones; `split`, `join` and `close` say it of every cone in turn (`try_admit`,
//! `admit`, `close`). Only `new` and `split` take memory, and only `admit` waits, for no other cone.
//! The routing of keys on several threads stands on it.
#![tactic(auto)]

mod fleet;
mod pass;
mod rows;

pub use fleet::Fleet;
pub use lert_conelock::Turn;
pub use pass::FleetPass;
