//! The drill: what a run does, over generated keys, and in memory.
//!
//! The one contract is that of `drill`: with `Done` the text that was written is that of a plain count of the generated keys,
//! a function of the settings, the seed and the number of events, whatever the workers; the program's command stands on it.

mod cones;
mod drills;
mod made;
mod print;

pub(crate) use drills::drill;
