//! One line of a run: its traces and bays opened, read into cones by workers, printed and put back.
//!
//! The one contract is that of `run_line`: with `Done` each cone's journal is a weave of its part of the items of all traces,
//! and the text that was written is that of the reports that closed cones make of these journals; each other status says why
//! there is no such text. The top call runs its lines with it.

mod runs;
mod traces;

pub(crate) use runs::{Job, run_line};
