//! Runs and recoveries over places in memory, for tests of the top call: words, traces, and what comes of a run as plain bytes.
//!
//! No contract here says what a run does. What comes of it is handed over as a status, a text and files, so that a test owns no
//! place, which would be dear to let go at each of its exits.
#![tactic(auto)]

mod cone_files;
mod lines;
mod pair;
mod runs;
mod traces;

pub use cone_files::{Files, bay_of};
pub use lines::{SMALL, crew_form, long_form, recover_form, short_form};
pub use pair::run_pair;
pub use runs::{
    Ended, Row, Two, recover_files, run_at, run_before_failing, run_on, run_row, run_two,
};
pub use traces::{HEADER, WEIGHED_HEADER, trace, trace_with, weighed_trace};
