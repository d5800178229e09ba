//! Reopening a cone over the files of a stopped run.
//!
//! `reopen` reads the three files up to the records of the journal, makes a cone of what they hold, and replays the journal from
//! the record on that the log's last one names.
//! Files that are sound for a list of packets make a cone that stands for it; else the answer names the first place at which the
//! files leave their format, the numbers that the journal was written with, or the start of the log, where the files are in their
//! format and sound for no list.
#![tactic(auto)]

mod journal_rest;
mod recovery;
mod replay;

pub use lert_files::ReopenFault;
pub use recovery::{ReopenRefused, reopen};
