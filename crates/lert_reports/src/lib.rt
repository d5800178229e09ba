//! The reports of a cone: the list in memory, and the text of its log.
//!
//! The one contract is that a `ReportStore` is its list of reports, and that `has` answers whether a key is in it without
//! a search of the list. Any `CountTable` serves it for what a secret makes of the listed keys. `write_log` writes the text of a
//! record of the log, and `read_log` reads its payload: what was written by the rules comes back, and anything else is
//! left at the first place that breaks one. `bins` answers how many frames a record names for a level.
#![tactic(auto)]

mod directory;
mod log;
mod log_point;
mod store;

pub use directory::bins;
pub use log::{
    LOG_HEADER, LOG_HEADER_LEN, LogBefore, LogKind, LogParts, greatest_record, read_log, write_log,
};
pub use log_point::{FIRST, LogPoint, OFFSET};
pub use store::ReportStore;
