//! What the three files of a cone hold, read in order: the header of the journal, the whole log, and the frames that its last
//! record names.
//!
//! The one contract is that of `read_files`: Ok says what stands in the files, a fault names the first place at which they leave
//! their format or the numbers of another header, and what stands there is the answer, unless a call of the bay fails.
//! It stands on `read_journal_header` and `read_whole_log`, which read alone, and keeps none of what it reads itself: the reports
//! come into a store, the bins into the levels. The records of the journal are read by the cone that is made of these.
#![tactic(auto)]

mod directory;
mod fault;
mod files;
mod journal_header;
mod log;
mod log_header;
mod log_record;
mod payload;
mod reports;

pub use directory::Directory;
pub use fault::ReopenFault;
pub use files::read_files;
pub use journal_header::read_journal_header;
pub use log::read_whole_log;
