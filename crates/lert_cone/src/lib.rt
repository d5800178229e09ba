//! One cone over its files: it appends packets to its journal, takes their items one by one, and lists its reports.
//!
//! The one contract is that of `Cone`: after each call it stands for the list of the packets that it acknowledged. Where its
//! bay tells its files, these are sound for the list, the frames hold the bins of the last flush, and the reports are those
//! that the definition makes of the items, so they are in time.
//!
//! `Tally` counts the items over level 0 and the levels on the bay, and `Due` takes the totals of a flush as reports.
//! `ReportLog` writes the records of the log: one behind each flush, and one at the end. `JournalPlaces` keeps which record of the
//! journal each is to name. The command that runs a trace through all cones stands on this crate.
#![tactic(auto)]

mod acked;
mod cone;
mod due;
mod headers;
mod items;
mod journal_places;
mod keys;
mod packets;
mod refusal;
mod report_log;
mod room;
mod state;
mod tally;
mod unread;

pub use acked::Acked;
pub use cone::{Cone, ConeTerms, ReplayingCone};
pub use headers::{MOST_VERSION, greatest_payload, is_fresh};
pub use lert_base::ConeFault;
pub use lert_reports::LogPoint;
pub use packets::{end_left, packet_left};
pub use refusal::{CreateFault, CreateRefused, ReplayFault};
pub use room::ConeRoom;
pub use state::ConeState;
