//! The top call of LERT, `run`.
//!
//! The one contract is that of `run`: with `Done` the journal of each cone is a weave of its part of the items of all traces,
//! and the text that was written is that of these journals and of the reports that closed cones make of them, which are in
//! time; each other status says why there is no such text. It holds of every schedule of the workers.
//! Each kind of line has a module, `runs`, `drills` and `recovery`, over those `cones`. The program stands on it.
#![tactic(auto)]

pub mod cones;
pub mod drills;
mod generate;
pub mod recovery;
pub mod runs;
mod top;

pub use generate::gen_to;
pub use lert_ingest::Status;
pub use lert_place::{MemPlace, Opening, Place, Wanted};
pub use recovery::recover_to;
pub use top::run;
