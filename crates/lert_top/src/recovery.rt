//! A recovery: the files that runs left, opened as cones and printed.
//!
//! The one contract is that of `recover_to`: with `Done` the text that was written is that of what the files of all cones stand
//! for; each other status says why there is no such text. It changes no journal, leaves files sound that were so, and leaves
//! files of other settings as they were. The top call stands on it.

mod directory;
mod reopened_cones;

pub use directory::recover_to;
