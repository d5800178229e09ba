//! Groups: how a slot array holds a remainder and its count.
//!
//! A group is one to nine slots. A count of one or two is the remainder once or twice, and a greater count
//! stands between two of them as digits that can't be taken for a remainder. `write_group` writes the text
//! that `specs/Group.antt` defines, `read_group` accepts exactly such texts, and `scan_group` reads a group
//! of a run text without testing it. Runs of a table and of a frame stand on it. Nothing here allocates.
#![tactic(auto)]

mod digits;
mod group;
mod read;
mod write;

pub use group::Group;
pub use read::{read_group, scan_group};
pub use write::write_group;
