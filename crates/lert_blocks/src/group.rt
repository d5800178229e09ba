//! The group at the front of slots.

ghost use Rattle.std.specs.Prelude.{◌≡◌, ◌≤◌};
ghost use Rattle.lert_blocks.specs.Grammar.{group_read};

use lert_counter::{Group, read_group};

/// The group at the front of slots, behind which none of its run stand. None where no group begins there.
pub fn front_group(width: u32, slots: &[u64]) -> Option<Group>
    requires narrow { 8 ≤ width }
    requires wide { width ≤ 62 }
    ensures { result ≡ group_read width slots.now }
{
    read_group(width, slots)
}
