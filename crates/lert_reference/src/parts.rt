//! Cones, tails and the parts of cones as their definitions say them.

ghost use Rattle.std.specs.Prelude.{◌≡◌, ◌≤◌, IfOk};
ghost use Rattle.lert_spec.specs.{Counts.{weighed}, Mix.{cone_of, tail_of, part_in}};

use crate::reports::mixed;
use lert_spec::{Item, Numbers};
use std::alloc::{AllocError, Global};

/// The cone of a key.
pub fn cone(s: &Numbers, key: u64) -> u64
    requires { s.now.cone_bits ≤ 8 }
    ensures { result ≡ cone_of s.now key }
{
    // A shift by all 64 bits is none.
    if s.cone_bits == 0 {
        return 0;
    }
    mixed(key) >> (64 - s.cone_bits)
}

/// The tail of a key.
pub fn tail(s: &Numbers, key: u64) -> u64
    requires { s.now.cone_bits ≤ 8 }
    ensures { result ≡ tail_of s.now key }
{
    if s.cone_bits == 0 {
        return mixed(key);
    }
    mixed(key) % (1 << (64 - s.cone_bits))
}

/// Those of the items whose keys belong to a cone, in their order. Its only error is want of memory.
pub fn part(alloc: Global, s: &Numbers, of: u64, items: &[Item]) -> Result<Vec<Item>, AllocError>
    requires { s.now.cone_bits ≤ 8 }
    ensures { IfOk result (λ part. part.items ≡ part_in weighed s.now of items.now) }
{
    let mut part = Vec::new(alloc);
    for item in items {
        if cone(s, item.key) == of {
            part.push(*item)?;
        }
    }
    Ok(part)
}
