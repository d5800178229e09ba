//! Vectors of groups, at a width of 8 bits.

ghost use Rattle.std.specs.Prelude.{◌≤◌, ◌^◌};

use lert_counter::{Group, read_group, write_group};
use std::process::Abort;

/// What `slots` are read as.
fn reads(rt: &impl Abort, slots: &[u64], expected: Option<(u64, u64, usize)>) {
    let group = read_group(8, slots);
    let expected = match expected {
        Some((x, count, used)) => Some(Group { x, count, used }),
        None => None,
    };
    assert_eq!(rt; group, expected);
}

/// What the group of `x` and `count` is written as.
fn writes(rt: &impl Abort, x: u64, count: u64, expected: &[u64])
    requires least { 1 ≤ count }
    requires most { count ≤ 2 ^ 47 }
{
    let mut into = [255; 9];
    let len = write_group(8, x, count, &mut into);
    assert_eq!(rt; &into[..len], expected);
}

#[test]
fn a_group_is_told_by_its_second_value(rt: HostRuntime) {
    reads(&rt, &[], None);
    reads(&rt, &[5], Some((5, 1, 1)));
    reads(&rt, &[5, 9, 5], Some((5, 1, 1)));
    reads(&rt, &[5, 5], Some((5, 2, 2)));
    reads(&rt, &[5, 0, 255, 5], Some((5, 256, 4)));
    reads(&rt, &[0, 7], Some((0, 1, 1)));
    reads(&rt, &[0, 1, 0, 0, 9], Some((0, 4, 4)));
}

#[test]
fn a_text_that_no_group_writes_is_refused(rt: HostRuntime) {
    // The leading digit is 0.
    reads(&rt, &[5, 1, 2, 5], None);
    // The first digit doesn't exceed the remainder.
    reads(&rt, &[5, 0, 2, 5], None);
    // The counter doesn't end.
    reads(&rt, &[1, 0, 2], None);
}

#[test]
fn groups_are_written_as_they_are_read(rt: HostRuntime) {
    writes(&rt, 5, 1, &[5]);
    writes(&rt, 5, 2, &[5, 5]);
    writes(&rt, 5, 3, &[5, 1, 5]);
    writes(&rt, 5, 256, &[5, 0, 255, 5]);
    writes(&rt, 5, 257, &[5, 2, 1, 5]);
    writes(&rt, 0, 3, &[0, 0, 0]);
    writes(&rt, 0, 4, &[0, 1, 0, 0]);
}
