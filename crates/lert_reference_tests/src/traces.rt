use crate::items::items_of;
use lert_reference::traces::{items, left, whole};
use std::alloc::Global;
use std::process::Abort;

// Bytes, the place at which they leave the format, and the keys and weights of the items before it.
type Row = (&'static [u8], Option<usize>, &'static [(u64, u8)]);

const WITHOUT_WEIGHTS: [Row; 8] = [
    (b"", Some(0), &[]),
    (b"LER", Some(3), &[]),
    (b"LER\0\x01\0\0\0", Some(3), &[]),
    (b"LERT\x09\0\0\0", Some(4), &[]),
    (b"LERT\x01\0\0\x01\x01\x02\0\0\0\0\0\0", Some(7), &[]),
    (b"LERT\x01\0\0\0", None, &[]),
    (b"LERT\x01\0\0\0\x01\x02\0\0\0\0\0\0", None, &[(513, 1)]),
    // 21 bytes.
    (
        b"LERT\x01\0\0\0\x01\x02\0\0\0\0\0\0\x07\0\0\0\0",
        Some(16),
        &[(513, 1)],
    ),
];

const WITH_WEIGHTS: [Row; 9] = [
    (b"LERT\0\0\0\0", Some(4), &[]),
    (b"LERT\x03\0\0\0", Some(4), &[]),
    (b"LERT\x02\0", Some(6), &[]),
    (b"LERT\x02\0\0\0", None, &[]),
    // A key without a weight.
    (b"LERT\x02\0\0\0\x01\x02\0\0\0\0\0\0", Some(8), &[]),
    (
        b"LERT\x02\0\0\0\x01\x02\0\0\0\0\0\0\x01\x07\0\0\0\0\0\0\0\xff",
        None,
        &[(513, 1), (7, 255)],
    ),
    (
        b"LERT\x02\0\0\0\x01\x02\0\0\0\0\0\0\x05\x07\0\0\0",
        Some(17),
        &[(513, 5)],
    ),
    // A weight of 0, and behind it an item.
    (
        b"LERT\x02\0\0\0\x01\x02\0\0\0\0\0\0\0\x07\0\0\0\0\0\0\0\x01",
        Some(16),
        &[],
    ),
    // The second weight is 0, and behind it an item is cut.
    (
        b"LERT\x02\0\0\0\x01\x02\0\0\0\0\0\0\x05\x07\0\0\0\0\0\0\0\0\x09\x09",
        Some(25),
        &[(513, 5)],
    ),
];

// Wants that bytes leave the format at this place, with these items before it, and that they are a trace where there
// is none.
fn check(rt: &impl Abort, alloc: Global, row: &Row) {
    let (bytes, place, before) = *row;
    let found = whole(alloc, bytes).expect(rt, "memory");
    let is_trace = items(alloc, bytes).expect(rt, "memory").is_some();
    let want = items_of(rt, alloc, before);
    let len = bytes.len();
    assert_eq!(rt; found.as_slice(), want.as_slice(), "{len} bytes");
    assert_eq!(rt;
        (left(bytes), is_trace),
        (place, place.is_none()),
        "{len} bytes"
    );
}

#[test]
fn bytes_leave_the_format_at_the_first_wrong_place(rt: HostRuntime) {
    for row in &WITHOUT_WEIGHTS {
        check(&rt, rt.alloc(), row);
    }
}

#[test]
fn weights_leave_it_where_they_are_0(rt: HostRuntime) {
    for row in &WITH_WEIGHTS {
        check(&rt, rt.alloc(), row);
    }
}
