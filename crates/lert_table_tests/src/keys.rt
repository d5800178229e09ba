//! Lists of keys and their weights.

use lert_base::KeyList;
use std::process::Abort;

/// Asserts that a list has these keys, each with the weight beside it.
fn has_items(rt: &impl Abort, list: &KeyList, keys: &[u64], weights: &[u8]) {
    assert_eq!(rt; list.as_slice(), keys);
    assert_eq!(rt; list.weights(), weights);
}

/// Asserts that a list has so many keys, and tells whether it has none.
fn has_len(rt: &impl Abort, list: &KeyList, len: usize, is_empty: bool) {
    assert_eq!(rt; (list.len(), list.is_empty()), (len, is_empty));
}

#[test]
fn a_list_is_filled_and_cleared(rt: HostRuntime) {
    let mut keys = KeyList::with_room(rt.alloc(), 2).expect(&rt, "memory");
    has_len(&rt, &keys, 0, true);
    keys.push(7, 255);
    keys.push(u64::MAX, 1);
    has_items(&rt, &keys, &[7, u64::MAX], &[255, 1]);
    has_len(&rt, &keys, 2, false);
    keys.clear();
    keys.push(8, 2);
    has_items(&rt, &keys, &[8], &[2]);
    drop(keys);
}
