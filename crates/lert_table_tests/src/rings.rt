//! Rings of two cones.

use lert_base::{Entry, KeyList};
use lert_buffers::{Buffers, Fill};
use std::process::Abort;

#[test]
fn a_ring_is_ready_at_each_packet_and_must_go_at_four(rt: HostRuntime) {
    let mut rings = Buffers::new(rt.alloc(), 1, 2).expect(&rt, "memory");
    for (key, fill) in [
        (1, Fill::Low),
        (2, Fill::Ready),
        (3, Fill::Low),
        (4, Fill::Ready),
        (5, Fill::Low),
        (6, Fill::Ready),
        (7, Fill::Low),
        (8, Fill::MustGo),
    ] {
        assert_eq!(rt; rings.push(0, key, 1), fill);
    }
}

/// Asserts that an entry has these keys, each with the weight beside it.
fn has_items(rt: &impl Abort, entry: &Entry, keys: &[u64], weights: &[u8]) {
    assert_eq!(rt; entry.keys.as_slice(), keys);
    assert_eq!(rt; entry.keys.weights(), weights);
}

#[test]
fn each_cone_has_its_own_keys_and_their_weights(rt: HostRuntime) {
    let mut rings = Buffers::new(rt.alloc(), 2, 1).expect(&rt, "memory");
    let room = KeyList::with_room(rt.alloc(), 4).expect(&rt, "memory");
    let mut entry = Entry::new(0, 0, room);
    rings.push(1, 7, 1);
    rings.push(0, 8, 2);
    rings.push(1, 9, 255);
    rings.take(1, &mut entry);
    has_items(&rt, &entry, &[7, 9], &[1, 255]);
    let taken = [rings.len(0), rings.len(1)];
    rings.give_back(1, &mut entry);
    let given_back = [rings.len(1), entry.keys.len()];
    assert_eq!(rt; [taken, given_back], [[1, 0], [2, 0]]);
    rings.push(1, u64::MAX, 1);
    rings.take(1, &mut entry);
    has_items(&rt, &entry, &[7, 9, u64::MAX], &[1, 255, 1]);
}
