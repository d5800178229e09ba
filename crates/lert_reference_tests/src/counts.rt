use crate::items::items_of;
use lert_reference::counts::{distinct, first, heavy, reached_at, weight};
use std::alloc::Global;
use std::process::Abort;

const EVENTS: [(u64, u8); 5] = [(9, 1), (1, 2), (1, 255), (9, 3), (5, 1)];

#[test]
fn a_key_is_weighed_above_one_position_and_up_to_another(rt: HostRuntime) {
    let events = items_of(&rt, rt.alloc(), &EVENTS);
    assert!(rt; events.len() == 5);
    let rows = [
        (9, 0, 5, 4),
        (9, 1, 5, 3),
        (9, 1, 3, 0),
        (9, 3, 4, 3),
        (1, 1, 3, 257),
        (2, 0, 5, 0),
        (9, 0, 0, 0),
    ];
    for (key, from, to, weighs) in rows {
        assert!(rt; from <= to && to <= 5);
        assert_eq!(rt; weight(key, &events, from, to), weighs, "{key}");
    }
}

#[test]
fn a_key_stands_first_and_reaches_a_weight_at_its_positions(rt: HostRuntime) {
    let events = items_of(&rt, rt.alloc(), &EVENTS);
    assert!(rt; events.len() == 5);
    let rows = [
        (1, 9, Some(1)),
        (2, 9, Some(4)),
        (4, 9, Some(4)),
        (5, 9, None),
        (1, 1, Some(2)),
        (2, 1, Some(2)),
        (3, 1, Some(3)),
        (257, 1, Some(3)),
        (258, 1, None),
        (1, 5, Some(5)),
        (1, 7, None),
    ];
    for (n, key, position) in rows {
        let is_first = n != 1 || first(key, &events) == position;
        assert_eq!(rt;
            (reached_at(n, key, &events), is_first),
            (position, true),
            "{key}"
        );
    }
}

// Wants these keys, and these of them that weigh three at least.
fn check_keys(rt: &impl Abort, alloc: Global, pairs: &[(u64, u8)], keys: &[u64], three: &[u64]) {
    let events = items_of(rt, alloc, pairs);
    let found = distinct(alloc, &events).expect(rt, "memory");
    assert_eq!(rt; found.as_slice(), keys);
    assert!(rt; events.len() <= 5);
    let found = heavy(alloc, 3, &events).expect(rt, "memory");
    assert_eq!(rt; found.as_slice(), three);
}

#[test]
fn keys_ascend_and_stand_once(rt: HostRuntime) {
    let rows: [(&[(u64, u8)], &[u64], &[u64]); 4] = [
        (&[], &[], &[]),
        (&[(7, 2)], &[7], &[]),
        (&EVENTS, &[1, 5, 9], &[1, 9]),
        (
            &[(u64::MAX, 1), (0, 1), (u64::MAX, 2)],
            &[0, u64::MAX],
            &[u64::MAX],
        ),
    ];
    for (pairs, keys, three) in rows {
        check_keys(&rt, rt.alloc(), pairs, keys, three);
    }
}
