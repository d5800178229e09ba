use lert_reference::reports::closing;
use lert_spec::{Item, Numbers, Report};
use std::alloc::Global;
use std::process::Abort;

const SMALL: Numbers = Numbers {
    threshold: 3,
    bins: 3,
    ratio: 2,
    base: 4,
    levels: 2,
    cone_bits: 0,
    room: 32,
    packet: 8,
};

// Events 1 to `last` of which those at these positions are of key 7, and each other is of a key of its own and weighs 1.
fn sevens_at(rt: &impl Abort, alloc: Global, last: u32, places: &[(u64, u8)]) -> Vec<Item> {
    let mut events = Vec::new(alloc);
    for m in 1..u64::from(last) + 1 {
        let item = match places.iter().find(|place| place.0 == m) {
            Some((_, weight)) => Item {
                key: 7,
                weight: *weight,
            },
            None => Item {
                key: 1_000 + m,
                weight: 1,
            },
        };
        events.push(item).expect(rt, "memory");
    }
    events
}

// Wants one report of key 7 at this position.
fn check(rt: &impl Abort, alloc: Global, events: &[Item], at: u64) {
    assert!(rt; events.len() <= 71);
    let reports = closing(alloc, &SMALL, events).expect(rt, "memory");
    assert_eq!(rt; reports.as_slice(), [Report { key: 7, at }].as_slice());
}

// With threshold 3: events that weigh 1, and others that weigh more.
#[test]
fn reports_are_those_of_the_worked_rows(rt: HostRuntime) {
    let rows: [(u32, &[(u64, u8)], u64); 9] = [
        (16, &[(1, 1), (2, 1), (13, 1)], 16),
        (16, &[(1, 1), (2, 1), (16, 1)], 16),
        (40, &[(1, 1), (2, 1), (33, 1)], 40),
        (35, &[(1, 1), (33, 1), (34, 1), (35, 1)], 35),
        (34, &[(1, 1), (2, 1), (33, 1)], 34),
        (2, &[(1, 1), (2, 2)], 2),
        (1, &[(1, 3)], 1),
        (16, &[(1, 1), (13, 2)], 16),
        (16, &[(1, 2), (13, 255)], 13),
    ];
    for (last, places, at) in rows {
        let events = sevens_at(&rt, rt.alloc(), last, places);
        check(&rt, rt.alloc(), &events, at);
    }
}
