//! Which record of the journal each record of a log names.

ghost use Rattle.std.specs.Prelude.{◌≡◌};

use crate::cones::{created, empty_bay, end, small, take};
use lert_base::Settings;
use lert_bay::{Bay, LOG, MemBay};
use lert_cone::Cone;
use lert_plain::PlainTable;
use std::alloc::Global;
use std::process::Abort;

// After how many keys a record was written, where the journal's record begins that it names, and the first key there.
type Named = (u64, u64, u64);

// A cone over an empty bay takes these packets, and ends. Answers the bay that it leaves.
fn ended(rt: &impl Abort, alloc: Global, packets: &[&[u64]]) -> MemBay {
    let settings = small(rt, 32);
    let mut cone = created(rt, alloc, &settings, empty_bay(rt, alloc));
    check_ended(rt, alloc, &settings, &mut cone, packets);
    cone.into_bay()
}

fn check_ended<B: Bay>(
    rt: &impl Abort,
    alloc: Global,
    settings: &Settings,
    cone: &mut Cone<B, PlainTable>,
    packets: &[&[u64]],
)
    requires eight { settings.now.packet ≡ 8 }
    requires settings { cone.old.listing.settings ≡ settings.now }
    requires cone { cone.old.listing.cone ≡ 0 }
{
    for packet in packets {
        take(rt, alloc, settings, cone, packet);
    }
    assert!(rt; end(cone).is_ok());
}

// A number of eight bytes, the lowest first.
fn number(bytes: &[u8]) -> u64 {
    match bytes {
        [a, b, c, d, e, f, g, h, ..] => u64::from_le_bytes([*a, *b, *c, *d, *e, *f, *g, *h]),
        _ => 0,
    }
}

// What a record names whose payload is the first of these bytes.
fn name_in(payload: &[u8]) -> Named {
    (
        number(payload.get(1..).unwrap_or(&[])),
        number(payload.get(9..).unwrap_or(&[])),
        number(payload.get(17..).unwrap_or(&[])),
    )
}

// What the records of a log name, by its format alone.
fn named_in(rt: &impl Abort, alloc: Global, log: &[u8]) -> Vec<Named> {
    let mut named = Vec::new(alloc);
    let mut rest = log.get(8..).unwrap_or(&[]);
    while let [1, a, b, c, d, behind @ ..] = rest {
        let len = u32::from_le_bytes([*a, *b, *c, *d]) as usize;
        named.push(name_in(behind)).expect(rt, "memory");
        rest = behind.get(len..).unwrap_or(&[]);
    }
    assert!(rt; rest == [0].as_slice(), "the log ends with a closed gate");
    named
}

// The records behind these packets: the log's name these records of the journal.
fn check_named(rt: &impl Abort, alloc: Global, packets: &[&[u64]], due: &[Named]) {
    let bay = ended(rt, alloc, packets);
    let named = named_in(rt, alloc, bay.bytes(LOG));
    assert!(rt; named.as_slice() == due);
}

const PACKETS: [&[u64]; 8] = [
    &[1, 2, 3],
    &[4],
    &[5, 6, 7, 8, 9],
    &[10, 11, 12, 13, 14, 15, 16, 17, 18],
    &[19, 20],
    &[21, 22, 23, 24, 25, 26, 27],
    &[28, 29, 30, 31, 32, 33],
    &[34, 35, 36, 37],
];

// A record of n keys takes 13 + 9n bytes, the first one behind 32. The bins of level 0 have four keys: it begins behind
// 4 at the flush at 12, behind 8 at 16, and so on, behind 28 at 36 and at the end.
const DUE: [(u64, u64, u64); 8] = [
    (12, 94, 5),
    (16, 94, 5),
    (20, 152, 10),
    (24, 152, 10),
    (28, 277, 21),
    (32, 277, 21),
    (36, 353, 28),
    (37, 353, 28),
];

#[test]
fn each_record_names_the_journal_record_that_holds_the_first_key_of_level_0(rt: HostRuntime) {
    check_named(&rt, rt.alloc(), &PACKETS, &DUE);
    check_named(&rt, rt.alloc(), &[], &[(0, 32, 1)]);
}
