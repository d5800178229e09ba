//! Traces at their limit, at each place at which bytes leave the format, and after a read that failed, without weights
//! and with them.

ghost use Rattle.std.specs.Prelude.{◌≤◌, ◌^◌};

use crate::same::assert_same;
use lert_io::{CallList, MemSource, SteadySource};
use lert_spec::Item;
use lert_trace::{MOST_ITEMS, TraceFault, TraceReader};
use std::alloc::Global;
use std::process::Abort;

const HEADER: [u8; 8] = [0x4c, 0x45, 0x52, 0x54, 1, 0, 0, 0];

// The bytes of the trace that has the keys 1, 2, .. up to `last`.
fn trace(rt: &impl Abort, alloc: Global, last: u64) -> Vec<u8> {
    let mut bytes = Vec::from_slice(alloc, &HEADER).expect(rt, "memory");
    for key in 1..last.saturating_add(1) {
        bytes
            .extend_from_slice(&key.to_le_bytes())
            .expect(rt, "memory");
    }
    bytes
}

// What a call of a reader answers, and the first four.
type Answer = Result<Option<Item>, TraceFault>;

type Answers = [Answer; 4];

// The answer of an item.
fn item(key: u64, weight: u8) -> Answer {
    Ok(Some(Item { key, weight }))
}

// What the first four calls of a reader with this limit answer.
fn four_answers(rt: &impl Abort, alloc: Global, bytes: &[u8], most: u64) -> Answers
    requires { (1 ≤ most) × (most ≤ 2 ^ 36) }
{
    let source = SteadySource::new(alloc, bytes).expect(rt, "memory");
    let mut reader = TraceReader::new(source, most);
    [reader.next(), reader.next(), reader.next(), reader.next()]
}

// Wants these answers of the first four calls of a reader with this limit.
fn assert_answers(rt: &impl Abort, alloc: Global, bytes: &[u8], most: u64, want: Answers)
    requires { (1 ≤ most) × (most ≤ 2 ^ 36) }
{
    assert_same(
        rt,
        &four_answers(rt, alloc, bytes, most),
        &want,
        "four answers",
    );
}

#[test]
fn the_limit_is_met_by_one_item_more(rt: HostRuntime) {
    let rows = [(3, Err(TraceFault::TooLong)), (2, Ok(None))];
    for (last, end) in rows {
        let bytes = trace(&rt, rt.alloc(), last);
        let want = [item(1, 1), item(2, 1), end, end];
        assert_answers(&rt, rt.alloc(), bytes.as_slice(), 2, want);
    }
}

// The bytes of a trace, and what refuses them.
const BROKEN: [(&[u8], TraceFault); 6] = [
    (b"", TraceFault::BadHeader { at: 0 }),
    (b"LER", TraceFault::BadHeader { at: 3 }),
    (b"LER\0\x01\0\0\0", TraceFault::BadHeader { at: 3 }),
    (b"LERT\x09\0\0\0", TraceFault::BadHeader { at: 4 }),
    (b"LERT\x01\0\0\0\x07", TraceFault::CutKey { at: 8 }),
    (b"LERT\x01\0\0\x07", TraceFault::BadHeader { at: 7 }),
];

#[test]
fn bytes_that_leave_the_format_are_named_by_their_place(rt: HostRuntime) {
    for &(bytes, fault) in &BROKEN {
        assert_answers(&rt, rt.alloc(), bytes, MOST_ITEMS, [Err(fault); 4]);
    }
}

#[test]
fn a_key_that_is_cut_is_named_by_its_place(rt: HostRuntime) {
    let mut cut = trace(&rt, rt.alloc(), 2);
    cut.truncate(21);
    let fault = Err(TraceFault::CutKey { at: 16 });
    let want = [item(1, 1), fault, fault, fault];
    assert_answers(&rt, rt.alloc(), cut.as_slice(), MOST_ITEMS, want);
}

// A source of these bytes, of which this call fails.
fn source_of(rt: &impl Abort, alloc: Global, bytes: &[u8], failing: u64) -> MemSource {
    let mut fails = CallList::new(alloc).expect(rt, "memory");
    fails.push(failing).expect(rt, "memory");
    MemSource::new(alloc, bytes, &fails).expect(rt, "memory")
}

// Wants the keys 1 to 1,000 with this weight, and then this answer.
fn assert_thousand(rt: &impl Abort, reader: &mut TraceReader<MemSource>, weight: u8, end: Answer) {
    for key in 1..1_001 {
        assert_same(rt, &reader.next(), &item(key, weight), "an item");
    }
    assert_same(rt, &reader.next(), &end, "behind all items");
}

// 8,008 bytes take two full blocks, and a third call finds the end: a fourth isn't made.
#[test]
fn a_thousand_keys_take_three_calls(rt: HostRuntime) {
    let bytes = trace(&rt, rt.alloc(), 1_000);
    for (failing, end) in [(4, Ok(None)), (3, Err(TraceFault::ReadFailed))] {
        let source = source_of(&rt, rt.alloc(), bytes.as_slice(), failing);
        let mut reader = TraceReader::new(source, MOST_ITEMS);
        assert_thousand(&rt, &mut reader, 1, end);
    }
}

// The bytes of a trace, and what the first four calls of its reader answer.
type Row = (&'static [u8], Answers);

// The items 513 and 7, each with a weight.
const FIRST: Answer = Ok(Some(Item {
    key: 513,
    weight: 5,
}));

const SECOND: Answer = Ok(Some(Item {
    key: 7,
    weight: 255,
}));

// The end of a trace, and its faults.
const END: Answer = Ok(None);

const LONG: Answer = Err(TraceFault::TooLong);

const HEADER_4: Answer = Err(TraceFault::BadHeader { at: 4 });

const HEADER_6: Answer = Err(TraceFault::BadHeader { at: 6 });

const HEADER_7: Answer = Err(TraceFault::BadHeader { at: 7 });

const CUT_8: Answer = Err(TraceFault::CutKey { at: 8 });

const CUT_17: Answer = Err(TraceFault::CutKey { at: 17 });

const WEIGHTLESS_16: Answer = Err(TraceFault::ZeroWeight { at: 16 });

const WEIGHTLESS_25: Answer = Err(TraceFault::ZeroWeight { at: 25 });

// Headers: of version 2 alone, of other versions, and cut behind the version.
const HEADERS: [Row; 5] = [
    (b"LERT\x02\0\0\0", [END; 4]),
    (b"LERT\0\0\0\0", [HEADER_4; 4]),
    (b"LERT\x03\0\0\0", [HEADER_4; 4]),
    (b"LERT\x02\0\0\x02", [HEADER_7; 4]),
    (b"LERT\x02\0", [HEADER_6; 4]),
];

// Items, and the places at which they are cut or weigh 0.
const ITEMS: [Row; 5] = [
    (
        b"LERT\x02\0\0\0\x01\x02\0\0\0\0\0\0\x05\x07\0\0\0\0\0\0\0\xff",
        [FIRST, SECOND, END, END],
    ),
    // A key without a weight.
    (b"LERT\x02\0\0\0\x01\x02\0\0\0\0\0\0", [CUT_8; 4]),
    (
        b"LERT\x02\0\0\0\x01\x02\0\0\0\0\0\0\x05\x07\0\0\0",
        [FIRST, CUT_17, CUT_17, CUT_17],
    ),
    (
        b"LERT\x02\0\0\0\x01\x02\0\0\0\0\0\0\0\x07\0\0\0\0\0\0\0\x01",
        [WEIGHTLESS_16; 4],
    ),
    // The second weight is 0, and behind it an item is cut.
    (
        b"LERT\x02\0\0\0\x01\x02\0\0\0\0\0\0\x05\x07\0\0\0\0\0\0\0\0\x09\x09",
        [FIRST, WEIGHTLESS_25, WEIGHTLESS_25, WEIGHTLESS_25],
    ),
];

// Behind as many items as the limit says: one more, a weight of 0, a cut item.
const LIMITS: [Row; 3] = [
    (
        b"LERT\x02\0\0\0\x01\x02\0\0\0\0\0\0\x05\x07\0\0\0\0\0\0\0\x01",
        [FIRST, LONG, LONG, LONG],
    ),
    (
        b"LERT\x02\0\0\0\x01\x02\0\0\0\0\0\0\x05\x07\0\0\0\0\0\0\0\0",
        [FIRST, WEIGHTLESS_25, WEIGHTLESS_25, WEIGHTLESS_25],
    ),
    (
        b"LERT\x02\0\0\0\x01\x02\0\0\0\0\0\0\x05\x07\0\0\0\0\0\0\0",
        [FIRST, CUT_17, CUT_17, CUT_17],
    ),
];

// Wants of each row's bytes its answers, of a reader with this limit.
fn assert_rows(rt: &impl Abort, alloc: Global, rows: &[Row], most: u64)
    requires { (1 ≤ most) × (most ≤ 2 ^ 36) }
{
    for row in rows {
        let (bytes, want) = *row;
        assert_answers(rt, alloc, bytes, most, want);
    }
}

#[test]
fn traces_with_weights_are_read_to_the_first_wrong_place(rt: HostRuntime) {
    assert_rows(&rt, rt.alloc(), &HEADERS, 1);
    assert_rows(&rt, rt.alloc(), &ITEMS, MOST_ITEMS);
    assert_rows(&rt, rt.alloc(), &LIMITS, 1);
}

// The bytes of the trace that has the keys 1, 2, .. up to `last`, each with the weight 200.
fn heavy_trace(rt: &impl Abort, alloc: Global, last: u64) -> Vec<u8> {
    let mut bytes = Vec::from_slice(alloc, b"LERT\x02\0\0\0").expect(rt, "memory");
    for key in 1..last.saturating_add(1) {
        bytes
            .extend_from_slice(&key.to_le_bytes())
            .expect(rt, "memory");
        bytes.push(200).expect(rt, "memory");
    }
    bytes
}

// Of 9,008 bytes the 455th item and the 910th stand in two reads, 4,096 bytes and 4,094. A fourth call finds the end, and a
// fifth isn't made.
#[test]
fn a_thousand_items_with_weights_take_four_calls(rt: HostRuntime) {
    let bytes = heavy_trace(&rt, rt.alloc(), 1_000);
    for (failing, end) in [(5, Ok(None)), (4, Err(TraceFault::ReadFailed))] {
        let source = source_of(&rt, rt.alloc(), bytes.as_slice(), failing);
        let mut reader = TraceReader::new(source, MOST_ITEMS);
        assert_thousand(&rt, &mut reader, 200, end);
    }
}
