//! Orders and merges of sorted streams beside a plain sort.

ghost use Rattle.std.specs.Prelude.{◌≡◌, ◌≤◌, length};

use crate::plain::Plain;
use crate::sorted::{Counting, Sorted};
use lert_base::Piece;
use lert_merge::order::Each;
use lert_merge::{Ahead, Heads, Merge, Order};
use std::alloc::Global;
use std::process::Abort;

/// The next piece of a merge, none where it is over or refuses.
fn next_of(merge: &mut Merge<Counting, Each<Sorted>>, ctx: &mut Counting) -> Option<Piece>
    ensures streams { length merge.new.order.streams ≡ length merge.old.order.streams }
    ensures room { merge.new.order.ahead.room ≡ merge.old.order.ahead.room }
{
    match merge.next(ctx) {
        Ok(piece) => piece,
        Err(_) => None,
    }
}

/// Whether a merge has no more.
fn is_over(merge: &mut Merge<Counting, Each<Sorted>>, ctx: &mut Counting) -> bool {
    matches!(merge.next(ctx), Ok(None))
}

/// Puts a piece of a merge behind others: its tail, its count, and the share of each of so many streams.
fn push_piece(
    rt: &impl Abort,
    merge: &Merge<Counting, Each<Sorted>>,
    piece: Piece,
    streams: usize,
    all: &mut Vec<u64>,
)
    requires { streams ≤ length merge.now.order.streams }
{
    all.push(piece.tail).expect(rt, "memory");
    all.push(piece.count).expect(rt, "memory");
    for stream in 0..streams {
        all.push(merge.share(stream)).expect(rt, "memory");
    }
}

/// All that a merge gives in so many calls: for each piece its tail, its count, and the share of each of so many streams.
fn sums_of(
    rt: &impl Abort,
    alloc: Global,
    merge: &mut Merge<Counting, Each<Sorted>>,
    ctx: &mut Counting,
    streams: usize,
    calls: usize,
) -> Vec<u64>
    requires { streams ≤ length merge.old.order.streams }
{
    let mut all = Vec::new(alloc);
    for _ in 0..calls {
        if let Some(piece) = next_of(merge, ctx) {
            push_piece(rt, merge, piece, streams, &mut all);
        }
    }
    all
}

/// A merge of these streams.
fn merge_of(rt: &impl Abort, alloc: Global, streams: Vec<Sorted>) -> Merge<Counting, Each<Sorted>>
    requires { length streams.items ≤ 65535 }
    ensures streams { length result.order.streams ≡ length streams.items }
    ensures room { result.order.ahead.room ≡ length streams.items }
{
    let heads = Heads::new(alloc, streams.len()).expect(rt, "memory");
    Merge::new(Each::of(streams), heads)
}

/// Whether a merge of so many streams gives what a plain sort finds, and then no more, and counts so many faults.
fn gives_plain(
    rt: &impl Abort,
    alloc: Global,
    merge: &mut Merge<Counting, Each<Sorted>>,
    plain: &mut Plain,
    streams: usize,
    calls: usize,
    faults: u64,
) -> bool
    requires { streams ≤ length merge.old.order.streams }
{
    let mut ctx = Counting { faults: 0 };
    let sums = sums_of(rt, alloc, merge, &mut ctx, streams, calls);
    let is_plain = sums == plain.sums(rt, alloc, streams);
    is_over(merge, &mut ctx) && is_plain && ctx.faults == faults
}

/// Two streams, of which both have tail 1, and each has another one.
fn two_streams(rt: &impl Abort, alloc: Global) -> Vec<Sorted>
    ensures { length result.items ≡ 2 }
{
    let first = Sorted::new(rt, alloc, &[(1, 2), (5, 1)]);
    let second = Sorted::new(rt, alloc, &[(1, 3), (4, 1)]);
    vec![in alloc; first, second].expect(rt, "memory")
}

#[test]
fn two_streams_give_their_sums_and_shares(rt: HostRuntime) {
    let mut ctx = Counting { faults: 0 };
    let mut merge = merge_of(&rt, rt.alloc(), two_streams(&rt, rt.alloc()));
    let sums = sums_of(&rt, rt.alloc(), &mut merge, &mut ctx, 2, 4);
    let expected = [1, 5, 2, 3, 4, 1, 0, 1, 5, 1, 1, 0];
    assert!(rt; sums.as_slice() == expected.as_slice());
    assert!(rt; is_over(&mut merge, &mut ctx));
}

#[test]
fn a_merge_made_of_the_heads_of_another_begins_anew(rt: HostRuntime) {
    let mut ctx = Counting { faults: 0 };
    let mut merge = merge_of(&rt, rt.alloc(), two_streams(&rt, rt.alloc()));
    let first = next_of(&mut merge, &mut ctx);
    assert!(rt; matches!(first, Some(Piece { tail: 1, count: 5 })));
    let (_, heads) = merge.into_parts();
    let mut again = Merge::new(Each::of(two_streams(&rt, rt.alloc())), heads);
    let sums = sums_of(&rt, rt.alloc(), &mut again, &mut ctx, 2, 4);
    let expected = [1, 5, 2, 3, 4, 1, 0, 1, 5, 1, 1, 0];
    assert!(rt; sums.as_slice() == expected.as_slice());
    assert!(rt; is_over(&mut again, &mut ctx));
}

/// A table of three tails at most, each of which stands in it where its bit is set.
fn rows_of(rt: &impl Abort, bits: u32, count: u64, rows: &mut Vec<(u64, u64)>) {
    rows.clear();
    for tail in 0..3u64 {
        if (bits >> tail) & 1 == 1 {
            rows.push((tail, count)).expect(rt, "memory");
        }
    }
}

/// The streams of three such tables of this number, and all their rows.
fn small_streams(rt: &impl Abort, alloc: Global, number: u32, plain: &mut Plain) -> Vec<Sorted>
    ensures { length result.items ≡ 3 }
{
    let mut streams = Vec::with_capacity(alloc, 3).expect(rt, "memory");
    let mut rows = Vec::new(alloc);
    for table in 0..3 {
        rows_of(rt, number >> (3 * table), table as u64 + 1, &mut rows);
        plain.add(rt, table, &rows);
        let stream = Sorted::new(rt, alloc, &rows);
        streams.push(stream).expect(rt, "memory");
    }
    streams
}

/// Whether the merge of these three is what a plain sort finds.
fn is_small_plain(rt: &impl Abort, alloc: Global, number: u32) -> bool {
    let mut plain = Plain::new(alloc);
    let streams = small_streams(rt, alloc, number, &mut plain);
    let mut merge = merge_of(rt, alloc, streams);
    gives_plain(rt, alloc, &mut merge, &mut plain, 3, 4, 0)
}

#[test]
fn small_tables_by_number_are_merged(rt: HostRuntime) {
    for number in 0..512 {
        assert!(rt; is_small_plain(&rt, rt.alloc(), number), "{number}");
    }
}

/// Draws a table: its first tail is 0, its last one the greatest, and those between are near those of other tables.
fn draw(rows: &mut [(u64, u64)], seed: u64) {
    let mut drawn = seed;
    let mut tail = 0u64;
    for row in 0..rows.len() {
        let is_last = row + 1 == rows.len();
        rows[row] = (if is_last { u64::MAX } else { tail }, (drawn >> 60) + 1);
        drawn = drawn
            .wrapping_mul(6_364_136_223_846_793_005)
            .wrapping_add(1_442_695_040_888_963_407);
        tail = tail.wrapping_add((drawn >> 62) + 1);
    }
}

/// Drawn streams, some of which refuse, and all their rows.
fn draw_streams(
    rt: &impl Abort,
    alloc: Global,
    len: usize,
    refusals: u64,
    plain: &mut Plain,
) -> Vec<Sorted>
    ensures { length result.items ≡ len }
{
    let mut streams = Vec::with_capacity(alloc, len).expect(rt, "memory");
    for stream in 0..len {
        let mut rows = [(0, 0); 40];
        draw(&mut rows, stream as u64);
        plain.add(rt, stream, &rows);
        let drawn = Sorted::new(rt, alloc, &rows).refusing(stream % 40, refusals);
        streams.push(drawn).expect(rt, "memory");
    }
    streams
}

/// Whether the merge of drawn streams is what a plain sort finds, with so many refusals of each.
fn is_drawn_plain(rt: &impl Abort, alloc: Global, len: usize, refusals: u64) -> bool
    requires { len ≤ 65535 }
{
    let mut plain = Plain::new(alloc);
    let streams = draw_streams(rt, alloc, len, refusals, &mut plain);
    let mut merge = merge_of(rt, alloc, streams);
    let faults = refusals.wrapping_mul(len as u64);
    gives_plain(rt, alloc, &mut merge, &mut plain, len, 1200, faults)
}

#[test]
fn drawn_streams_are_merged_and_refusing_in_the_middle_of_a_tail_they_lose_nothing(
    rt: HostRuntime,
) {
    let rows = [
        ("one stream", 1, 0),
        ("seven streams", 7, 0),
        ("24 streams", 24, 0),
        ("seven streams that refuse once", 7, 1),
        ("24 streams that refuse three times", 24, 3),
    ];
    for (what, len, refusals) in rows {
        assert!(rt; len <= 65_535);
        let is_plain = is_drawn_plain(&rt, rt.alloc(), len, refusals);
        assert!(rt; is_plain, "{what}");
    }
}

/// The next piece of an order, and the number of its stream, none where it is over or refuses.
fn step_of(
    order: &mut Order<Counting, Each<Sorted>>,
    ctx: &mut Counting,
) -> Option<(usize, Piece)> {
    match order.step(ctx) {
        Ok(step) => step,
        Err(_) => None,
    }
}

/// All that an order gives in so many calls, each piece as its tail, the number of its stream and its count, sorted.
fn steps_of(
    rt: &impl Abort,
    alloc: Global,
    order: &mut Order<Counting, Each<Sorted>>,
    calls: usize,
) -> Vec<u64> {
    let mut ctx = Counting { faults: 0 };
    let mut all = Plain::new(alloc);
    for _ in 0..calls {
        if let Some((stream, piece)) = step_of(order, &mut ctx) {
            all.add(rt, stream, &[(piece.tail, piece.count)]);
        }
    }
    all.rows(rt, alloc)
}

/// An order of these streams.
fn order_of(rt: &impl Abort, alloc: Global, streams: Vec<Sorted>) -> Order<Counting, Each<Sorted>>
    requires { length streams.items ≤ 65535 }
{
    let ahead = Ahead::new(alloc, streams.len()).expect(rt, "memory");
    Order::new(Each::of(streams), ahead)
}

#[test]
fn an_order_gives_all_rows(rt: HostRuntime) {
    let mut plain = Plain::new(rt.alloc());
    let streams = draw_streams(&rt, rt.alloc(), 24, 1, &mut plain);
    let mut order = order_of(&rt, rt.alloc(), streams);
    let steps = steps_of(&rt, rt.alloc(), &mut order, 1200);
    assert!(rt; steps == plain.rows(&rt, rt.alloc()));
}
