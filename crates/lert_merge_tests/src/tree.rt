//! A tree of losers beside a plain scan.

ghost use Rattle.std.specs.Prelude.{◌≡◌, ◌≤◌, length};

use lert_merge::tree::Tree;
use std::alloc::Global;
use std::process::Abort;

/// The least of the keys.
fn least_of(keys: &[u64]) -> u64 {
    let mut least = u64::MAX;
    for &key in keys {
        least = least.min(key);
    }
    least
}

/// Numbers below 2^64 / 2^shift, in no order.
fn draw(keys: &mut [u64], seed: u64, shift: u32)
    requires { shift ≤ 63 }
    ensures { length keys.new ≡ length keys.old }
{
    let mut drawn = seed;
    for key in 0..keys.len() {
        drawn = drawn
            .wrapping_mul(6_364_136_223_846_793_005)
            .wrapping_add(1_442_695_040_888_963_407);
        keys[key] = drawn >> shift;
    }
}

/// A tree of so many streams.
fn tree_of(rt: &impl Abort, alloc: Global, streams: usize) -> Tree
    ensures { result.room ≡ streams }
{
    Tree::new(alloc, streams).expect(rt, "memory")
}

/// Asserts that a tree has just these keys.
fn has_keys(rt: &impl Abort, tree: &Tree, keys: &[u64], what: &str)
    requires { length keys.now ≡ length tree.now.keys }
{
    for stream in 0..keys.len() {
        assert_eq!(rt; tree.key(stream), keys[stream], "{what}");
    }
}

/// Asserts that the first key is the least one, while it is replaced by one after another of the next ones.
fn follow_a_scan(rt: &impl Abort, tree: &mut Tree, keys: &mut [u64], next: &[u64], what: &str)
    requires some { 1 ≤ length keys.old }
    requires few { length keys.old ≤ 65535 }
    requires room { length keys.old ≤ tree.old.room }
    ensures { tree.new.room ≡ tree.old.room }
{
    tree.begin(keys);
    for &key in next {
        let first = tree.first();
        let least = least_of(keys);
        assert_eq!(rt; (tree.key(first), keys[first]), (least, least), "{what}");
        keys[first] = key;
        tree.replace(key);
    }
    has_keys(rt, tree, keys, what);
}

#[test]
fn three_streams_come_in_order(rt: HostRuntime) {
    let mut tree = tree_of(&rt, rt.alloc(), 3);
    tree.begin(&[5, 2, 9]);
    let first = tree.first();
    tree.replace(7);
    let second = tree.first();
    tree.replace(u64::MAX);
    let third = tree.first();
    tree.replace(u64::MAX);
    let firsts = [first, second, third, tree.first()];
    assert_eq!(rt; (firsts, tree.key(2)), ([1, 0, 1, 2], 9));
}

#[test]
fn the_first_stream_is_one_of_the_least_key(rt: HostRuntime) {
    let top = u64::MAX;
    let mut one = tree_of(&rt, rt.alloc(), 1);
    follow_a_scan(&rt, &mut one, &mut [3], &[4, 0, top, 7], "one stream");
    let mut five = tree_of(&rt, rt.alloc(), 5);
    let next = [top, top, 4, top, 4, 4];
    follow_a_scan(&rt, &mut five, &mut [top, top, top], &next, "greatest keys");
    let next = [7, 8, 7, 7, 8, 8, 8, 8, 9];
    follow_a_scan(&rt, &mut five, &mut [7, 7, 7, 7, 7], &next, "equal keys");
}

/// Draws keys, and follows a scan of them while 500 others that are drawn replace them.
fn follow_drawn(
    rt: &impl Abort,
    tree: &mut Tree,
    keys: &mut [u64],
    seed: u64,
    shift: u32,
    what: &str,
)
    requires some { 1 ≤ length keys.old }
    requires few { length keys.old ≤ 65535 }
    requires room { length keys.old ≤ tree.old.room }
    requires shift { shift ≤ 63 }
{
    let mut next = [0; 500];
    draw(keys, seed, shift);
    draw(&mut next, seed.wrapping_add(1), shift);
    follow_a_scan(rt, tree, keys, &next, what);
}

#[test]
fn drawn_keys_are_followed(rt: HostRuntime) {
    let mut few = tree_of(&rt, rt.alloc(), 24);
    follow_drawn(&rt, &mut few, &mut [0; 24], 1, 0, "keys of 24 streams");
    let mut many = tree_of(&rt, rt.alloc(), 65);
    follow_drawn(
        &rt,
        &mut many,
        &mut [0; 65],
        3,
        60,
        "few keys of 65 streams",
    );
}
