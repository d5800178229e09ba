//! The trace format as its definition says it: where bytes leave it, and which items stand before that.

ghost use Rattle.std.specs.Prelude.{◌≡◌, ◌+◌, ◌*◌, ◌<◌, ◌≤◌, length, map, option_map, IfOk};
ghost use Rattle.std.specs.List.{prefix_len, range_with_len};
ghost use Rattle.lert_trace.specs.Trace.{full, full_len, header_len, item_at, item_size, items, left, place_of, version_in, weighs, whole};

use byteorder::{ByteOrder, LittleEndian};
use lert_spec::{Item, agreed};
use std::alloc::{AllocError, Global};

// How many bytes a header has, and the place of its version.
const HEADER: usize = 8;

const VERSION_AT: usize = 4;

// How many bytes a key has.
const KEY: usize = 8;

// The version that bytes name, where they name one.
fn version_in(bytes: &[u8]) -> u8
    ensures { result ≡ version_in bytes.now }
{
    match bytes.get(VERSION_AT) {
        Some(2) => 2,
        _ => 1,
    }
}

// How many bytes from the front on are those of a header.
fn header_len(bytes: &[u8]) -> usize
    ensures { result ≡ header_len bytes.now }
{
    agreed(
        &[0x4c, 0x45, 0x52, 0x54, version_in(bytes), 0x00, 0x00, 0x00],
        bytes,
    )
}

// How many bytes an item has.
fn item_size(version: u8) -> usize
    ensures value { result ≡ item_size version }
    ensures within { (8 ≤ result) × (result ≤ 9) }
{
    if version == 1 { KEY } else { KEY + 1 }
}

// The item with a number, from 0.
fn item_at(bytes: &[u8], n: usize) -> Item
    requires { place_of (version_in bytes.now) n + item_size (version_in bytes.now) ≤ length bytes.now }
    ensures { result ≡ item_at (version_in bytes.now) bytes.now n }
{
    let version = version_in(bytes);
    let place = HEADER + item_size(version) * n;
    Item {
        key: LittleEndian::read_u64(&bytes[place..]),
        weight: if version == 1 { 1 } else { bytes[place + KEY] },
    }
}

// How many items have all their bytes.
fn full_len(bytes: &[u8]) -> usize
    ensures { result ≡ full_len bytes.now }
{
    bytes.len().saturating_sub(HEADER) / item_size(version_in(bytes))
}

// How many of these weigh something, from the front on.
fn weighed_len(bytes: &[u8]) -> usize
    ensures value { result ≡ prefix_len weighs (full bytes.now) }
    ensures within { result ≤ full_len bytes.now }
{
    let all = full_len(bytes);
    let mut n = 0;
    while n < all && item_at(bytes, n).weight > 0 {
        n += 1;
    }
    n
}

/// The place, from 0, at which bytes first leave the trace format, `None` where they are a trace.
pub fn left(bytes: &[u8]) -> Option<usize>
    ensures { result ≡ left bytes.now }
{
    let same = header_len(bytes);
    if same < HEADER {
        return Some(same);
    }
    let size = item_size(version_in(bytes));
    let weighed = weighed_len(bytes);
    if weighed < full_len(bytes) {
        return Some(HEADER + size * weighed + KEY);
    }
    match bytes.len().saturating_sub(HEADER) % size {
        0 => None,
        cut => Some(bytes.len() - cut),
    }
}

// How many items stand wholly before the place at which bytes leave the format.
fn whole_len(bytes: &[u8]) -> usize
    ensures value { map (item_at (version_in bytes.now) bytes.now) (range_with_len 0 result) ≡ whole bytes.now }
    ensures within { result ≤ full_len bytes.now }
{
    if header_len(bytes) < HEADER {
        0
    } else {
        weighed_len(bytes)
    }
}

/// The items that stand wholly before the place at which bytes leave the format: all items, where they are a trace. Its
/// only error is want of memory.
pub fn whole(alloc: Global, bytes: &[u8]) -> Result<Vec<Item>, AllocError>
    ensures { IfOk result (λ items. items.items ≡ whole bytes.now) }
{
    first_items(alloc, bytes, whole_len(bytes))
}

// So many of those that have all their bytes, from the front on.
fn first_items(alloc: Global, bytes: &[u8], count: usize) -> Result<Vec<Item>, AllocError>
    requires { count ≤ full_len bytes.now }
    ensures { IfOk result (λ items. items.items
        ≡ map (item_at (version_in bytes.now) bytes.now) (range_with_len 0 count)) }
{
    (0..count).map(|n| item_at(bytes, n)).collect(alloc)
}

/// The items of a trace, `None` where the bytes aren't one. Its only error is want of memory.
pub fn items(alloc: Global, bytes: &[u8]) -> Result<Option<Vec<Item>>, AllocError>
    ensures { IfOk result (λ found. option_map (λ all. all.items) found ≡ items bytes.now) }
{
    if left(bytes).is_some() {
        return Ok(None);
    }
    Ok(Some(whole(alloc, bytes)?))
}
