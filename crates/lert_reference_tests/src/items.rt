//! Items of the worked examples.

use lert_spec::Item;
use std::alloc::Global;
use std::process::Abort;

/// The items with these keys and weights.
pub fn items_of(rt: &impl Abort, alloc: Global, pairs: &[(u64, u8)]) -> Vec<Item> {
    let mut items = Vec::new(alloc);
    for (key, weight) in pairs {
        let item = Item {
            key: *key,
            weight: *weight,
        };
        items.push(item).expect(rt, "memory");
    }
    items
}
