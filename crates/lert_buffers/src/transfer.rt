//! Keys and their weights that move between a ring and a key list.

ghost use Rattle.std.specs.Prelude.{◌≡◌, ◌+◌, ◌≤◌, [], ◌++◌, length};
ghost use Rattle.circular_buffer.specs.Buffer.{buffer};
ghost use Rattle.lert_buffers.specs.Rings.{AreWeighed};

use circular_buffer::HeapCircularBuffer;
use lert_base::{Item, KeyList};

/// Moves a ring's items behind those of a list, which has room for them.
pub(crate) fn drain(ring: &mut HeapCircularBuffer<Item>, keys: &mut KeyList)
    requires room { length keys.old.items + length ring.old.items ≤ keys.old.room }
    requires some { AreWeighed ring.old.items }
    ensures keys { keys.new ≡ record keys.old { items = keys.old.items ++ ring.old.items } }
    ensures ring { ring.new ≡ buffer [] ring.old.capacity }
{
    let (front, back) = ring.as_slices();
    push_all(keys, front);
    push_all(keys, back);
    ring.clear();
}

/// Puts items behind those of a list, which has room for them.
fn push_all(keys: &mut KeyList, items: &[Item])
    requires room { length keys.old.items + length items.now ≤ keys.old.room }
    requires some { AreWeighed items.now }
    ensures { keys.new ≡ record keys.old { items = keys.old.items ++ items.now } }
{
    for item in items {
        keys.push(item.key, item.weight);
    }
}

/// Moves a list's items behind those of a ring, which has room for them.
pub(crate) fn refill(ring: &mut HeapCircularBuffer<Item>, keys: &mut KeyList)
    requires { length ring.old.items + length keys.old.items ≤ ring.old.capacity }
    ensures keys { keys.new ≡ record keys.old { items = [] } }
    ensures ring { ring.new ≡ buffer (ring.old.items ++ keys.old.items) ring.old.capacity }
    ensures some { AreWeighed keys.old.items }
{
    let names = keys.as_slice();
    let weights = keys.weights();
    for place in 0..names.len() {
        let _ = ring.push_back(Item {
            key: names[place],
            weight: weights[place],
        });
    }
    keys.clear();
}
