//! A list of keys with their weights, with a fixed room.

ghost use Rattle.std.specs.Prelude.{◌≡◌, ◌<◌, ◌≤◌, ◌↔◌, ◌++◌, [], ◌∷◌, length, All, IfOk, IsTrue};

use lert_io::OutOfMemory;
use std::alloc::Global;
use std::marker::Model;

/// A list of keys and of what each weighs, 1 to 255. Its memory is taken once, for as many as its room says: nine
/// bytes each. It is seen as a list of items.
#[derive(Drop)]
pub struct KeyList {
    keys: Vec<u64>,
    weights: Vec<u8>,
}

impl Model for KeyList {
    ghost use Rattle.std.specs.Prelude.{vec_capacity};
    ghost use Rattle.lert_base.specs.Keys.{Keys, items_of, AreSideBySide};

    ghost Value = { Keys };

    ghost view = { λ l. record { items = items_of l.keys.items l.weights.items; room = vec_capacity l.keys } };

    ghost invariant = { λ l. AreSideBySide l.keys.items l.weights.items (vec_capacity l.keys) (vec_capacity l.weights) };
}

impl KeyList {
    ghost use Rattle.lert_base.specs.Keys.{weights_in};
    ghost use Rattle.lert_spec.specs.Items.{keys_in};

    /// An empty list with a room of `room` keys: two allocations, the only ones of its life.
    pub fn with_room(alloc: Global, room: usize) -> Result<KeyList, OutOfMemory>
        ensures { IfOk result (λ list. list ≡ record { items = []; room = room }) }
    {
        Ok(KeyList {
            keys: Vec::with_capacity(alloc, room)?,
            weights: Vec::with_capacity(alloc, room)?,
        })
    }

    /// Puts a key and its weight, 1 to 255, at the end. Takes no memory.
    pub fn push(&mut self, key: u64, weight: u8)
        requires room { length self.old.items < self.old.room }
        requires some { 1 ≤ weight }
        ensures { self.new ≡ record self.old { items = self.old.items ++ record { key = key; weight = weight } ∷ [] } }
    {
        self.keys.push_reserved(key);
        self.weights.push_reserved(weight);
    }

    /// Takes all keys out. The room stays.
    pub fn clear(&mut self)
        ensures { self.new ≡ record self.old { items = [] } }
    {
        self.keys.clear();
        self.weights.clear();
    }

    /// The keys, in the order in which they came.
    pub fn as_slice(&self) -> &[u64]
        ensures { result.now ≡ keys_in self.now.items }
    {
        self.keys.as_slice()
    }

    /// What each key weighs, in the same order.
    pub fn weights(&self) -> &[u8]
        ensures value { result.now ≡ weights_in self.now.items }
        ensures some { All (λ weight. 1 ≤ weight) result.now }
    {
        self.weights.as_slice()
    }

    /// How many keys it has.
    pub fn len(&self) -> usize
        ensures { result ≡ length self.now.items }
    {
        self.keys.len()
    }

    pub fn is_empty(&self) -> bool
        ensures { IsTrue result ↔ (self.now.items ≡ []) }
    {
        self.len() == 0
    }
}
