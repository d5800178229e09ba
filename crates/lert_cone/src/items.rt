//! The items of an entry, as a cone takes them.

ghost use Rattle.std.specs.Prelude.{◌≡◌, ◌==◌, ◌*◌, ◌^◌, ◌<◌, ◌≤◌, All, IfSome, not, sum_by, length, take, drop, slice_index_or};
ghost use Rattle.lert_cone.specs.Refuses.{first_weighed};
ghost use Rattle.lert_spec.specs.Counts.{weighed, weight_of};
ghost use Rattle.lert_spec.specs.Items.{keys_in};
ghost use Rattle.std.specs.List.{position_from};
ghost use Rattle.lert_spec.specs.declared.item.Item.{Item};

use lert_base::{Entry, Item};
use std::marker::Model;

/// Keys, and beside each what it weighs. Seen as the list of these items.
#[derive(Drop)]
pub struct Items<'a> {
    keys: &'a [u64],
    weights: &'a [u8],
}

impl<'a> Model for Items<'a> {
    ghost use Rattle.std.specs.Prelude.{◌≡◌, List, length};
    ghost use Rattle.lert_base.specs.Keys.{items_of};
    ghost use Rattle.lert_spec.specs.declared.item.Item.{Item};

    ghost Value = { List Item };

    ghost view = { λ i. items_of i.keys.now i.weights.now };

    ghost invariant = { λ i. length i.weights.now ≡ length i.keys.now };
}

impl<'a> Items<'a> {
    /// Those of an entry. A key has 64 bits.
    pub fn of(entry: &'a Entry) -> Items<'a>
        ensures value { result ≡ entry.now.keys.items }
        ensures fit { All (λ key. key < 2 ^ 64) (keys_in result) }
    {
        let keys = entry.keys.as_slice();
        let weights = entry.keys.weights();
        Items { keys, weights }
    }

    /// How many there are.
    pub fn len(&self) -> usize
        ensures value { result ≡ length self.now }
        ensures short { result < 2 ^ 63 }
    {
        self.keys.len()
    }

    /// Whether there is none.
    pub fn is_empty(&self) -> bool
        ensures { result ≡ (length self.now == 0) }
    {
        self.len() == 0
    }

    /// What they weigh together.
    pub fn weight(&self) -> u64
        requires few { length self.now < 2 ^ 32 }
        ensures value { result ≡ weight_of weighed self.now }
        ensures most { result ≤ 255 * length self.now }
    {
        // A name, so that the proof knows what it has.
        let weights = self.weights;
        sum_of(weights)
    }

    /// The number, from 1, of the first one whose weight isn't 1.
    pub fn first_weighed(&self) -> Option<u64>
        ensures { result ≡ first_weighed self.now }
    {
        let weights = self.weights;
        match first_other(weights) {
            Some(place) => Some(place as u64 + 1),
            None => None,
        }
    }

    /// The one with this number, from 0.
    pub fn at(&self, number: usize) -> Item
        requires { number < length self.now }
        ensures value { (d : Item) → result ≡ slice_index_or self.now number d }
        ensures fits { result.key < 2 ^ 64 }
    {
        // Names, so that the proof knows how long they are.
        let keys = self.keys;
        let weights = self.weights;
        Item {
            key: keys[number],
            weight: weights[number],
        }
    }

    /// The first ones, so many, and the others.
    pub fn split_at(&self, count: usize) -> (Items<'a>, Items<'a>)
        requires { count ≤ length self.now }
        ensures front { result.0 ≡ take count self.now }
        ensures back { result.1 ≡ drop count self.now }
    {
        let (keys, other_keys) = self.keys.split_at(count);
        let (weights, other_weights) = self.weights.split_at(count);
        (
            Items { keys, weights },
            Items {
                keys: other_keys,
                weights: other_weights,
            },
        )
    }
}

// The sum of some weights.
fn sum_of(weights: &[u8]) -> u64
    requires few { length weights.now < 2 ^ 32 }
    ensures value { result ≡ sum_by (λ weight. weight) weights.now }
    ensures most { result ≤ 255 * length weights.now }
{
    added(weights)
}

// So of weights whose sum is known to fit.
fn added(weights: &[u8]) -> u64
    requires { sum_by (λ weight. weight) weights.now < 2 ^ 64 }
    ensures { result ≡ sum_by (λ weight. weight) weights.now }
{
    weights.iter().map(|weight| *weight as u64).sum()
}

// Which of them, from 0, is the first that isn't 1.
fn first_other(weights: &[u8]) -> Option<usize>
    ensures within { IfSome result (λ place. place < length weights.now) }
    ensures first { result ≡ position_from (λ weight. not (weight == 1)) 0 weights.now }
{
    weights.iter().position(|weight| *weight != 1)
}
