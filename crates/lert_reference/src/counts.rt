//! Weights and positions of keys as their definitions say them: the events are gone through anew for each position.

ghost use Rattle.std.specs.Prelude.{◌≡◌, ◌<◌, ◌≤◌, ◌^◌, length, insert, IfOk, IfSome, MatchOption};
ghost use Rattle.lert_spec.specs.Counts.{weighed, weight_in, nth_in, first_in, insert_key, distinct_in, heavy_in};

use lert_spec::Item;
use std::alloc::{AllocError, Global};

/// What a key weighs at the positions above `from`, up to `to`.
pub fn weight(key: u64, events: &[Item], from: usize, to: usize) -> u64
    requires order { from ≤ to }
    requires within { to ≤ length events.now }
    requires few { length events.now ≤ 2 ^ 56 }
    ensures { result ≡ weight_in weighed key events.now from to }
{
    let mut weight = 0;
    let window = &events[from..to];
    for event in window {
        if event.key == key {
            weight += u64::from(event.weight);
        }
    }
    weight
}

/// The first position up to which a key weighs `n`, `None` where it never does. `n` is at least 1.
pub fn reached_at(n: u64, key: u64, events: &[Item]) -> Option<usize>
    requires few { length events.now ≤ 2 ^ 56 }
    ensures { result ≡ nth_in weighed n key events.now }
{
    (1..events.len() + 1).find(|to| n <= weight(key, events, 0, *to))
}

/// The first position of a key, `None` where it doesn't occur.
pub fn first(key: u64, events: &[Item]) -> Option<usize>
    ensures { result ≡ first_in weighed key events.now }
{
    for (place, event) in events.iter().enumerate() {
        if event.key == key {
            return Some(place + 1);
        }
    }
    None
}

// Where a key belongs among ascending keys, none where it is among them.
fn place_of(keys: &[u64], key: u64) -> Option<usize>
    ensures within { IfSome result (λ place. place ≤ length keys.now) }
    ensures value { MatchOption result
        (insert_key key keys.now ≡ keys.now)
        (λ place. insert_key key keys.now ≡ insert keys.now place key) }
{
    for (place, other) in keys.iter().enumerate() {
        if key < *other {
            return Some(place);
        }
        if key == *other {
            return None;
        }
    }
    Some(keys.len())
}

/// The keys that occur, each once, in ascending order. Its only error is want of memory.
pub fn distinct(alloc: Global, events: &[Item]) -> Result<Vec<u64>, AllocError>
    ensures { IfOk result (λ keys. keys.items ≡ distinct_in weighed events.now) }
{
    let mut keys = Vec::new(alloc);
    let mut left = events.len();
    while left > 0 {
        left -= 1;
        if let Some(place) = place_of(&keys, events[left].key) {
            keys.insert(place, events[left].key)?;
        }
    }
    Ok(keys)
}

/// The keys that weigh at least `threshold`, each once, in ascending order. Its only error is want of memory.
pub fn heavy(alloc: Global, threshold: u64, events: &[Item]) -> Result<Vec<u64>, AllocError>
    requires few { length events.now ≤ 2 ^ 56 }
    ensures { IfOk result (λ keys. keys.items ≡ heavy_in weighed threshold events.now) }
{
    distinct(alloc, events)?
        .iter()
        .copied()
        .filter(|key| threshold <= weight(*key, events, 0, events.len()))
        .collect(alloc)
}
