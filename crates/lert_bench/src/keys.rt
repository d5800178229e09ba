//! The tails of a workload. `bench/counting_map.rs` makes the same ones.

use crate::random::Random;
use lert_mixer::mix;
use std::alloc::{AllocError, Global};

/// The most bits that a skewed key has.
const MOST_BITS: u64 = 24;

/// What the keys of a workload are.
#[derive(Clone, Copy)]
pub enum Keys {
    /// Each another one.
    Distinct,
    /// The n-th is about as frequent as 1/n.
    Skewed,
}

impl Keys {
    pub fn named(name: &str) -> Option<Keys> {
        match name {
            "distinct" => Some(Keys::Distinct),
            "skewed" => Some(Keys::Skewed),
            _ => None,
        }
    }

    /// The tails of so many keys: of each mixed key the bits that stand in `mask`.
    pub fn tails(
        self,
        alloc: Global,
        events: u64,
        seed: u64,
        mask: u64,
    ) -> Result<Vec<u64>, AllocError> {
        let mut tails = Vec::new(alloc);
        let mut random = Random::new(seed);
        for event in 0..events {
            let key = match self {
                Keys::Distinct => seed.wrapping_add(event),
                Keys::Skewed => skewed(&mut random),
            };
            tails.push(mix(key) & mask)?;
        }
        Ok(tails)
    }
}

/// A number of 1 to `MOST_BITS` bits, each length with the same chance.
fn skewed(random: &mut Random) -> u64 {
    let highest = 1u64 << (random.next() % MOST_BITS);
    highest | (random.next() & (highest - 1))
}
