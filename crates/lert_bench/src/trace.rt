//! A trace in memory, and the settings of the cones that it goes to.

use lert_base::{Numbers, Settings};
use lert_mixer::mix;
use std::alloc::{AllocError, Global};

/// Settings of so many cones. A routing reads their cone bits alone.
pub fn settings_of(cone_bits: u64) -> Option<Settings> {
    let numbers = Numbers {
        threshold: 24,
        bins: 4,
        ratio: 4,
        base: 4_096,
        levels: 5,
        cone_bits,
        room: 65_536,
        packet: 1_024,
    };
    Settings::new(numbers).ok()
}

/// A trace of so many keys, each another one.
pub fn make_trace(alloc: Global, keys: u64, seed: u64) -> Result<Vec<u8>, AllocError> {
    let mut bytes = Vec::from_slice(alloc, &[0x4c, 0x45, 0x52, 0x54, 1, 0, 0, 0])?;
    for number in 0..keys {
        let key = mix(seed.wrapping_add(number));
        bytes.extend_from_slice(&key.to_le_bytes())?;
    }
    Ok(bytes)
}
