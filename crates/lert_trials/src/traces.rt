//! The bytes of traces.

use std::alloc::{AllocError, Global};

/// The bytes before the keys of a trace.
pub const HEADER: [u8; 8] = [0x4c, 0x45, 0x52, 0x54, 1, 0, 0, 0];

/// The bytes before the items of a trace with weights.
pub const WEIGHED_HEADER: [u8; 8] = [0x4c, 0x45, 0x52, 0x54, 2, 0, 0, 0];

/// The bytes of a trace.
pub fn trace(alloc: Global, keys: &[u64]) -> Result<Vec<u8>, AllocError> {
    let mut bytes = Vec::from_slice(alloc, &HEADER)?;
    for key in keys {
        bytes.extend_from_slice(&key.to_le_bytes())?;
    }
    Ok(bytes)
}

/// The bytes of a trace with so many keys: these at these positions, from 1, and a key of its own from
/// 1001 on at each other one.
pub fn trace_with(alloc: Global, len: u8, placed: &[(u8, u64)]) -> Result<Vec<u8>, AllocError> {
    let mut keys = Vec::new(alloc);
    for position in 0..len {
        keys.push(1_001 + u64::from(position))?;
    }
    for (position, key) in placed {
        if let Some(place) = keys.get_mut(usize::from(*position).saturating_sub(1)) {
            *place = *key;
        }
    }
    trace(alloc, keys.as_slice())
}

/// The bytes of a trace with weights, each behind its key.
pub fn weighed_trace(alloc: Global, items: &[(u64, u8)]) -> Result<Vec<u8>, AllocError> {
    let mut bytes = Vec::from_slice(alloc, &WEIGHED_HEADER)?;
    for (key, weight) in items {
        bytes.extend_from_slice(&key.to_le_bytes())?;
        bytes.push(*weight)?;
    }
    Ok(bytes)
}
