//! Generated keys, dealt to four traces.

ghost use Rattle.std.specs.Prelude.{◌≡◌, ℕ, ◌<◌, ◌≤◌, [], ◌∷◌, map, IfOk};
ghost use Rattle.lert_gen.specs.Generated.{dealt, trace_of};

use crate::key::key_at;
use crate::writing::HEADER;
use lert_io::OutOfMemory;
use std::alloc::Global;

/// The bytes of four traces, to which the keys of the first events of a seed are dealt in turn.
pub fn deal(alloc: Global, seed: u64, events: u64) -> Result<[Vec<u8>; 4], OutOfMemory>
    requires few { events ≤ 4194304 }
    ensures { IfOk result (λ traces. map (λ bytes. bytes.items) traces
        ≡ trace_of (dealt seed events 0) ∷ trace_of (dealt seed events 1) ∷ trace_of (dealt seed events 2) ∷ trace_of (dealt seed events 3) ∷ []) }
{
    Ok([
        deal_trace(alloc, seed, events, 0)?,
        deal_trace(alloc, seed, events, 1)?,
        deal_trace(alloc, seed, events, 2)?,
        deal_trace(alloc, seed, events, 3)?,
    ])
}

// The bytes of one of the four traces, counted from 0, with the key of each fourth event.
fn deal_trace(alloc: Global, seed: u64, events: u64, trace: u64) -> Result<Vec<u8>, OutOfMemory>
    requires few { events ≤ 4194304 }
    requires trace { trace < 4 }
    ensures { IfOk result (λ bytes. bytes.items ≡ trace_of (dealt seed events trace)) }
{
    let count = (events + 3 - trace) / 4;
    let mut bytes = Vec::with_capacity(alloc, 8 + 8 * count as usize)?;
    bytes.extend_from_slice(&HEADER)?;
    for number in 0..count {
        let key = key_at(seed, 4 * number + trace + 1);
        bytes.extend_from_slice(&key.to_le_bytes())?;
    }
    Ok(bytes)
}
