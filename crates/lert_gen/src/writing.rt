//! A trace of generated keys, written.

ghost use Rattle.std.specs.Prelude.{◌≡◌, ℕ, ◌+◌, ◌*◌, ◌<◌, ◌≤◌, ◌++◌, List, length, map, take, Some, None, OnOk, OnErr};
ghost use Rattle.std.specs.List.{flat_map, range_with_len};
ghost use Rattle.byteorder.specs.Endian.{little_bytes};
ghost use Rattle.lert_gen.specs.Generated.{generated, key_at, trace_of};
ghost use Rattle.lert_gen.specs.Writing.{Appends};
ghost use Rattle.lert_io.specs.Fault.{HasCause};
ghost use Rattle.lert_trace.specs.Trace.{trace_header};

use crate::key::key_at;
use lert_io::{Failed, Sink, write_all};

/// The bytes that begin a trace without weights.
pub const HEADER: [u8; 8] = [b'L', b'E', b'R', b'T', 1, 0, 0, 0];

// How many keys a block has room for, and how many bytes.
const BLOCK_KEYS: u64 = 1_024;

const BLOCK_LEN: usize = 8_192;

/// Writes a trace without weights, of the keys of the first events of a seed, in writes of whole buffers, but for the last
/// one. It takes no memory. After `Failed` the sink took a beginning of the trace.
pub fn write_trace<K: Sink>(seed: u64, events: u64, out: &mut K) -> Result<(), Failed>
    requires few { events ≤ 4294967296 }
    ensures told { (before : List ℕ) → K.taken out.old ≡ Some before →
        OnOk result (K.taken out.new ≡ Some (before ++ trace_of (generated seed events))) }
    ensures part { (before : List ℕ) → K.taken out.old ≡ Some before → OnErr result
        ((count : ℕ) × (count < length (trace_of (generated seed events))) × (K.taken out.new ≡ Some (before ++ take count (trace_of (generated seed events))))) }
    ensures untold { K.taken out.old ≡ None → K.taken out.new ≡ None }
    ensures cause { HasCause (K.faults out.old) (K.faults out.new) result }
    ensures mark { K.mark out.new ≡ K.mark out.old }
{
    let mut block = [0; BLOCK_LEN];
    block[..8].copy_from_slice(&HEADER);
    let mut done = events.min(BLOCK_KEYS - 1);
    write_block(out, &mut block, 8, seed, 0, done)?;
    while done < events {
        let count = (events - done).min(BLOCK_KEYS);
        write_block(out, &mut block, 0, seed, done, count)?;
        done += count;
    }
    Ok(())
}

// Writes the bytes of a block that are filled, and behind them the keys of the next events of a seed.
fn write_block<K: Sink>(
    out: &mut K,
    block: &mut [u8; BLOCK_LEN],
    filled: usize,
    seed: u64,
    done: u64,
    count: u64,
) -> Result<(), Failed>
    requires few { done + count ≤ 4294967296 }
    requires within { filled + 8 * count ≤ 8192 }
    ensures { Appends K.taken K.faults K.mark out.old out.new
        (take filled block.old ++ flat_map (little_bytes 8) (map (key_at seed) (range_with_len (done + 1) count))) result }
{
    put_keys(block, filled, seed, done, count);
    let len = filled + 8 * count as usize;
    write_all(out, &block[..len])
}

// Puts the keys of the next events of a seed into a block, behind those bytes that are filled.
fn put_keys(block: &mut [u8], filled: usize, seed: u64, done: u64, count: u64)
    requires few { done + count ≤ 4294967296 }
    requires within { filled + 8 * count ≤ length block.old }
    requires small { length block.old ≤ 8192 }
    ensures { take (filled + 8 * count) block.new
        ≡ take filled block.old ++ flat_map (little_bytes 8) (map (key_at seed) (range_with_len (done + 1) count)) }
{
    for number in 0..count {
        let place = filled + 8 * number as usize;
        put_key(block, place, key_at(seed, done + number + 1));
    }
}

// Puts a key into a block, behind those bytes that are filled.
fn put_key(block: &mut [u8], filled: usize, key: u64)
    requires { filled + 8 ≤ length block.old }
    ensures front { take (filled + 8) block.new ≡ take filled block.old ++ little_bytes 8 key }
    ensures len { length block.new ≡ length block.old }
{
    block[filled..filled + 8].copy_from_slice(&key.to_le_bytes());
}
