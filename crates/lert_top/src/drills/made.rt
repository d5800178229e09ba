//! What a drill reads from and writes to: sources of generated keys, and bays in memory.

ghost use Rattle.std.specs.Prelude.{◌≡◌, ◌≤◌, All, length, map, IfOk};
ghost use Rattle.std.specs.VecDeque.{deque_capacity};
ghost use Rattle.lert_gen.specs.Generated.{trace_of};
ghost use Rattle.lert_top.specs.drills.Dealt.{all_dealt, new_bay};

use lert_bay::MemBay;
use lert_gen::deal;
use lert_io::{OutOfMemory, SteadySource};
use std::alloc::Global;
use std::collections::VecDeque;

/// Sources of four traces, to which the keys of the first events of a seed are dealt in turn.
pub fn make_sources(
    alloc: Global,
    seed: u64,
    events: u64,
) -> Result<VecDeque<SteadySource>, OutOfMemory>
    requires few { events ≤ 4194304 }
    ensures { IfOk result (λ sources. sources.items ≡ map trace_of (all_dealt seed events)) }
{
    let traces = deal(alloc, seed, events)?;
    let mut sources = VecDeque::with_capacity(alloc, traces.len())?;
    for trace in &traces {
        sources.push_back_reserved(SteadySource::new(alloc, trace.as_slice())?);
    }
    Ok(sources)
}

/// So many bays with empty files, in a list with room for them.
pub fn make_bays(alloc: Global, number: u32) -> Result<VecDeque<MemBay>, OutOfMemory>
    ensures number { IfOk result (λ bays. length bays.items ≡ number) }
    ensures room { IfOk result (λ bays. length bays.items ≤ deque_capacity bays) }
    ensures each { IfOk result (λ bays. All (λ bay. bay ≡ new_bay) bays.items) }
{
    let mut bays = VecDeque::with_capacity(alloc, number as usize)?;
    for _ in 0..number {
        bays.push_back_reserved(MemBay::new(alloc)?);
    }
    Ok(bays)
}
