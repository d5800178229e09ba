//! Loops over filters.

use crate::keys::Keys;
use crate::timed::Timed;
use crate::workload::{Ready, Workload};
use anyhow::{Context, Result};
use std::rt::Clock;
use std::time::Instant;

/// Draws the tails, and sums up what the filters of a workload count of them.
pub fn time_filter<R: Clock + AllocGlobal>(
    rt: &R,
    workload: Workload,
    keys: Keys,
    events: u64,
    seed: u64,
) -> Result<Timed> {
    let tails = keys.tails(rt.alloc(), events, seed, workload.shape().greatest)?;
    count_tails(rt, workload, &tails)
}

fn count_tails<R: Clock + AllocGlobal>(rt: &R, workload: Workload, tails: &[u64]) -> Result<Timed> {
    let mut ready = workload
        .prepare(rt.alloc(), tails)
        .ok()
        .context("out of memory")?;
    let timed = time_counts(rt, &mut ready, tails);
    drop(ready);
    timed
}

fn time_counts<R: Clock>(rt: &R, ready: &mut Ready, tails: &[u64]) -> Result<Timed> {
    let start = Instant::now(rt)?;
    let sum = ready.run(tails);
    Ok(Timed::once(sum, start.elapsed(rt)?))
}
