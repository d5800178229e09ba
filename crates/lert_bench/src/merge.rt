//! The merge of a flush over sorted streams in memory.

use crate::checksum::Checksum;
use crate::drawn::{Kind, pieces};
use crate::random::Random;
use crate::sorted::{Quiet, Sorted};
use crate::timed::{Line, Timed};
use anyhow::{Context, Result};
use lert_io::OutOfMemory;
use lert_levels::landing::{Sum, add_total, end_totals};
use lert_merge::order::Each;
use lert_merge::{Ahead, Order};
use std::alloc::Global;
use std::rt::Clock;
use std::time::Instant;

const MOST_PIECES: u64 = 1 << 47;

const MOST_COUNT: u64 = 1 << 15;

/// No count of pieces that lie near each other is drawn above this.
const MOST_NEAR: u64 = 16;

/// So many streams of so many pieces in one order, with its memory.
fn prepare(
    alloc: Global,
    count: u16,
    len: u32,
    seed: u64,
) -> Result<Order<Quiet, Each<Sorted>>, OutOfMemory> {
    let mut random = Random::new(seed);
    let mut streams = Vec::new(alloc);
    for _ in 0..count {
        streams.push(Sorted::new(pieces(
            &mut random,
            alloc,
            Kind::Near,
            len,
            MOST_NEAR * u64::from(len),
        )?))?;
    }
    let ahead = Ahead::new(alloc, streams.len())?;
    Ok(Order::new(Each::of(streams), ahead))
}

/// Merges all that is to come, as a flush does that lands nothing.
fn merge_all(order: &mut Order<Quiet, Each<Sorted>>, checksum: &mut Checksum) {
    let mut ctx = Quiet {};
    let mut sum = Sum::new();
    for _ in 0..MOST_PIECES {
        let Ok(Some((stream, piece))) = order.step(&mut ctx) else {
            end_totals(checksum, &mut sum);
            return;
        };
        // So the counts can be added up. Those that are drawn are far less.
        if piece.count > MOST_COUNT {
            return;
        }
        checksum.piece(stream, piece);
        add_total(checksum, &mut sum, piece);
    }
}

/// Merges so many streams of so many pieces, and gives a checksum over all that came.
pub fn time_merge<R: Clock + AllocGlobal>(
    rt: &R,
    streams: u16,
    pieces: u32,
    seed: u64,
) -> Result<Timed> {
    let mut order = prepare(rt.alloc(), streams, pieces, seed)
        .ok()
        .context("out of memory")?;
    time_merging(rt, &mut order)
}

fn time_merging<R: Clock>(rt: &R, order: &mut Order<Quiet, Each<Sorted>>) -> Result<Timed> {
    let mut checksum = Checksum::new();
    let start = Instant::now(rt)?;
    merge_all(order, &mut checksum);
    let time = start.elapsed(rt)?;
    Ok(Timed {
        sums: Line {
            first: u128::from(checksum.totals),
            second: Some(u128::from(checksum.pieces)),
        },
        times: Line {
            first: time.as_nanos(),
            second: None,
        },
    })
}
