//! What is run and timed.

use crate::drawn::Kind;
use crate::filter::time_filter;
use crate::framing::time_frame;
use crate::keys::Keys;
use crate::merge::time_merge;
use crate::route::time_route;
use crate::timed::Timed;
use crate::workload::Workload;
use anyhow::Result;
use std::fs::File;
use std::rt::{Clock, Files};

/// A loop.
#[derive(Clone, Copy)]
pub enum What<'a> {
    /// The windows of level 0 as events fill them, or the counts of one great table.
    Filter(Workload, Keys),
    /// The loop of `run` without its cones, of which there are so many bits: it reads a trace in memory, puts each key into
    /// the ring of its cone, and empties each ring that holds a packet.
    Route(u16),
    /// The merge of a flush over so many sorted streams in memory: the steps of an order, and the sums of equal tails
    /// behind them.
    Merge(u16),
    /// A frame of a level that is written into a file and read back: the first one of cone 0 in the directory.
    Frame(Kind, &'a str),
}

/// A loop, and how much of what follows from which seed it is run on.
#[derive(Clone, Copy)]
pub struct Task<'a> {
    pub what: What<'a>,
    /// The events or the keys, or the pieces of a stream or a frame.
    pub size: u32,
    pub seed: u64,
}

impl Task<'_> {
    /// Runs the loop.
    pub fn run<R: Clock + Files<File = File> + AllocGlobal>(self, rt: &R) -> Result<Timed> {
        let size = self.size;
        let seed = self.seed;
        match self.what {
            What::Filter(workload, keys) => time_filter(rt, workload, keys, u64::from(size), seed),
            What::Route(cone_bits) => time_route(rt, u64::from(cone_bits), u64::from(size), seed),
            What::Merge(streams) => time_merge(rt, streams, size, seed),
            What::Frame(kind, dir) => time_frame(rt, kind, dir, size, seed),
        }
    }
}

/// A small task of each loop.
pub fn small_tasks(dir: &str) -> [Task; 4] {
    [
        Task {
            what: What::Filter(Workload::OneCone, Keys::Distinct),
            size: 20_000,
            seed: 1,
        },
        Task {
            what: What::Route(2),
            size: 20_000,
            seed: 1,
        },
        Task {
            what: What::Merge(3),
            size: 1000,
            seed: 1,
        },
        Task {
            what: What::Frame(Kind::Distinct, dir),
            size: 1000,
            seed: 1,
        },
    ]
}
