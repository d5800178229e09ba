//! The rings, and the loop over all items.

ghost use Rattle.std.specs.Prelude.{◌≡◌, ℕ, ◌*◌, ◌^◌, ◌<◌, ◌≤◌, [], length};
ghost use Rattle.lert_buffers.specs.Rings.{ring_of};

use crate::timed::Timed;
use crate::trace::{make_trace, settings_of};
use anyhow::{Context, Result};
use lert_base::{Entry, KeyList, Settings};
use lert_buffers::{Buffers, Fill};
use lert_io::{OutOfMemory, SteadySource};
use lert_mixer::cone_of;
use lert_spec::Item;
use lert_trace::{MOST_ITEMS, TraceReader};
use std::alloc::Global;
use std::rt::Clock;
use std::time::Instant;

/// Rings of which none holds a packet, and an entry without keys.
#[derive(Drop)]
pub struct Routing {
    settings: Settings,
    rings: Buffers,
    entry: Entry,
    ghost cones: { length rings.rings ≡ 2 ^ settings.cone_bits },
    ghost short: { (cone : ℕ) → cone < 2 ^ settings.cone_bits → length (ring_of rings cone) < rings.packet },
    ghost empty: { entry.keys.items ≡ [] },
    ghost room: { entry.keys.room ≡ 4 * rings.packet },
}

impl Routing {
    /// Empty rings.
    pub fn new(alloc: Global, settings: Settings) -> Result<Routing, OutOfMemory> {
        let packet = settings.numbers().packet as usize;
        Ok(Routing {
            settings,
            rings: Buffers::new(alloc, settings.cones(), packet)?,
            entry: Entry::new(0, 0, KeyList::with_room(alloc, 4 * packet)?),
        })
    }

    /// Reads a reader to its end, and answers a sum over all packets, in their order.
    pub fn route_all(&mut self, reader: &mut TraceReader<SteadySource>) -> u64 {
        let mut sum = 0;
        while let Ok(Some(item)) = reader.next() {
            sum = self.route(item, sum);
        }
        sum
    }

    // Puts an item into the ring of its cone. Where that holds a packet then, it is emptied into the sum.
    fn route(&mut self, item: Item, sum: u64) -> u64
        requires { 1 ≤ item.weight }
    {
        let cone = cone_of(&self.settings, item.key);
        match self.rings.push(cone, item.key, item.weight) {
            Fill::Low => sum,
            Fill::Ready | Fill::MustGo => {
                self.rings.take(cone, &mut self.entry);
                let sum = sum_of(self.entry.keys.as_slice(), sum);
                self.entry.keys.clear();
                sum
            }
        }
    }
}

// The sum with keys behind it.
fn sum_of(keys: &[u64], sum: u64) -> u64 {
    let mut sum = sum;
    for key in keys {
        sum = sum.rotate_left(1) ^ *key;
    }
    sum
}

/// Routes a trace of so many keys, and sums up its packets.
pub fn time_route<R: Clock + AllocGlobal>(
    rt: &R,
    cone_bits: u64,
    keys: u64,
    seed: u64,
) -> Result<Timed> {
    let settings = settings_of(cone_bits).context("no such cone bits")?;
    let mut routing = Routing::new(rt.alloc(), settings)
        .ok()
        .context("out of memory")?;
    route_keys(rt, &mut routing, keys, seed)
}

fn route_keys<R: Clock + AllocGlobal>(
    rt: &R,
    routing: &mut Routing,
    keys: u64,
    seed: u64,
) -> Result<Timed> {
    let bytes = make_trace(rt.alloc(), keys, seed)?;
    route_trace(rt, routing, &bytes)
}

fn route_trace<R: Clock + AllocGlobal>(
    rt: &R,
    routing: &mut Routing,
    bytes: &[u8],
) -> Result<Timed> {
    let source = SteadySource::new(rt.alloc(), bytes)
        .ok()
        .context("out of memory")?;
    let mut reader = TraceReader::new(source, MOST_ITEMS);
    time_routing(rt, routing, &mut reader)
}

fn time_routing<R: Clock>(
    rt: &R,
    routing: &mut Routing,
    reader: &mut TraceReader<SteadySource>,
) -> Result<Timed> {
    let start = Instant::now(rt)?;
    let sum = routing.route_all(reader);
    Ok(Timed::once(sum, start.elapsed(rt)?))
}
