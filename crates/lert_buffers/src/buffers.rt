//! The rings of all cones.

ghost use Rattle.std.specs.Prelude.{◌≡◌, ◌+◌, ◌*◌, ◌<◌, ◌≤◌, [], ◌∷◌, ◌++◌, length, replicate, IfOk};
ghost use Rattle.lert_base.specs.Keys.{Keys};

use crate::transfer::{drain, refill};
use circular_buffer::HeapCircularBuffer;
use lert_base::{Entry, Item};
use lert_io::OutOfMemory;
use std::alloc::Global;
use std::marker::Model;

/// What a ring's length asks of the caller.
#[derive(Clone, Copy, Debug, PartialEq, Eq)]
pub enum Fill {
    /// Nothing.
    Low,
    /// The ring holds one, two or three packets: they may go now.
    Ready,
    /// The ring holds four packets, and no key more.
    MustGo,
}

/// A ring of keys and their weights for each cone, each with a room of four packets. Seen as the size of a
/// packet and the list of items of each cone.
#[derive(Drop)]
pub struct Buffers {
    rings: Vec<HeapCircularBuffer<Item>>,
    packet: usize,
}

impl Fill {
    ghost use Rattle.lert_buffers.specs.Rings.{fill_of};

    // What a ring with so many keys asks of the caller.
    fn of(packet: usize, keys: usize) -> Fill
        requires { packet ≤ 1024 }
        ensures { result ≡ fill_of packet keys }
    {
        if keys == 4 * packet {
            return Fill::MustGo;
        }
        if keys == packet {
            return Fill::Ready;
        }
        if keys == 2 * packet || keys == 3 * packet {
            return Fill::Ready;
        }
        Fill::Low
    }
}

impl Model for Buffers {
    ghost use Rattle.std.specs.Prelude.{map};
    ghost use Rattle.lert_buffers.specs.Rings.{Rings, IsRoomy};

    ghost Value = { Rings };

    ghost view = { λ b. record { packet = b.packet; rings = map (λ r. r.items) b.rings.items } };

    ghost invariant = { λ b. IsRoomy b.packet b.rings.items };
}

impl Buffers {
    ghost use Rattle.lert_buffers.specs.Rings.{ring_of, with_ring, fill_of, with_keys};

    /// Empty rings for 1 to 256 cones and packets of 1 to 1,024 keys: one allocation for their list and one a
    /// cone, and no other later.
    pub fn new(alloc: Global, cones: u32, packet: usize) -> Result<Buffers, OutOfMemory>
        requires least_cones { 1 ≤ cones }
        requires most_cones { cones ≤ 256 }
        requires least_packet { 1 ≤ packet }
        requires most_packet { packet ≤ 1024 }
        ensures { IfOk result (λ b. b ≡ record { packet = packet; rings = replicate cones [] }) }
    {
        let mut rings = Vec::with_capacity(alloc, cones as usize)?;
        for _ in 0..cones {
            rings.push(HeapCircularBuffer::with_capacity(alloc, 4 * packet)?)?;
        }
        Ok(Buffers { rings, packet })
    }

    /// Puts a key and its weight, 1 to 255, behind those of its cone.
    pub fn push(&mut self, cone: u32, key: u64, weight: u8) -> Fill
        requires cone { cone < length self.old.rings }
        requires room { length (ring_of self.old cone) < 4 * self.old.packet }
        requires some { 1 ≤ weight }
        ensures fill { result ≡ fill_of self.old.packet (length (ring_of self.old cone) + 1) }
        ensures rings { self.new ≡ with_ring self.old cone (ring_of self.old cone ++ record { key = key; weight = weight } ∷ []) }
    {
        let ring = &mut self.rings[cone as usize];
        let _ = ring.push_back(Item { key, weight });
        Fill::of(self.packet, ring.len())
    }

    /// Moves a cone's keys and their weights into an entry without keys, whose room is that of the ring.
    pub fn take(&mut self, cone: u32, entry: &mut Entry)
        requires cone { cone < length self.old.rings }
        requires empty { entry.old.keys.items ≡ [] }
        requires room { entry.old.keys.room ≡ 4 * self.old.packet }
        ensures entry { entry.new ≡ with_keys entry.old (ring_of self.old cone) }
        ensures rings { self.new ≡ with_ring self.old cone [] }
    {
        drain(&mut self.rings[cone as usize], &mut entry.keys);
    }

    /// Moves an entry's keys and their weights back into the empty ring of a cone.
    pub fn give_back(&mut self, cone: u32, entry: &mut Entry)
        requires cone { cone < length self.old.rings }
        requires empty { ring_of self.old cone ≡ [] }
        requires room { length entry.old.keys.items ≤ 4 * self.old.packet }
        ensures entry { entry.new ≡ with_keys entry.old [] }
        ensures rings { self.new ≡ with_ring self.old cone entry.old.keys.items }
    {
        refill(&mut self.rings[cone as usize], &mut entry.keys);
    }

    /// How many keys a cone's ring holds: at most four packets.
    pub fn len(&self, cone: u32) -> usize
        requires { cone < length self.now.rings }
        ensures value { result ≡ length (ring_of self.now cone) }
        ensures within { result ≤ 4 * self.now.packet }
    {
        self.rings[cone as usize].len()
    }
}
