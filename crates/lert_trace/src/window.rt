//! A window on a source: the bytes that were read from it and not taken yet.

ghost use Rattle.std.specs.Prelude.{◌≡◌, ◌+◌, ◌-◌, ◌<◌, ◌≤◌, [], length, slice_get, take, drop, IsTrue, false, IfOk};
ghost use Rattle.lert_io.specs.Fault.{HasCause};
ghost use Rattle.lert_spec.specs.Agreed.{agreed};
ghost use Rattle.lert_trace.specs.Trace.{item_size};
ghost use Rattle.lert_trace.specs.Window.{StillAhead, IsAtEnd, item_in};

use byteorder::{ByteOrder, LittleEndian};
use lert_io::{Failed, Source};
use lert_spec::{Item, agreed};
use std::marker::Model;

/// How many bytes a window holds at most: those of 455 items, or of 512 without weights.
pub const BLOCK: usize = 4096;

/// How many bytes a key has.
const KEY: usize = 8;

/// How many bytes an item of a version has: a key's, and with version 2 one of its weight.
pub fn item_size(version: u8) -> usize
    ensures value { result ≡ item_size version }
    ensures within { (8 ≤ result) × (result ≤ 9) }
{
    if version == 1 { KEY } else { KEY + 1 }
}

/// A source and the bytes of it that are pending, seen as both.
#[derive(Drop)]
pub struct Window<S: Source> {
    source: S,
    block: [u8; BLOCK],
    start: usize,
    end: usize,
}

impl<S: Source> Model for Window<S> {
    ghost use Rattle.std.specs.Prelude.{drop, take};
    ghost use Rattle.lert_trace.specs.Window.{Buffered, IsBlock};

    ghost Value = { Buffered S };

    ghost view = { λ w. record { source = w.source; pending = drop w.start (take w.end w.block) } };

    ghost invariant = { λ w. IsBlock w.block w.start w.end };
}

impl<S: Source> Window<S> {
    /// A window with no byte pending.
    pub fn new(source: S) -> Window<S>
        ensures source { result.source ≡ source }
        ensures pending { result.pending ≡ [] }
    {
        Window {
            source,
            block: [0; BLOCK],
            start: 0,
            end: 0,
        }
    }

    /// How many bytes are pending.
    pub fn len(&self) -> usize
        ensures { result ≡ length self.now.pending }
    {
        self.end - self.start
    }

    /// How many of the pending bytes, from the front on, are those of `text`.
    pub fn agreed(&self, text: &[u8]) -> usize
        ensures { result ≡ agreed text.now self.now.pending }
    {
        agreed(text, &self.block[self.start..self.end])
    }

    /// The pending byte at a place, from 0, where there is one.
    pub fn byte_at(&self, place: usize) -> Option<u8>
        ensures { result ≡ slice_get self.now.pending place }
    {
        self.block[self.start..self.end].get(place).copied()
    }

    /// The item of a version whose bytes stand in front.
    pub fn item(&self, version: u8) -> Item
        requires { item_size version ≤ length self.now.pending }
        ensures { result ≡ item_in version self.now.pending }
    {
        let bytes = &self.block[self.start..self.end];
        let weight = if version == 1 { 1 } else { bytes[KEY] };
        Item {
            key: LittleEndian::read_u64(bytes),
            weight,
        }
    }

    /// Takes so many bytes off the front.
    pub fn take(&mut self, count: usize)
        requires { count ≤ length self.old.pending }
        ensures pending { self.new.pending ≡ drop count self.old.pending }
        ensures source { self.new.source ≡ self.old.source }
    {
        self.start += count;
    }

    // One call of the source.
    fn read_more(&mut self) -> Result<usize, Failed>
        requires { length self.old.pending < 4096 }
        ensures ahead { StillAhead (S.remaining self.old.source) (S.remaining self.new.source)
            self.old.pending self.new.pending }
        ensures more { IfOk result (λ count. length self.new.pending ≡ length self.old.pending + count) }
        ensures at_end { IfOk result (λ count. count ≡ 0 →
            IsAtEnd (S.remaining self.old.source) (S.remaining self.new.source)) }
        ensures cause { HasCause (S.faults self.old.source) (S.faults self.new.source) result }
        ensures mark { S.mark self.new.source ≡ S.mark self.old.source }
    {
        let pending = self.end - self.start;
        slide(&mut self.block, self.start, self.end);
        self.start = 0;
        self.end = pending;
        let count = self.source.read(&mut self.block[pending..])?;
        self.end = pending + count;
        Ok(count)
    }

    /// Reads on until so many bytes are pending, at most 4,096, and answers whether they are: else the
    /// source has no byte left. What is still to come of it is the same, also after `Failed`.
    pub fn fill(&mut self, count: usize) -> Result<bool, Failed>
        requires { count ≤ 4096 }
        ensures ahead { StillAhead (S.remaining self.old.source) (S.remaining self.new.source)
            self.old.pending self.new.pending }
        ensures enough { IfOk result (λ full. IsTrue full → count ≤ length self.new.pending) }
        ensures short { IfOk result (λ full. full ≡ false → length self.new.pending < count) }
        ensures at_end { IfOk result (λ full. full ≡ false →
            IsAtEnd (S.remaining self.old.source) (S.remaining self.new.source)) }
        ensures cause { HasCause (S.faults self.old.source) (S.faults self.new.source) result }
        ensures mark { S.mark self.new.source ≡ S.mark self.old.source }
    {
        while self.len() < count {
            if self.read_more()? == 0 {
                return Ok(false);
            }
        }
        Ok(true)
    }

    /// Gives the source back. What was pending is dropped.
    pub fn into_source(self) -> S
        ensures { result ≡ self.source }
    {
        let Window {
            source,
            block: _,
            start: _,
            end: _,
        } = self;
        source
    }
}

// Moves the bytes from one place of a block up to another to its front, so that a read has the rest.
fn slide(block: &mut [u8], start: usize, end: usize)
    requires ordered { start ≤ end }
    requires within { end ≤ length block.old }
    ensures { take (end - start) block.new ≡ drop start (take end block.old) }
{
    block.copy_within(start..end, 0);
}
