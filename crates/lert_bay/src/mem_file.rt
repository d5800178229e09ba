//! One file of a bay in memory, with what a crash may still undo.

ghost use Rattle.std.specs.Prelude.{◌≡◌, ◌+◌, ◌≤◌, ◌<◌, ◌^◌, ◌++◌, [], ◌∷◌, length, take, IfOk, OnOk, OnErr};
ghost use Rattle.lert_bay.specs.Files.{Holds, CopiesFrom};
ghost use Rattle.lert_bay.specs.Since.{IsTornSince};
ghost use Rattle.lert_bay.specs.Memory.{untouched, durable};

use crate::extent::Extent;
use crate::overwrite::Overwrite;
use crate::past::Past;
use crate::writes::{copies, covered, length_left, put, take_back};
use lert_io::OutOfMemory;
use std::alloc::Global;
use std::marker::Model;

/// The bytes of a file as a read gives them. Contracts see beside them the bytes at the last sync and
/// the ranges written since, which take no memory.
#[derive(Drop)]
pub struct MemFile {
    bytes: Vec<u8>,
    least: usize,
    unsynced: Vec<Overwrite>,
    synced: Past<Vec<u8>>,
    written: Past<Extent>,
}

impl Model for MemFile {
    ghost use Rattle.lert_bay.specs.Memory.{FileState};
    ghost use Rattle.lert_bay.specs.Pending.{IsPending, bytes_of};

    ghost Value = { FileState };

    ghost view = { λ f. record { now = f.bytes.items; synced = bytes_of f.synced; written = f.written } };

    ghost invariant = { λ f. IsPending f.bytes.items (bytes_of f.synced) f.written f.least f.unsynced.items };
}

impl MemFile {
    /// An empty file with nothing pending.
    pub fn new(alloc: Global) -> MemFile
        ensures { result ≡ untouched }
    {
        MemFile::made_of(alloc, Vec::new(alloc))
    }

    /// A file of these bytes with nothing pending.
    pub fn holding(alloc: Global, bytes: &[u8]) -> Result<MemFile, OutOfMemory>
        ensures { IfOk result (λ file. file ≡ durable bytes.now) }
    {
        Ok(MemFile::made_of(alloc, Vec::from_slice(alloc, bytes)?))
    }

    /// The same file in memory of its own.
    pub fn copied(&self, alloc: Global) -> Result<MemFile, OutOfMemory>
        ensures { IfOk result (λ file. file ≡ self.now) }
    {
        Ok(MemFile {
            bytes: Vec::from_slice(alloc, &self.bytes)?,
            least: self.least,
            unsynced: copies(alloc, &self.unsynced)?,
            synced: self.synced.copied(),
            written: self.written.copied(),
        })
    }

    // A file of this vector with nothing pending.
    fn made_of(alloc: Global, bytes: Vec<u8>) -> MemFile
        ensures { result ≡ durable bytes.items }
    {
        MemFile {
            synced: Past::of(&bytes),
            least: bytes.len(),
            bytes,
            unsynced: Vec::new(alloc),
            written: Past::new(),
        }
    }

    /// The bytes as a read gives them.
    pub fn bytes(&self) -> &[u8]
        ensures { result.now ≡ self.now.now }
    {
        self.bytes.as_slice()
    }

    /// Copies the bytes from the place `at` on into the front of `into`, and answers how many.
    pub fn read(&self, at: u64, into: &mut [u8]) -> usize
        ensures { CopiesFrom at result into.new self.now.now }
    {
        let from = self.bytes.len().min(at as usize);
        let count = into.len().min(self.bytes.len() - from);
        into[..count].copy_from_slice(&self.bytes[from..from + count]);
        count
    }

    /// Notes that `bytes` are to be written at the place `at`, and writes the first `landing` of them. A
    /// refusal leaves the bytes as a read gives them, and the write counts as one that may have torn.
    pub fn write(
        &mut self,
        alloc: Global,
        at: u64,
        bytes: &[u8],
        landing: usize,
    ) -> Result<(), OutOfMemory>
        requires reach { at + length bytes.now < 2 ^ 63 }
        requires part { landing ≤ length bytes.now }
        ensures ok { OnOk result (Holds at (take landing bytes.now) self.old.now self.new.now) }
        ensures err { OnErr result (self.new.now ≡ self.old.now) }
        ensures as_read { IsTornSince self.old.synced self.old.written self.old.now }
        ensures synced { self.new.synced ≡ self.old.synced }
        ensures written { self.new.written ≡ self.old.written ++ record { at = at; count = length bytes.now } ∷ [] }
    {
        self.written.push(&Extent {
            at,
            count: bytes.len() as u64,
        });
        let at = at as usize;
        let old = covered(alloc, &self.bytes, at, bytes.len())?;
        self.unsynced.push(Overwrite { at, old })?;
        put(&mut self.bytes, at, &bytes[..landing])
    }

    /// Makes the bytes durable.
    pub fn sync(&mut self)
        ensures { self.new ≡ durable self.old.now }
    {
        self.synced = Past::of(&self.bytes);
        self.written = Past::new();
        self.least = self.bytes.len();
        self.unsynced.clear();
    }

    /// Makes of the file what a crash may leave of it, by `pick`.
    pub fn crash(&mut self, pick: u64)
        ensures image { IsTornSince self.old.synced self.old.written self.new.now }
        ensures lost { pick ≡ 0 → self.new.now ≡ self.old.synced }
        ensures as_read { pick ≡ 1 → self.new.now ≡ self.old.now }
        ensures durable { self.new ≡ durable self.new.now }
    {
        take_back(&mut self.bytes, &self.unsynced, pick);
        let length = length_left(pick, self.least, self.bytes.len());
        self.bytes.truncate(length);
        self.sync();
    }
}
