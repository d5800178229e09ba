//! A bay in memory, whose calls fail where a plan says so, and which can crash.

ghost use Rattle.std.specs.Prelude.{◌≡◌, ◌↔◌, ℕ, ◌+◌, ◌<◌, ◌≤◌, ◌^◌, ◌++◌, [], ◌∷◌, Some, None, length, take, min, slice_set, IfOk, OnOk, OnErr, IsErr};
ghost use Rattle.lert_io.specs.Fault.{HasCause, HasRisen};
ghost use Rattle.lert_bay.specs.Files.{Files, Holds};

use crate::bay::Bay;
use crate::mem_file::MemFile;
use crate::past::Past;
use crate::plan::Plan;
use lert_io::{Failed, Faulty, OutOfMemory};
use std::alloc::Global;
use std::marker::Model;

/// Three files in memory. It tells them, and what a crash at each moment since its making might have
/// left of them.
#[derive(Drop)]
pub struct MemBay {
    alloc: Global,
    files: [MemFile; 3],
    past: Past<[MemFile; 3]>,
    plan: Plan,
    faults: u64,
    mark: u64,
    handed: [u64; 3],
}

impl Model for MemBay {
    ghost use Rattle.std.specs.Prelude.{◌≡◌, length};
    ghost use Rattle.lert_bay.specs.Memory.{Disk};

    ghost Value = { Disk };

    ghost view = { λ b. record { files = b.files; past = b.past; plan = b.plan; faults = b.faults; mark = b.mark; handed = b.handed } };

    ghost invariant = { λ b. (length b.files ≡ 3) × (length b.handed ≡ 3) };
}

impl MemBay {
    ghost use Rattle.lert_bay.specs.Memory.{untouched, durable, calm, Strikes, ticked, file_of, seen_of, handed_of, MayLeaveAll, Rewrites};

    /// Three empty files with nothing pending, of which no byte was read, and no call that is to fail.
    pub fn new(alloc: Global) -> Result<MemBay, OutOfMemory>
        ensures { IfOk result (λ bay. bay ≡ record {
          files = untouched ∷ untouched ∷ untouched ∷ [];
          past = [];
          plan = calm;
          faults = 0;
          mark = 0;
          handed = 0 ∷ 0 ∷ 0 ∷ [];
        }) }
    {
        Ok(MemBay {
            alloc,
            files: [
                MemFile::new(alloc),
                MemFile::new(alloc),
                MemFile::new(alloc),
            ],
            past: Past::new(),
            plan: Plan::calm(),
            faults: 0,
            mark: 0,
            handed: [0; 3],
        })
    }

    /// The bay with this mark.
    pub fn marked(mut self, mark: u64) -> MemBay
        ensures { result ≡ record self { mark = mark } }
    {
        self.mark = mark;
        self
    }

    /// The same bay in memory of its own.
    pub fn copied(&self, alloc: Global) -> Result<MemBay, OutOfMemory>
        ensures { IfOk result (λ bay. bay ≡ self.now) }
    {
        let [journal, log, frames] = &self.files;
        Ok(MemBay {
            alloc,
            files: [
                journal.copied(alloc)?,
                log.copied(alloc)?,
                frames.copied(alloc)?,
            ],
            past: self.past.copied(),
            plan: self.plan,
            faults: self.faults,
            mark: self.mark,
            handed: self.handed,
        })
    }

    /// Makes the call with this number fail, counted from now on, beginning with 1. It takes the place of
    /// an earlier one that hasn't come. A write that fails so is torn: part of its bytes
    /// stands in the file, by no clause which; it is the first half.
    pub fn fail_at(&mut self, call: u64)
        ensures { self.new ≡ record self.old { plan = record self.old.plan { fail = Some call } } }
    {
        self.plan.fail = Some(call);
    }

    /// Makes the call with this number and all behind it fail, counted as by `fail_at`. It takes the place
    /// of an earlier one.
    pub fn stop_at(&mut self, call: u64)
        ensures { self.new ≡ record self.old { plan = record self.old.plan { stop = Some call } } }
    {
        self.plan.stop = Some(call);
    }

    /// The bytes of a file as a read gives them.
    pub fn bytes(&self, file: u8) -> &[u8]
        requires { file < 3 }
        ensures { result.now ≡ seen_of self.now.files file }
    {
        self.files[file as usize].bytes()
    }

    /// How many bytes of a file reads have handed out. The number stays at 2^64 - 1 once it is there.
    pub fn bytes_read(&self, file: u8) -> u64
        requires { file < 3 }
        ensures { result ≡ handed_of self.now.handed file }
    {
        self.handed[file as usize]
    }

    /// Replaces a file by these bytes, synced. It counts as no call of the bay. A refusal leaves the bay as
    /// it was.
    pub fn load(&mut self, file: u8, bytes: &[u8]) -> Result<(), OutOfMemory>
        requires { file < 3 }
        ensures ok { OnOk result (self.new ≡ record self.old {
          files = slice_set self.old.files file (durable bytes.now);
          past = self.old.past ++ self.old.files ∷ [];
        }) }
        ensures err { OnErr result (self.new ≡ self.old) }
    {
        let loaded = MemFile::holding(self.alloc, bytes)?;
        self.past.push(&self.files);
        self.files[file as usize] = loaded;
        Ok(())
    }

    /// What a crash at this moment may leave, one of its images, as a bay with nothing pending and no call
    /// that is to fail. It takes back the writes since the last sync, the last one first. The picks 0 to 3
    /// take back all of each, nothing, the second half and the first half, and leave the least length, the
    /// greatest, the greatest and the one between. A greater pick gives each write a fate of its own. The counts
    /// of faults and of bytes read go on.
    pub fn crashed(mut self, pick: u64) -> Result<MemBay, OutOfMemory>
        ensures image { IfOk result (λ bay. MayLeaveAll self.files (seen_of bay.files)) }
        ensures lost { pick ≡ 0 → IfOk result (λ bay. (number : ℕ) → seen_of bay.files number ≡ (file_of self.files number).synced) }
        ensures as_read { pick ≡ 1 → IfOk result (λ bay. (number : ℕ) → seen_of bay.files number ≡ seen_of self.files number) }
        ensures durable { IfOk result (λ bay. (image : Files) → MayLeaveAll bay.files image → image ≡ seen_of bay.files) }
        ensures rest { IfOk result (λ bay. bay ≡ record {
          files = bay.files;
          past = [];
          plan = calm;
          faults = self.faults;
          mark = self.mark;
          handed = self.handed;
        }) }
    {
        for file in &mut self.files {
            file.crash(pick);
        }
        self.past = Past::new();
        self.plan = Plan::calm();
        Ok(self)
    }

    // Counts a call and looks whether it is to fail.
    fn begin(&mut self) -> Result<(), Failed>
        ensures fails { IsErr result ↔ Strikes self.old.plan }
        ensures begun { self.new ≡ record self.old {
          past = self.old.past ++ self.old.files ∷ [];
          plan = ticked self.old.plan;
          faults = self.new.faults;
        } }
        ensures ok { OnOk result (self.new.faults ≡ self.old.faults) }
        ensures err { OnErr result (self.new.faults ≡ min (self.old.faults + 1) 18446744073709551615) }
        ensures cause { HasCause self.old.faults self.new.faults result }
    {
        self.past.push(&self.files);
        if self.plan.tick() {
            return Err(self.count_fault());
        }
        Ok(())
    }

    // Makes a file durable.
    fn settle(&mut self, file: u8)
        requires { file < 3 }
        ensures within { file < length self.old.files }
        ensures settled { self.new ≡ record self.old { files = slice_set self.old.files file (durable (seen_of self.old.files file)) } }
    {
        self.files[file as usize].sync();
    }

    // Counts a fault.
    fn count_fault(&mut self) -> Failed
        ensures fault { self.new ≡ record self.old { faults = min (self.old.faults + 1) 18446744073709551615 } }
        ensures never_falls { self.old.faults ≤ self.new.faults }
        ensures rose { HasRisen self.old.faults self.new.faults }
    {
        self.faults = self.faults.saturating_add(1);
        Failed
    }

    // Counts bytes of a file that a read hands out.
    fn count_read(&mut self, file: u8, count: usize)
        requires { file < 3 }
        ensures within { file < length self.old.handed }
        ensures never_falls { handed_of self.old.handed file ≤ handed_of self.new.handed file }
        ensures counted { self.new ≡ record self.old { handed = slice_set self.old.handed file (min (handed_of self.old.handed file + count) 18446744073709551615) } }
    {
        self.handed[file as usize] = self.handed[file as usize].saturating_add(count as u64);
    }

    // Writes the first `landing` of these bytes into a file, and notes that all may have been written.
    fn write_part(
        &mut self,
        file: u8,
        at: u64,
        bytes: &[u8],
        landing: usize,
    ) -> Result<(), OutOfMemory>
        requires file { file < 3 }
        requires reach { at + length bytes.now < 2 ^ 63 }
        requires part { landing ≤ length bytes.now }
        ensures ok { OnOk result (Rewrites file at (length bytes.now) (Holds at (take landing bytes.now)) self.old self.new) }
        ensures err { OnErr result (Rewrites file at (length bytes.now) (λ old new. new ≡ old) self.old self.new) }
    {
        self.files[file as usize].write(self.alloc, at, bytes, landing)
    }
}

impl Faulty for MemBay {
    ghost faults = { λ b. b.faults };

    ghost mark = { λ b. b.mark };
}

impl Bay for MemBay {
    ghost use Rattle.std.specs.Prelude.{Some, length};
    ghost use Rattle.lert_bay.specs.Files.{IfTold, Turns, Changes, Torn, LeftByFailure, CopiesFrom};
    ghost use Rattle.lert_bay.specs.Images.{KeepsImages, Follow, Settles};
    ghost use Rattle.lert_bay.specs.Handed.{HandsOut};
    ghost use Rattle.lert_bay.specs.Memory.{IsCounted, Strikes, TakesTime, seen_of, handed_of, MayLeaveAll, LeftSince, as_read, only_now, since_earlier};
    ghost use Rattle.std.proofs.Common.{inl};

    ghost files = { λ b. Some (seen_of b.files) };

    ghost leaves = { λ b image. MayLeaveAll b.files image };

    ghost moment = { λ b. length b.past };

    ghost left_since = { LeftSince };

    ghost handed_out = { λ b. handed_of b.handed };

    ghost as_read = { as_read };

    ghost since_now = { λ b image now. inl now };

    ghost only_now = { only_now };

    ghost since_earlier = { since_earlier };

    /// Fails exactly where the plan says so.
    fn len(&mut self, file: u8) -> Result<u64, Failed>
        requires { file < 3 }
        ensures fails { IsErr result ↔ Strikes self.old.plan }
        ensures counted { IsCounted self.old self.new result }
        ensures told { IfTold (Some (seen_of self.old.files)) (λ seen. IfOk result (λ count. count ≡ length (seen file))) }
        ensures seen { Some (seen_of self.new.files) ≡ Some (seen_of self.old.files) }
        ensures images { KeepsImages (MayLeaveAll self.old.files) (MayLeaveAll self.new.files) }
        ensures time { TakesTime self.old self.new }
        ensures handed { handed_of self.new.handed ≡ handed_of self.old.handed }
        ensures cause { HasCause self.old.faults self.new.faults result }
    {
        self.begin()?;
        Ok(self.bytes(file).len() as u64)
    }

    /// Fails exactly where the plan says so.
    fn read_at(&mut self, file: u8, at: u64, into: &mut [u8]) -> Result<usize, Failed>
        requires { file < 3 }
        ensures fails { IsErr result ↔ Strikes self.old.plan }
        ensures counted { IsCounted self.old self.new result }
        ensures within { IfOk result (λ count. count ≤ length into.new) }
        ensures told { IfTold (Some (seen_of self.old.files)) (λ seen. IfOk result (λ count. CopiesFrom at count into.new (seen file))) }
        ensures seen { Some (seen_of self.new.files) ≡ Some (seen_of self.old.files) }
        ensures images { KeepsImages (MayLeaveAll self.old.files) (MayLeaveAll self.new.files) }
        ensures time { TakesTime self.old self.new }
        ensures handed { HandsOut file (Some (seen_of self.old.files)) (handed_of self.old.handed) (handed_of self.new.handed) result }
        ensures cause { HasCause self.old.faults self.new.faults result }
    {
        self.begin()?;
        let count = self.files[file as usize].read(at, into);
        self.count_read(file, count);
        Ok(count)
    }

    /// Fails where the plan says so, and else only where no memory was found.
    fn write_at(&mut self, file: u8, at: u64, bytes: &[u8]) -> Result<(), Failed>
        requires file { file < 3 }
        requires reach { at + length bytes.now < 2 ^ 63 }
        ensures fails { Strikes self.old.plan → IsErr result }
        ensures counted { IsCounted self.old self.new result }
        ensures written { OnOk result (Turns (Changes (Holds at bytes.now) file) (Some (seen_of self.old.files)) (Some (seen_of self.new.files))) }
        ensures failed { OnErr result (Turns (Changes (LeftByFailure at (length bytes.now)) file) (Some (seen_of self.old.files)) (Some (seen_of self.new.files))) }
        ensures images { Follow (Changes (Torn at (length bytes.now)) file) (MayLeaveAll self.old.files) (MayLeaveAll self.new.files) }
        ensures time { TakesTime self.old self.new }
        ensures handed { handed_of self.new.handed ≡ handed_of self.old.handed }
        ensures cause { HasCause self.old.faults self.new.faults result }
    {
        if self.begin().is_err() {
            let _ = self.write_part(file, at, bytes, bytes.len() / 2);
            return Err(Failed);
        }
        match self.write_part(file, at, bytes, bytes.len()) {
            Ok(()) => Ok(()),
            Err(OutOfMemory) => Err(self.count_fault()),
        }
    }

    /// Fails exactly where the plan says so.
    fn sync(&mut self, file: u8) -> Result<(), Failed>
        requires { file < 3 }
        ensures fails { IsErr result ↔ Strikes self.old.plan }
        ensures counted { IsCounted self.old self.new result }
        ensures seen { Some (seen_of self.new.files) ≡ Some (seen_of self.old.files) }
        ensures durable { IfTold (Some (seen_of self.old.files)) (λ seen. OnOk result (Settles file (seen file) (MayLeaveAll self.old.files) (MayLeaveAll self.new.files))) }
        ensures failed { OnErr result (KeepsImages (MayLeaveAll self.old.files) (MayLeaveAll self.new.files)) }
        ensures time { TakesTime self.old self.new }
        ensures handed { handed_of self.new.handed ≡ handed_of self.old.handed }
        ensures cause { HasCause self.old.faults self.new.faults result }
    {
        self.begin()?;
        self.settle(file);
        Ok(())
    }
}
