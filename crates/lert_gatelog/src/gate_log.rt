//! A log of gated records on a bay.

ghost use Rattle.std.specs.Prelude.{◌≡◌, ◌≢◌, ℕ, ◌+◌, ◌<◌, ◌≤◌, ◌^◌, List, [], ◌∷◌, ◌++◌, Some, None, Ok, length, take, IfOk, IfSome, IfNone, MatchOption, OnOk, OnErr, IsErr, IsErrOf};
ghost use Rattle.lert_bay.specs.Files.{IfTold, Turns, Changes, CopiesFrom};
ghost use Rattle.lert_bay.specs.Handed.{ReadsUpTo};
ghost use Rattle.lert_bay.specs.Kept.{KeepsBay, ReadsBay};
ghost use Rattle.lert_gatelog.specs.Cost.{read_cost};
ghost use Rattle.lert_gatelog.specs.Looked.{Looked};
ghost use Rattle.lert_gatelog.specs.Gated.{body, appendix, next_gate, IsOpen, IsClosed, BreaksAt, IsGated, IsAppendix, IsAnnounced};
ghost use Rattle.lert_gatelog.specs.Kept.{InEach, KeepsOthers, KeepsBefore, IsWhollySettled, IsWithOrWithout, OthersStay, IsAppended};

use crate::durable::write_durably;
use crate::fault::LogFault;
use byteorder::{ByteOrder, LittleEndian};
use lert_bay::Bay;
use lert_io::Failed;
use std::marker::Model;

// The byte of an open gate.
const OPEN: u8 = 1;

// The greatest length of a header.
const MOST_HEADER: usize = 32;

/// A place in a file of gated records: the gate that the next record stands at.
#[derive(Clone, Copy, Debug, Drop)]
pub struct GateLog {
    file: u8,
    gate: u64,
    most: u32,
}

impl Model for GateLog {
    ghost use Rattle.std.specs.Prelude.{◌<◌};
    ghost use Rattle.lert_gatelog.specs.Gated.{Log};

    ghost Value = { Log };

    ghost view = { λ log. record { file = log.file; gate = log.gate; most = log.most } };

    ghost invariant = { λ log. (log.file < 3) × (log.most < 4294967296) };

    ghost inverse = { λ log. record { file = log.file; gate = log.gate; most = log.most } };
}

impl GateLog {
    /// The log of a file at one of its gates. `most` is the greatest length of a payload.
    pub fn at_gate(file: u8, gate: u64, most: u32) -> GateLog
        requires { file < 3 }
        ensures { result ≡ record { file = file; gate = gate; most = most } }
    {
        GateLog { file, gate, most }
    }

    /// The place of the gate that the log stands at.
    pub fn gate(&self) -> u64
        ensures value { result ≡ self.now.gate }

        // The greatest length of a payload fits the four bytes that stand before one.
        ensures most { self.now.most < 2 ^ 32 }
    {
        self.gate
    }

    /// Writes a header and a closed gate behind it into an empty file, and syncs it.
    pub fn create<B: Bay>(
        bay: &mut B,
        file: u8,
        header: &[u8],
        most: u32,
    ) -> Result<GateLog, Failed>
        requires file { file < 3 }
        requires header { length header.now ≤ 32 }
        requires empty { IfTold (B.files bay.old) (λ seen. seen file ≡ []) }
        ensures made { IfOk result (λ log. log ≡ record { file = file; gate = length header.now; most = most }) }
        ensures text { IfTold (B.files bay.old) (λ _. OnOk result (InEach (B.leaves bay.new) file (λ bytes. bytes ≡ header.now ++ 0 ∷ []))) }
        ensures closed { IfTold (B.files bay.old) (λ _. OnOk result (InEach (B.leaves bay.new) file (λ bytes. IsClosed bytes (length header.now)))) }
        ensures settled { OnOk result (IfTold (B.files bay.new) (λ seen. IsWhollySettled (B.leaves bay.new) seen file)) }
        ensures others { IfTold (B.files bay.old) (λ seen. KeepsOthers (B.leaves bay.old) (B.left_since bay.new (B.moment bay.old)) seen file) }
        ensures seen { Turns (OthersStay file) (B.files bay.old) (B.files bay.new) }
        ensures kept { KeepsBay B.Bay bay.old bay.new (IsErr result) }
    {
        let mut text = [0; MOST_HEADER + 1];
        text[..header.len()].copy_from_slice(header);
        // Header and closed gate are on the disk before a record is appended.
        write_durably(bay, file, 0, &text[..header.len() + 1])?;
        Ok(GateLog::at_gate(file, header.len() as u64, most))
    }

    /// Appends a record. `text` is its payload behind the payload's length, and one byte 0 behind it, which
    /// becomes the next closed gate. After `Failed` the log stands where it stood.
    pub fn append<B: Bay>(&mut self, bay: &mut B, text: &[u8]) -> Result<(), Failed>
        requires text { IsAppendix self.old.most text.now }
        requires reach { self.old.gate + 1 + length text.now < 2 ^ 63 }
        requires closed { IfTold (B.files bay.old) (λ _. InEach (B.leaves bay.old) self.old.file (λ bytes. IsClosed bytes self.old.gate)) }
        ensures moved { OnOk result (self.new ≡ record self.old { gate = self.old.gate + length text.now }) }
        ensures stayed { OnErr result (self.new ≡ self.old) }

        // In every image of each moment of the call the open records are those from before, or those and this one.
        ensures each_moment { IfTold (B.files bay.old) (λ _. (first : ℕ) (payloads : List (List ℕ)) (payload : List ℕ) → text.now ≡ appendix payload →
            InEach (B.leaves bay.old) self.old.file (λ bytes. IsGated self.old.most bytes first payloads self.old.gate) →
            InEach (B.left_since bay.new (B.moment bay.old)) self.old.file (IsWithOrWithout self.old.most first payloads self.old.gate payload)) }

        // After Ok they are those and this one.
        ensures appended { IfTold (B.files bay.old) (λ _. (first : ℕ) (payloads : List (List ℕ)) (payload : List ℕ) → text.now ≡ appendix payload →
            InEach (B.leaves bay.old) self.old.file (λ bytes. IsGated self.old.most bytes first payloads self.old.gate) →
            OnOk result (InEach (B.leaves bay.new) self.old.file (λ bytes. IsGated self.old.most bytes first (payloads ++ payload ∷ []) self.new.gate))) }
        ensures closed { IfTold (B.files bay.old) (λ _. OnOk result (InEach (B.leaves bay.new) self.old.file (λ bytes. IsClosed bytes self.new.gate))) }
        ensures settled { OnOk result (IfTold (B.files bay.new) (λ seen. IsWhollySettled (B.leaves bay.new) seen self.old.file)) }

        // After Ok the file is the one from before with the text behind the gate and the gate open, byte for byte.
        ensures written { OnOk result (Turns (Changes (IsAppended self.old.gate text.now) self.old.file) (B.files bay.old) (B.files bay.new)) }
        ensures before { IfTold (B.files bay.old) (λ seen. KeepsBefore (B.leaves bay.old) (B.left_since bay.new (B.moment bay.old)) seen self.old.file self.old.gate) }
        ensures others { IfTold (B.files bay.old) (λ seen. KeepsOthers (B.leaves bay.old) (B.left_since bay.new (B.moment bay.old)) seen self.old.file) }
        ensures seen { Turns (OthersStay self.old.file) (B.files bay.old) (B.files bay.new) }
        ensures kept { KeepsBay B.Bay bay.old bay.new (IsErr result) }
    {
        // The record and the next closed gate come first: behind an open gate they would count.
        write_durably(bay, self.file, self.gate + 1, text)?;
        // One byte: each image has the record or not. After its sync the record may be acknowledged.
        write_durably(bay, self.file, self.gate, &[OPEN])?;
        // Behind both: a failed append leaves the log where it stood.
        self.gate += text.len() as u64;
        Ok(())
    }

    /// Reads the payload of the open record here into the front of `into`, answers its length, and moves
    /// on to the next gate. None comes exactly at a closed gate, and the log stays there. After a refusal
    /// it stands where it stood, and any bytes are in `into`. It changes no file.
    pub fn next<B: Bay>(&mut self, bay: &mut B, into: &mut [u8]) -> Result<Option<usize>, LogFault>
        requires room { self.old.most ≤ length into.old }
        requires reach { self.old.gate ≤ 2 ^ 62 }

        // Where the file is told, the answer is the record that stands here.
        ensures opened { IfTold (B.files bay.old) (λ seen. IfOk result (λ found. IfSome found (λ count.
            IsOpen self.old.most (seen self.old.file) self.old.gate (take count into.new)))) }
        ensures closed { IfTold (B.files bay.old) (λ seen. IfOk result (λ found. IfNone found
            (IsClosed (seen self.old.file) self.old.gate))) }
        ensures malformed { IfTold (B.files bay.old) (λ seen. (at : ℕ) → IsErrOf result (LogFault.Malformed at) →
            BreaksAt self.old.most (seen self.old.file) self.old.gate at) }

        // Told or not, a payload has some bytes and at most the greatest number.
        ensures counted { IfOk result (λ found. IfSome found (λ count. (0 < count) × (count ≤ self.old.most))) }
        ensures moved { IfOk result (λ found. MatchOption found (self.new ≡ self.old) (λ count. self.new ≡ record self.old { gate = self.old.gate + 5 + count })) }
        ensures stayed { OnErr result (self.new ≡ self.old) }
        ensures only_reads { ReadsBay B.Bay bay.old bay.new (IsErrOf result LogFault.Failed) }

        // No byte of a record is read twice.
        ensures handed { ReadsUpTo self.old.file (read_cost self.old.most result) (B.handed_out bay.old) (B.handed_out bay.new) }
    {
        let end = bay.len(self.file)?;
        let Some(count) = self.look(bay, end)? else {
            return Ok(None);
        };
        if bay.read_at(self.file, self.gate + 5, &mut into[..count])? < count {
            return Err(LogFault::Malformed { at: end });
        }
        self.gate += 5 + count as u64;
        Ok(Some(count))
    }

    // The length of the payload behind an open gate, in a file of `end` bytes; None at a closed gate.
    fn look<B: Bay>(&self, bay: &mut B, end: u64) -> Result<Option<usize>, LogFault>
        requires reach { self.now.gate ≤ 2 ^ 62 }
        requires end { IfTold (B.files bay.old) (λ seen. end ≡ length (seen self.now.file)) }
        ensures looked { IfTold (B.files bay.old) (λ seen. Looked self.now.most (seen self.now.file) self.now.gate result) }
        ensures counted { IfOk result (λ found. IfSome found (λ count. (0 < count) × (count ≤ self.now.most))) }
        ensures only_reads { ReadsBay B.Bay bay.old bay.new (IsErrOf result LogFault.Failed) }
        ensures handed { ReadsUpTo self.now.file 5 (B.handed_out bay.old) (B.handed_out bay.new) }
    {
        let mut head = [0; 5];
        let read = bay.read_at(self.file, self.gate, &mut head)?;
        self.announced(end, &head, read)
    }

    // What the bytes at a gate say, of which the file of `end` bytes has the first `read`.
    fn announced(&self, end: u64, head: &[u8; 5], read: usize) -> Result<Option<usize>, LogFault>
        requires { self.now.gate ≤ 2 ^ 62 }
        ensures looked { (bytes : List ℕ) → end ≡ length bytes → CopiesFrom self.now.gate read head.now bytes → Looked self.now.most bytes self.now.gate result }
        ensures counted { IfOk result (λ found. IfSome found (λ count. (0 < count) × (count ≤ self.now.most))) }
        ensures never_failed { ¬ IsErrOf result LogFault.Failed }
    {
        if read == 0 {
            return Err(LogFault::Malformed { at: end });
        }
        if head[0] != OPEN {
            return Ok(None);
        }
        if read < 5 {
            return Err(LogFault::Malformed { at: end });
        }
        let count = LittleEndian::read_u32(&head[1..]);
        if count == 0 {
            return Err(LogFault::Malformed { at: self.gate + 1 });
        }
        if count > self.most {
            return Err(LogFault::Malformed { at: self.gate + 1 });
        }
        Ok(Some(count as usize))
    }
}
