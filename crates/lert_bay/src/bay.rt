//! The trait of a disk.

ghost use Rattle.std.specs.Prelude.{◌≡◌, ℕ, ◌+◌, ◌<◌, ◌≤◌, ◌^◌, Option, Some, length, IfOk, OnOk, OnErr};
ghost use Rattle.lert_io.specs.Fault.{HasCause};
ghost use Rattle.lert_bay.specs.Files.{Files, IfTold, Turns, Changes, Holds, Torn, LeftByFailure, CopiesFrom};
ghost use Rattle.lert_bay.specs.Images.{KeepsImages, Follow, Settles, Elapses};
ghost use Rattle.lert_bay.specs.Handed.{HandsOut};

use lert_io::{Failed, Faulty};

/// The number of the file of packets.
pub const JOURNAL: u8 = 0;

/// The number of the file of log records.
pub const LOG: u8 = 1;

/// The number of the file of frames.
pub const FRAMES: u8 = 2;

/// The three files of a cone on a disk. No call changes whether a bay tells them.
pub trait Bay: Faulty {
    /// The files as a read gives them, where the bay tells them.
    ghost files: { Self → Option Files };

    /// The images: what a crash at this moment may leave of the files. No clause says that their bytes are
    /// below 256.
    ghost leaves: { Self → Files → Type 0 };

    /// This moment, as a number that doesn't fall. All three files share it.
    ghost moment: { Self → ℕ };

    /// The images that a crash at some moment since a time might have left, in a call or between two.
    ghost left_since: { Self → ℕ → Files → Type 0 };

    /// How many bytes reads have handed out of each file, where the bay tells its files; else a number that
    /// says nothing more. It stays at 2^64 - 1 once it is there.
    ghost handed_out: { Self → ℕ → ℕ };

    /// The length of a file in bytes. It changes no file, whatever it answers.
    fn len(&mut self, file: u8) -> Result<u64, Failed>
        requires { file < 3 }
        ensures told { IfTold (files self.old) (λ seen. IfOk result (λ count. count ≡ length (seen file))) }
        ensures seen { files self.new ≡ files self.old }
        ensures images { KeepsImages (leaves self.old) (leaves self.new) }
        ensures time { Elapses (moment self.old) (moment self.new) (left_since self.old) (left_since self.new) (leaves self.new) }
        ensures handed { handed_out self.new ≡ handed_out self.old }
        ensures cause { HasCause (Self.faults self.old) (Self.faults self.new) result }
        ensures mark { Self.mark self.new ≡ Self.mark self.old };

    /// Copies the bytes of a file from the place `at` on into the front of `into`, and answers how many:
    /// fewer than asked for exactly where the file ends there. What lies behind them in `into` is any
    /// bytes. It changes no file, whatever it answers.
    fn read_at(&mut self, file: u8, at: u64, into: &mut [u8]) -> Result<usize, Failed>
        requires { file < 3 }
        ensures within { IfOk result (λ count. count ≤ length into.new) }
        ensures told { IfTold (files self.old) (λ seen. IfOk result (λ count. CopiesFrom at count into.new (seen file))) }
        ensures seen { files self.new ≡ files self.old }
        ensures images { KeepsImages (leaves self.old) (leaves self.new) }
        ensures time { Elapses (moment self.old) (moment self.new) (left_since self.old) (left_since self.new) (leaves self.new) }
        ensures handed { HandsOut file (files self.old) (handed_out self.old) (handed_out self.new) result }
        ensures cause { HasCause (Self.faults self.old) (Self.faults self.new) result }
        ensures mark { Self.mark self.new ≡ Self.mark self.old };

    /// Writes `bytes` into a file at the place `at`. The file grows where they reach past its end, and a
    /// gap before them reads as zero bytes. After `Failed` any bytes stand in their range, and the file
    /// has any length from the old one to the one asked for. Until a sync of the file a crash may leave
    /// the same, and any bytes past the length that the file had at its last sync.
    fn write_at(&mut self, file: u8, at: u64, bytes: &[u8]) -> Result<(), Failed>
        requires file { file < 3 }
        requires reach { at + length bytes.now < 2 ^ 63 }
        ensures written { OnOk result (Turns (Changes (Holds at bytes.now) file) (files self.old) (files self.new)) }
        ensures failed { OnErr result (Turns (Changes (LeftByFailure at (length bytes.now)) file) (files self.old) (files self.new)) }
        ensures images { Follow (Changes (Torn at (length bytes.now)) file) (leaves self.old) (leaves self.new) }
        ensures time { Elapses (moment self.old) (moment self.new) (left_since self.old) (left_since self.new) (leaves self.new) }
        ensures handed { handed_out self.new ≡ handed_out self.old }
        ensures cause { HasCause (Self.faults self.old) (Self.faults self.new) result }
        ensures mark { Self.mark self.new ≡ Self.mark self.old };

    /// Makes a file durable: after Ok a crash leaves of it what a read gives. It changes no file, whatever
    /// it answers, and after `Failed` a crash may leave what it might before.
    fn sync(&mut self, file: u8) -> Result<(), Failed>
        requires { file < 3 }
        ensures seen { files self.new ≡ files self.old }
        ensures durable { IfTold (files self.old) (λ seen. OnOk result (Settles file (seen file) (leaves self.old) (leaves self.new))) }
        ensures failed { OnErr result (KeepsImages (leaves self.old) (leaves self.new)) }
        ensures time { Elapses (moment self.old) (moment self.new) (left_since self.old) (left_since self.new) (leaves self.new) }
        ensures handed { handed_out self.new ≡ handed_out self.old }
        ensures cause { HasCause (Self.faults self.old) (Self.faults self.new) result }
        ensures mark { Self.mark self.new ≡ Self.mark self.old };

    /// A bay as a read gives it is one of its images.
    ghost as_read: { (bay : Self) (seen : Files) → files bay ≡ Some seen → leaves bay seen };

    /// What a crash may leave now it might have left since now.
    ghost since_now: { (bay : Self) (image : Files) → leaves bay image → left_since bay (moment bay) image };

    /// Since now there is no other moment.
    ghost only_now: { (bay : Self) (image : Files) → left_since bay (moment bay) image → leaves bay image };

    /// What a crash might have left since a time it might have left since an earlier one.
    ghost since_earlier: { (bay : Self) (t u : ℕ) (image : Files) → t ≤ u → left_since bay u image → left_since bay t image };
}
