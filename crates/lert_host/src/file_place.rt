//! The files of the machine as a place of traces and bays.

ghost use Rattle.std.specs.Prelude.{◌≡◌, ◌<◌, ◌≤◌, ◌++◌, ◌∷◌, [], false, true, length, string_bytes, IfSome, IfOk};
ghost use Rattle.std.specs.Path.{path_buf_bytes, path_join};
ghost use Rattle.lert_io.specs.Fault.{HasRisen};
ghost use Rattle.lert_host.specs.Name.{cone_file};
ghost use Rattle.lert_place.specs.Openings.{bays_granted, traces_granted};

use crate::file_bay::FileBay;
use crate::file_source::FileSource;
use crate::handed::Handed;
use lert_io::{Failed, Faulty, Seen};
use lert_place::{Opening, Place};
use std::alloc::{AllocError, Global};
use std::fs::{File, OpenOptions};
use std::io::BufReader;
use std::path::{Path, PathBuf};
use std::rt::Files;
use std::{fs, io};

// How many bytes of a trace one call of the system asks for.
const BLOCK: usize = 65_536;

/// The files of the machine. It opens traces by their paths, and of a cone the three files in a directory,
/// which it makes, with its missing parents, where they aren't there. It keeps nothing of what is put back.
///
/// A cone's files are of one program at a time, and of one bay: an opening locks the journal, and the lock lasts as long as
/// the bay. Where another one holds it, or the file system has no locks, the opening is refused.
#[derive(Drop)]
pub struct FilePlace<'a, R: Files<File = File> + AllocGlobal> {
    rt: &'a R,
    refuses: bool,
    faults: u64,
    asked: Seen<Opening>,
    traces: Handed<FileSource<File>>,
    bays: Handed<FileBay>,
    ghost tied_traces: { length traces.objects ≡ traces_granted asked },
    ghost tied_bays: { length bays.objects ≡ bays_granted asked },
}

impl<'a, R: Files<File = File> + AllocGlobal> FilePlace<'a, R> {
    /// A place that nothing was asked of.
    pub fn new(rt: &'a R) -> FilePlace<'a, R>
        ensures asked { result.asked ≡ [] }
        ensures traces { result.traces.objects ≡ [] }
        ensures bays { result.bays.objects ≡ [] }
    {
        FilePlace {
            rt,
            refuses: false,
            faults: 0,
            asked: Seen::new(),
            traces: Handed::new(),
            bays: Handed::new(),
        }
    }

    /// A place that refuses each opening, and so opens no file: for a program with a standard stream that is closed, whose
    /// number the first file would get.
    pub fn refusing(rt: &'a R) -> FilePlace<'a, R>
        ensures asked { result.asked ≡ [] }
        ensures traces { result.traces.objects ≡ [] }
        ensures bays { result.bays.objects ≡ [] }
        ensures refuses { result.refuses ≡ true }
    {
        let mut place = FilePlace::new(rt);
        place.refuses = true;
        place
    }

    // The file of this path, with a buffer of its own.
    fn trace(&self, path: &str) -> Option<FileSource<File>>
        ensures mark { IfSome result (λ source. source.mark ≡ length self.now.traces.objects) }
        ensures room { IfSome result (λ source. self.now.traces.count < 4294967295) }
        ensures opens { IfSome result (λ source. self.now.refuses ≡ false) }
    {
        let number = self.next_of(&self.traces)?;
        let file = File::open(self.rt, path).ok()?;
        let reader = BufReader::with_capacity(self.rt.alloc(), BLOCK, file).ok()?;
        Some(FileSource::new(reader, number))
    }

    // The three files of a cone in a directory.
    fn bay(&self, dir: &str, cone: u32) -> Option<FileBay>
        ensures mark { IfSome result (λ bay. bay.mark ≡ length self.now.bays.objects) }
        ensures room { IfSome result (λ bay. self.now.bays.count < 4294967295) }
        ensures opens { IfSome result (λ bay. self.now.refuses ≡ false) }
    {
        let number = self.next_of(&self.bays)?;
        fs::create_dir_all(self.rt, dir).ok()?;
        let journal = open_file(self.rt, dir, cone, ".journal").ok()?;
        // Before the other two are opened, so that of a cone that another program has no file is made. The lock is the file's, and
        // goes with the bay, or with the program.
        journal.try_lock().ok()?;
        let log = open_file(self.rt, dir, cone, ".log").ok()?;
        let frames = open_file(self.rt, dir, cone, ".frames").ok()?;
        Some(FileBay::new([journal, log, frames], number))
    }

    // The number of the next object of a kind, unless there are too many, or each opening is refused.
    fn next_of<T: Drop>(&self, handed: &Handed<T>) -> Option<u32>
        ensures number { IfSome result (λ number. number ≡ length handed.now.objects) }
        ensures room { IfSome result (λ number. handed.now.count < 4294967295) }
        ensures opens { IfSome result (λ number. self.now.refuses ≡ false) }
    {
        if self.refuses {
            return None;
        }
        handed.next()
    }

    // Notes an opening that failed, and counts it.
    fn refuse(&mut self, opening: &Opening) -> Failed
        requires { opening.now.opened ≡ false }
        ensures asked { self.new.asked ≡ self.old.asked ++ opening.now ∷ [] }
        ensures traces { self.new.traces ≡ self.old.traces }
        ensures bays { self.new.bays ≡ self.old.bays }
        ensures never_falls { self.old.faults ≤ self.new.faults }
        ensures counted { HasRisen self.old.faults self.new.faults }
    {
        self.asked.push(opening);
        self.faults = self.faults.saturating_add(1);
        Failed
    }
}

// Opens a file of a cone for reading and writing, and makes it where it isn't there.
fn open_file<R: Files<File = File> + AllocGlobal>(
    rt: &R,
    dir: &str,
    cone: u32,
    ending: &str,
) -> io::Result<File> {
    let path = path_of(rt.alloc(), dir, cone, ending)?;
    OpenOptions::new()
        .read(true)
        .write(true)
        .create(true)
        .open(rt, path)
}

// The path of a file of a cone in a directory, by the file's ending.
fn path_of(alloc: Global, dir: &str, cone: u32, ending: &str) -> Result<PathBuf, AllocError>
    ensures { IfOk result (λ path. path_buf_bytes path ≡ path_join dir.now (cone_file cone ending.now)) }
{
    let name = name_of(alloc, cone, ending)?;
    Path::new(dir).join(alloc, name.as_str())
}

// The name of a file of a cone.
fn name_of(alloc: Global, cone: u32, ending: &str) -> Result<String, AllocError>
    ensures { IfOk result (λ name. string_bytes name ≡ cone_file cone ending.now) }
{
    let (hundreds, tens, ones) = (cone / 100, cone / 10 % 10, cone % 10);
    format!(in alloc; "cone-{hundreds}{tens}{ones}{ending}")
}

impl<'a, R: Files<File = File> + AllocGlobal> Faulty for FilePlace<'a, R> {
    ghost faults = { λ p. p.faults };

    ghost mark = { λ _. 0 };
}

impl<'a, R: Files<File = File> + AllocGlobal> Place for FilePlace<'a, R> {
    type Trace = FileSource<File>;

    type Bay = FileBay;

    ghost use Rattle.lert_host.specs.PutBack.{last_returned};

    ghost asked = { λ p. p.asked };

    ghost handed_traces = { λ p. p.traces.objects };

    ghost handed_bays = { λ p. p.bays.objects };

    ghost returned_trace = { λ p. last_returned p.traces.returned };

    ghost returned_bay = { λ p. last_returned p.bays.returned };

    ghost tied_traces = { λ p. p.tied_traces };

    ghost tied_bays = { λ p. p.tied_bays };

    fn open_trace(&mut self, name: &str) -> Result<FileSource<File>, Failed> {
        let Some(trace) = self.trace(name) else {
            return Err(self.refuse(&Opening::of_trace(name, false)));
        };
        self.asked.push(&Opening::of_trace(name, true));
        self.traces.hand_out(&trace);
        Ok(trace)
    }

    fn open_bay(&mut self, dir: &str, cone: u32) -> Result<FileBay, Failed> {
        let Some(bay) = self.bay(dir, cone) else {
            return Err(self.refuse(&Opening::of_bay(dir, cone, false)));
        };
        self.asked.push(&Opening::of_bay(dir, cone, true));
        self.bays.hand_out(&bay);
        Ok(bay)
    }

    fn put_back_trace(&mut self, number: u32, trace: FileSource<File>) {
        self.traces.take_back(number, trace);
    }

    fn put_back_bay(&mut self, cone: u32, bay: FileBay) {
        self.bays.take_back(cone, bay);
    }
}
