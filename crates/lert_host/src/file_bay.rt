//! The three files of a cone on the machine's disk.

ghost use Rattle.std.specs.Prelude.{◌≡◌, ◌≤◌, length, Ok, IfOk};
ghost use Rattle.lert_io.specs.Fault.{HasCause};

use lert_bay::Bay;
use lert_io::{Failed, Faulty};
use std::fs::File;
use std::io;
use std::io::ErrorKind;
use std::os::unix::fs::FileExt;

/// Three open files as a bay that tells nothing of them and names no image, with its count of faults and
/// its mark. Each call of the system names its place in the file, so there is none that moves to a place.
#[derive(Drop)]
pub struct FileBay {
    files: [File; 3],
    faults: u64,
    mark: u32,
}

impl FileBay {
    /// A bay of these files, which are the journal, the log and the frames, with no fault and this mark.
    pub fn new(files: [File; 3], mark: u32) -> FileBay
        ensures faults { result.faults ≡ 0 }
        ensures mark { result.mark ≡ mark }
    {
        FileBay {
            files,
            faults: 0,
            mark,
        }
    }

    // What the system answered, where its error is a fault that is counted.
    fn noted<T>(&mut self, answer: io::Result<T>) -> Result<T, Failed>
        ensures same { IfOk result (λ value. answer ≡ Ok value) }
        ensures cause { HasCause self.old.faults self.new.faults result }
        ensures mark { self.new.mark ≡ self.old.mark }
    {
        match answer {
            Ok(value) => Ok(value),
            Err(_) => {
                self.faults = self.faults.saturating_add(1);
                Err(Failed)
            }
        }
    }
}

// Copies the bytes of a file from the place `at` on into the front of `into`, and answers how many. A call
// that reads less is followed by another, so fewer than asked for come only where the file ends there. A
// call that a signal broke off is made again.
fn read_whole(file: &File, at: u64, into: &mut [u8]) -> io::Result<usize>
    ensures { IfOk result (λ count. count ≤ length into.new) }
{
    let mut done = 0;
    for _ in 0..u64::MAX {
        if done == into.len() {
            return Ok(done);
        }
        match file.read_at(&mut into[done..], at.saturating_add(done as u64)) {
            Ok(0) => return Ok(done),
            Ok(count) => done += count,
            Err(error) if error.kind() == ErrorKind::Interrupted => {}
            Err(error) => return Err(error),
        }
    }
    Err(ErrorKind::Interrupted.into())
}

impl Faulty for FileBay {
    ghost faults = { λ b. b.faults };

    ghost mark = { λ b. b.mark };
}

impl Bay for FileBay {
    ghost use Rattle.std.specs.Prelude.{None};
    ghost use Rattle.std.proofs.lemmas.Option.{none-some};

    ghost files = { λ _. None };

    ghost leaves = { λ _ image. ⊥ };

    ghost moment = { λ _. 0 };

    ghost left_since = { λ _ t image. ⊥ };

    ghost handed_out = { λ _ file. 0 };

    ghost as_read = { λ bay seen told. none-some seen told };

    ghost since_now = { λ bay image never. never };

    ghost only_now = { λ bay image never. never };

    ghost since_earlier = { λ bay t u image earlier never. never };

    fn len(&mut self, file: u8) -> Result<u64, Failed> {
        let answer = self.files[file as usize].metadata();
        match self.noted(answer) {
            Ok(metadata) => Ok(metadata.len()),
            Err(Failed) => Err(Failed),
        }
    }

    fn read_at(&mut self, file: u8, at: u64, into: &mut [u8]) -> Result<usize, Failed> {
        let answer = read_whole(&self.files[file as usize], at, into);
        self.noted(answer)
    }

    fn write_at(&mut self, file: u8, at: u64, bytes: &[u8]) -> Result<(), Failed> {
        let answer = self.files[file as usize].write_all_at(bytes, at);
        self.noted(answer)
    }

    fn sync(&mut self, file: u8) -> Result<(), Failed> {
        let answer = self.files[file as usize].sync_data();
        self.noted(answer)
    }
}
