//! A trace in a file, read in blocks of 64 KiB.

ghost use Rattle.std.specs.Prelude.{◌≡◌};

use lert_io::{Failed, Faulty, Source};
use std::io::{BufReader, ErrorKind, Read};

/// A reader as a source that tells nothing of its bytes, with its count of faults and its mark.
#[derive(Drop)]
pub struct FileSource<F: Read + Drop> {
    reader: BufReader<F>,
    faults: u64,
    mark: u32,
}

impl<F: Read + Drop> FileSource<F> {
    /// A source with no fault and this mark.
    pub fn new(reader: BufReader<F>, mark: u32) -> FileSource<F>
        ensures faults { result.faults ≡ 0 }
        ensures mark { result.mark ≡ mark }
    {
        FileSource {
            reader,
            faults: 0,
            mark,
        }
    }
}

impl<F: Read + Drop> Faulty for FileSource<F> {
    ghost faults = { λ s. s.faults };

    ghost mark = { λ s. s.mark };
}

impl<F: Read + Drop> Source for FileSource<F> {
    ghost use Rattle.std.specs.Prelude.{None};

    ghost remaining = { λ _. None };

    // A call that a signal broke off is made again.
    fn read(&mut self, into: &mut [u8]) -> Result<usize, Failed> {
        for _ in 0..u64::MAX {
            match self.reader.read(into) {
                Ok(count) => return Ok(count),
                Err(error) if error.kind() == ErrorKind::Interrupted => {}
                Err(_) => break,
            }
        }
        self.faults = self.faults.saturating_add(1);
        Err(Failed)
    }
}
