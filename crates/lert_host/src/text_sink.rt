//! A writer, such as standard output, as a sink.

ghost use Rattle.std.specs.Prelude.{◌≡◌};

use lert_io::{Failed, Faulty, Sink};
use std::io::{ErrorKind, Write};

/// A writer as a sink that tells nothing of its bytes, with its count of faults.
#[derive(Drop)]
pub struct TextSink<W: Write + Drop> {
    writer: W,
    faults: u64,
}

impl<W: Write + Drop> TextSink<W> {
    /// A sink with no fault.
    pub fn new(writer: W) -> TextSink<W>
        ensures { result.faults ≡ 0 }
    {
        TextSink { writer, faults: 0 }
    }
}

impl<W: Write + Drop> Faulty for TextSink<W> {
    ghost faults = { λ s. s.faults };

    ghost mark = { λ _. 0 };
}

impl<W: Write + Drop> Sink for TextSink<W> {
    ghost use Rattle.std.specs.Prelude.{None};

    ghost taken = { λ _. None };

    // A writer that takes no byte has failed. A call that a signal broke off is made again.
    fn write(&mut self, bytes: &[u8]) -> Result<usize, Failed> {
        for _ in 0..u64::MAX {
            match self.writer.write(bytes) {
                Ok(0) => break,
                Ok(count) => return Ok(count),
                Err(error) if error.kind() == ErrorKind::Interrupted => {}
                Err(_) => break,
            }
        }
        self.faults = self.faults.saturating_add(1);
        Err(Failed)
    }
}
