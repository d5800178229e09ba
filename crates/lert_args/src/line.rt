//! The command line.

ghost use Rattle.std.specs.Prelude.{◌≡◌, ℕ, Some, None, IfOk, IfErr};
ghost use Rattle.lert_args.specs.Command.{command, usage};

use crate::commands::{NO_LINE, read_drill, read_gen, read_recover, read_run};
use lert_base::{Settings, Words};
use std::alloc::{AllocError, AllocFailed, Global};
use std::marker::Model;

/// Where names stand in the words of a line, each by its number, from 0, in their order.
#[derive(Drop)]
pub struct Places {
    places: Vec<usize>,
}

impl Model for Places {
    ghost use Rattle.std.specs.Prelude.{List, ℕ};

    ghost Value = { List ℕ };

    ghost view = { λ p. p.places.items };
}

impl Places {
    /// These places.
    pub(crate) fn new(places: Vec<usize>) -> Places
        ensures { result ≡ places.items }
    {
        Places { places }
    }

    /// The places, in their order.
    pub fn as_slice(&self) -> &[usize]
        ensures { result.now ≡ self.now }
    {
        self.places.as_slice()
    }
}

/// A line: a command, and what it is asked to do. A directory's name, and those of traces, are given by their places in the
/// words.
#[derive(Drop)]
pub enum Line {
    /// To take these traces, 1 to 1,024, into the cones of a directory, by so many workers, 1 to 64.
    Run {
        settings: Settings,
        workers: u32,
        dir: usize,
        traces: Places,
    },
    /// To open what runs left in a directory, and to print it.
    Recover {
        settings: Settings,
        dir: usize,
    },
    /// To write a trace of generated keys, at most 2^32.
    Gen {
        seed: u64,
        events: u64,
    },
    /// To do what a run does over generated keys, at most 4,194,304, and to print a summary of it.
    Drill {
        settings: Settings,
        workers: u32,
        seed: u64,
        events: u64,
    },
}

/// Why words give no line.
#[derive(Clone, Copy, Debug, PartialEq, Eq)]
pub enum LineFault {
    /// The words spell no line (rule 0), or the line breaks this rule first.
    Usage { rule: u8 },
    /// There is no memory to read it.
    OutOfMemory,
}

impl From<AllocError> for LineFault {
    ghost use Rattle.lert_args.specs.declared.line.LineFault.TheVariants.{OutOfMemory};

    ghost from_gives = { λ _ fault. fault ≡ OutOfMemory };

    fn from(_error: AllocError) -> LineFault {
        LineFault::OutOfMemory
    }
}

impl<T: Drop> From<AllocFailed<T>> for LineFault {
    ghost use Rattle.lert_args.specs.declared.line.LineFault.TheVariants.{OutOfMemory};

    ghost from_gives = { λ _ fault. fault ≡ OutOfMemory };

    fn from(_error: AllocFailed<T>) -> LineFault {
        LineFault::OutOfMemory
    }
}

/// Reads a line from the words that it was given.
pub fn read_line(alloc: Global, words: &Words) -> Result<Line, LineFault>
    ensures line { IfOk result (λ line. command words.now ≡ Some line) }
    ensures sound { IfOk result (λ _. usage words.now ≡ None) }
    ensures usage { IfErr result (λ fault. (rule : ℕ) → fault ≡ LineFault.Usage rule → usage words.now ≡ Some rule) }
{
    if words.len() == 0 {
        return Err(NO_LINE);
    }
    match words.word(0) {
        "run" => read_run(alloc, words),
        "recover" => read_recover(alloc, words),
        "gen" => read_gen(alloc, words),
        "drill" => read_drill(alloc, words),
        _ => Err(NO_LINE),
    }
}
