//! The words that the program was called with.

use lert_base::Words;
use lert_io::OutOfMemory;
use std::alloc::Global;
use std::env;
use std::env::{Env, FillError};
use std::io::ErrorKind;

/// Why there are no words.
#[derive(Clone, Copy, Debug, PartialEq, Eq)]
pub enum WordsFault {
    /// One isn't UTF-8.
    NotText,
    OutOfMemory,
}

impl From<OutOfMemory> for WordsFault {
    fn from(_short: OutOfMemory) -> WordsFault {
        WordsFault::OutOfMemory
    }
}

// What words are read from: the name that the program was called by is no word, and may be no text. It isn't read.
#[derive(Drop)]
struct BehindName<'a, R: Env>(&'a R);

impl<R: Env> Env for BehindName<'_, R> {
    fn arg(&self, i: usize, buf: &mut [u8]) -> Result<usize, FillError> {
        self.0.arg(i.saturating_add(1), buf)
    }

    fn var(&self, name: &str, buf: &mut [u8]) -> Result<usize, FillError> {
        self.0.var(name, buf)
    }

    fn var_at(&self, i: usize, buf: &mut [u8]) -> Result<usize, FillError> {
        self.0.var_at(i, buf)
    }
}

/// The words after the program's name.
pub fn read_words<R: Env>(env: &R, alloc: Global) -> Result<Words, WordsFault> {
    let mut words = Words::new(alloc)?;
    let read = match env::args(&(BehindName(env), alloc)) {
        Ok(read) => read,
        Err(error) if error.kind() == ErrorKind::InvalidData => return Err(WordsFault::NotText),
        Err(_) => return Err(WordsFault::OutOfMemory),
    };
    for word in read {
        words.push(word.as_str())?;
    }
    Ok(words)
}
