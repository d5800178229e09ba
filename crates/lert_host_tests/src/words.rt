//! The words of a program that was called by a name that is no text.

use lert_base::Words;
use lert_host::{WordsFault, read_words};
use std::env::{Env, FillError};
use std::process::Abort;

// Arguments, of which the first one is the name.
#[derive(Drop)]
struct Arguments([&'static [u8]; 3]);

impl Env for Arguments {
    fn arg(&self, i: usize, buf: &mut [u8]) -> Result<usize, FillError> {
        if i >= self.0.len() {
            return Err(FillError::NotPresent);
        }
        let argument = self.0[i];
        if buf.len() < argument.len() {
            return Err(FillError::TooLong);
        }
        buf[..argument.len()].copy_from_slice(argument);
        Ok(argument.len())
    }

    fn var(&self, _name: &str, _buf: &mut [u8]) -> Result<usize, FillError> {
        Err(FillError::NotPresent)
    }

    fn var_at(&self, _i: usize, _buf: &mut [u8]) -> Result<usize, FillError> {
        Err(FillError::NotPresent)
    }
}

// Wants two words, of which this is the first.
fn assert_run(rt: &impl Abort, words: &Words) {
    assert_eq!(rt; words.len(), 2);
    assert_eq!(rt; words.word(0), "run");
}

#[test]
fn a_name_that_is_no_text_is_no_word(rt: HostRuntime) {
    let arguments = Arguments([b"\xff", b"run", b"d"]);
    let words = read_words(&arguments, rt.alloc()).expect(&rt, "each word is text");
    assert_run(&rt, &words);
}

#[test]
fn a_word_that_is_no_text_is_refused(rt: HostRuntime) {
    let arguments = Arguments([b"lert", b"run", b"\xff"]);
    assert!(rt; read_words(&arguments, rt.alloc()).is_err());
}
