//! The words of a command line.

ghost use Rattle.std.specs.Prelude.{◌≡◌, [], ◌∷◌, ◌++◌, length, slice_get, Some, IfOk, OnOk, OnErr, ◌<◌};

use lert_io::OutOfMemory;
use std::alloc::Global;
use std::marker::Model;

/// Texts in their order, seen as the list of their bytes.
#[derive(Drop)]
pub struct Words {
    alloc: Global,
    words: Vec<String>,
}

impl Model for Words {
    ghost use Rattle.std.specs.Prelude.{List, ℕ, map};
    ghost use Rattle.std.specs.String.{string_bytes};

    ghost Value = { List (List ℕ) };

    ghost view = { λ w. map string_bytes w.words.items };
}

impl Words {
    /// No word.
    pub fn new(alloc: Global) -> Result<Words, OutOfMemory>
        ensures { IfOk result (λ words. words ≡ []) }
    {
        Ok(Words {
            alloc,
            words: Vec::new(alloc),
        })
    }

    /// Puts a word at the end. A refusal leaves the words as they were.
    pub fn push(&mut self, word: &str) -> Result<(), OutOfMemory>
        ensures ok { OnOk result (self.new ≡ self.old ++ word.now ∷ []) }
        ensures err { OnErr result (self.new ≡ self.old) }
    {
        let word = String::from_str(self.alloc, word)?;
        self.words.push(word)?;
        Ok(())
    }

    /// How many words there are.
    pub fn len(&self) -> usize
        ensures { result ≡ length self.now }
    {
        self.words.len()
    }

    /// The word with a number, from 0.
    pub fn word(&self, number: usize) -> &str
        requires { number < length self.now }
        ensures { slice_get self.now number ≡ Some result.now }
    {
        self.words[number].as_str()
    }
}
