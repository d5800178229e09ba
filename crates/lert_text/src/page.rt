//! Lines on their way to a sink: they gather on a page, which goes out when it's full.

ghost use Rattle.std.specs.Prelude.{◌≡◌, ◌+◌, ◌≤◌, ◌++◌, ℕ, List, [], length, Option, OnOk, OnErr, IfOk};
ghost use Rattle.lert_io.specs.Fault.{HasCause};
ghost use Rattle.lert_text.specs.Page.{IsPrinting, IsCut};

use lert_io::{Failed, OutOfMemory, Sink, write_all};
use std::alloc::Global;
use std::marker::Model;

// How many bytes a page has.
const PAGE: usize = 8192;

/// The text that wasn't written yet, at most a page of it.
#[derive(Drop)]
pub struct Page {
    text: Vec<u8>,
}

impl Model for Page {
    ghost use Rattle.std.specs.Prelude.{◌≡◌, ◌≤◌, List, ℕ};
    ghost use Rattle.std.specs.Vec.{vec_capacity, vec_len};

    ghost Value = { List ℕ };

    ghost view = { λ p. p.text.items };

    ghost invariant = { λ p. (8192 ≤ vec_capacity p.text) × (vec_len p.text ≤ 8192) };
}

impl Page {
    /// An empty page. Its memory is taken here, and nowhere else.
    pub fn new(alloc: Global) -> Result<Page, OutOfMemory>
        ensures { IfOk result (λ page. page ≡ []) }
    {
        Ok(Page {
            text: Vec::with_capacity(alloc, PAGE)?,
        })
    }

    /// Prints a line of at most 160 bytes.
    pub fn put<K: Sink>(&mut self, out: &mut K, line: &[u8]) -> Result<(), Failed>
        requires { length line.now ≤ 160 }
        ensures ok { (start : Option (List ℕ)) (text : List ℕ) → IsPrinting start (K.taken out.old) self.old text →
            OnOk result (IsPrinting start (K.taken out.new) self.new (text ++ line.now)) }
        ensures cut { (start : Option (List ℕ)) (text : List ℕ) → IsPrinting start (K.taken out.old) self.old text →
            OnErr result (IsCut start (K.taken out.new) text) }
        ensures cause { HasCause (K.faults out.old) (K.faults out.new) result }
        ensures mark { K.mark out.new ≡ K.mark out.old }
    {
        self.make_room(out, line.len())?;
        self.append(line);
        Ok(())
    }

    // Puts a line behind the text of a page that has room for it.
    fn append(&mut self, line: &[u8])
        requires { length self.old + length line.now ≤ 8192 }
        ensures { self.new ≡ self.old ++ line.now }
    {
        self.text.extend_from_slice(line).unwrap();
    }

    // Writes the page, where it has no room for a line of this length.
    fn make_room<K: Sink>(&mut self, out: &mut K, len: usize) -> Result<(), Failed>
        requires { len ≤ 160 }
        ensures room { OnOk result (length self.new + len ≤ 8192) }
        ensures ok { (start : Option (List ℕ)) (text : List ℕ) → IsPrinting start (K.taken out.old) self.old text →
            OnOk result (IsPrinting start (K.taken out.new) self.new text) }
        ensures cut { (start : Option (List ℕ)) (text : List ℕ) → IsPrinting start (K.taken out.old) self.old text →
            OnErr result (IsCut start (K.taken out.new) text) }
        ensures cause { HasCause (K.faults out.old) (K.faults out.new) result }
        ensures mark { K.mark out.new ≡ K.mark out.old }
    {
        if PAGE - self.text.len() < len {
            return self.flush(out);
        }
        Ok(())
    }

    /// Writes what the page holds.
    pub fn flush<K: Sink>(&mut self, out: &mut K) -> Result<(), Failed>
        ensures ok { (start : Option (List ℕ)) (text : List ℕ) → IsPrinting start (K.taken out.old) self.old text →
            OnOk result (IsPrinting start (K.taken out.new) self.new text) }
        ensures empty { OnOk result (self.new ≡ []) }
        ensures cut { (start : Option (List ℕ)) (text : List ℕ) → IsPrinting start (K.taken out.old) self.old text →
            OnErr result (IsCut start (K.taken out.new) text) }
        ensures cause { HasCause (K.faults out.old) (K.faults out.new) result }
        ensures mark { K.mark out.new ≡ K.mark out.old }
    {
        write_all(out, self.text.as_slice())?;
        self.text.clear();
        Ok(())
    }
}
