//! Where bytes are written to.

ghost use Rattle.std.specs.Prelude.{◌≡◌, ℕ, ◌<◌, ◌≤◌, ◌++◌, List, [], length, take, Option, Some, None, Ok, IfOk, OnOk, OnErr};
ghost use Rattle.lert_io.specs.Fault.{HasCause};

use crate::faulty::{Failed, Faulty};

/// A stream that takes bytes at its end.
pub trait Sink: Faulty {
    /// The bytes taken so far, where the sink tells them.
    ghost taken: { Self → Option (List ℕ) };

    /// Appends the first bytes of `bytes`, at least one, and answers how many. After `Failed` nothing
    /// was appended.
    fn write(&mut self, bytes: &[u8]) -> Result<usize, Failed>
        requires { 0 < length bytes.now }
        ensures some { IfOk result (λ count. 0 < count) }
        ensures within { IfOk result (λ count. count ≤ length bytes.now) }
        ensures told { (before : List ℕ) → taken self.old ≡ Some before →
            IfOk result (λ count. taken self.new ≡ Some (before ++ take count bytes.now)) }
        ensures refused { OnErr result (taken self.new ≡ taken self.old) }
        ensures untold { taken self.old ≡ None → taken self.new ≡ None }
        ensures cause { HasCause (Self.faults self.old) (Self.faults self.new) result }
        ensures mark { Self.mark self.new ≡ Self.mark self.old };
}

/// Appends all of `bytes`. After `Failed` a part of them from the front was appended, and not all.
/// With no byte it calls nothing.
pub fn write_all<K: Sink>(out: &mut K, bytes: &[u8]) -> Result<(), Failed>
    ensures told { (before : List ℕ) → K.taken out.old ≡ Some before →
        OnOk result (K.taken out.new ≡ Some (before ++ bytes.now)) }
    ensures part { (before : List ℕ) → K.taken out.old ≡ Some before → OnErr result
        ((count : ℕ) × (count < length bytes.now) × (K.taken out.new ≡ Some (before ++ take count bytes.now))) }
    ensures untold { K.taken out.old ≡ None → K.taken out.new ≡ None }
    ensures no_byte { bytes.now ≡ [] → (result ≡ Ok tt) × (out.new ≡ out.old) }
    ensures cause { HasCause (K.faults out.old) (K.faults out.new) result }
    ensures mark { K.mark out.new ≡ K.mark out.old }
{
    let mut done = 0;
    while done < bytes.len() {
        done += out.write(&bytes[done..])?;
    }
    Ok(())
}
