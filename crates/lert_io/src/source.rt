//! Where bytes are read from.

ghost use Rattle.std.specs.Prelude.{◌≡◌, ℕ, ◌<◌, ◌≤◌, List, length, Option, Some, None, IfOk, OnErr};
ghost use Rattle.lert_io.specs.Fault.{HasCause};
ghost use Rattle.lert_io.specs.Reading.{HandsOut};

use crate::faulty::{Failed, Faulty};

/// A stream of bytes, handed out from the front in pieces of any length.
pub trait Source: Faulty {
    /// The bytes that are still to come, where the source tells them.
    ghost remaining: { Self → Option (List ℕ) };

    /// Hands out the next bytes into the front of `into`, and answers how many. Zero comes exactly
    /// where no byte is left. What lies behind them in `into` is any bytes. After `Failed` the bytes
    /// left are unchanged.
    fn read(&mut self, into: &mut [u8]) -> Result<usize, Failed>
        requires { 0 < length into.old }
        ensures within { IfOk result (λ count. count ≤ length into.new) }
        ensures told { (bytes : List ℕ) → remaining self.old ≡ Some bytes →
            IfOk result (λ count. HandsOut count into.new bytes (remaining self.new)) }
        ensures refused { OnErr result (remaining self.new ≡ remaining self.old) }
        ensures untold { remaining self.old ≡ None → remaining self.new ≡ None }
        ensures cause { HasCause (Self.faults self.old) (Self.faults self.new) result }
        ensures mark { Self.mark self.new ≡ Self.mark self.old };
}
