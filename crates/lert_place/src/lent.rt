//! What a place handed out, and what came back.

ghost use Rattle.std.specs.Prelude.{◌≡◌, ◌++◌, ◌∷◌, [], ◌<◌, length, slice_set, slice_index_or, Some, None, IfSome, IfNone, OnOk, OnErr};

use lert_io::{OutOfMemory, Seen};
use std::alloc::Global;
use std::marker::Model;

/// The objects of one kind that were handed out, which contracts alone see, and the room for each of them
/// to come back.
#[derive(Drop)]
pub struct Lent<T: Drop> {
    count: u32,
    handed: Seen<T>,
    returned: Vec<Option<T>>,
}

impl<T: Drop> Model for Lent<T> {
    ghost use Rattle.std.specs.Prelude.{◌≡◌, length};
    ghost use Rattle.lert_place.specs.Shelf.{Loans};

    ghost Value = { Loans T };

    ghost view = { λ l. record { handed = l.handed; returned = l.returned.items } };

    ghost invariant = { λ l. (l.count ≡ length l.handed) × (length l.returned.items ≡ length l.handed) };
}

impl<T: Drop> Lent<T> {
    /// Nothing was handed out.
    pub fn new(alloc: Global) -> Lent<T>
        ensures { result ≡ record { handed = []; returned = [] } }
    {
        Lent {
            count: 0,
            handed: Seen::new(),
            returned: Vec::new(alloc),
        }
    }

    /// How many were handed out, which is the number of the next one.
    pub fn count(&self) -> u32
        ensures { result ≡ length self.now.handed }
    {
        self.count
    }

    /// Hands out an object, with the room for it to come back. A refusal changes nothing; it comes also
    /// behind 2^32 - 1 of them.
    pub fn hand_out(&mut self, object: &T) -> Result<(), OutOfMemory>
        ensures ok { OnOk result (self.new ≡ record { handed = self.old.handed ++ object.now ∷ []; returned = self.old.returned ++ None ∷ [] }) }
        ensures err { OnErr result (self.new ≡ self.old) }
    {
        if self.count == u32::MAX {
            return Err(OutOfMemory);
        }
        self.returned.push(None)?;
        self.handed.push(object);
        self.count += 1;
        Ok(())
    }

    /// Takes back an object under its number.
    pub fn take_back(&mut self, number: u32, object: T)
        requires { number < length self.old.handed }
        ensures within { number < length self.old.returned }
        ensures back { self.new ≡ record self.old { returned = slice_set self.old.returned number (Some object) } }
    {
        self.returned[number as usize] = Some(object);
    }

    /// The object that last came back under a number. None comes exactly where none did.
    pub fn returned(&self, number: u32) -> Option<&T>
        ensures some { IfSome result (λ object. slice_index_or self.now.returned number None ≡ Some object.now) }
        ensures none { IfNone result (slice_index_or self.now.returned number None ≡ None) }
    {
        self.returned.get(number as usize)?.as_ref()
    }
}
