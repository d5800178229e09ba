//! What a place of files handed out and took back.

ghost use Rattle.std.specs.Prelude.{◌≡◌, ◌<◌, ◌++◌, ◌∷◌, [], length, IfSome};

use lert_io::Seen;

/// An object that was put back under a number, as contracts see it.
#[derive(Drop)]
pub struct PutBack<T> {
    pub number: u32,
    pub object: T,
}

/// The objects of one kind that were handed out, by their number, and those that were put back. Contracts
/// alone see them; the objects themselves aren't kept.
#[derive(Drop)]
pub struct Handed<T> {
    pub count: u32,
    pub objects: Seen<T>,
    pub returned: Seen<PutBack<T>>,
    ghost counted: { count ≡ length objects },
}

impl<T: Drop> Handed<T> {
    /// Nothing was handed out.
    pub fn new() -> Handed<T>
        ensures objects { result.objects ≡ [] }
        ensures returned { result.returned ≡ [] }
    {
        Handed {
            count: 0,
            objects: Seen::new(),
            returned: Seen::new(),
        }
    }

    /// The number of the next object, unless there are 2^32 - 1 already.
    pub fn next(&self) -> Option<u32>
        ensures number { IfSome result (λ number. number ≡ length self.now.objects) }
        ensures room { IfSome result (λ number. self.now.count < 4294967295) }
    {
        if self.count == u32::MAX {
            return None;
        }
        Some(self.count)
    }

    /// Hands out an object.
    pub fn hand_out(&mut self, object: &T)
        requires { self.old.count < 4294967295 }
        ensures objects { self.new.objects ≡ self.old.objects ++ object.now ∷ [] }
        ensures returned { self.new.returned ≡ self.old.returned }
    {
        self.objects.push(object);
        self.count += 1;
    }

    /// Takes an object back, and lets it go.
    pub fn take_back(&mut self, number: u32, object: T)
        ensures objects { self.new.objects ≡ self.old.objects }
        ensures returned { self.new.returned ≡ self.old.returned ++ record { number = number; object = object } ∷ [] }
    {
        self.returned.push(&PutBack { number, object });
    }
}
