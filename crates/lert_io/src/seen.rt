//! A list that contracts alone see. It grows with each push, takes no memory and needs no allocator,
//! so an object can show all that was asked of it.

ghost use Rattle.std.specs.Prelude.{◌≡◌, ◌++◌, [], ◌∷◌};

use std::marker::Model;
use std::mem;
use std::snapshot::Snapshot;

// A list as its last item behind the list before it. A node is made for its snapshot and let go at once.
#[cycle(trail)]
struct Trail<T> {
    link: Link<T>,
}

#[cycle(trail)]
enum Link<T> {
    Start,
    Then(Snapshot<Trail<T>>, Snapshot<T>),
}

impl<T> Model for Trail<T> {
    ghost use Rattle.std.specs.Prelude.{List, length};

    ghost Value = { List T };

    ghost use Rattle.lert_io.specs.Trail.{items};

    ghost view = { λ a. items a.link };

    ghost size = { length };

    ghost use Rattle.std.proofs.Common.{arith, length-append};

    ghost size_decreases = { λ a h. Prim.grind (arith, length-append) };
}

/// A list of values of `T` that only contracts see.
pub struct Seen<T> {
    trail: Snapshot<Trail<T>>,
}

impl<T> Model for Seen<T> {
    ghost use Rattle.std.specs.Prelude.{List};

    ghost Value = { List T };

    ghost view = { λ s. s.trail.value };
}

impl<T> Seen<T> {
    /// The empty list.
    pub fn new() -> Seen<T>
        ensures { result ≡ [] }
    {
        let node = Trail { link: Link::Start };
        let trail = Snapshot::of(&node);
        release(node);
        Seen { trail }
    }

    /// The list with `item` behind it.
    pub fn and(self, item: &T) -> Seen<T>
        ensures { result ≡ self ++ item.now ∷ [] }
    {
        let Seen { trail: before } = self;
        let node = Trail {
            link: Link::Then(before, Snapshot::of(item)),
        };
        let trail = Snapshot::of(&node);
        release(node);
        Seen { trail }
    }

    /// Puts `item` at the list's end.
    pub fn push(&mut self, item: &T)
        ensures { self.new ≡ self.old ++ item.now ∷ [] }
    {
        *self = mem::replace(self, Seen::new()).and(item);
    }
}

impl<T> Drop for Seen<T> {
    fn drop(self) {
        let Seen { trail: _ } = self;
    }
}

// A node goes without its items: snapshots own nothing.
fn release<T>(node: Trail<T>) {
    let Trail { link } = node;
    match link {
        Link::Start => {}
        Link::Then(_, _) => {}
    }
}
