//! A list that contracts alone see, as `Seen`, and that can be copied. It takes no memory.

ghost use Rattle.std.specs.Prelude.{◌≡◌, ◌++◌, [], ◌∷◌};

use std::marker::Model;
use std::mem;
use std::snapshot::Snapshot;

// A list as its last item behind the list before it, or as another list once more. A node is made for its
// snapshot and let go at once.
#[cycle(past)]
struct Node<T> {
    link: Link<T>,
}

#[cycle(past)]
enum Link<T> {
    Start,
    Then(Snapshot<Node<T>>, Snapshot<T>),
    Same(Snapshot<Snapshot<Node<T>>>),
}

impl<T> Model for Node<T> {
    ghost use Rattle.lert_bay.specs.Chain.{Chain};

    ghost Value = { Chain T };

    ghost use Rattle.lert_bay.specs.Links.{chain};

    ghost view = { λ n. chain n.link };

    ghost size = { λ c. c.depth };

    ghost use Rattle.std.proofs.Common.{arith};

    ghost size_decreases = { λ n h. Prim.grind (arith) };
}

/// A list of values of `T` that only contracts see.
pub struct Past<T> {
    node: Snapshot<Node<T>>,
}

impl<T> Model for Past<T> {
    ghost use Rattle.std.specs.Prelude.{List};

    ghost Value = { List T };

    ghost view = { λ p. p.node.value.items };
}

impl<T> Past<T> {
    /// The empty list.
    pub fn new() -> Past<T>
        ensures { result ≡ [] }
    {
        Past::at(Node { link: Link::Start })
    }

    /// The list of this item alone.
    pub fn of(item: &T) -> Past<T>
        ensures { result ≡ item.now ∷ [] }
    {
        Past::new().and(item)
    }

    /// The same list again.
    pub fn copied(&self) -> Past<T>
        ensures { result ≡ self.now }
    {
        Past::at(Node {
            link: Link::Same(Snapshot::of(&self.node)),
        })
    }

    /// Puts `item` at the list's end.
    pub fn push(&mut self, item: &T)
        ensures { self.new ≡ self.old ++ item.now ∷ [] }
    {
        *self = mem::replace(self, Past::new()).and(item);
    }

    // The list with `item` behind it.
    fn and(self, item: &T) -> Past<T>
        ensures { result ≡ self ++ item.now ∷ [] }
    {
        let Past { node } = self;
        Past::at(Node {
            link: Link::Then(node, Snapshot::of(item)),
        })
    }

    // The list that ends with this node.
    fn at(node: Node<T>) -> Past<T>
        ensures { result ≡ node.items }
    {
        let past = Past {
            node: Snapshot::of(&node),
        };
        release(node);
        past
    }
}

impl<T> Drop for Past<T> {
    fn drop(self) {
        let Past { node: _ } = self;
    }
}

// A node goes without its items: snapshots own nothing.
fn release<T>(node: Node<T>) {
    let Node { link } = node;
    match link {
        Link::Start => {}
        Link::Then(_, _) => {}
        Link::Same(_) => {}
    }
}
