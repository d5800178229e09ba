//! A state that a lock can hold.

ghost use Rattle.std.specs.Prelude.{◌≡◌, ℕ, ◌<◌, ◌^◌, ◌++◌, ◌⊎◌, List, [], ◌∷◌, length, Bool, IsTrue, Option, Some, None, IfOk, IfErr};
ghost use Rattle.lert_base.specs.Packet.{Packet};
ghost use Rattle.lert_base.specs.Entries.{packet_of};

use crate::entry::Entry;

/// A state that packets are applied to, one after another. It stands for the lists of packets that
/// could have made it.
pub trait Held {
    /// What never changes of a state.
    type Terms;

    /// What a packet that was taken in is answered by.
    type Reply: Drop;

    /// What a packet that wasn't taken in is answered by.
    type Refusal: Drop;

    ghost terms: { Self → Self.Terms };

    /// The state is one that the list makes.
    ghost stands_for: { Self → List Packet → Type 0 };

    /// From now on the state may refuse every packet.
    ghost stopped: { Self → Bool };

    /// The packet whose refusal left it open what became of it, where there is one.
    ghost over: { Self → Option Packet };

    /// Under the terms and after the list, the packet is answered so.
    ghost answers: { Self.Terms → List Packet → Packet → Self.Reply → Type 0 };

    /// Under the terms and after the list, the packet is refused so.
    ghost refuses: { Self.Terms → List Packet → Packet → Self.Refusal → Type 0 };

    /// The packet may be applied under the terms.
    ghost fits: { Self.Terms → Packet → Type 0 };

    /// Takes the packet of an entry in, or refuses it. After a refusal the state stands for the same
    /// lists; it refused by its rule and is otherwise as before, or it is stopped.
    fn apply(&mut self, entry: &Entry) -> Result<Self::Reply, Self::Refusal>
        requires { fits (terms self.old) (packet_of entry.now) }
        ensures terms { terms self.new ≡ terms self.old }
        ensures stopped { IsTrue (stopped self.old) → IsTrue (stopped self.new) }
        ensures stands_for { IfOk result (λ reply. (h : List Packet) → stands_for self.old h →
            stands_for self.new (h ++ packet_of entry.now ∷ [])) }
        ensures answers { IfOk result (λ reply. (h : List Packet) → stands_for self.old h →
            answers (terms self.old) h (packet_of entry.now) reply) }
        ensures over { IfOk result (λ reply. (h : List Packet) → stands_for self.old h →
            over self.new ≡ None) }
        ensures unchanged { IfErr result (λ refusal. (h : List Packet) → stands_for self.old h →
            stands_for self.new h) }
        ensures refuses { IfErr result (λ refusal. (h : List Packet) → stands_for self.old h →
            (refuses (terms self.old) h (packet_of entry.now) refusal
            × (stopped self.new ≡ stopped self.old) × (over self.new ≡ over self.old))
            ⊎ (IsTrue (stopped self.new)
            × ((over self.new ≡ over self.old) ⊎ (over self.new ≡ Some (packet_of entry.now))))) };

    /// A state stands for short lists alone.
    ghost short: { (state : Self) (h : List Packet) → stands_for state h → length h < 2 ^ 40 };
}
