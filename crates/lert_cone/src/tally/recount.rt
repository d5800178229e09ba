//! Items taken again whose reports, and whose counts in the older levels, are there already.

ghost use Rattle.std.specs.Prelude.{◌≡◌, ◌+◌, ◌-◌, ◌^◌, ◌<◌, ◌≤◌, nat_lt, [], ◌∷◌, ◌++◌, All, length, if◌then◌else◌};
ghost use Rattle.lert_levels.specs.rows.Young.{IsNextPosition, with_event};
ghost use Rattle.lert_spec.specs.Edges.{key_limit, edge, capacity, tail_bits};
ghost use Rattle.lert_spec.specs.Mix.{cone_of};
ghost use Rattle.lert_spec.specs.Items.{most_weight, AreOfVersion};
ghost use Rattle.lert_cone.specs.Tally.{IsRecounted};

use crate::items::Items;
use crate::tally::Tally;
use crate::tally::flush::flush_behind;
use lert_base::{CountTable, Item};
use lert_bay::Bay;
use lert_levels::Zero;
use lert_mixer::tail_of;

impl<B: Bay, T: CountTable> Tally<B, T> {
    /// Takes items again at positions up to `n0`, after which the rows and the reports stand: those up to the edge that level 0
    /// has there are only numbered, and those above it are counted in level 0.
    ///
    /// It calls no bay, takes no memory and brings no report. An item costs a place in level 0.
    pub(crate) fn recount(&mut self, n0: u64, items: &Items<'_>)
        requires own { All (λ item. cone_of self.old.listing.settings item.key ≡ self.old.listing.cone) items.now }
        requires light { AreOfVersion self.old.listing.version items.now }
        requires within { length self.old.listing.events + length items.now ≤ n0 }
        requires recounted { IsRecounted self.old n0 }
        ensures listing { self.new.listing ≡ record self.old.listing { events = self.old.listing.events ++ items.now } }
        ensures rows { self.new.rows ≡ self.old.rows }
        ensures due { self.new.due ≡ self.old.due }
        ensures recounted { IsRecounted self.new n0 }
    {
        let from = self.settings.edge(0, n0);
        for number in 0..items.len() {
            self.recount_item(n0, from, items.at(number));
        }
    }

    // Takes one item again, where `from` is the edge that level 0 has at `n0`.
    fn recount_item(&mut self, n0: u64, from: u64, item: Item)
        requires from { from ≡ edge self.old.listing.settings 0 n0 }
        requires own { cone_of self.old.listing.settings item.key ≡ self.old.listing.cone }
        requires below { item.key < key_limit self.old.listing.settings }
        requires some { 1 ≤ item.weight }
        requires light { item.weight ≤ most_weight self.old.listing.version }
        requires within { length self.old.listing.events < n0 }
        requires recounted { IsRecounted self.old n0 }
        ensures listing { self.new.listing ≡ record self.old.listing { events = self.old.listing.events ++ item ∷ [] } }
        ensures rows { self.new.rows ≡ self.old.rows }
        ensures due { self.new.due ≡ self.old.due }
        ensures recounted { IsRecounted self.new n0 }
    {
        let m = self.len + 1;
        let tail = tail_of(&self.settings, item.key);
        let flush = flush_behind(&self.settings, self.len, self.flush);
        count_again(&mut self.zero, from, tail, item.weight, m);
        self.taken.push(&item);
        self.len = m;
        self.flush = flush;
    }
}

// Counts the event at position `m`, where it is above this edge of level 0.
fn count_again<T: CountTable>(zero: &mut Zero<T>, from: u64, tail: u64, weight: u8, m: u64)
    requires some { 1 ≤ weight }
    requires below { tail < 2 ^ tail_bits zero.old.settings }
    requires position { from < m → IsNextPosition zero.old m }
    ensures { zero.new ≡ (if nat_lt from m then with_event zero.old tail weight m else zero.old) }
{
    if from < m {
        zero.add(tail, weight, m);
    }
}
