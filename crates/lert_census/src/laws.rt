//! What a tally knows of items, and what the tallies of all regions are together.

ghost use Rattle.std.specs.Prelude.{◌≡◌, ℕ, ◌^◌, All, List, length, sum_by};
ghost use Rattle.std.specs.List.{range_with_len};
ghost use Rattle.lert_census.specs.Tally.{IsItem, WeighTheSame, tallies_of, tally_of};
ghost use Rattle.lert_spec.specs.Counts.{weighed};
ghost use Rattle.lert_spec.specs.Limits.{IsValid};
ghost use Rattle.lert_spec.specs.Mix.{part_in};
ghost use Rattle.lert_spec.specs.declared.item.Item.{Item};

use lert_base::Numbers;

/// Items among which each key weighs the same have one tally, in whatever order they come. And the tallies of all regions,
/// joined in ascending order, are the tally of all items, of which each is of one region.
pub fn tallies_are_of_weights(s: &Numbers)
    requires { IsValid s.now }
    ensures same { (items others : List Item) → All (IsItem s.now) items → All (IsItem s.now) others
        → WeighTheSame items others → tally_of items ≡ tally_of others }
    ensures joined { (items : List Item) → All (IsItem s.now) items
        → tallies_of s.now 0 (2 ^ s.now.cone_bits) items ≡ tally_of items }
    ensures counted { (items : List Item) → All (IsItem s.now) items
        → sum_by (λ region. length (part_in weighed s.now region items)) (range_with_len 0 (2 ^ s.now.cone_bits))
        ≡ length items }
{}
