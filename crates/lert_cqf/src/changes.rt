//! How the rows of a table change as counts rise.

ghost use Rattle.std.specs.Prelude.{◌≡◌, ℕ, ◌+◌, ◌-◌, ◌^◌, ◌<◌, ◌≤◌, ◌++◌, [], ◌∷◌, List, true, false, length, slice_index, slice_set, min};
ghost use Rattle.lert_slotbits.specs.Bits.{IsFirst, gapped};
ghost use Rattle.lert_runs.specs.RunText.{run_text, pairs_plus};
ghost use Rattle.lert_cqf.specs.Around.{IsOpening, IsWidened};
ghost use Rattle.lert_spec.specs.Table.{plus};
ghost use Rattle.lert_spec.specs.declared.piece.Piece.{Piece};
ghost use Rattle.lert_cqf.specs.Contents.{IsKept, IsPutting};
ghost use Rattle.lert_cqf.specs.Growing.{Stand, IsGrowing, IsBeginning, HasBegun};
ghost use Rattle.lert_cqf.specs.Rows.{IsRaised, filled_gap};

use crate::cells::{overwrite, rotate_up};
use crate::rows::Rows;
use lert_counter::write_group;
use lert_runs::{Growth, grown};

impl Rows {
    /// Makes room for one slot at `place` in the run of `home`: the cells from there up to the first free one
    /// move one place up. The run's mark stands behind `mark`, so it moves too.
    pub fn open_slot(&mut self, home: u64, place: u64, mark: u64)
        requires mark { mark ≤ place }
        requires home { home ≤ place }
        requires homes { home + 1 < length self.old.spill }
        requires slots_long { length self.old.slots.items ≡ length self.old.used }
        requires ends_long { length self.old.run_ends ≡ length self.old.used }
        requires free { (f : ℕ) × IsFirst false self.old.used place f }
        requires room { (g : ℕ) → g < length self.old.spill
            → slice_index self.old.spill g + 1 < 2 ^ 32 }
        ensures slots { (f : ℕ) → IsFirst false self.old.used place f
            → self.new.slots.items ≡ filled_gap self.old.slots.items place f (slice_index self.old.slots.items f) }
        ensures run_ends { (f : ℕ) → IsFirst false self.old.used place f
            → self.new.run_ends ≡ gapped self.old.run_ends mark f }
        ensures used { (f : ℕ) → IsFirst false self.old.used place f
            → self.new.used ≡ slice_set self.old.used f true }
        ensures spill { (f : ℕ) → IsFirst false self.old.used place f
            → IsRaised self.old.spill self.new.spill (home + 1)
            (min f (length self.old.spill - 1)) }
        ensures occupied { self.new.occupied ≡ self.old.occupied }
    {
        let Some(free) = self.used.next_false(place) else {
            unreachable!()
        };
        rotate_up(&mut self.slots, place as usize, free as usize);
        self.run_ends.open_gap(mark, free);
        self.used.set(free, true);
        let last_home = self.spill.len() - 1;
        self.spill
            .raise(home as usize + 1, last_home.min(free as usize));
    }

    /// Makes room for `extra` slots at `place` in the run of `home`, whose last slot is `last`.
    pub fn widen(&mut self, home: u64, place: u64, last: u64, extra: usize)
        requires { (n : ℕ) × (homes : ℕ) × IsOpening n homes home place last extra
            self.old.slots.items self.old.run_ends self.old.used self.old.spill }
        ensures widened { (n homes : ℕ) (o : IsOpening n homes home place last extra
            self.old.slots.items self.old.run_ends self.old.used self.old.spill)
            → IsWidened n homes home extra o.before o.after o.front o.back
            self.new.slots.items self.new.run_ends self.new.used self.new.spill }
        ensures occupied { self.new.occupied ≡ self.old.occupied }
    {
        for count in 0..extra {
            self.open_slot(home, place, place.min(last + count as u64));
        }
    }

    /// Begins a run of one slot at `home`; its value is written later.
    fn begin_run(&mut self, width: u32, home: u64, x: u64, count: u64)
        requires beginning { (n : ℕ) × (homes : ℕ) × IsBeginning n homes width home x count
            self.old.slots.items self.old.run_ends self.old.used self.old.spill }
        requires occupied { home < length self.old.occupied }
        ensures begun { (n homes : ℕ) (b : IsBeginning n homes width home x count
            self.old.slots.items self.old.run_ends self.old.used self.old.spill)
            → HasBegun n homes home b.before b.after
            self.new.slots.items self.new.run_ends self.new.used self.new.spill }
        ensures occupied { self.new.occupied ≡ slice_set self.old.occupied home true }
    {
        let place = self.start(home);
        self.open_slot(home, place, place);
        self.run_ends.set(place, true);
        self.occupied.set(home, true);
    }

    /// Begins the run of `home` with the group of `x` and `count`.
    pub fn add_run(&mut self, width: u32, home: u64, x: u64, count: u64)
        requires narrow { 8 ≤ width }
        requires wide { width ≤ 62 }
        requires beginning { (n : ℕ) × (homes : ℕ) × IsBeginning n homes width home x count
            self.old.slots.items self.old.run_ends self.old.used self.old.spill }
        requires occupied { home < length self.old.occupied }
        ensures stand { (n homes : ℕ) (b : IsBeginning n homes width home x count
            self.old.slots.items self.old.run_ends self.old.used self.old.spill)
            → Stand n homes (b.before ++ (home, run_text width ((x, count) ∷ [])) ∷ b.after)
            self.new.slots.items self.new.run_ends self.new.used self.new.spill }
        ensures occupied { self.new.occupied ≡ slice_set self.old.occupied home true }
    {
        let start = self.start(home);
        self.begin_run(width, home, x, count);
        let mut text = [0; 9];
        let len = write_group(width, x, count, &mut text);
        self.widen(home, start + 1, start, len - 1);
        overwrite(&mut self.slots, start as usize, &text[..len]);
    }

    /// Raises the count of `x` by `count` in the run of `home`.
    pub fn grow_run(&mut self, width: u32, home: u64, x: u64, count: u64)
        requires narrow { 8 ≤ width }
        requires wide { width ≤ 62 }
        requires positive { 1 ≤ count }
        requires growing { (n : ℕ) × (homes : ℕ) × IsGrowing n homes width home x count
            self.old.slots.items self.old.run_ends self.old.used self.old.spill }
        ensures stand { (n homes : ℕ) (g : IsGrowing n homes width home x count
            self.old.slots.items self.old.run_ends self.old.used self.old.spill)
            → Stand n homes (g.before ++ (home, run_text width (pairs_plus g.pairs x count)) ∷ g.after)
            self.new.slots.items self.new.run_ends self.new.used self.new.spill }
        ensures occupied { self.new.occupied ≡ self.old.occupied }
    {
        let begin = self.start(home);
        let end = self.start(home + 1);
        let mut growth = Growth::none();
        grown(width, self.part(begin, end), x, count, &mut growth);
        let at = begin + growth.start as u64;
        self.widen(
            home,
            at + growth.old as u64,
            end - 1,
            growth.len - growth.old,
        );
        overwrite(&mut self.slots, at as usize, &growth.text[..growth.len]);
    }

    /// Adds `n` to the count of a tail: its quotient's run grows, or begins.
    pub fn put(&mut self, width: u32, home: u64, x: u64, n: u64)
        requires kept { (table : List Piece) × (quotient_bits : ℕ) × (adds : ℕ) × (room : ℕ)
            × IsKept table quotient_bits width adds room self.old.slots.items self.old.occupied
            self.old.run_ends self.old.used self.old.spill
            × (tail : ℕ) × IsPutting adds quotient_bits width room tail n home x }
        ensures { (table : List Piece) (quotient_bits adds room tail : ℕ)
            → IsKept table quotient_bits width adds room self.old.slots.items self.old.occupied
            self.old.run_ends self.old.used self.old.spill
            → IsPutting adds quotient_bits width room tail n home x
            → IsKept (plus table tail n) quotient_bits width (adds + 1) room self.new.slots.items self.new.occupied
            self.new.run_ends self.new.used self.new.spill }
    {
        if self.occupied.get(home) {
            self.grow_run(width, home, x, n);
        } else {
            self.add_run(width, home, x, n);
        }
    }
}
