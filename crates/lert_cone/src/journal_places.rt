//! Where the journal's records begin that hold the first items of a cone's newest bins.

ghost use Rattle.std.specs.Prelude.{◌≡◌, ℕ, ◌+◌, ◌*◌, ◌<◌, ◌≤◌, slice_index_or};
ghost use Rattle.lert_spec.specs.Edges.{span, capacity};
ghost use Rattle.lert_spec.specs.Limits.{IsValid};
ghost use Rattle.lert_cone.specs.JournalPlaces.{bins_begun, oldest_place, first_place, places_from, HasPassed};

use lert_base::Settings;
use lert_reports::{FIRST, OFFSET};
use std::marker::Model;

// One more than the bins that a level has at most.
const MOST: usize = 17;

/// Where a record of the journal begins: its gate, and the position of its first item.
#[derive(Clone, Copy, Debug, PartialEq, Eq)]
pub struct JournalPlace {
    pub gate: u64,
    pub first: u64,
}

// The journal's first record.
const START: JournalPlace = JournalPlace {
    gate: OFFSET,
    first: FIRST,
};

/// For each of the newest bins of level 0's span, one more than a level has, the place of the record that holds its first item.
/// Of bins that began among items that were passed unseen it has none. An item costs a comparison. No call takes memory.
#[derive(Drop)]
pub struct JournalPlaces {
    settings: Settings,
    // The newest bin's first.
    places: [JournalPlace; MOST],
    // The position of the last item that is passed.
    passed: u64,
    // The position of the next bin's first key, kept so that no key divides.
    next: u64,
    // The least position from which on the bins are known.
    from: u64,
}

impl Model for JournalPlaces {
    ghost use Rattle.lert_cone.specs.JournalPlaces.{Places, IsRing};

    ghost Value = { Places };

    ghost view = { λ m. record { settings = m.settings; places = m.places; passed = m.passed; from = m.from } };

    ghost invariant = { λ m. IsRing m.settings m.places m.passed m.next };
}

impl JournalPlaces {
    /// Behind so many items, which are passed unseen: none of the bins that began among them is known.
    pub fn new(settings: &Settings, passed: u64) -> JournalPlaces
        requires { passed ≤ capacity settings.now }
        ensures { result ≡ places_from settings.now passed }
    {
        let _valid = settings.numbers();
        let span = settings.span(0);
        let bins = (passed + span - 1) / span;
        JournalPlaces {
            settings: *settings,
            places: [START; MOST],
            passed,
            next: bins * span + 1,
            from: passed + 1,
        }
    }

    /// Passes the items up to position `last`, which are those of the record at `place`: it stands from now on for the bins that
    /// begin among them.
    pub fn pass(&mut self, last: u64, place: JournalPlace)
        requires forward { self.old.passed ≤ last }
        requires within { last ≤ capacity self.old.settings }
        ensures { HasPassed last place self.old self.new }
    {
        'bins: while self.next_first() <= last {
            self.begin(place);
        }
        self.stand_at(last);
    }

    /// The place of the record that holds level 0's first item, or without an item that of the journal's first record.
    pub fn oldest(&self) -> JournalPlace
        ensures { result ≡ oldest_place self.now }
    {
        let edge = self.settings.edge(0, self.passed);
        let bins = (self.next - 1 - edge) / self.settings.span(0);
        if bins == 0 {
            return START;
        }
        self.places[bins as usize - 1]
    }

    // The position of the next bin's first item.
    fn next_first(&self) -> u64
        ensures place { result ≡ bins_begun self.now.settings self.now.passed * span self.now.settings 0 + 1 }
        ensures valid { IsValid self.now.settings }
    {
        self.next
    }

    // Passes the items up to the first one of the next bin.
    fn begin(&mut self, place: JournalPlace)
        requires { bins_begun self.old.settings self.old.passed * span self.old.settings 0 + 1 ≤ capacity self.old.settings }
        ensures settings { self.new.settings ≡ self.old.settings }
        ensures passed { self.new.passed ≡ bins_begun self.old.settings self.old.passed * span self.old.settings 0 + 1 }
        ensures from { self.new.from ≡ self.old.from }
        ensures newest { slice_index_or self.new.places 0 first_place ≡ place }
        ensures others { (j : ℕ) → j < 16 → slice_index_or self.new.places (j + 1) first_place ≡ slice_index_or self.old.places j first_place }
    {
        self.places.rotate_right(1);
        self.places[0] = place;
        self.passed = self.next;
        self.next += self.settings.span(0);
    }

    // Passes items of bins that have begun.
    fn stand_at(&mut self, last: u64)
        requires forward { self.old.passed ≤ last }
        requires within { last ≤ capacity self.old.settings }
        requires reach { last ≤ bins_begun self.old.settings self.old.passed * span self.old.settings 0 }
        ensures { self.new ≡ record self.old { passed = last } }
    {
        self.passed = last;
    }
}
