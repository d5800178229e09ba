//! Small settings, level 0 filled with tails, the levels on disk and their bay, and totals that are kept: what several
//! tests share.

ghost use Rattle.std.specs.Prelude.{◌≡◌, ◌+◌, ◌%◌, ◌^◌, ◌<◌, ◌≤◌, All, [], length};
ghost use Rattle.lert_levels_tests.specs.Samples.{IsReady, IsFilledTo};

use lert_base::{Numbers, Piece, Settings, Totals};
use lert_bay::MemBay;
use lert_io::Seen;
use lert_levels::{Levels, Zero};
use lert_plain::PlainTable;
use std::alloc::Global;
use std::process::Abort;

// Three bins a level, of 4 events at level 0, 8 at level 1 and 16 at level 2.
pub(crate) const SMALL: Numbers = Numbers {
    threshold: 3,
    bins: 3,
    ratio: 2,
    base: 4,
    levels: 2,
    cone_bits: 8,
    room: 32,
    packet: 8,
};

pub(crate) fn small(rt: &impl Abort) -> Settings
    ensures { result ≡ SMALL }
{
    Settings::new(SMALL).expect(rt, "settings")
}

// Level 0 without tails.
pub(crate) fn empty_zero(rt: &impl Abort, alloc: Global) -> Zero<PlainTable>
    ensures settings { result.settings ≡ SMALL }
    ensures from { result.from ≡ 0 }
    ensures to { result.to ≡ 0 }
{
    Zero::new(alloc, &small(rt)).expect(rt, "memory")
}

// Adds events of these tails, each of this weight, at the positions behind `last`, the last one so far.
pub(crate) fn fill_with(zero: &mut Zero<PlainTable>, last: u64, tails: &[u64], weight: u8)
    requires some { 1 ≤ weight }
    requires settings { zero.old.settings ≡ SMALL }
    requires last { last ≡ zero.old.to }
    requires aligned { zero.old.from % 4 ≡ 0 }
    requires ordered { zero.old.from ≤ last }
    requires tables { last + length tails.now ≤ zero.old.from + 12 }
    requires positions { last + length tails.now ≤ 71 }
    requires below { All (λ tail. tail < 2 ^ 56) tails.now }
    ensures settings { zero.new.settings ≡ SMALL }
    ensures from { zero.new.from ≡ zero.old.from }
    ensures to { zero.new.to ≡ last + length tails.now }
{
    let mut m = last;
    for tail in tails {
        m += 1;
        zero.add(*tail, weight, m);
    }
}

// The same, each of weight 1.
pub(crate) fn fill(zero: &mut Zero<PlainTable>, last: u64, tails: &[u64])
    requires settings { zero.old.settings ≡ SMALL }
    requires last { last ≡ zero.old.to }
    requires aligned { zero.old.from % 4 ≡ 0 }
    requires ordered { zero.old.from ≤ last }
    requires tables { last + length tails.now ≤ zero.old.from + 12 }
    requires positions { last + length tails.now ≤ 71 }
    requires below { All (λ tail. tail < 2 ^ 56) tails.now }
    ensures settings { zero.new.settings ≡ SMALL }
    ensures from { zero.new.from ≡ zero.old.from }
    ensures to { zero.new.to ≡ last + length tails.now }
{
    fill_with(zero, last, tails, 1);
}

// Level 0 with events of these twelve tails, each of this weight.
fn filled(rt: &impl Abort, alloc: Global, tails: &[u64], weight: u8) -> Zero<PlainTable>
    requires some { 1 ≤ weight }
    requires twelve { length tails.now ≡ 12 }
    requires below { All (λ tail. tail < 2 ^ 56) tails.now }
    ensures { IsFilledTo 12 result }
{
    let mut zero = empty_zero(rt, alloc);
    fill_with(&mut zero, 0, tails, weight);
    zero
}

// The levels on disk beside it, without bins.
fn empty_levels(rt: &impl Abort, alloc: Global, zero: &Zero<PlainTable>) -> Levels<PlainTable>
    requires { IsFilledTo 12 zero.now }
    ensures { IsReady 12 zero.now result }
{
    Levels::new(alloc, zero.settings()).expect(rt, "memory")
}

// Level 0, the levels on disk, and their bay.
#[derive(Drop)]
pub(crate) struct Place {
    pub zero: Zero<PlainTable>,
    pub levels: Levels<PlainTable>,
    pub bay: MemBay,
}

// One with events of these twelve tails and this weight in level 0, no bin on disk, and an empty bay.
pub(crate) fn begun_with(rt: &impl Abort, alloc: Global, tails: &[u64], weight: u8) -> Place
    requires some { 1 ≤ weight }
    requires twelve { length tails.now ≡ 12 }
    requires below { All (λ tail. tail < 2 ^ 56) tails.now }
    ensures { IsReady 12 result.zero result.levels }
{
    let zero = filled(rt, alloc, tails, weight);
    let levels = empty_levels(rt, alloc, &zero);
    let bay = MemBay::new(alloc).expect(rt, "memory");
    Place { zero, levels, bay }
}

// One with the tails 1 to 4 three times.
pub(crate) fn begun(rt: &impl Abort, alloc: Global) -> Place
    ensures { IsReady 12 result.zero result.levels }
{
    begun_with(rt, alloc, &[1, 2, 3, 4, 1, 2, 3, 4, 1, 2, 3, 4], 1)
}

// The totals that were taken, in their order.
#[derive(Drop)]
pub(crate) struct Taken {
    all: Seen<Piece>,
    pub kept: Vec<Piece>,
}

impl Taken {
    pub(crate) fn new(alloc: Global) -> Taken
        ensures { result.all ≡ [] }
    {
        Taken {
            all: Seen::new(),
            kept: Vec::new(alloc),
        }
    }
}

impl Totals for Taken {
    ghost took = { λ taken pieces. taken.all ≡ pieces };

    fn total(&mut self, tail: u64, count: u64) {
        let piece = Piece { tail, count };
        self.all.push(&piece);
        // A test that reads them sees where there was no memory.
        let _ = self.kept.push(piece);
    }
}
