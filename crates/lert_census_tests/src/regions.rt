//! Regions by hand: the sums of three keys, whose mixed values ascend as 0, 2^64 - 1, 1, and of which 1 alone is of the
//! second of two cones.

ghost use Rattle.std.specs.Prelude.{◌≡◌, ◌*◌, ◌^◌, ◌<◌, ◌≤◌, length};
ghost use Rattle.lert_base.specs.Entries.{packet_of};
ghost use Rattle.lert_census.specs.Census.{lines_of};
ghost use Rattle.lert_journal.specs.Payload.{IsJournaled};
ghost use Rattle.lert_spec.specs.Mix.{cone_of};

use lert_base::{ConeFault, Entry, Held, Item, KeyList, Numbers, Report, Settings};
use lert_census::Region;
use lert_mixer::cone_of;
use std::alloc::Global;
use std::process::Abort;

const LAST: u64 = u64::MAX;

fn settings(rt: &impl Abort, cone_bits: u64, room: u64) -> Settings
    ensures cone_bits { result.cone_bits ≡ cone_bits }
    ensures packet { result.packet ≡ 1 }
{
    let numbers = Numbers {
        threshold: 3,
        bins: 2,
        ratio: 2,
        base: 4,
        levels: 1,
        cone_bits,
        room,
        packet: 1,
    };
    Settings::new(numbers).expect(rt, "settings")
}

// A packet of these items, all of the region.
fn packet(rt: &impl Abort, alloc: Global, settings: &Settings, region: u32, items: &[Item]) -> Entry
    requires some { 0 < length items.now }
    requires few { length items.now ≤ 4 * settings.now.packet }
    ensures { IsJournaled 2 settings.now region (packet_of result) }
{
    let mut list = KeyList::with_room(alloc, items.len()).expect(rt, "memory");
    for item in items {
        assert_fits(rt, settings, region, *item);
        list.push(item.key, item.weight);
    }
    Entry::new(0, 0, list)
}

// Asserts that an item is of the region, and weighs something.
fn assert_fits(rt: &impl Abort, settings: &Settings, region: u32, item: Item)
    ensures own { cone_of settings.now item.key ≡ region }
    ensures some { 1 ≤ item.weight }
    ensures most { item.weight ≤ 255 }
{
    assert!(rt; cone_of(settings, item.key) == region);
    assert!(rt; 1 <= item.weight);
}

// The region answers a packet of these keys and weights so.
fn check_answer(
    rt: &impl Abort,
    alloc: Global,
    settings: &Settings,
    region: &mut Region,
    number: u32,
    items: &[Item],
    wanted: Result<u64, ConeFault>,
)
    requires packet { settings.now.packet ≡ 1 }
    requires settings { region.old.settings ≡ settings.now }
    requires number { region.old.region ≡ number }
    ensures settings { region.new.settings ≡ settings.now }
    ensures number { region.new.region ≡ number }
{
    let len = items.len();
    assert!(rt; 0 < len && len <= 4);
    let packet = packet(rt, alloc, settings, number, items);
    assert!(rt; region.apply(&packet) == wanted);
}

// All lines of a region.
fn lines_of(rt: &impl Abort, alloc: Global, region: &Region) -> Vec<Report>
    ensures { result.items ≡ lines_of region.now }
{
    let mut lines = Vec::new(alloc);
    let mut cursor = region.start();
    while let Some(line) = region.step(&mut cursor) {
        lines.push(line).expect(rt, "memory");
    }
    lines
}

// The region has these lines, and no other.
fn check_lines(rt: &impl Abort, alloc: Global, region: &Region, wanted: &[(u64, u64)]) {
    let lines = lines_of(rt, alloc, region);
    assert!(rt; lines.len() == wanted.len());
    for number in 0..wanted.len() {
        let (key, at) = wanted[number];
        assert!(rt; lines[number] == Report { key, at });
    }
}

fn item(key: u64, weight: u8) -> Item
    ensures { result ≡ record { key = key; weight = weight } }
{
    Item { key, weight }
}

#[test]
fn keys_come_once_with_their_sums_in_ascending_mixed_values(rt: HostRuntime) {
    let alloc = rt.alloc();
    let settings = settings(&rt, 0, 4);
    let mut region = Region::new(alloc, &settings, 0).expect(&rt, "memory");
    check_lines(&rt, alloc, &region, &[]);
    let three = [item(0, 1), item(1, 1), item(LAST, 1)];
    check_answer(&rt, alloc, &settings, &mut region, 0, &three, Ok(3));
    check_answer(&rt, alloc, &settings, &mut region, 0, &[item(1, 1)], Ok(4));
    check_lines(&rt, alloc, &region, &[(0, 1), (LAST, 1), (1, 2)]);
    drop(region);
}

#[test]
fn a_region_has_the_keys_of_its_cone_with_all_their_weights(rt: HostRuntime) {
    let alloc = rt.alloc();
    let settings = settings(&rt, 1, 4);
    let mut region = Region::new(alloc, &settings, 0).expect(&rt, "memory");
    let each = [item(LAST, 1), item(0, 1)];
    check_answer(&rt, alloc, &settings, &mut region, 0, &each, Ok(2));
    check_lines(&rt, alloc, &region, &[(0, 1), (LAST, 1)]);
    drop(region);
    let mut region = Region::new(alloc, &settings, 1).expect(&rt, "memory");
    let twice = [item(1, 2), item(1, 255)];
    check_answer(&rt, alloc, &settings, &mut region, 1, &twice, Ok(2));
    check_lines(&rt, alloc, &region, &[(1, 257)]);
    drop(region);
}

#[test]
fn items_above_the_room_are_refused_and_change_nothing(rt: HostRuntime) {
    let alloc = rt.alloc();
    let settings = settings(&rt, 0, 2);
    let mut region = Region::new(alloc, &settings, 0).expect(&rt, "memory");
    let three = [item(0, 1), item(1, 1), item(LAST, 1)];
    let full = |n, len| Err(ConeFault::CapacityFull { n, len });
    check_answer(&rt, alloc, &settings, &mut region, 0, &three, full(0, 3));
    check_lines(&rt, alloc, &region, &[]);
    let two = [item(LAST, 9), item(0, 1)];
    check_answer(&rt, alloc, &settings, &mut region, 0, &two, Ok(2));
    check_answer(
        &rt,
        alloc,
        &settings,
        &mut region,
        0,
        &[item(0, 1)],
        full(2, 1),
    );
    check_lines(&rt, alloc, &region, &[(0, 1), (LAST, 9)]);
    assert!(&rt; region.items() == 2);
    drop(region);
}
