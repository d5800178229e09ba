ghost use Rattle.std.specs.Prelude.{◌≡◌};

use lert_base::Settings;
use lert_reference::edges;
use lert_spec::Numbers;
use std::process::Abort;

const SMALL: Numbers = Numbers {
    threshold: 3,
    bins: 3,
    ratio: 2,
    base: 4,
    levels: 2,
    cone_bits: 0,
    room: 32,
    packet: 8,
};

const SHIPPED: Numbers = Numbers {
    threshold: 24,
    bins: 4,
    ratio: 4,
    base: 4_096,
    levels: 5,
    cone_bits: 4,
    room: 262_144,
    packet: 1_024,
};

fn rule_of(numbers: Numbers) -> u8 {
    match Settings::new(numbers) {
        Ok(_) => 0,
        Err(bad) => bad.rule,
    }
}

// The shipped numbers, with this one of them changed to a value.
fn changed(place: u8, value: u64) -> Numbers {
    let mut numbers = SHIPPED;
    match place {
        1 => numbers.threshold = value,
        2 => numbers.bins = value,
        3 => numbers.ratio = value,
        4 => numbers.base = value,
        5 => numbers.levels = value,
        6 => numbers.cone_bits = value,
        7 => numbers.room = value,
        _ => numbers.packet = value,
    }
    numbers
}

#[test]
fn the_first_broken_rule_is_named(rt: HostRuntime) {
    assert_eq!(rt; [rule_of(SHIPPED), rule_of(SMALL)], [0, 0]);
    let single = [
        (1, 0, 1),
        (1, 1 << 32, 1),
        (3, 17, 3),
        (4, 3, 4),
        (5, 9, 5),
        (6, 9, 6),
        (7, 0, 7),
        (8, 1_025, 8),
    ];
    for (place, value, rule) in single {
        assert_eq!(rt; rule_of(changed(place, value)), rule, "{place}");
    }
    let few = Numbers {
        bins: 1,
        ratio: 1,
        ..SHIPPED
    };
    let wide = Numbers {
        cone_bits: 6,
        base: 65_536,
        ..SHIPPED
    };
    let widest = Numbers {
        cone_bits: 5,
        ..wide
    };
    let full = Numbers {
        cone_bits: 8,
        room: 65_537,
        ..SHIPPED
    };
    // The oldest level ends at 2,505,375,744, and at half of it.
    let deep = Numbers {
        bins: 2,
        base: 65_536,
        levels: 7,
        ..SHIPPED
    };
    let deepest = Numbers {
        base: 32_768,
        ..deep
    };
    let rules = [rule_of(few), rule_of(wide), rule_of(full), rule_of(deep)];
    assert_eq!(rt; rules, [2, 9, 10, 11]);
    assert_eq!(rt; [rule_of(widest), rule_of(deepest)], [0, 0]);
}

fn settings(rt: &impl Abort, numbers: Numbers) -> Settings
    ensures { result ≡ numbers }
{
    Settings::new(numbers).expect(rt, "the numbers are settings")
}

#[test]
fn small_settings_have_the_numbers_of_the_worked_rows(rt: HostRuntime) {
    let small = settings(&rt, SMALL);
    let found = [
        small.capacity(),
        small.span(2),
        small.offset(2),
        small.edge(0, 32),
        small.edge(1, 32),
        small.lookback(36),
        small.lookback(40),
    ];
    assert_eq!(rt; found, [71, 16, 56, 24, 8, 8, 0]);
    let found = [
        small.cones(),
        small.depth(35),
        small.depth(36),
        small.depth(40),
        small.quotient_bits(1),
        small.width(1),
    ];
    assert_eq!(rt; found, [1, 0, 1, 2, 6, 58]);
}

#[test]
fn the_shipped_capacity_is_6291456(rt: HostRuntime) {
    let shipped = settings(&rt, SHIPPED);
    let found = (shipped.capacity(), shipped.cones());
    assert_eq!(rt; found, (6_291_456, 16));
}

// The readers and the slow programs of their definitions, at each position of a cone.
#[test]
fn readers_agree_with_the_slow_programs(rt: HostRuntime) {
    let small = settings(&rt, SMALL);
    let numbers = small.numbers();
    for m in 1..small.capacity() + 1 {
        let read = (u64::from(small.depth(m)), small.lookback(m));
        let wanted = (edges::depth(&numbers, m), edges::lookback(&numbers, m));
        assert_eq!(rt; read, wanted);
    }
}
