//! Vectors of the mixer.

use lert_base::{Numbers, Settings};
use lert_mixer::{cone_of, key_of, mix, tail_of, unmix};

const NUMBERS: Numbers = Numbers {
    threshold: 3,
    bins: 3,
    ratio: 2,
    base: 4,
    levels: 2,
    cone_bits: 1,
    room: 32,
    packet: 8,
};

#[test]
fn mixed_values_are_those_of_the_vectors(rt: HostRuntime) {
    let mixed = [0, 0xb456_bcfc_34c2_cb2c, 0x64b5_720b_4b82_5f21];
    assert_eq!(rt; [mix(0), mix(1), mix(u64::MAX)], mixed);
    assert_eq!(rt;
        [unmix(mixed[0]), unmix(mixed[1]), unmix(mixed[2])],
        [0, 1, u64::MAX]
    );
}

#[test]
fn a_key_comes_back_from_its_cone_and_its_tail(rt: HostRuntime) {
    let settings = Settings::new(NUMBERS).expect(&rt, "settings");
    let cone = cone_of(&settings, 1);
    let tail = tail_of(&settings, 1);
    let cones = [cone_of(&settings, 0), cone, cone_of(&settings, u64::MAX)];
    assert_eq!(rt; cones, [0, 1, 0]);
    let tails = [tail, tail_of(&settings, u64::MAX)];
    assert_eq!(rt; tails, [0x3456_bcfc_34c2_cb2c, 0x64b5_720b_4b82_5f21]);
    assert_eq!(rt; key_of(&settings, cone, tail), 1);
}
