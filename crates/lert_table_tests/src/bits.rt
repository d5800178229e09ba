//! Vectors of bit rows.

use lert_slotbits::Bits;
use std::process::Abort;

/// Asserts that exactly the bits at `places` are set.
pub fn set_bits(rt: &impl Abort, bits: &Bits, places: &[u64]) {
    for i in 0..bits.len() {
        assert_eq!(rt; bits.get(i), places.contains(&i));
    }
}

#[test]
fn rank_select_and_a_gap_of_eight_bits(rt: HostRuntime) {
    let mut bits = Bits::new(rt.alloc(), 8).expect(&rt, "memory");
    bits.set(1, true);
    bits.set(5, true);
    assert_eq!(rt; [bits.len(), bits.rank(5), bits.rank(6)], [8, 1, 2]);
    let places = [bits.select(0), bits.select(1), bits.select(2)];
    assert_eq!(rt; places, [Some(1), Some(5), None]);
    bits.open_gap(1, 3);
    set_bits(&rt, &bits, &[2, 5]);
}

#[test]
fn a_gap_crosses_words(rt: HostRuntime) {
    let mut bits = Bits::new(rt.alloc(), 200).expect(&rt, "memory");
    assert_eq!(rt; bits.len(), 200);
    bits.set(60, true);
    bits.set(63, true);
    bits.set(64, true);
    bits.set(127, true);
    bits.set(130, true);
    bits.open_gap(61, 130);
    set_bits(&rt, &bits, &[60, 64, 65, 128]);
    let places = [bits.next_true(66), bits.next_false(64)];
    bits.clear();
    assert_eq!(rt; (places, bits.next_true(0)), ([Some(128), Some(66)], None));
}
