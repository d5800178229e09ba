//! How many frames a record names.

use crate::settings::settings_of;
use lert_base::Numbers;
use lert_reports::bins;

// Edges stand at whole numbers of 4, 8 and 16 events.
const SMALL: Numbers = Numbers {
    threshold: 3,
    bins: 3,
    ratio: 2,
    base: 4,
    levels: 2,
    cone_bits: 0,
    room: 32,
    packet: 8,
};

#[test]
fn bins_are_those_of_a_worked_cone(rt: HostRuntime) {
    let settings = settings_of(&rt, SMALL);
    let bins = [
        [bins(&settings, 1, 11), bins(&settings, 2, 11)],
        [bins(&settings, 1, 12), bins(&settings, 2, 12)],
        [bins(&settings, 1, 20), bins(&settings, 2, 20)],
        [bins(&settings, 1, 32), bins(&settings, 2, 32)],
        [bins(&settings, 1, 48), bins(&settings, 2, 48)],
    ];
    assert_eq!(rt; bins, [[0, 0], [1, 0], [2, 0], [2, 1], [2, 2]]);
}
