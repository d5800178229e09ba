//! The lines of the statuses.

ghost use Rattle.std.specs.Prelude.{◌≤◌};

use crate::same::assert_same;
use lert_text::{LINE, status_line};
use std::process::Abort;

// Asserts that a status with these fields has this line.
fn assert_line(rt: &impl Abort, number: u8, fields: [u64; 3], text: &[u8])
    requires least { 1 ≤ number }
    requires most { number ≤ 13 }
{
    let mut line = [0; LINE];
    let [a, b, d] = fields;
    let len = status_line(number, a, b, d, 0, 0, &mut line);
    assert_same(rt, &&line[..len], &text, "a line");
}

#[test]
fn each_status_has_its_line(rt: HostRuntime) {
    assert_line(&rt, 1, [0, 0, 0], b"lert: usage rule 0\n");
    assert_line(&rt, 2, [0, 0, 0], b"lert: place fault\n");
    assert_line(&rt, 3, [1023, 0, 0], b"lert: trace 1023 fault\n");
    assert_line(&rt, 4, [0, 16, 0], b"lert: trace 0 bad at 16\n");
    assert_line(&rt, 5, [7, 0, 0], b"lert: trace 7 too long\n");
    assert_line(&rt, 6, [255, 0, 0], b"lert: cone 255 not fresh\n");
    assert_line(&rt, 7, [3, 0, 0], b"lert: cone 3 disk fault\n");
    assert_line(&rt, 8, [0, 64, 8], b"lert: cone 0 full at 64 plus 8\n");
    assert_line(
        &rt,
        9,
        [1, 2, u64::MAX],
        b"lert: cone 1 file 2 malformed at 18446744073709551615\n",
    );
    assert_line(&rt, 10, [9, 0, 0], b"lert: cone 9 has other settings\n");
    assert_line(&rt, 11, [0, 0, 0], b"lert: output fault\n");
    assert_line(&rt, 12, [0, 0, 0], b"lert: out of memory\n");
    assert_line(
        &rt,
        13,
        [0, 1020, 255],
        b"lert: cone 0 weight full at 1020 plus 255\n",
    );
}
