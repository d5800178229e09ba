//! Runs at a width of 8 bits.

use lert_runs::read_all;

#[test]
fn only_ascending_groups_are_a_run(rt: HostRuntime) {
    assert!(rt; read_all(8, &[]));
    assert!(rt; read_all(8, &[0, 1, 0, 0, 5, 5, 9, 0, 255, 9]));
    // The remainders don't ascend.
    assert!(rt; !read_all(8, &[5, 9, 5]));
    assert!(rt; !read_all(8, &[9, 9, 5, 5]));
    // A remainder has more bits.
    assert!(rt; read_all(8, &[255]));
    assert!(rt; !read_all(8, &[256]));
    // A counter doesn't end.
    assert!(rt; !read_all(8, &[5, 9, 1]));
}
