//! Faults of the place, of the trace and of the sink.

use super::check;
use crate::checks::whole_row;
use lert_top::Status;
use lert_trials::{Row, short_form, trace};

#[test]
fn a_fault_of_the_outside_is_answered_by_its_status(rt: HostRuntime) {
    let short = short_form("3");
    let lacking = ["run", "--threshold", "3", "--cone-bits", "0", "d", "b"];
    let whole = trace(rt.alloc(), &[7, 7, 7]).expect(&rt, "memory");
    let rows: [(&[&str], u64, u64, Status); 4] = [
        (&lacking, 0, 0, Status::PlaceFault),
        (&short, 1, 0, Status::TraceFault { trace: 0 }),
        (&short, 2, 0, Status::TraceFault { trace: 0 }),
        (&short, 0, 1, Status::OutFault),
    ];
    for (words, failing_read, failing_write, status) in rows {
        let row = Row {
            words,
            cones: 1,
            trace: &whole,
            failing_read,
            failing_write,
        };
        check(&rt, rt.alloc(), &row, status, "");
    }
}

#[test]
fn a_bad_trace_is_answered_with_its_place_and_leaves_nothing_written(rt: HostRuntime) {
    let short = short_form("3");
    let mut cut = trace(rt.alloc(), &[7, 7, 7]).expect(&rt, "memory");
    cut.truncate(21);
    let rows: [(&[u8], u64); 6] = [
        (&cut, 16),
        (&[], 0),
        (&[0x4c, 0x45, 0x52, 0], 3),
        (&[0x4c, 0x45, 0x52, 0x54, 0, 0, 0, 0], 4),
        (&[0x4c, 0x45, 0x52, 0x54, 3, 0, 0, 0], 4),
        (&[0x4c, 0x45, 0x52, 0x54, 5, 0, 0, 0], 4),
    ];
    for (trace, at) in rows {
        let row = whole_row(&short, 1, trace);
        check(&rt, rt.alloc(), &row, Status::BadTrace { trace: 0, at }, "");
    }
}
