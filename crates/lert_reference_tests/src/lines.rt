ghost use Rattle.std.specs.Prelude.{◌<◌, ◌^◌, length, sum_by};

use lert_reference::lines::{Printed, lines};
use lert_spec::Report;
use std::alloc::Global;
use std::process::Abort;

// Wants the text of these cones.
fn check(rt: &impl Abort, alloc: Global, cones: &[Printed], wanted: &str)
    requires events { sum_by (λ cone. cone.events) cones.now < 2 ^ 64 }
    requires reports { sum_by (λ cone. length cone.reports) cones.now < 2 ^ 64 }
{
    let text = lines(alloc, cones).expect(rt, "memory");
    assert_eq!(rt; text.as_str(), wanted);
}

// A cone with these reports.
fn cone(rt: &impl Abort, alloc: Global, events: u32, reports: &[Report], closed: bool) -> Printed
    requires { length reports.now < 3 }
    ensures events { result.events < 2 ^ 32 }
    ensures reports { length result.reports < 3 }
{
    Printed {
        events: u64::from(events),
        reports: reports.to_vec(alloc).expect(rt, "memory"),
        closed,
    }
}

// Wants the text of two cones.
fn check_two(rt: &impl Abort, alloc: Global) {
    let greatest = Report {
        key: u64::MAX,
        at: 6,
    };
    let first = cone(rt, alloc, 6, &[Report { key: 0, at: 3 }, greatest], true);
    let second = cone(rt, alloc, 3, &[Report { key: 1, at: 3 }], true);
    check(
        rt,
        alloc,
        &[first, second],
        "cone 0 events 6 reports 2 closed\n0 3\n18446744073709551615 6\n\
         cone 1 events 3 reports 1 closed\n1 3\ntotal events 9 reports 3\n",
    );
}

#[test]
fn texts_are_those_of_the_worked_rows(rt: HostRuntime) {
    let alloc = rt.alloc();
    let sevens = [Report { key: 7, at: 3 }];
    let rows: [(u32, &[Report], bool, &str); 3] = [
        (
            0,
            &[],
            true,
            "cone 0 events 0 reports 0 closed\ntotal events 0 reports 0\n",
        ),
        (
            64,
            &[],
            false,
            "cone 0 events 64 reports 0 open\ntotal events 64 reports 0\n",
        ),
        (
            3,
            &sevens,
            true,
            "cone 0 events 3 reports 1 closed\n7 3\ntotal events 3 reports 1\n",
        ),
    ];
    for (events, reports, closed, text) in rows {
        assert!(rt; reports.len() < 3);
        let one = cone(&rt, alloc, events, reports, closed);
        check(&rt, alloc, &[one], text);
    }
    check_two(&rt, alloc);
}
