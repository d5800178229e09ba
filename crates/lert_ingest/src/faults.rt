//! Which fault of several is answered.

ghost use Rattle.std.specs.Prelude.{◌≡◌, ◌≤◌, length};
ghost use Rattle.lert_ingest.specs.Back.{AreSeen};
ghost use Rattle.lert_ingest.specs.Faults.{earlier, earliest, end_fault, fault_at, full_fault, goes_before, number_in, rank, state_fault};
ghost use Rattle.lert_worker.specs.crew.Crewed.{end_at};

use crate::status::Status;
use lert_base::CountTable;
use lert_bay::Bay;
use lert_cone::{Cone, ConeFault, ConeState};
use lert_worker::WorkerEnd;

/// The fault that is answered of how workers ended: that of the lowest trace; else the lowest bad trace; else the lowest trace that is
/// too long; else the lowest cone that is full; else the lowest whose weight is. None exactly where they show none.
pub fn first_of_ends(ends: &[WorkerEnd]) -> Option<Status>
    ensures { result ≡ earliest (λ by. end_fault (end_at ends.now by)) (length ends.now) }
{
    let mut first = None;
    for by in 0..ends.len() {
        first = earlier(first, end_fault(ends[by]));
    }
    first
}

/// The fault that is answered of what cones may still do: that of the lowest that its bay broke; else that of the lowest that a read
/// broke. None exactly where none is broken.
pub fn first_of_cones<B: Bay, T: CountTable>(cones: &[Cone<B, T>]) -> Option<Status>
    requires { length cones.now ≤ 256 }
    ensures first { result ≡ earliest (fault_at cones.now) (length cones.now) }
    ensures seen { AreSeen B.files B.faults B.mark cones.now }
{
    let mut first = None;
    for cone in 0..cones.len() {
        first = earlier(first, state_fault(cone as u32, cones[cone].state()));
    }
    first
}

/// The one of two faults that is answered.
pub fn earlier(one: Option<Status>, other: Option<Status>) -> Option<Status>
    ensures { result ≡ earlier one other }
{
    match one {
        None => other,
        Some(first) => match other {
            None => one,
            Some(second) => {
                if goes_before(second, first) {
                    other
                } else {
                    one
                }
            }
        },
    }
}

// Whether a status is answered before another one.
fn goes_before(one: Status, other: Status) -> bool
    ensures { result ≡ goes_before one other }
{
    let ranks = (rank(one), rank(other));
    ranks.0 < ranks.1 || (ranks.0 == ranks.1 && number_in(one) < number_in(other))
}

// The place of a status in the order in which faults are answered.
fn rank(status: Status) -> u8
    ensures { result ≡ rank status }
{
    match status {
        Status::OutOfMemory => 0,
        Status::TraceFault { .. } => 1,
        Status::BadTrace { .. } => 2,
        Status::TooLong { .. } => 3,
        Status::BayFault { .. } => 4,
        Status::Malformed { .. } => 5,
        Status::CapacityFull { .. } => 6,
        Status::WeightFull { .. } => 7,
        Status::Done => 8,
        Status::Usage { .. } => 8,
        Status::PlaceFault => 8,
        Status::NotFresh { .. } => 8,
        Status::OtherSettings { .. } => 8,
        Status::OutFault => 8,
    }
}

// The trace or the cone of a status.
fn number_in(status: Status) -> u32
    ensures { result ≡ number_in status }
{
    match status {
        Status::TraceFault { trace } => trace,
        Status::BadTrace { trace, at: _ } => trace,
        Status::TooLong { trace } => trace,
        Status::NotFresh { cone } => cone,
        Status::BayFault { cone } => cone,
        Status::CapacityFull { cone, n: _, len: _ } => cone,
        Status::WeightFull {
            cone,
            weight: _,
            more: _,
        } => cone,
        Status::Malformed {
            cone,
            file: _,
            at: _,
        } => cone,
        Status::OtherSettings { cone } => cone,
        Status::Done => 0,
        Status::Usage { .. } => 0,
        Status::PlaceFault => 0,
        Status::OutFault => 0,
        Status::OutOfMemory => 0,
    }
}

// The fault of how a worker ended. Where a cone refused for another cause than capacity or weight, its state says so.
fn end_fault(end: WorkerEnd) -> Option<Status>
    ensures { result ≡ end_fault end }
{
    match end {
        WorkerEnd::Ran => None,
        WorkerEnd::Trace { trace, fault } => Some(Status::of_trace(trace, fault)),
        WorkerEnd::Cone { cone, fault } => full_fault(cone, fault),
    }
}

// The fault of a cone that refused a packet over its capacity or weight.
fn full_fault(cone: u32, fault: ConeFault) -> Option<Status>
    ensures { result ≡ full_fault cone fault }
{
    match fault {
        ConeFault::CapacityFull { n, len } => Some(Status::CapacityFull { cone, n, len }),
        ConeFault::WeightFull { weight, more } => Some(Status::WeightFull { cone, weight, more }),
        ConeFault::OldJournal { .. } => None,
        ConeFault::Closed => None,
        ConeFault::Broken => None,
        ConeFault::BayFailed => None,
        ConeFault::Unsound { .. } => None,
    }
}

// The fault of the state of a cone. A cone that came back from its lock isn't finished.
fn state_fault(cone: u32, state: ConeState) -> Option<Status>
    ensures { result ≡ state_fault cone state }
{
    match state {
        ConeState::Running => None,
        ConeState::Finished => None,
        ConeState::BrokenByBay => Some(Status::BayFault { cone }),
        ConeState::BrokenByRead { file, at } => Some(Status::Malformed { cone, file, at }),
    }
}
