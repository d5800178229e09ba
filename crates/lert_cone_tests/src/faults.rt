//! What failed calls and a frame that leaves its format make of a cone.

ghost use Rattle.std.specs.Prelude.{◌≡◌, ◌<◌, ◌≤◌, length};

use crate::cones::{
    check_end, check_given, check_state, created, empty_bay, give_all, refusal, sevens_at, small,
};
use crate::files::JOURNAL_TEXT;
use crate::garbled::GarbledBay;
use lert_base::Settings;
use lert_bay::{Bay, FRAMES, JOURNAL, LOG, MemBay};
use lert_cone::{Cone, ConeFault, ConeState, CreateFault};
use lert_plain::PlainTable;
use std::alloc::Global;
use std::process::Abort;

// A bay in memory with a call that fails.
fn failing(rt: &impl Abort, alloc: Global, call: u64) -> MemBay {
    let mut bay = empty_bay(rt, alloc);
    bay.fail_at(call);
    bay
}

// A cone over this bay takes each of these keys, and breaks at the last packet. Answers the bay that it leaves.
fn broken<B: Bay>(
    rt: &impl Abort,
    alloc: Global,
    bay: B,
    keys: &[u64],
    last: &[u64],
    fault: ConeFault,
    state: ConeState,
) -> B
where
    B: Drop,
    requires some { 0 < length last.now }
    requires few { length last.now ≤ 32 }
{
    let settings = small(rt, 32);
    let mut cone = created(rt, alloc, &settings, bay);
    check_broken(rt, alloc, &settings, &mut cone, keys, last, fault, state);
    cone.into_bay()
}

fn check_broken<B: Bay>(
    rt: &impl Abort,
    alloc: Global,
    settings: &Settings,
    cone: &mut Cone<B, PlainTable>,
    keys: &[u64],
    last: &[u64],
    fault: ConeFault,
    state: ConeState,
)
    requires some { 0 < length last.now }
    requires few { length last.now ≤ 32 }
    requires eight { settings.now.packet ≡ 8 }
    requires settings { cone.old.listing.settings ≡ settings.now }
    requires cone { cone.old.listing.cone ≡ 0 }
{
    give_all(rt, alloc, settings, cone, keys);
    check_given(rt, alloc, settings, cone, last, Err(fault));
    check_given(rt, alloc, settings, cone, last, Err(ConeFault::Broken));
    check_end(rt, cone, Err(ConeFault::Broken));
    check_state(rt, cone, state, keys.len() as u64);
}

// The journal that a cone leaves which takes each of these keys, and whose bay fails at a call of the last packet.
fn left_broken(rt: &impl Abort, alloc: Global, call: u64, keys: &[u64], last: &[u64]) -> Vec<u8>
    requires some { 0 < length last.now }
    requires few { length last.now ≤ 32 }
{
    let fault = ConeFault::BayFailed;
    let state = ConeState::BrokenByBay;
    let bay = broken(
        rt,
        alloc,
        failing(rt, alloc, call),
        keys,
        last,
        fault,
        state,
    );
    Vec::from_slice(alloc, bay.bytes(JOURNAL)).expect(rt, "memory")
}

// The gate behind the header of a journal whose first packet fails at a call.
fn gate_at(rt: &impl Abort, alloc: Global, call: u64) -> Option<u8> {
    let journal = left_broken(rt, alloc, call, &[], &[7, 7, 7]);
    assert!(rt; journal.starts_with(&JOURNAL_TEXT[..32]));
    journal.get(32).copied()
}

// A call of the first packet that fails, and the gate behind the header then.
const GATES: [(u64, u8); 4] = [(8, 0), (9, 0), (10, 0), (11, 1)];

#[test]
fn a_failed_call_breaks_the_cone(rt: HostRuntime) {
    for row in &GATES {
        let (call, gate) = *row;
        assert!(rt; gate_at(&rt, rt.alloc(), call) == Some(gate), "call {call}");
    }
}

#[test]
fn a_failed_flush_or_record_breaks_the_cone_and_leaves_the_packet(rt: HostRuntime) {
    let keys = sevens_at(&rt, rt.alloc(), 11, &[]);
    // Seven calls make the cone, and four append each packet. Behind them stand the two of the first flush, and then
    // the four that append its record.
    for call in 56..62 {
        let journal = left_broken(&rt, rt.alloc(), call, &keys, &[7]);
        assert!(rt; journal.len() == 33 + 12 * 22, "call {call}");
    }
}

// A cone takes these keys over a bay whose frames leave their format, and breaks.
fn check_garbled(rt: &impl Abort, alloc: Global, keys: &[u64]) {
    let bay = GarbledBay::new(empty_bay(rt, alloc));
    let fault = ConeFault::Unsound {
        file: FRAMES,
        at: 0,
    };
    let state = ConeState::BrokenByRead {
        file: FRAMES,
        at: 0,
    };
    let _bay = broken(rt, alloc, bay, keys, &[7], fault, state);
}

#[test]
fn a_frame_that_leaves_its_format_breaks_the_cone(rt: HostRuntime) {
    let keys = sevens_at(&rt, rt.alloc(), 15, &[]);
    check_garbled(&rt, rt.alloc(), &keys);
}

// The bay that a cone leaves which took these keys over frames that leave their format.
fn left_running(rt: &impl Abort, alloc: Global, keys: &[u64]) -> GarbledBay {
    let settings = small(rt, 32);
    let mut cone = created(rt, alloc, &settings, GarbledBay::new(empty_bay(rt, alloc)));
    give_all(rt, alloc, &settings, &mut cone, keys);
    cone.into_bay()
}

// The same of one that is ended, and breaks.
fn left_ended(rt: &impl Abort, alloc: Global, keys: &[u64]) -> GarbledBay {
    let settings = small(rt, 32);
    let mut cone = created(rt, alloc, &settings, GarbledBay::new(empty_bay(rt, alloc)));
    give_all(rt, alloc, &settings, &mut cone, keys);
    check_unsound(rt, &mut cone, keys.len() as u64);
    cone.into_bay()
}

// An end of the cone reads a frame that leaves its format at the file's first byte, and breaks it.
fn check_unsound(rt: &impl Abort, cone: &mut Cone<GarbledBay, PlainTable>, events: u64) {
    let (file, at) = (FRAMES, 0);
    check_end(rt, cone, Err(ConeFault::Unsound { file, at }));
    check_state(rt, cone, ConeState::BrokenByRead { file, at }, events);
    check_end(rt, cone, Err(ConeFault::Broken));
}

#[test]
fn an_end_over_a_frame_that_leaves_its_format_closes_nothing(rt: HostRuntime) {
    let keys = sevens_at(&rt, rt.alloc(), 12, &[2, 3, 12]);
    let running = left_running(&rt, rt.alloc(), &keys);
    let ended = left_ended(&rt, rt.alloc(), &keys);
    assert!(rt; ended.bytes(LOG) == running.bytes(LOG));
    assert!(rt; ended.bytes(JOURNAL) == running.bytes(JOURNAL));
}

// Why no cone is made over a bay with a call that fails, and the packet size of the room that comes back.
fn refused_at(rt: &impl Abort, alloc: Global, call: u64) -> (CreateFault, u64) {
    let settings = small(rt, 32);
    let (fault, packet, _bay) = refusal(rt, alloc, &settings, failing(rt, alloc, call));
    (fault, packet)
}

#[test]
fn a_cone_is_not_made_where_a_call_fails(rt: HostRuntime) {
    for call in 1..8 {
        let refused = refused_at(&rt, rt.alloc(), call);
        assert!(rt; refused == (CreateFault::Failed, 8), "call {call}");
    }
}
