//! The bytes of a cone's files, and on which files it is made.

ghost use Rattle.std.specs.Prelude.{◌≡◌, ◌<◌};

use crate::cones::{
    check_end, check_given, check_listed, check_state, created, empty_bay, refusal, small,
    with_file,
};
use lert_base::{Report, Settings};
use lert_bay::{Bay, FRAMES, JOURNAL, LOG, MemBay};
use lert_cone::{Acked, Cone, ConeFault, ConeState, CreateFault, is_fresh};
use lert_plain::PlainTable;
use std::alloc::Global;
use std::process::Abort;

// The journal of one packet of three keys 7.
pub const JOURNAL_TEXT: [u8; 73] =
    *b"LERTJ\x02\0\0\x03\0\0\0\x20\0\0\0\x04\0\0\0\x08\0\0\0\x03\x02\x02\0\0\0\0\0\x01\x23\0\0\0\0\0\0\0\0\0\0\0\x07\0\0\0\0\0\0\0\x01\x07\0\0\0\0\0\0\0\x01\x07\0\0\0\0\0\0\0\x01\0";

// The log that they leave: the closing record after three events, which names no frame, and one report.
const LOG_TEXT: [u8; 61] =
    *b"LERTL\x01\0\0\x01\x2f\0\0\0\x02\x03\0\0\0\0\0\0\0\x20\0\0\0\0\0\0\0\x01\0\0\0\0\0\0\0\0\0\x01\0\0\0\x07\0\0\0\0\0\0\0\x03\0\0\0\0\0\0\0\0";

// A cone over an empty bay takes three keys, and ends. Answers the bay that it leaves.
fn ended(rt: &impl Abort, alloc: Global) -> MemBay {
    let settings = small(rt, 32);
    let mut cone = created(rt, alloc, &settings, empty_bay(rt, alloc));
    check_ended(rt, alloc, &settings, &mut cone);
    cone.into_bay()
}

fn check_ended<B: Bay>(
    rt: &impl Abort,
    alloc: Global,
    settings: &Settings,
    cone: &mut Cone<B, PlainTable>,
)
    requires eight { settings.now.packet ≡ 8 }
    requires settings { cone.old.listing.settings ≡ settings.now }
    requires cone { cone.old.listing.cone ≡ 0 }
{
    let acked = Acked {
        from: 1,
        to: 3,
        reports: 1,
    };
    check_given(rt, alloc, settings, cone, &[7, 7, 7], Ok(acked));
    check_state(rt, cone, ConeState::Running, 3);
    check_end(rt, cone, Ok(1));
    check_end(rt, cone, Err(ConeFault::Closed));
    check_given(
        rt,
        alloc,
        settings,
        cone,
        &[7, 7, 7],
        Err(ConeFault::Closed),
    );
    check_state(rt, cone, ConeState::Finished, 3);
    check_listed(rt, cone, &[Report { key: 7, at: 3 }]);
}

// Whether a bay has these files.
fn has_files(bay: &MemBay, journal: &[u8], log: &[u8], frames: &[u8]) -> bool {
    bay.bytes(JOURNAL) == journal && bay.bytes(LOG) == log && bay.bytes(FRAMES) == frames
}

#[test]
fn three_keys_leave_their_files(rt: HostRuntime) {
    let bay = ended(&rt, rt.alloc());
    assert!(rt; has_files(&bay, &JOURNAL_TEXT, &LOG_TEXT, &[]));
}

// A bay of which one file has a byte.
fn with_a_byte(rt: &impl Abort, alloc: Global, file: u8) -> MemBay
    requires { file < 3 }
{
    let mut bay = with_file(rt, alloc, file, b"x");
    assert!(rt; is_fresh(&mut bay) == Ok(false));
    bay
}

// What it has of a file.
fn left_of(file: u8, other: u8) -> &'static [u8] {
    if other == file { b"x" } else { b"" }
}

// No cone is made over such a bay, whose files are left.
fn check_refused(rt: &impl Abort, alloc: Global, file: u8)
    requires { file < 3 }
{
    let settings = small(rt, 32);
    let (fault, _packet, bay) = refusal(rt, alloc, &settings, with_a_byte(rt, alloc, file));
    assert!(rt; fault == CreateFault::NotFresh);
    let left = [
        left_of(file, JOURNAL),
        left_of(file, LOG),
        left_of(file, FRAMES),
    ];
    assert!(rt; has_files(&bay, left[0], left[1], left[2]));
}

#[test]
fn a_cone_is_made_on_empty_files(rt: HostRuntime) {
    check_refused(&rt, rt.alloc(), JOURNAL);
    check_refused(&rt, rt.alloc(), LOG);
    check_refused(&rt, rt.alloc(), FRAMES);
}
