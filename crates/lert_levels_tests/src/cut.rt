//! What a flush does where a frame that it reads is cut at the file's end.

ghost use Rattle.lert_levels_tests.specs.Samples.{IsReady};

use crate::levels::{directories, flush};
use crate::samples::{Place, begun};
use lert_bay::{Bay, FRAMES, MemBay};
use lert_levels::{FlushFault, Levels, Zero};
use lert_plain::PlainTable;
use std::alloc::Global;
use std::process::Abort;

// Whether a flush tells the file's end as the place where the frame that it reads is cut, and leaves all bytes as they
// were.
fn is_told(
    rt: &impl Abort,
    alloc: Global,
    zero: &mut Zero<PlainTable>,
    levels: &mut Levels<PlainTable>,
    bay: &mut MemBay,
) -> bool
    requires { IsReady 12 zero.old levels.old }
{
    let _first = directories(rt, alloc, zero, levels, bay, 1);
    let cut = bay.bytes(FRAMES).len().saturating_sub(1);
    let bytes = Vec::from_slice(alloc, &bay.bytes(FRAMES)[..cut]).expect(rt, "memory");
    bay.load(FRAMES, &bytes).expect(rt, "memory");
    let fault = flush(alloc, zero, levels, bay, 1).err();
    let end = Some(FlushFault::Malformed { at: cut as u64 });
    fault == end && bay.bytes(FRAMES) == bytes.as_slice()
}

// The second flush reads frame 0, at the file's end, and would write frame 1 behind it.
#[test]
fn a_cut_frame_is_found_before_a_bin_lands_behind_it(rt: HostRuntime) {
    let mut place = begun(&rt, rt.alloc());
    let Place { zero, levels, bay } = &mut place;
    assert!(rt; is_told(&rt, rt.alloc(), zero, levels, bay));
    drop(place);
}
