//! Landings, and the steps that they take.

ghost use Rattle.std.specs.Prelude.{◌≡◌, ◌≤◌, All};
ghost use Rattle.lert_spec.specs.Edges.{span};
ghost use Rattle.lert_streams_tests.specs.Ready.{IsReady};

use crate::bins::{WIDE, settings_of};
use crate::steps::{Step, may_come};
use lert_base::Settings;
use lert_bay::MemBay;
use lert_io::Failed;
use lert_levels::landing::{Landing, add_to, end_all};
use std::alloc::Global;
use std::process::Abort;

/// The events of the narrower bin.
pub const EVENTS: u64 = 16_384;

// A landing of a level at this frame.
fn landing_of(
    rt: &impl Abort,
    alloc: Global,
    settings: &Settings,
    level: u32,
    frame: u32,
) -> Landing
    requires settings { settings.now ≡ WIDE }
    requires first { 1 ≤ level }
    requires last { level ≤ 2 }
    requires frame { frame ≤ 3 }
    requires wide { EVENTS ≤ span WIDE level }
    ensures { IsReady 0 EVENTS result }
{
    let mut landing = Landing::new(alloc, settings, level).expect(rt, "memory");
    landing.start(1, frame);
    landing
}

/// A landing of level 1 at frame 1.
pub fn one(rt: &impl Abort, alloc: Global) -> [Landing; 1]
    ensures { All (IsReady 0 EVENTS) result }
{
    [landing_of(rt, alloc, &settings_of(rt, WIDE), 1, 1)]
}

/// Landings of levels 1 and 2 at frames 1 and 3.
pub fn both(rt: &impl Abort, alloc: Global) -> [Landing; 2]
    ensures { All (IsReady 0 EVENTS) result }
{
    let settings = settings_of(rt, WIDE);
    [
        landing_of(rt, alloc, &settings, 1, 1),
        landing_of(rt, alloc, &settings, 2, 3),
    ]
}

/// Takes the steps, and ends all landings.
pub fn land(
    rt: &impl Abort,
    landings: &mut [Landing],
    bay: &mut MemBay,
    steps: &[Step],
) -> Result<(), Failed>
    requires { All (IsReady 0 EVENTS) landings.old }
{
    let mut last = 0;
    let mut left = EVENTS;
    for step in steps {
        if !may_come(step, landings.len(), last, left) {
            panic!(rt; "a step that may not come");
        }
        add_to(landings, step.part, bay, step.piece)?;
        last = step.piece.tail;
        left -= step.piece.count;
    }
    end_all(landings, bay)
}
