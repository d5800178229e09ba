//! Workers for all numbers of a fleet, and the pass of all of them.

ghost use Rattle.std.specs.Prelude.{◌≡◌, ◌+◌, ◌<◌, ◌≤◌, length, IfErr, IfOk, OnErr, OnOk};
ghost use Rattle.lert_fleet.specs.Cones.{IsPassOf};
ghost use Rattle.lert_worker.specs.crew.Passes.{AllQuiet, AllShow, AreDone, AreHired, AreInLine, AreLeaving, Brought, EachShows, IsHired, IsPassFrom, IsQuiet, Shows, Turned};

use crate::parts::Worker;
use lert_base::{ConeFault, Held, Settings};
use lert_fleet::{Fleet, FleetPass};
use lert_io::{OutOfMemory, Source};
use std::alloc::Global;

/// A worker for each number of a pass of all of them, 1 to 64, of which the first has the greatest number. A refusal is want of
/// memory, and hands the pass back, with no call made.
pub fn make_crew<S: Source, H: Held<Refusal = ConeFault>>(
    alloc: Global,
    settings: &Settings,
    fleet: &Fleet<H>,
    mut pass: FleetPass<H>,
    workers: u32,
) -> Result<Vec<Worker<S, H>>, FleetPass<H>>
    requires some { 1 ≤ workers }
    requires most { workers ≤ 64 }
    requires pass { IsPassFrom fleet.now 0 workers pass }
    requires quiet { IsQuiet pass }
    ensures number { IfOk result (λ crew. length crew.items ≡ workers) }
    ensures hired { IfOk result (λ crew. AreHired fleet.now settings.now workers crew.items) }
    ensures pass { IfErr result (λ back. IsPassFrom fleet.now 0 workers back) }
    ensures quiet { IfErr result (λ back. IsQuiet back) }
{
    let Ok(mut crew) = Vec::with_capacity(alloc, workers as usize) else {
        return Err(pass);
    };
    for number in (1..workers).rev() {
        match hire(alloc, settings, fleet, &mut pass, number) {
            Ok(worker) => crew.push_reserved(worker),
            Err(OutOfMemory) => return Err(dismiss(fleet, pass, crew)),
        }
    }
    match Worker::new(alloc, 0, settings, pass) {
        Ok(worker) => {
            crew.push_reserved(worker);
            Ok(crew)
        }
        Err(pass) => Err(dismiss(fleet, pass, crew)),
    }
}

// A worker for the last number of a pass, which keeps those below. A refusal is want of memory, and leaves the pass with all its
// numbers.
fn hire<S: Source, H: Held<Refusal = ConeFault>>(
    alloc: Global,
    settings: &Settings,
    fleet: &Fleet<H>,
    pass: &mut FleetPass<H>,
    number: u32,
) -> Result<Worker<S, H>, OutOfMemory>
    requires some { 1 ≤ number }
    requires pass { IsPassFrom fleet.now 0 (number + 1) pass.old }
    requires quiet { IsQuiet pass.old }
    ensures hired { IfOk result (λ worker. IsHired fleet.now settings.now number worker) }
    ensures pass { OnOk result (IsPassFrom fleet.now 0 number pass.new) }
    ensures back { OnErr result (IsPassFrom fleet.now 0 (number + 1) pass.new) }
    ensures quiet { IsQuiet pass.new }
{
    let other = fleet.split(pass, number)?;
    match Worker::new(alloc, number, settings, other) {
        Ok(worker) => Ok(worker),
        Err(other) => {
            fleet.join(pass, other);
            Err(OutOfMemory)
        }
    }
}

/// Puts the passes of workers without traces behind a pass: the last of them has the number behind the pass, and each the number
/// behind that of the next one. Takes no memory.
pub fn dismiss<S: Source, H: Held<Refusal = ConeFault>>(
    fleet: &Fleet<H>,
    mut pass: FleetPass<H>,
    mut crew: Vec<Worker<S, H>>,
) -> FleetPass<H>
    requires belongs { IsPassOf pass fleet.now }
    requires leaving { AreLeaving fleet.now (pass.hi + length crew.items) crew.items }
    ensures pass { IsPassFrom fleet.now pass.lo (pass.hi + length crew.items) result }
    ensures quiet { IsQuiet pass → AllQuiet crew.items → IsQuiet result }
    ensures shows { (brought : Brought) (turned : Turned) → Shows brought turned pass.lo pass.hi pass →
        AllShow brought turned (pass.hi + length crew.items) crew.items →
        Shows brought turned pass.lo (pass.hi + length crew.items) result }
{
    while let Some(worker) = crew.pop() {
        fleet.join(&mut pass, worker.into_pass());
    }
    crew.destroy_empty();
    pass
}

/// Puts the passes of workers without traces together, in the order of their numbers. Takes no memory.
pub fn dismiss_all<S: Source, H: Held<Refusal = ConeFault>>(
    fleet: &Fleet<H>,
    mut crew: Vec<Worker<S, H>>,
) -> FleetPass<H>
    requires some { 1 ≤ length crew.items }
    requires done { AreDone fleet.now crew.items }
    ensures pass { IsPassFrom fleet.now 0 (length crew.items) result }
    ensures quiet { AllQuiet crew.items → IsQuiet result }
    ensures shows { (brought : Brought) (turned : Turned) → EachShows brought turned crew.items →
        Shows brought turned 0 (length crew.items) result }
{
    crew.reverse();
    let Some(first) = crew.pop() else {
        unreachable!()
    };
    dismiss(fleet, first.into_pass(), crew)
}

/// The workers of `make_crew` in the order of their numbers.
pub fn line_up<S: Source, H: Held<Refusal = ConeFault>>(
    fleet: &Fleet<H>,
    settings: &Settings,
    mut crew: Vec<Worker<S, H>>,
) -> Vec<Worker<S, H>>
    requires { AreHired fleet.now settings.now (length crew.items) crew.items }
    ensures number { length result.items ≡ length crew.items }
    ensures in_line { AreInLine fleet.now settings.now result.items }
{
    crew.reverse();
    crew
}
