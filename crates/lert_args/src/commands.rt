//! The line of each command.

ghost use Rattle.std.specs.Prelude.{◌≡◌, ℕ, ◌≤◌, drop, length, map, Some, None, option_and_then, IfOk, IfErr, MatchResult};
ghost use Rattle.lert_args.specs.Answered.{IsAnswered};
ghost use Rattle.lert_args.specs.Command.{drill_options, drill_said, gen_options, gen_said, run_options, run_said, recover_said, setting_options, workers_broken};
ghost use Rattle.lert_args.specs.Said.{spelt};
ghost use Rattle.lert_spec.specs.Limits.{first_broken};

use crate::by_clap::read_given;
use crate::line::{Line, LineFault, Places};
use lert_base::{Numbers, Settings, Words};
use std::alloc::Global;

/// The words spell no line.
pub const NO_LINE: LineFault = LineFault::Usage { rule: 0 };

// How many events a command of generated keys takes at most: those of `gen`, and those of `drill`.
const GEN_EVENTS: u64 = 4_294_967_296;

const DRILL_EVENTS: u64 = 4_194_304;

// The options of the settings, and those of the other commands, by their names without the hyphens.
const SETTINGS: [&str; 8] = [
    "threshold",
    "bins",
    "ratio",
    "base",
    "levels",
    "cone-bits",
    "room",
    "packet",
];

const RUN: [&str; 9] = [
    "threshold",
    "bins",
    "ratio",
    "base",
    "levels",
    "cone-bits",
    "room",
    "packet",
    "workers",
];

const GEN: [&str; 2] = ["seed", "events"];

const DRILL: [&str; 11] = [
    "threshold",
    "bins",
    "ratio",
    "base",
    "levels",
    "cone-bits",
    "room",
    "packet",
    "workers",
    "seed",
    "events",
];

/// Reads the line of a run from the words behind the first one.
pub fn read_run(alloc: Global, words: &Words) -> Result<Line, LineFault>
    requires some { 1 ≤ length words.now }
    ensures { IsAnswered result (option_and_then run_said (spelt run_options (drop 1 words.now))) }
{
    let given = read_given(alloc, &RUN, words)?;
    let numbers = given.numbers(&RUN);
    let workers = given.value_or(&RUN, "workers", 4);
    let mut names = given.names;
    if names.len() < 2 {
        return Err(NO_LINE);
    }
    let dir = names.remove(0);
    run_of(numbers, workers, dir, Places::new(names))
}

/// Reads the line of a recovery.
pub fn read_recover(alloc: Global, words: &Words) -> Result<Line, LineFault>
    requires some { 1 ≤ length words.now }
    ensures { IsAnswered result (option_and_then recover_said (spelt setting_options (drop 1 words.now))) }
{
    let given = read_given(alloc, &SETTINGS, words)?;
    match given.names.as_slice() {
        [dir] => recover_of(given.numbers(&SETTINGS), *dir),
        _ => Err(NO_LINE),
    }
}

/// Reads the line of generated keys.
pub fn read_gen(alloc: Global, words: &Words) -> Result<Line, LineFault>
    requires some { 1 ≤ length words.now }
    ensures { IsAnswered result (option_and_then gen_said (spelt gen_options (drop 1 words.now))) }
{
    let given = read_given(alloc, &GEN, words)?;
    if !given.names.is_empty() {
        return Err(NO_LINE);
    }
    gen_of(
        given.value_or(&GEN, "seed", 1),
        given.value_or(&GEN, "events", 1_000),
    )
}

/// Reads the line of a drill.
pub fn read_drill(alloc: Global, words: &Words) -> Result<Line, LineFault>
    requires some { 1 ≤ length words.now }
    ensures { IsAnswered result (option_and_then drill_said (spelt drill_options (drop 1 words.now))) }
{
    let given = read_given(alloc, &DRILL, words)?;
    if !given.names.is_empty() {
        return Err(NO_LINE);
    }
    let workers = given.value_or(&DRILL, "workers", 4);
    let seed = given.value_or(&DRILL, "seed", 1);
    let events = given.value_or(&DRILL, "events", 1_000);
    drill_of(given.numbers(&DRILL), workers, seed, events)
}

// The line of a run, or the first rule that it breaks.
fn run_of(numbers: Numbers, workers: u64, dir: usize, traces: Places) -> Result<Line, LineFault>
    ensures { IsAnswered result (Some (Line.Run numbers workers dir traces)) }
{
    let settings = settings_of(numbers)?;
    let workers = workers_of(workers)?;
    if traces.as_slice().len() > 1_024 {
        return Err(LineFault::Usage { rule: 13 });
    }
    Ok(Line::Run {
        settings,
        workers,
        dir,
        traces,
    })
}

// The line of a recovery, or the first rule that it breaks.
fn recover_of(numbers: Numbers, dir: usize) -> Result<Line, LineFault>
    ensures { IsAnswered result (Some (Line.Recover numbers dir)) }
{
    let settings = settings_of(numbers)?;
    Ok(Line::Recover { settings, dir })
}

// The line of generated keys, or the rule that it breaks.
fn gen_of(seed: u64, events: u64) -> Result<Line, LineFault>
    ensures { IsAnswered result (Some (Line.Gen seed events)) }
{
    if events > GEN_EVENTS {
        return Err(LineFault::Usage { rule: 14 });
    }
    Ok(Line::Gen { seed, events })
}

// The line of a drill, or the first rule that it breaks.
fn drill_of(numbers: Numbers, workers: u64, seed: u64, events: u64) -> Result<Line, LineFault>
    ensures { IsAnswered result (Some (Line.Drill numbers workers seed events)) }
{
    let settings = settings_of(numbers)?;
    let workers = workers_of(workers)?;
    if events > DRILL_EVENTS {
        return Err(LineFault::Usage { rule: 14 });
    }
    Ok(Line::Drill {
        settings,
        workers,
        seed,
        events,
    })
}

// The settings of these numbers.
fn settings_of(numbers: Numbers) -> Result<Settings, LineFault>
    ensures { MatchResult result
        (λ settings. (first_broken numbers ≡ None) × (settings ≡ numbers))
        (λ fault. (rule : ℕ) → fault ≡ LineFault.Usage rule → first_broken numbers ≡ Some rule) }
{
    match Settings::new(numbers) {
        Ok(settings) => Ok(settings),
        Err(bad) => Err(LineFault::Usage { rule: bad.rule }),
    }
}

// So many workers, where there may be.
fn workers_of(workers: u64) -> Result<u32, LineFault>
    ensures { MatchResult result
        (λ number. (workers_broken workers ≡ None) × (number ≡ workers))
        (λ fault. (rule : ℕ) → fault ≡ LineFault.Usage rule → workers_broken workers ≡ Some rule) }
{
    if workers < 1 || workers > 64 {
        return Err(LineFault::Usage { rule: 12 });
    }
    Ok(workers as u32)
}
