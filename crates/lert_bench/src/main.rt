//! Loops over the parts of a run, which `bench/filter`, `bench/routing`, `bench/merge` and `bench/frames` time. Words: one of
//! `filter WORKLOAD KEYS EVENTS SEED`, `route CONE_BITS KEYS SEED`, `merge STREAMS PIECES SEED` and
//! `frame KIND DIR PIECES SEED`, or `all DIR` for a small task of each. It prints a line of sums, and on standard error the
//! nanoseconds that it took. The loops are proved safe, a bin to count, streams to be sorted, and what is put into a frame to
//! be what a writer asks for; that the sums are right is seen beside plain programs.
#![tactic(auto)]

mod bin;
mod checksum;
mod drawn;
mod filter;
mod frame;
mod framing;
mod keys;
mod merge;
mod random;
mod route;
mod sorted;
mod task;
mod timed;
mod trace;
mod window;
mod words;
mod workload;

use crate::task::{Task, small_tasks};
use crate::words::{read_task, read_words};
use anyhow::{Context, Result};
use std::fs::File;
use std::rt::{Clock, Files};

/// Runs a task, and prints what came of it.
fn show<R: Clock + Files<File = File> + Print + Eprint + AllocGlobal>(
    rt: &R,
    task: Task,
) -> Result<()> {
    let timed = task.run(rt)?;
    rt.println(timed.sums)?;
    rt.eprintln(timed.times)?;
    Ok(())
}

fn show_all<R: Clock + Files<File = File> + Print + Eprint + AllocGlobal>(
    rt: &R,
    dir: &str,
) -> Result<()> {
    for task in &small_tasks(dir) {
        show(rt, *task)?;
    }
    Ok(())
}

/// Runs what the words ask for, of which the first is the program's name.
fn run<R: Clock + Files<File = File> + Print + Eprint + AllocGlobal>(
    rt: &R,
    words: &[String],
) -> Result<()> {
    match words {
        [_, first, dir] if first.as_str() == "all" => show_all(rt, dir.as_str()),
        _ => show(rt, read_task(words).context("no such words")?),
    }
}

fn main(rt: HostRuntime) -> Result<()> {
    let words = read_words(&rt)?;
    run(&rt, &words)
}
