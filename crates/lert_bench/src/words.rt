//! The words that the program was called with.

use crate::drawn::Kind;
use crate::keys::Keys;
use crate::task::{Task, What};
use crate::workload::Workload;
use anyhow::Result;
use std::env;

/// The program's name and the words after it.
pub fn read_words<R: env::Env + AllocGlobal>(rt: &R) -> Result<Vec<String>> {
    let mut words = Vec::new(rt.alloc());
    for word in env::args(rt)? {
        words.push(word)?;
    }
    Ok(words)
}

/// The task that words ask for, of which the first is the program's name.
pub fn read_task(words: &[String]) -> Option<Task> {
    let [_, first, rest @ .., size, seed] = words else {
        return None;
    };
    Some(Task {
        what: read_what(first.as_str(), rest)?,
        size: size.as_str().parse::<u32>().ok()?,
        seed: seed.as_str().parse::<u64>().ok()?,
    })
}

fn read_what<'a>(first: &str, rest: &'a [String]) -> Option<What<'a>> {
    match first {
        "filter" => read_filter(rest),
        "route" => Some(What::Route(read_number(rest)?)),
        "merge" => Some(What::Merge(read_number(rest)?)),
        "frame" => read_frame(rest),
        _ => None,
    }
}

fn read_number(words: &[String]) -> Option<u16> {
    let [number] = words else {
        return None;
    };
    number.as_str().parse::<u16>().ok()
}

fn read_filter(words: &[String]) -> Option<What> {
    let [workload, keys] = words else {
        return None;
    };
    let workload = Workload::named(workload.as_str())?;
    let keys = Keys::named(keys.as_str())?;
    Some(What::Filter(workload, keys))
}

fn read_frame(words: &[String]) -> Option<What> {
    let [kind, dir] = words else {
        return None;
    };
    Some(What::Frame(Kind::named(kind.as_str())?, dir.as_str()))
}
