//! Reports as their definitions say them: at each position the window that it looks back to is weighed for every key.
//!
//! The time spent grows with the square of the number of events, times that of the keys.

ghost use Rattle.std.specs.Prelude.{◌≡◌, ℕ, ◌+◌, ◌-◌, ◌<◌, ◌≤◌, ◌^◌, length, insert, [], IfOk, IfSome, MatchOption};
ghost use Rattle.lert_spec.specs.Counts.{weighed};
ghost use Rattle.lert_spec.specs.Edges.{capacity, lookback};
ghost use Rattle.lert_spec.specs.Limits.{IsValid};
ghost use Rattle.lert_spec.specs.Look.{insert_mixed, mixed_in, is_listed, is_due_in, with_due_in, look_of, closing_of};
ghost use Rattle.lert_spec.specs.Mix.{mix, folded, scaled};
ghost use Rattle.lert_spec.specs.Timely.{IsTimelyIn, IsTimelySoFarIn};

use crate::counts::weight;
use crate::edges::lookback;
use lert_spec::{Item, Numbers, Report};
use std::alloc::{AllocError, Global};

// The mixed value of a key.
pub(crate) fn mixed(key: u64) -> u64
    ensures { result ≡ mix key }
{
    let key = (key ^ (key >> 33)).wrapping_mul(0xff51_afd7_ed55_8ccd);
    let key = (key ^ (key >> 33)).wrapping_mul(0xc4ce_b9fe_1a85_ec53);
    key ^ (key >> 33)
}

// Where a key belongs among keys in the order of their mixed values, none where it is among them.
fn mixed_place(keys: &[u64], key: u64) -> Option<usize>
    ensures within { IfSome result (λ place. place ≤ length keys.now) }
    ensures value { MatchOption result
        (insert_mixed key keys.now ≡ keys.now)
        (λ place. insert_mixed key keys.now ≡ insert keys.now place key) }
{
    for (place, other) in keys.iter().enumerate() {
        if mixed(key) < mixed(*other) {
            return Some(place);
        }
        if key == *other {
            return None;
        }
    }
    Some(keys.len())
}

// The keys that occur, each once, in the order of their mixed values.
fn mixed_order(alloc: Global, events: &[Item]) -> Result<Vec<u64>, AllocError>
    ensures { IfOk result (λ keys. keys.items ≡ mixed_in weighed events.now) }
{
    let mut keys = Vec::new(alloc);
    let mut left = events.len();
    while left > 0 {
        left -= 1;
        if let Some(place) = mixed_place(&keys, events[left].key) {
            keys.insert(place, events[left].key)?;
        }
    }
    Ok(keys)
}

// A key is among those reported.
fn is_listed(key: u64, reports: &[Report]) -> bool
    ensures { result ≡ is_listed key reports.now }
{
    reports.iter().any(|report| report.key == key)
}

// A key isn't reported, and weighs enough in a window.
fn is_due(
    threshold: u64,
    events: &[Item],
    from: usize,
    to: usize,
    reports: &[Report],
    key: u64,
) -> bool
    requires few { length events.now ≤ 2 ^ 56 }
    requires order { from ≤ to }
    requires within { to ≤ length events.now }
    ensures { result ≡ is_due_in weighed threshold events.now from to reports.now key }
{
    threshold <= weight(key, events, from, to) && !is_listed(key, reports)
}

// Puts a report behind the others for each key that isn't reported and weighs enough in a window.
fn add_due(
    reports: &mut Vec<Report>,
    keys: &[u64],
    threshold: u64,
    events: &[Item],
    from: usize,
    to: usize,
) -> Result<(), AllocError>
    requires keys { keys.now ≡ mixed_in weighed events.now }
    requires few { length events.now ≤ 2 ^ 56 }
    requires order { from ≤ to }
    requires within { to ≤ length events.now }
    ensures { IfOk result (λ _. reports.new.items ≡ with_due_in weighed threshold events.now from to reports.old.items) }
{
    let before = reports.len();
    for key in keys {
        if is_due(threshold, events, from, to, &reports[..before], *key) {
            reports.push(Report {
                key: *key,
                at: to as u64,
            })?;
        }
    }
    Ok(())
}

// Puts the reports of each position one behind the other, where none was made before.
fn add_each(
    reports: &mut Vec<Report>,
    keys: &[u64],
    s: &Numbers,
    events: &[Item],
) -> Result<(), AllocError>
    requires none { reports.old.items ≡ [] }
    requires keys { keys.now ≡ mixed_in weighed events.now }
    requires few { length events.now ≤ 2 ^ 56 }
    requires valid { IsValid s.now }
    ensures { IfOk result (λ _. reports.new.items ≡ look_of weighed s.now events.now) }
{
    for m in 1..events.len() + 1 {
        let from = lookback(s, m as u64) as usize;
        add_due(reports, keys, s.threshold, events, from, m)?;
    }
    Ok(())
}

/// The reports that are made of a cone's events while they come: every key whose bound has passed is among them.
pub fn look(alloc: Global, s: &Numbers, events: &[Item]) -> Result<Vec<Report>, AllocError>
    requires valid { IsValid s.now }
    requires fits { length events.now ≤ capacity s.now }
    ensures value { IfOk result (λ reports. reports.items ≡ look_of weighed s.now events.now) }
    ensures in_time { IfOk result (λ reports.
        IsTimelySoFarIn weighed s.now.threshold s.now.bins events.now reports.items) }
{
    let keys = mixed_order(alloc, events)?;
    let mut reports = Vec::new(alloc);
    add_each(&mut reports, &keys, s, events)?;
    Ok(reports)
}

/// The reports of a closed cone: the keys that reach the threshold, each once and in time.
pub fn closing(alloc: Global, s: &Numbers, events: &[Item]) -> Result<Vec<Report>, AllocError>
    requires valid { IsValid s.now }
    requires fits { length events.now ≤ capacity s.now }
    ensures value { IfOk result (λ reports. reports.items ≡ closing_of weighed s.now events.now) }
    ensures in_time { IfOk result (λ reports.
        IsTimelyIn weighed s.now.threshold s.now.bins events.now reports.items) }
{
    let keys = mixed_order(alloc, events)?;
    let mut reports = look(alloc, s, events)?;
    add_due(&mut reports, &keys, s.threshold, events, 0, events.len())?;
    Ok(reports)
}
