//! Tests whether reports are timely, as the definition says it: for each key, all events and all reports are looked at.
//!
//! The time spent grows with the cube of the number of events, and for each event the reports are gone through. Nothing
//! here takes memory.

ghost use Rattle.std.specs.Prelude.{◌≡◌, ◌-◌, ◌*◌, ◌^◌, ◌<◌, ◌≤◌, ◌↔◌, ◌⊎◌, All, IsTrue, SomeIff, length, map};
ghost use Rattle.std.specs.List.{Any};
ghost use Rattle.std.specs.List.Sorted.{IsNonDecreasing};
ghost use Rattle.lert_spec.specs.Counts.{weighed, weight_in};
ghost use Rattle.lert_spec.specs.Timely.{IsOnTime, IsReportedOnTimeIn, IsNotYetDueIn, IsTimelyIn, IsTimelySoFarIn, times_listed};

use crate::counts::{first, reached_at, weight};
use lert_spec::{Item, Report};

/// How many reports name a key.
pub fn times_listed(key: u64, reports: &[Report]) -> usize
    ensures { result ≡ times_listed key reports.now }
{
    reports.iter().filter(|report| report.key == key).count()
}

// How late a report at `at` is, times the bins but one: none from 2^64 on.
fn lateness(bins: u64, reached_at: u64, at: u64) -> Option<u64>
    ensures { let late = (at - reached_at) * (bins - 1) in SomeIff result (late < 2 ^ 64) late }
{
    at.saturating_sub(reached_at)
        .checked_mul(bins.saturating_sub(1))
}

/// A report at `at` is neither early nor late, for a key that first occurs at `first_at` and is due from `reached_at` on.
pub fn is_on_time(bins: u64, first_at: u64, reached_at: u64, at: u64) -> bool
    ensures { IsTrue result ↔ IsOnTime bins first_at reached_at at }
{
    let own = reached_at.saturating_sub(first_at);
    reached_at <= at && lateness(bins, reached_at, at).is_some_and(|late| late <= own)
}

// A report of a key stands at a position that is on time, at most `last`.
fn is_listed_on_time(
    bins: u64,
    first_at: u64,
    reached_at: u64,
    last: u64,
    reports: &[Report],
    key: u64,
) -> bool
    ensures { IsTrue result ↔ Any (λ report.
        (report.key ≡ key) × (report.at ≤ last) × IsOnTime bins first_at reached_at report.at) reports.now }
{
    reports.iter().any(|report| {
        report.key == key && report.at <= last && is_on_time(bins, first_at, reached_at, report.at)
    })
}

/// A key stands in the reports exactly once, at some position that is on time.
pub fn is_reported_on_time(
    threshold: u64,
    bins: u64,
    events: &[Item],
    reports: &[Report],
    key: u64,
) -> bool
    requires few { length events.now ≤ 2 ^ 56 }
    ensures { IsTrue result ↔ IsReportedOnTimeIn weighed threshold bins events.now reports.now key }
{
    let Some(first_at) = first(key, events) else {
        return false;
    };
    let Some(reached_at) = reached_at(threshold, key, events) else {
        return false;
    };
    let last = events.len() as u64;
    times_listed(key, reports) == 1
        && is_listed_on_time(bins, first_at as u64, reached_at as u64, last, reports, key)
}

/// A key isn't in the reports, and needn't be there so far.
pub fn is_not_yet_due(
    threshold: u64,
    bins: u64,
    events: &[Item],
    reports: &[Report],
    key: u64,
) -> bool
    requires few { length events.now ≤ 2 ^ 56 }
    ensures { IsTrue result ↔ IsNotYetDueIn weighed threshold bins events.now reports.now key }
{
    let Some(first_at) = first(key, events) else {
        return false;
    };
    let Some(reached_at) = reached_at(threshold, key, events) else {
        return false;
    };
    let own = (reached_at as u64).saturating_sub(first_at as u64);
    let late = lateness(bins, reached_at as u64, events.len() as u64);
    times_listed(key, reports) == 0 && late.is_some_and(|late| late < own)
}

// The reports stand in the order of their positions.
fn are_in_order(reports: &[Report]) -> bool
    ensures { IsTrue result ↔ IsNonDecreasing (map (λ report. report.at) reports.now) }
{
    reports.is_sorted_by_key(|report| report.at)
}

// A key weighs at least `threshold`.
fn is_heavy(threshold: u64, events: &[Item], key: u64) -> bool
    requires few { length events.now ≤ 2 ^ 56 }
    ensures { IsTrue result ↔ (threshold ≤ weight_in weighed key events.now 0 (length events.now)) }
{
    threshold <= weight(key, events, 0, events.len())
}

// Each report names a key that weighs at least `threshold`.
fn are_heavy(threshold: u64, events: &[Item], reports: &[Report]) -> bool
    requires few { length events.now ≤ 2 ^ 56 }
    ensures { IsTrue result
        ↔ All (λ report. threshold ≤ weight_in weighed report.key events.now 0 (length events.now)) reports.now }
{
    reports
        .iter()
        .all(|report| is_heavy(threshold, events, report.key))
}

// Each key that weighs at least `threshold` is reported on time.
fn are_reported(threshold: u64, bins: u64, events: &[Item], reports: &[Report]) -> bool
    requires few { length events.now ≤ 2 ^ 56 }
    ensures { IsTrue result
        ↔ All (λ event. threshold ≤ weight_in weighed event.key events.now 0 (length events.now)
        → IsReportedOnTimeIn weighed threshold bins events.now reports.now event.key) events.now }
{
    events.iter().all(|event| {
        !is_heavy(threshold, events, event.key)
            || is_reported_on_time(threshold, bins, events, reports, event.key)
    })
}

// Each key that weighs at least `threshold` is reported on time, or isn't in the reports and not yet due.
fn are_reported_so_far(threshold: u64, bins: u64, events: &[Item], reports: &[Report]) -> bool
    requires few { length events.now ≤ 2 ^ 56 }
    ensures { IsTrue result
        ↔ All (λ event. threshold ≤ weight_in weighed event.key events.now 0 (length events.now)
        → IsReportedOnTimeIn weighed threshold bins events.now reports.now event.key
        ⊎ IsNotYetDueIn weighed threshold bins events.now reports.now event.key) events.now }
{
    events.iter().all(|event| {
        !is_heavy(threshold, events, event.key)
            || is_reported_on_time(threshold, bins, events, reports, event.key)
            || is_not_yet_due(threshold, bins, events, reports, event.key)
    })
}

/// The reports are timely for a cone's events.
pub fn is_timely(threshold: u64, bins: u64, events: &[Item], reports: &[Report]) -> bool
    requires some { 1 ≤ threshold }
    requires few { length events.now ≤ 2 ^ 56 }
    ensures { IsTrue result ↔ IsTimelyIn weighed threshold bins events.now reports.now }
{
    are_in_order(reports)
        && are_heavy(threshold, events, reports)
        && are_reported(threshold, bins, events, reports)
}

/// The reports are timely so far: for events of which more may come.
pub fn is_timely_so_far(threshold: u64, bins: u64, events: &[Item], reports: &[Report]) -> bool
    requires some { 1 ≤ threshold }
    requires few { length events.now ≤ 2 ^ 56 }
    ensures { IsTrue result ↔ IsTimelySoFarIn weighed threshold bins events.now reports.now }
{
    are_in_order(reports)
        && are_heavy(threshold, events, reports)
        && are_reported_so_far(threshold, bins, events, reports)
}
