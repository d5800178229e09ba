//! The printed text as its definition says it.

ghost use Rattle.std.specs.Prelude.{◌≡◌, ◌++◌, if◌then◌else◌, codes, ◌<◌, ◌^◌, length, sum_by, IfOk};
ghost use Rattle.std.specs.String.{string_bytes};
ghost use Rattle.lert_spec.specs.Lines.{cone_line, report_line, total_line, cone_text, cone_texts, lines, Printed};

use lert_spec::Report;
use std::alloc::{AllocError, Global};
use std::marker::Model;

/// What is printed of a cone.
#[derive(Debug, Drop)]
pub struct Printed {
    /// How many events the cone has.
    pub events: u64,
    /// Its reports, in their order.
    pub reports: Vec<Report>,
    /// Whether it is closed.
    pub closed: bool,
}

impl Model for Printed {
    ghost Value = { Printed };

    ghost view = { λ cone. record { events = cone.events; reports = cone.reports.items; closed = cone.closed } };
}

// How the line of a cone ends.
fn ending(closed: bool) -> &'static str
    ensures { result.now ≡ (if closed then codes " closed\n" else codes " open\n") }
{
    if closed { " closed\n" } else { " open\n" }
}

// The line of a cone.
fn cone_line(
    alloc: Global,
    cone: usize,
    events: u64,
    reports: usize,
    closed: bool,
) -> Result<String, AllocError>
    ensures { IfOk result (λ line. string_bytes line ≡ cone_line cone events reports closed) }
{
    let end = ending(closed);
    format!(in alloc; "cone {cone} events {events} reports {reports}{end}")
}

// The line of a report.
fn report_line(alloc: Global, report: &Report) -> Result<String, AllocError>
    ensures { IfOk result (λ line. string_bytes line ≡ report_line report.now) }
{
    let key = report.key;
    let at = report.at;
    format!(in alloc; "{key} {at}\n")
}

// The line of totals.
fn total_line(alloc: Global, events: u64, reports: u64) -> Result<String, AllocError>
    ensures { IfOk result (λ line. string_bytes line ≡ total_line events reports) }
{
    format!(in alloc; "total events {events} reports {reports}\n")
}

// A cone's line, and a line for each of its reports.
fn cone_text(alloc: Global, cone: usize, printed: &Printed) -> Result<String, AllocError>
    ensures { IfOk result (λ text. string_bytes text ≡ cone_text cone printed.now) }
{
    let reports = &printed.reports;
    let mut text = cone_line(alloc, cone, printed.events, reports.len(), printed.closed)?;
    for report in reports {
        text.push_str(&report_line(alloc, report)?)?;
    }
    Ok(text)
}

// Puts the text of a cone behind a text.
fn push_cone(
    alloc: Global,
    text: &mut String,
    cone: usize,
    printed: &Printed,
) -> Result<(), AllocError>
    ensures { IfOk result (λ _. string_bytes text.new ≡ string_bytes text.old ++ cone_text cone printed.now) }
{
    let more = cone_text(alloc, cone, printed)?;
    text.push_str(&more)
}

// The texts of cones in ascending order, from number 0 on.
fn cone_texts(alloc: Global, cones: &[Printed]) -> Result<String, AllocError>
    ensures { IfOk result (λ text. string_bytes text ≡ cone_texts 0 cones.now) }
{
    let mut text = String::new(alloc);
    for (number, cone) in cones.iter().enumerate() {
        push_cone(alloc, &mut text, number, cone)?;
    }
    Ok(text)
}

/// The whole text: each cone in ascending order, from number 0 on, and the line of totals. Its only error is want of
/// memory.
pub fn lines(alloc: Global, cones: &[Printed]) -> Result<String, AllocError>
    requires events { sum_by (λ cone. cone.events) cones.now < 2 ^ 64 }
    requires reports { sum_by (λ cone. length cone.reports) cones.now < 2 ^ 64 }
    ensures { IfOk result (λ text. string_bytes text ≡ lines cones.now) }
{
    let events = cones.iter().map(|cone| cone.events).sum();
    let reports = cones.iter().map(|cone| cone.reports.len() as u64).sum();
    let mut text = cone_texts(alloc, cones)?;
    text.push_str(&total_line(alloc, events, reports)?)?;
    Ok(text)
}
