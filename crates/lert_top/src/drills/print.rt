//! The text of a drill: a line for each cone, and the totals.

ghost use Rattle.std.specs.Prelude.{◌≡◌, ◌≤◌, ◌++◌, ℕ, List, [], false, length, map, Some, OnOk, OnErr};
ghost use Rattle.lert_cone.specs.Stands.{is_broken};
ghost use Rattle.lert_top.specs.drills.Print.{drilled_as, keys_of};
ghost use Rattle.lert_io.specs.Fault.{HasCause};
ghost use Rattle.lert_top.specs.cones.Print.{ArePrintable};
ghost use Rattle.lert_text.specs.Drill.{drill_lines, exclusive_or as xor_of};
ghost use Rattle.lert_text.specs.Page.{IsCut};

use lert_base::{Report, Settings};
use lert_bay::Bay;
use lert_cone::Cone;
use lert_cqf::Cqf;
use lert_io::{Failed, Sink};
use lert_text::{Page, print_drill_cone, print_total};

/// Prints all cones, in ascending order, and the totals, and writes what the page still holds.
pub fn print_drill<B: Bay, K: Sink>(
    page: &mut Page,
    out: &mut K,
    settings: &Settings,
    cones: &[Cone<B, Cqf>],
) -> Result<(), Failed>
    requires empty { page.old ≡ [] }
    requires few { length cones.now ≤ 256 }
    requires printable { ArePrintable settings.now cones.now }
    ensures ok { (text : List ℕ) → K.taken out.old ≡ Some text → OnOk result (K.taken out.new ≡ Some (text ++ drill_lines (map drilled_as cones.now))) }
    ensures cut { OnErr result (IsCut (K.taken out.old) (K.taken out.new) (drill_lines (map drilled_as cones.now))) }
    ensures cause { HasCause (K.faults out.old) (K.faults out.new) result }
{
    let mut events = 0;
    let mut reports = 0;
    for number in 0..cones.len() {
        let cone = &cones[number];
        let (events_here, reports_here, keys) = summary_of(settings, cone);
        print_drill_cone(page, out, number as u32, events_here, reports_here, keys)?;
        events += events_here;
        reports += reports_here;
    }
    print_total(page, out, events, reports)
}

// How many events and reports a cone has, and the exclusive or of the reported keys.
fn summary_of<B: Bay>(settings: &Settings, cone: &Cone<B, Cqf>) -> (u64, u64, u64)
    requires settings { cone.now.listing.settings ≡ settings.now }
    requires whole { is_broken cone.now.state ≡ false }
    ensures events { result.0 ≡ cone.now.events }
    ensures reports { result.1 ≡ length (keys_of cone.now.reports) }
    ensures keys { result.2 ≡ xor_of (keys_of cone.now.reports) }
    ensures few_events { result.0 ≤ 4294967295 }
    ensures few_reports { result.1 ≤ 4294967295 }
{
    let _valid = settings.numbers();
    let reports = cone.reports().list();
    (cone.events(), reports.len() as u64, exclusive_or(reports))
}

// The exclusive or of the keys of reports.
fn exclusive_or(reports: &[Report]) -> u64
    ensures { result ≡ xor_of (keys_of reports.now) }
{
    reports.iter().fold(0, |keys, report| keys ^ report.key)
}
