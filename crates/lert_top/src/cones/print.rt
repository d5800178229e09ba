//! The text of cones: the lines of each, one cone after the other, and the totals.

ghost use Rattle.std.specs.Prelude.{◌≡◌, ◌≤◌, ◌++◌, ℕ, List, [], length, map, Some, false, OnOk, OnErr};
ghost use Rattle.lert_cone.specs.Stands.{is_broken, is_finished as finished_test};
ghost use Rattle.lert_top.specs.cones.Print.{ArePrintable, printed_as};
ghost use Rattle.lert_io.specs.Fault.{HasCause};
ghost use Rattle.lert_spec.specs.Lines.{lines};
ghost use Rattle.lert_text.specs.Page.{IsCut};

use lert_base::Settings;
use lert_bay::Bay;
use lert_cone::{Cone, ConeState};
use lert_cqf::Cqf;
use lert_io::{Failed, Sink};
use lert_text::{Page, print_cone, print_total};

/// Prints all cones, in ascending order, and the totals, and writes what the page still holds.
pub fn print_cones<B: Bay, K: Sink>(
    page: &mut Page,
    out: &mut K,
    settings: &Settings,
    cones: &[Cone<B, Cqf>],
) -> Result<(), Failed>
    requires empty { page.old ≡ [] }
    requires few { length cones.now ≤ 256 }
    requires printable { ArePrintable settings.now cones.now }
    ensures ok { (text : List ℕ) → K.taken out.old ≡ Some text → OnOk result (K.taken out.new ≡ Some (text ++ lines (map printed_as cones.now))) }
    ensures cut { OnErr result (IsCut (K.taken out.old) (K.taken out.new) (lines (map printed_as cones.now))) }
    ensures cause { HasCause (K.faults out.old) (K.faults out.new) result }
    ensures mark { K.mark out.new ≡ K.mark out.old }
{
    let mut events = 0;
    let mut reports = 0;
    for number in 0..cones.len() {
        let cone = &cones[number];
        let closed = is_finished(cone.state());
        print_cone(
            page,
            out,
            number as u32,
            cone.events(),
            cone.reports().list(),
            closed,
        )?;
        let (events_here, reports_here) = numbers_of(settings, cone);
        events += events_here;
        reports += reports_here;
    }
    print_total(page, out, events, reports)
}

// Whether a cone takes no more packets since it was finished.
fn is_finished(state: ConeState) -> bool
    ensures { result ≡ finished_test state }
{
    matches!(state, ConeState::Finished)
}

// How many events and reports a cone has.
fn numbers_of<B: Bay>(settings: &Settings, cone: &Cone<B, Cqf>) -> (u64, u64)
    requires settings { cone.now.listing.settings ≡ settings.now }
    requires whole { is_broken cone.now.state ≡ false }
    ensures events { result.0 ≡ cone.now.events }
    ensures reports { result.1 ≡ length cone.now.reports }
    ensures few_events { result.0 ≤ 4294967295 }
    ensures few_reports { result.1 ≤ 4294967295 }
{
    let _valid = settings.numbers();
    (cone.events(), cone.reports().len() as u64)
}
