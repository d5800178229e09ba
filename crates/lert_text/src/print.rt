//! What is printed: a line for each cone, one for each of its reports, and the totals.

ghost use Rattle.std.specs.Prelude.{◌≡◌, ◌++◌, List, ℕ, [], length, Option, OnOk, OnErr};
ghost use Rattle.lert_io.specs.Fault.{HasCause};
ghost use Rattle.lert_spec.specs.Lines.{cone_text, total_line as total_text};
ghost use Rattle.lert_text.specs.Drill.{drill_line as drill_text};
ghost use Rattle.lert_text.specs.Page.{IsPrinting, IsCut};

use crate::page::Page;
use crate::{LINE, cone_line, drill_line, report_line, total_line};
use lert_base::Report;
use lert_io::{Failed, Sink};

/// Prints a cone, which is closed or open, with its reports in their order.
pub fn print_cone<K: Sink>(
    page: &mut Page,
    out: &mut K,
    cone: u32,
    events: u64,
    reports: &[Report],
    closed: bool,
) -> Result<(), Failed>
    ensures ok { (start : Option (List ℕ)) (text : List ℕ) → IsPrinting start (K.taken out.old) page.old text →
        OnOk result (IsPrinting start (K.taken out.new) page.new
        (text ++ cone_text cone (record { events = events; reports = reports.now; closed = closed }))) }
    ensures cut { (start : Option (List ℕ)) (text : List ℕ) → IsPrinting start (K.taken out.old) page.old text →
        OnErr result (IsCut start (K.taken out.new)
        (text ++ cone_text cone (record { events = events; reports = reports.now; closed = closed }))) }
    ensures cause { HasCause (K.faults out.old) (K.faults out.new) result }
    ensures mark { K.mark out.new ≡ K.mark out.old }
{
    let mut line = [0; LINE];
    let len = cone_line(cone, events, reports.len() as u64, closed, &mut line);
    page.put(out, &line[..len])?;
    for report in reports {
        let len = report_line(*report, &mut line);
        page.put(out, &line[..len])?;
    }
    Ok(())
}

/// Prints a cone after a drill: how many events it has, how many keys are reported of it, and the exclusive or of these.
pub fn print_drill_cone<K: Sink>(
    page: &mut Page,
    out: &mut K,
    cone: u32,
    events: u64,
    reports: u64,
    keys: u64,
) -> Result<(), Failed>
    ensures ok { (start : Option (List ℕ)) (text : List ℕ) → IsPrinting start (K.taken out.old) page.old text →
        OnOk result (IsPrinting start (K.taken out.new) page.new (text ++ drill_text cone events reports keys)) }
    ensures cut { (start : Option (List ℕ)) (text : List ℕ) → IsPrinting start (K.taken out.old) page.old text →
        OnErr result (IsCut start (K.taken out.new) (text ++ drill_text cone events reports keys)) }
    ensures cause { HasCause (K.faults out.old) (K.faults out.new) result }
    ensures mark { K.mark out.new ≡ K.mark out.old }
{
    let mut line = [0; LINE];
    let len = drill_line(cone, events, reports, keys, &mut line);
    page.put(out, &line[..len])
}

/// Prints the totals, and writes what the page still holds.
pub fn print_total<K: Sink>(
    page: &mut Page,
    out: &mut K,
    events: u64,
    reports: u64,
) -> Result<(), Failed>
    ensures ok { (start : Option (List ℕ)) (text : List ℕ) → IsPrinting start (K.taken out.old) page.old text →
        OnOk result (IsPrinting start (K.taken out.new) [] (text ++ total_text events reports)) }
    ensures cut { (start : Option (List ℕ)) (text : List ℕ) → IsPrinting start (K.taken out.old) page.old text →
        OnErr result (IsCut start (K.taken out.new) (text ++ total_text events reports)) }
    ensures cause { HasCause (K.faults out.old) (K.faults out.new) result }
    ensures mark { K.mark out.new ≡ K.mark out.old }
{
    let mut line = [0; LINE];
    let len = total_line(events, reports, &mut line);
    page.put(out, &line[..len])?;
    page.flush(out)?;
    Ok(())
}
