//! The printed lines, each written into a buffer of fixed size, and a page that takes them to a sink.
//!
//! The one contract is the exact text: each call writes exactly the bytes of its line, as the definition of the
//! printed text has them, and the sink takes the lines in their order, or a beginning of them where it fails. No
//! memory is taken but that of the page. The top call prints with these lines alone.
#![tactic(auto)]

ghost use Rattle.std.specs.Prelude.{◌≡◌, ◌≤◌, take};
ghost use Rattle.lert_spec.specs.Lines.{cone_line as cone_text, report_line as report_text, total_line as total_text};
ghost use Rattle.lert_text.specs.Drill.{drill_line as drill_text};

mod causes;
mod hexadecimal;
mod page;
mod pieces;
mod print;
mod status;

use crate::hexadecimal::push_hexadecimal;
use crate::pieces::{push_number, push_text};
use lert_base::Report;
pub use page::Page;
pub use print::{print_cone, print_drill_cone, print_total};
pub use status::status_line;

/// How long a buffer for a line is, in bytes. No line is longer.
pub const LINE: usize = 160;

/// The line of a cone: how many events it has, how many reports, and whether it is closed.
pub fn cone_line(cone: u32, events: u64, reports: u64, closed: bool, into: &mut [u8; LINE]) -> usize
    ensures line { take result into.new ≡ cone_text cone events reports closed }
    ensures within { result ≤ 160 }
{
    let at = push_text(into, 0, b"cone ");
    let at = push_number(into, at, u64::from(cone));
    let at = push_text(into, at, b" events ");
    let at = push_number(into, at, events);
    let at = push_text(into, at, b" reports ");
    let at = push_number(into, at, reports);
    if closed {
        push_text(into, at, b" closed\n")
    } else {
        push_text(into, at, b" open\n")
    }
}

/// The line of a cone after a drill: how many events it has, how many reports, and the exclusive or of the reported keys.
pub fn drill_line(cone: u32, events: u64, reports: u64, keys: u64, into: &mut [u8; LINE]) -> usize
    ensures line { take result into.new ≡ drill_text cone events reports keys }
    ensures within { result ≤ 160 }
{
    let at = push_text(into, 0, b"cone ");
    let at = push_number(into, at, u64::from(cone));
    let at = push_text(into, at, b" events ");
    let at = push_number(into, at, events);
    let at = push_text(into, at, b" reports ");
    let at = push_number(into, at, reports);
    let at = push_text(into, at, b" keys ");
    let at = push_hexadecimal(into, at, keys);
    push_text(into, at, b"\n")
}

/// The line of a report: its key and its position.
pub fn report_line(report: Report, into: &mut [u8; LINE]) -> usize
    ensures line { take result into.new ≡ report_text report }
    ensures within { result ≤ 160 }
{
    let at = push_number(into, 0, report.key);
    let at = push_text(into, at, b" ");
    let at = push_number(into, at, report.at);
    push_text(into, at, b"\n")
}

/// The last line: how many events and reports all cones have.
pub fn total_line(events: u64, reports: u64, into: &mut [u8; LINE]) -> usize
    ensures line { take result into.new ≡ total_text events reports }
    ensures within { result ≤ 160 }
{
    let at = push_text(into, 0, b"total events ");
    let at = push_number(into, at, events);
    let at = push_text(into, at, b" reports ");
    let at = push_number(into, at, reports);
    push_text(into, at, b"\n")
}
