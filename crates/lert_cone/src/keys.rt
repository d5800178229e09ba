//! The items of a packet and the end of a cone, each with the record that the log gets behind it.

ghost use Rattle.std.specs.Prelude.{◌≡◌, ℕ, ◌+◌, ◌≤◌, ◌<◌, [], ◌∷◌, ◌++◌, length, All};
ghost use Rattle.lert_spec.specs.Edges.{key_limit};
ghost use Rattle.lert_spec.specs.Items.{AreOfVersion};
ghost use Rattle.lert_base.specs.Entries.{packet_of};
ghost use Rattle.lert_levels.specs.rows.Rows.{directory_text};
ghost use Rattle.lert_spec.specs.Mix.{cone_of};
ghost use Rattle.lert_cone.specs.Appends.{AppendsRecord};
ghost use Rattle.lert_cone.specs.Takes.{CanLog, CanReplay, CanTake, CanTakePacket, ReplaysItems, TakesEnd, TakesItems, TakesPacket};
ghost use Rattle.lert_cone.specs.Tally.{IsCounted, IsRecounted};

use crate::items::Items;
use crate::journal_places::JournalPlace;
use crate::report_log::ReportLog;
use crate::tally::{TakeFault, Tally};
use lert_base::{CountTable, Entry, Item};
use lert_bay::Bay;
use lert_gatelog::GateLog;
use lert_io::Failed;
use lert_journal::append_entry;
use lert_reports::LogKind;

/// Takes a packet: appends it to the journal, and then takes its items, one after another.
pub fn take_packet<B: Bay, T: CountTable>(
    tally: &mut Tally<B, T>,
    log: &mut ReportLog,
    journal: &mut GateLog,
    bay: &mut B,
    entry: &Entry,
    buffer: &mut [u8],
) -> Result<(), TakeFault>
    requires { CanTakePacket B.Bay (packet_of entry.now) (record { bay = bay.old; counts = tally.old; log = log.old; room = length buffer.old }) journal.old }
    ensures { TakesPacket B.Bay (packet_of entry.now) (record { bay = bay.old; counts = tally.old; log = log.old; room = length buffer.old })
        (record { bay = bay.new; counts = tally.new; log = log.new; room = length buffer.new }) journal.old journal.new result }
{
    let items = Items::of(entry);
    let place = JournalPlace {
        gate: journal.gate(),
        first: tally.len() + 1,
    };
    // The journal before the items are counted: a flush among them writes a record that counts on the packet.
    append_entry(journal, bay, entry, buffer, tally.version())?;
    take_items(tally, log, bay, place, &items, buffer)
}

// Takes items of the journal's record at `place`, one after another.
fn take_items<B: Bay, T: CountTable>(
    tally: &mut Tally<B, T>,
    log: &mut ReportLog,
    bay: &mut B,
    place: JournalPlace,
    items: &Items<'_>,
    buffer: &mut [u8],
) -> Result<(), TakeFault>
    requires { CanTake B.Bay items.now (record { bay = bay.old; counts = tally.old; log = log.old; room = length buffer.old }) }
    ensures { TakesItems B.Bay place items.now (record { bay = bay.old; counts = tally.old; log = log.old; room = length buffer.old })
        (record { bay = bay.new; counts = tally.new; log = log.new; room = length buffer.new }) result }
{
    for number in 0..items.len() {
        take_item(tally, log, bay, place, items.at(number), buffer)?;
    }
    Ok(())
}

// Takes an item of the journal's record at `place`. At a flush position a record stands behind the flush, which names what the
// levels and the reports are then, and where the journal's record begins that holds the first item of level 0.
fn take_item<B: Bay, T: CountTable>(
    tally: &mut Tally<B, T>,
    log: &mut ReportLog,
    bay: &mut B,
    place: JournalPlace,
    item: Item,
    buffer: &mut [u8],
) -> Result<(), TakeFault>
    requires below { item.key < key_limit tally.old.listing.settings }
    requires can { CanTake B.Bay (item ∷ []) (record { bay = bay.old; counts = tally.old; log = log.old; room = length buffer.old }) }
    ensures { TakesItems B.Bay place (item ∷ []) (record { bay = bay.old; counts = tally.old; log = log.old; room = length buffer.old })
        (record { bay = bay.new; counts = tally.new; log = log.new; room = length buffer.new }) result }
{
    tally.take(bay, item)?;
    // Before the record, which may name this item's own.
    log.pass(tally.len(), place);
    if !tally.is_flushed() {
        return Ok(());
    }
    write_record(tally, log, bay, LogKind::Flush, buffer)?;
    Ok(())
}

// Appends a record of what the items, the levels and the reports are now.
fn write_record<B: Bay, T: CountTable>(
    tally: &Tally<B, T>,
    log: &mut ReportLog,
    bay: &mut B,
    kind: LogKind,
    buffer: &mut [u8],
) -> Result<(), Failed>
    requires counted { IsCounted tally.now }
    requires can_log { CanLog B.Bay (record { bay = bay.old; counts = tally.now; log = log.old; room = length buffer.old }) }
    ensures few { length tally.now.due.reports ≤ tally.now.listing.settings.room }
    ensures appends { AppendsRecord B.Bay kind (length tally.now.listing.events) (directory_text tally.now.rows) tally.now.due.reports
        bay.old bay.new log.old log.new result }
{
    let n0 = tally.len();
    let reports = tally.store().list();
    // The frames before the record that names them: each image's last record names frames that hold its bins.
    log.append(bay, kind, n0, tally.directory(), reports, buffer)
}

/// Takes items that are read from the journal's record at `place`: those up to `n0`, where the log's last record was
/// written, are only counted again, and those behind it are taken.
pub fn replay_items<B: Bay, T: CountTable>(
    tally: &mut Tally<B, T>,
    log: &mut ReportLog,
    bay: &mut B,
    n0: u64,
    place: JournalPlace,
    items: &Items<'_>,
    buffer: &mut [u8],
) -> Result<(), TakeFault>
    requires { CanReplay B.Bay n0 items.now (record { bay = bay.old; counts = tally.old; log = log.old; room = length buffer.old }) }
    ensures { ReplaysItems B.Bay n0 place items.now (record { bay = bay.old; counts = tally.old; log = log.old; room = length buffer.old })
        (record { bay = bay.new; counts = tally.new; log = log.new; room = length buffer.new }) result }
{
    let count = n0.saturating_sub(tally.len()).min(items.len() as u64);
    let (again, ahead) = items.split_at(count as usize);
    // Up to n0 the log has flushes and reports already, so these items are only counted.
    count_again(tally, n0, &again);
    log.pass(tally.len(), place);
    if ahead.is_empty() {
        return Ok(());
    }
    take_items(tally, log, bay, place, &ahead, buffer)
}

// Counts items again, none of which is behind n0.
fn count_again<B: Bay, T: CountTable>(tally: &mut Tally<B, T>, n0: u64, items: &Items<'_>)
    requires own { All (λ item. cone_of tally.old.listing.settings item.key ≡ tally.old.listing.cone) items.now }
    requires light { AreOfVersion tally.old.listing.version items.now }
    requires within { 0 < length items.now → length tally.old.listing.events + length items.now ≤ n0 }
    requires recounted { IsRecounted tally.old n0 }
    ensures listing { tally.new.listing ≡ record tally.old.listing { events = tally.old.listing.events ++ items.now } }
    ensures rows { tally.new.rows ≡ tally.old.rows }
    ensures due { tally.new.due ≡ tally.old.due }
    ensures recounted { IsRecounted tally.new n0 }
{
    if items.is_empty() {
        return;
    }
    tally.recount(n0, items);
}

/// Ends a cone: scans all levels, lists the reports that are left, and appends the closing record.
pub fn finish<B: Bay, T: CountTable>(
    tally: &mut Tally<B, T>,
    log: &mut ReportLog,
    bay: &mut B,
    buffer: &mut [u8],
) -> Result<(), TakeFault>
    requires { CanTake B.Bay [] (record { bay = bay.old; counts = tally.old; log = log.old; room = length buffer.old }) }
    ensures { TakesEnd B.Bay (record { bay = bay.old; counts = tally.old; log = log.old; room = length buffer.old })
        (record { bay = bay.new; counts = tally.new; log = log.new; room = length buffer.new }) result }
{
    // The scan first: the closing record lists the reports that it brings.
    tally.finish(bay)?;
    write_record(tally, log, bay, LogKind::Closing, buffer)?;
    Ok(())
}
