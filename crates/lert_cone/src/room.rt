//! The memory of a cone, taken before its files are touched.

ghost use Rattle.std.specs.Prelude.{◌≡◌, ◌*◌, ◌^◌, ◌<◌, [], false, length, IfOk, replicate};
ghost use Rattle.lert_bay.specs.Files.{Files};
ghost use Rattle.lert_cone.specs.History.{most_version};
ghost use Rattle.lert_cone.specs.Room.{IsRoom, room_of};
ghost use Rattle.lert_cone.specs.Tally.{IsCounted, IsHeld};
ghost use Rattle.lert_spec.specs.Limits.{IsValid};

use crate::headers::{MOST_VERSION, greatest_payload};
use crate::tally::Tally;
use crate::unread::Unread;
use lert_base::{CountTable, Entry, KeyList, Settings};
use lert_bay::Bay;
use lert_io::OutOfMemory;
use lert_levels::{Levels, Zero};
use lert_reports::{ReportStore, greatest_record};
use std::alloc::Global;

// A packet of a journal has at most so many times the items that the settings name.
const PACKETS: usize = 4;

/// The memory of a cone that isn't numbered yet. As `new` makes it, the tables of level 0, the levels and the store of
/// reports are empty, the entry has no key and a room for those of any packet of a journal, and the buffer has room for the
/// greatest text that is appended, a packet's or a log record's. No call of the cone takes more.
#[derive(Drop)]
pub struct ConeRoom<T: CountTable> {
    pub settings: Settings,
    pub zero: Zero<T>,
    pub levels: Levels<T>,
    pub store: ReportStore<T>,
    pub entry: Entry,
    pub buffer: Vec<u8>,
}

impl<T: CountTable> ConeRoom<T> {
    /// The memory of a cone with these settings.
    pub fn new(alloc: Global, settings: &Settings) -> Result<ConeRoom<T>, OutOfMemory>
        ensures settings { IfOk result (λ room. room.settings ≡ settings.now) }
        ensures room { IfOk result (λ room. IsRoom room.settings room.zero room.levels room.store room.entry.keys (length room.buffer.items)) }
    {
        let most_keys = PACKETS * settings.numbers().packet as usize;
        let most_text = 5
            + greatest_payload(settings, MOST_VERSION).max(greatest_record(settings)) as usize;
        Ok(ConeRoom {
            settings: *settings,
            entry: Entry::new(0, 0, KeyList::with_room(alloc, most_keys)?),
            buffer: vec![in alloc; 0; most_text]?,
            store: ReportStore::new(alloc, settings)?,
            zero: Zero::new(alloc, settings)?,
            levels: Levels::new(alloc, settings)?,
        })
    }

    /// The same memory, as `new` made it, with the reports under a secret: nothing but how long calls take depends on it.
    pub fn with_secret(self, secret: u64) -> ConeRoom<T>
        requires none { self.store.reports ≡ [] }
        ensures { result ≡ self }
    {
        ConeRoom {
            store: self.store.with_secret(secret),
            ..self
        }
    }

    // The counts and reports of a cone with this number, which has no item yet, the entry, and the buffer.
    pub(crate) fn into_parts<B: Bay>(self, bay: &B, cone: u32) -> (Tally<B, T>, Entry, Vec<u8>)
        requires named { cone < 2 ^ self.settings.cone_bits }
        requires room { IsRoom self.settings self.zero self.levels self.store self.entry.keys (length self.buffer.items) }
        ensures listing { result.0.listing ≡ record { settings = self.settings; version = most_version; cone = cone; events = []; closed = false } }
        ensures rows { result.0.rows ≡ replicate self.settings.levels [] }
        ensures none { result.0.due.reports ≡ [] }
        ensures counted { IsCounted result.0 }
        ensures held { (seen : Files) → IsHeld result.0 seen }
        ensures entry { result.1.keys.room ≡ 4 * self.settings.packet }
        ensures buffer { length result.2.items ≡ room_of self.settings }
    {
        let ConeRoom {
            settings,
            zero,
            levels,
            store,
            entry,
            buffer,
        } = self;
        let unread = Unread::of(bay, &settings, MOST_VERSION, cone, 0);
        (
            Tally::new(&settings, MOST_VERSION, cone, zero, levels, store, unread),
            entry,
            buffer,
        )
    }
}
