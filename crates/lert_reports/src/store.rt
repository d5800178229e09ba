//! Reports in their order, and a table of what their keys are hidden as.

ghost use Rattle.std.specs.Prelude.{◌≡◌, ℕ, ◌^◌, ◌<◌, ◌≤◌, [], ◌∷◌, ◌++◌, All, length, IfOk};
ghost use Rattle.lert_reports.specs.Stored.{AreFewest, hidden};
ghost use Rattle.lert_spec.specs.Edges.{key_limit};
ghost use Rattle.lert_spec.specs.Look.{is_listed};

use lert_base::{CountTable, Report, Settings};
use lert_io::OutOfMemory;
use lert_mixer::mix;
use std::alloc::Global;
use std::marker::Model;

/// The reports of one cone in the order in which they were put, seen as its settings and that list.
///
/// Only `new` takes memory: 16 bytes a report of the room, and a table with as many adds. The table counts values of 64
/// bits that a secret makes of the keys, since whoever knows how keys are mixed can choose keys that stand beside one
/// another. Under a secret that they don't know these stand as any others do, and a call takes no longer for them.
#[derive(Drop)]
pub struct ReportStore<T: CountTable> {
    settings: Settings,
    secret: u64,
    reports: Vec<Report>,
    // How often each value occurs among those of the listed keys.
    table: T,
}

impl<T: CountTable> Model for ReportStore<T> {
    ghost use Rattle.std.specs.Prelude.{vec_capacity};
    ghost use Rattle.lert_reports.specs.Stored.{Stored, AreStored};

    ghost Value = { Stored };

    ghost view = { λ s. record { settings = s.settings; reports = s.reports.items } };

    ghost invariant = { λ s. AreStored s.settings s.secret s.reports.items (vec_capacity s.reports)
        (T.pieces s.table) (T.adds s.table) (T.room s.table) (T.quotient_bits s.table) (T.width s.table) };
}

impl<T: CountTable> ReportStore<T> {
    /// No report yet, and room for as many as the settings say. The secret is 0, which everybody knows.
    pub fn new(alloc: Global, settings: &Settings) -> Result<ReportStore<T>, OutOfMemory>
        ensures { IfOk result (λ store. store ≡ record { settings = settings.now; reports = [] }) }
    {
        let numbers = settings.numbers();
        let quotient_bits = quotient_bits(numbers.room);
        let table = T::new(alloc, quotient_bits, 64 - quotient_bits, numbers.room)?;
        let reports = Vec::with_capacity(alloc, numbers.room as usize)?;
        Ok(ReportStore {
            settings: *settings,
            secret: 0,
            reports,
            table,
        })
    }

    /// The same store, which has no report yet, under a secret. No answer depends on it, only how long the calls take.
    pub fn with_secret(mut self, secret: u64) -> ReportStore<T>
        requires none { self.reports ≡ [] }
        ensures { result ≡ self }
    {
        self.secret = secret;
        self
    }

    /// Whether a key is reported, by one look-up in the table.
    pub fn has(&self, key: u64) -> bool
        ensures { result ≡ is_listed key self.now.reports }
    {
        self.table.count(hidden(self.secret, key)) > 0
    }

    /// Puts a report behind the others.
    pub fn put(&mut self, report: Report)
        requires { length self.old.reports < self.old.settings.room }
        ensures { self.new ≡ record self.old { reports = self.old.reports ++ report ∷ [] } }
    {
        self.table.add(hidden(self.secret, report.key), 1);
        self.reports.push_reserved(report);
    }

    /// The reports.
    pub fn list(&self) -> &[Report]
        ensures reports { result.now ≡ self.now.reports }
        ensures room { length result.now ≤ self.now.settings.room }
        ensures keys { All (λ report. report.key < key_limit self.now.settings) self.now.reports }
    {
        self.reports.as_slice()
    }

    /// How many reports there are: at most the room.
    pub fn len(&self) -> usize
        ensures count { result ≡ length self.now.reports }
        ensures room { result ≤ self.now.settings.room }
    {
        self.reports.len()
    }

    /// Takes all reports out. The room stays.
    pub fn clear(&mut self)
        ensures { self.new ≡ record self.old { reports = [] } }
    {
        self.table.clear();
        self.reports.clear();
    }
}

// The value under which the table counts a key, and no other key.
fn hidden(secret: u64, key: u64) -> u64
    ensures value { result ≡ hidden secret key }
    ensures only { (k : ℕ) → k < 2 ^ 64 → hidden secret k ≡ result → key ≡ k }
{
    mix(key ^ secret)
}

// The least number of quotient bits from 6 on that gives each report a quotient.
fn quotient_bits(room: u64) -> u32
    requires { room ≤ 4194304 }
    ensures fewest { AreFewest result room }
    ensures most { result ≤ 22 }
{
    let mut bits = 6;
    while bits < 22 && 1 << bits < room {
        bits += 1;
    }
    bits
}
