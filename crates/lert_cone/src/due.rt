//! The reports of a cone, as a merge gives its totals.

ghost use Rattle.std.specs.Prelude.{◌≡◌, ◌↔◌, ℕ, ◌-◌, ◌^◌, ◌<◌, List, [], ◌∷◌, ◌++◌, All, length, false, IsTrue, MatchOption};
ghost use Rattle.lert_spec.specs.Edges.{tail_bits};
ghost use Rattle.lert_spec.specs.Limits.{IsValid};
ghost use Rattle.lert_spec.specs.Look.{is_listed};
ghost use Rattle.lert_spec.specs.Mix.{cone_of};
ghost use Rattle.lert_spec.proofs.TailLaws.{key_with};
ghost use Rattle.lert_spec.specs.declared.piece.Piece.{Piece};
ghost use Rattle.lert_cone.specs.Due.{Dues, unbegun};

use lert_base::{CountTable, Piece, Report, Settings, Totals};
use lert_mixer::key_of;
use lert_reports::ReportStore;
use std::marker::{Brand, Model, PhantomData};
use std::snapshot::Snapshot;

/// The reports of a cone, and the position at which totals bring more of them.
///
/// `begin` sets the position. Of the totals behind it, each that reaches the threshold is reported there, where its key
/// isn't. A total costs a look-up where it reaches the threshold, and nothing takes memory.
#[derive(Drop)]
pub struct Due<T: CountTable> {
    settings: Settings,
    cone: u32,
    store: ReportStore<T>,
    before: Snapshot<ReportStore<T>>,
    at: u64,
    is_full: bool,
}

impl<T: CountTable> Model for Due<T> {
    ghost use Rattle.lert_cone.specs.Due.{Dues, IsTaker};

    ghost Value = { Dues };

    ghost view = { λ d. record {
      settings = d.settings;
      cone = d.cone;
      reports = d.store.reports;
      before = d.before.value.reports;
      at = d.at;
      is_full = d.is_full;
    } };

    ghost invariant = { λ d. IsTaker d.settings d.cone d.store d.is_full };
}

impl<T: CountTable> Due<T> {
    ghost use Rattle.lert_cone.specs.Due.{PassesOver, TookFrom, due_key, started, with_total};

    /// The reports of a cone in this store, with those that it has already.
    pub fn new(settings: &Settings, cone: u32, store: ReportStore<T>) -> Due<T>
        requires named { cone < 2 ^ settings.now.cone_bits }
        requires same { store.settings ≡ settings.now }
        requires own { All (λ report. cone_of settings.now report.key ≡ cone) store.reports }
        ensures { result ≡ record {
          settings = settings.now;
          cone = cone;
          reports = store.reports;
          before = store.reports;
          at = 0;
          is_full = false;
        } }
    {
        let _valid = settings.numbers();
        Due {
            settings: *settings,
            cone,
            before: Snapshot::of(&store),
            store,
            at: 0,
            is_full: false,
        }
    }

    /// Totals from now on bring reports at this position.
    pub fn begin(&mut self, at: u64)
        ensures begun { self.new ≡ started self.old at }
        ensures took { TookFrom self.new self.new [] }
    {
        self.before = Snapshot::of(&self.store);
        self.at = at;
        self.is_full = false;
    }

    /// Takes the total of a tail, behind those of lesser ones.
    pub fn total(&mut self, tail: u64, count: u64)
        ensures { (start : Dues) (pieces : List Piece) → TookFrom start self.old pieces → All (λ piece. piece.tail < tail) pieces →
            TookFrom start self.new (pieces ++ record { tail = tail; count = count } ∷ []) }
    {
        if self.is_tail(tail) {
            self.take_total(&Piece { tail, count });
        }
    }

    /// The least total that brings a report.
    pub fn threshold(&self) -> u64
        ensures value { result ≡ self.now.settings.threshold }
        ensures passes { (piece : Piece) → piece.count < result → PassesOver self.now piece }
    {
        self.settings.numbers().threshold
    }

    /// Whether a tail's key is reported already, by one look-up.
    pub fn is_listed(&self, tail: u64) -> bool
        ensures value { tail < 2 ^ tail_bits self.now.settings
            → result ≡ is_listed (key_with self.now.settings self.now.cone tail) self.now.reports }
        ensures passes { IsTrue result → (count : ℕ) → PassesOver self.now (record { tail = tail; count = count }) }
    {
        if !self.is_tail(tail) {
            return false;
        }
        let key = key_of(&self.settings, self.cone, tail);
        self.store.has(key)
    }

    /// The reports.
    pub fn store(&self) -> &ReportStore<T>
        ensures { result.now ≡ record { settings = self.now.settings; reports = self.now.reports } }
    {
        &self.store
    }

    /// Whether a report was due since the totals began that the report room doesn't take. The reports then fill it.
    pub fn is_full(&self) -> bool
        ensures value { result ≡ self.now.is_full }
        ensures full { IsTrue result → length self.now.reports ≡ self.now.settings.room }
    {
        self.is_full
    }

    // Takes the total of a tail, a report where it is due and the report room takes it.
    fn take_total(&mut self, piece: &Piece)
        requires { piece.now.tail < 2 ^ tail_bits self.old.settings }
        ensures { self.new ≡ with_total self.old piece.now }
    {
        if self.is_full {
            return;
        }
        let Some(key) = self.due_key(piece) else {
            return;
        };
        if self.store.len() as u64 == self.settings.numbers().room {
            self.is_full = true;
            return;
        }
        self.store.put(Report { key, at: self.at });
    }

    // The key of a piece, where the piece reaches the threshold and the key isn't reported.
    fn due_key(&self, piece: &Piece) -> Option<u64>
        requires { piece.now.tail < 2 ^ tail_bits self.now.settings }
        ensures value { result ≡ due_key self.now.settings self.now.cone self.now.reports piece.now }
        ensures own { MatchOption result (Unit {0}) (λ key. cone_of self.now.settings key ≡ self.now.cone) }
    {
        if piece.count < self.settings.numbers().threshold {
            return None;
        }
        let key = key_of(&self.settings, self.cone, piece.tail);
        if self.store.has(key) {
            return None;
        }
        Some(key)
    }

    // Whether a number is a tail of the cone's keys.
    fn is_tail(&self, tail: u64) -> bool
        ensures tail { IsTrue result ↔ (tail < 2 ^ tail_bits self.now.settings) }
        ensures valid { IsValid self.now.settings }
        ensures named { self.now.cone < 2 ^ self.now.settings.cone_bits }
    {
        tail <= u64::MAX >> self.settings.numbers().cone_bits
    }
}

/// The state in which a taker begins, which its calls don't change.
pub trait Begun {
    ghost start: { Dues };
}

impl Begun for Brand {
    ghost start = { unbegun };
}

/// Reports that took their totals since a state that the proof names.
#[derive(Drop)]
pub struct DueSince<T: CountTable, N: Begun> {
    due: Due<T>,
    since: PhantomData<N>,
}

impl<T: CountTable, N: Begun> DueSince<T, N> {
    /// No total yet.
    pub fn new(due: Due<T>) -> DueSince<T, N>
        ensures { result.due ≡ due }
    {
        DueSince {
            due,
            since: PhantomData,
        }
    }

    /// The reports as they stand now.
    pub fn into_due(self) -> Due<T>
        ensures { result ≡ self.due }
    {
        let DueSince { due, .. } = self;
        due
    }
}

impl<T: CountTable, N: Begun> Totals for DueSince<T, N> {
    ghost use Rattle.lert_cone.specs.Due.{TookFrom};

    ghost took = { λ taker pieces. TookFrom N.start taker.due pieces };

    fn total(&mut self, tail: u64, count: u64) {
        self.due.total(tail, count);
    }
}
