//! The reader itself.

ghost use Rattle.std.specs.Prelude.{◌≡◌, ◌+◌, ◌<◌, ◌≤◌, ◌^◌, [], length, slice_get, Some, None, Ok, Err, true, false, IsOk, OnOk, IsErrOf, IfOk, IfErr, IfSome, IfNone};
ghost use Rattle.lert_io.specs.Fault.{HasRisen};
ghost use Rattle.lert_io.specs.Reading.{IfTold};
ghost use Rattle.lert_trace.specs.Trace.{whole};

use crate::fault::TraceFault;
use crate::header::{HEADER, read_header};
use crate::window::{Window, item_size};
use lert_io::Source;
use lert_spec::Item;
use std::marker::Model;
use std::snapshot::Snapshot;

/// The most items that a trace may have, 2^36.
pub const MOST_ITEMS: u64 = 68_719_476_736;

/// A reader of the items of one trace, seen as its source now and as it was when the reader was made,
/// its limit, how many items it gave, and the fault that it met.
#[derive(Drop)]
pub struct TraceReader<S: Source> {
    window: Window<S>,
    limit: u64,
    given: u64,
    begun: bool,
    // The trace's, once the header was taken.
    version: u8,
    fault: Option<TraceFault>,
    made: Snapshot<S>,
}

impl<S: Source> Model for TraceReader<S> {
    ghost use Rattle.lert_trace.specs.Reader.{Reading, IsReader};

    ghost Value = { Reading S };

    ghost view = { λ r. record { source = r.window.source; made = r.made.value; limit = r.limit; begun = r.begun; given = r.given; fault = r.fault } };

    ghost invariant = { λ r. IsReader S.remaining S.faults S.mark r.made.value r.window.source r.window.pending
        r.limit r.version r.given r.begun r.fault };
}

impl<S: Source> TraceReader<S> {
    ghost use Rattle.lert_trace.specs.Reader.{IsSameReader, IsTraceOf, Means};

    /// A reader of the trace that `source` holds, which gives at most `limit` items, 1 to 2^36.
    pub fn new(source: S, limit: u64) -> TraceReader<S>
        requires some { 1 ≤ limit }
        requires most { limit ≤ 2 ^ 36 }
        ensures { result ≡ record { source = source; made = source; limit = limit; begun = false; given = 0; fault = None } }
    {
        let made = Snapshot::of(&source);
        TraceReader {
            window: Window::new(source),
            limit,
            given: 0,
            begun: false,
            version: 1,
            fault: None,
            made,
        }
    }

    /// The next item, which weighs 1 in a trace without weights, and `None` only at the end of a well-formed
    /// trace. After a fault every later call answers the same fault and reads nothing.
    pub fn next(&mut self) -> Result<Option<Item>, TraceFault>
        ensures same_reader { self.new.made ≡ self.old.made }
        ensures same_limit { self.new.limit ≡ self.old.limit }

        ensures counted { IfOk result (λ next. IfSome next (λ _.
            (self.new.given ≡ self.old.given + 1) × (self.new.given ≤ self.new.limit))) }
        ensures item { IfTold (S.remaining self.old.made) (λ bytes.
            IfOk result (λ next. IfSome next (λ item. slice_get (whole bytes) self.old.given ≡ Some item))) }
        ensures weight { IfOk result (λ next. IfSome next (λ item. 1 ≤ item.weight)) }

        ensures ended { IfOk result (λ next. IfNone next (self.new.given ≡ self.old.given)) }
        ensures end { IfTold (S.remaining self.old.made) (λ bytes.
            IfOk result (λ next. IfNone next (IsTraceOf bytes self.old.given × (S.remaining self.new.source ≡ Some [])))) }

        ensures no_fault { IsOk result → self.new.fault ≡ None }
        ensures fault { IfErr result (λ fault. (self.new.fault ≡ Some fault) × (self.new.given ≡ self.old.given)) }
        ensures cause { IfErr result
            (Means S.remaining S.faults self.new.made self.new.source self.new.limit self.new.given) }
        ensures read_failed { self.old.fault ≡ None → IsErrOf result TraceFault.ReadFailed →
            HasRisen (S.faults self.old.source) (S.faults self.new.source) }
        ensures repeats { IfSome self.old.fault (λ fault. (result ≡ Err fault) × (self.new ≡ self.old)) }

        ensures never_falls { S.faults self.old.source ≤ S.faults self.new.source }
        ensures mark { S.mark self.new.source ≡ S.mark self.old.source }
    {
        if let Some(fault) = self.fault {
            return Err(fault);
        }
        let next = self.advance();
        if let Err(fault) = next {
            self.fault = Some(fault);
        }
        next
    }

    // The next item of a reader that met no fault.
    fn advance(&mut self) -> Result<Option<Item>, TraceFault>
        requires { self.old.fault ≡ None }
        ensures same { IsSameReader self.old self.new }
        ensures counted { IfOk result (λ next. IfSome next (λ _.
            (self.new.given ≡ self.old.given + 1) × (self.new.given ≤ self.new.limit))) }
        ensures item { IfTold (S.remaining self.old.made) (λ bytes.
            IfOk result (λ next. IfSome next (λ item. slice_get (whole bytes) self.old.given ≡ Some item))) }
        ensures weight { IfOk result (λ next. IfSome next (λ item. 1 ≤ item.weight)) }
        ensures ended { IfOk result (λ next. IfNone next (self.new.given ≡ self.old.given)) }
        ensures end { IfTold (S.remaining self.old.made) (λ bytes. IfOk result (λ next. IfNone next
            (IsTraceOf bytes self.old.given × (S.remaining self.new.source ≡ Some [])))) }
        ensures fault { IfErr result (λ _. self.new.given ≡ self.old.given) }
        ensures cause { IfErr result
            (Means S.remaining S.faults self.new.made self.new.source self.new.limit self.new.given) }
        ensures read_failed { IsErrOf result TraceFault.ReadFailed →
            HasRisen (S.faults self.old.source) (S.faults self.new.source) }
        ensures never_falls { S.faults self.old.source ≤ S.faults self.new.source }
        ensures mark { S.mark self.new.source ≡ S.mark self.old.source }
    {
        self.begin()?;
        self.take_item()
    }

    // Takes the header, where it wasn't taken.
    fn begin(&mut self) -> Result<(), TraceFault>
        requires { self.old.fault ≡ None }
        ensures same { IsSameReader self.old self.new }
        ensures given { self.new.given ≡ self.old.given }
        ensures begun { OnOk result (self.new.begun ≡ true) }
        ensures cause { IfErr result
            (Means S.remaining S.faults self.new.made self.new.source self.new.limit self.new.given) }
        ensures read_failed { IsErrOf result TraceFault.ReadFailed →
            HasRisen (S.faults self.old.source) (S.faults self.new.source) }
        ensures never_falls { S.faults self.old.source ≤ S.faults self.new.source }
        ensures mark { S.mark self.new.source ≡ S.mark self.old.source }
    {
        if self.begun {
            return Ok(());
        }
        self.version = read_header(&mut self.window)?;
        self.begun = true;
        Ok(())
    }

    // Takes the next item behind the header.
    fn take_item(&mut self) -> Result<Option<Item>, TraceFault>
        requires sound { self.old.fault ≡ None }
        requires begun { self.old.begun ≡ true }
        ensures same { IsSameReader self.old self.new }
        ensures counted { IfOk result (λ next. IfSome next (λ _.
            (self.new.given ≡ self.old.given + 1) × (self.new.given ≤ self.new.limit))) }
        ensures item { IfTold (S.remaining self.old.made) (λ bytes.
            IfOk result (λ next. IfSome next (λ item. slice_get (whole bytes) self.old.given ≡ Some item))) }
        ensures weight { IfOk result (λ next. IfSome next (λ item. 1 ≤ item.weight)) }
        ensures ended { IfOk result (λ next. IfNone next (self.new.given ≡ self.old.given)) }
        ensures end { IfTold (S.remaining self.old.made) (λ bytes. IfOk result (λ next. IfNone next
            (IsTraceOf bytes self.old.given × (S.remaining self.new.source ≡ Some [])))) }
        ensures fault { IfErr result (λ _. self.new.given ≡ self.old.given) }
        ensures cause { IfErr result
            (Means S.remaining S.faults self.new.made self.new.source self.new.limit self.new.given) }
        ensures read_failed { IsErrOf result TraceFault.ReadFailed →
            HasRisen (S.faults self.old.source) (S.faults self.new.source) }
        ensures never_falls { S.faults self.old.source ≤ S.faults self.new.source }
        ensures mark { S.mark self.new.source ≡ S.mark self.old.source }
    {
        let size = item_size(self.version);
        let place = HEADER as u64 + size as u64 * self.given;
        if !self.window.fill(size)? {
            if self.window.len() == 0 {
                return Ok(None);
            }
            return Err(TraceFault::CutKey { at: place });
        }
        let item = self.window.item(self.version);
        if item.weight == 0 {
            return Err(TraceFault::ZeroWeight { at: place + 8 });
        }
        if self.given == self.limit {
            return Err(TraceFault::TooLong);
        }
        self.given += 1;
        self.window.take(size);
        Ok(Some(item))
    }

    /// Gives the source back, wherever the reader stands.
    pub fn into_source(self) -> S
        ensures { result ≡ self.source }
    {
        let TraceReader {
            window,
            limit: _,
            given: _,
            begun: _,
            version: _,
            fault: _,
            made: _,
        } = self;
        window.into_source()
    }
}
