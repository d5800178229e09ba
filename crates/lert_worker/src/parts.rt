//! What a worker holds.

ghost use Rattle.std.specs.Prelude.{◌≡◌, ◌<◌, ◌≤◌, [], ◌∷◌, ◌++◌, All, IfOk, IfErr, OnOk, MatchOption};
ghost use Rattle.lert_worker.specs.Outbox.{IsResting};
ghost use Rattle.lert_worker.specs.Ran.{IsGivenBack};

use crate::end::WorkerEnd;
use crate::outbox::Outbox;
use lert_base::{ConeFault, Entry, Held, KeyList, Settings};
use lert_buffers::Buffers;
use lert_fleet::FleetPass;
use lert_io::{OutOfMemory, Source};
use lert_trace::TraceReader;
use std::alloc::Global;
use std::collections::VecDeque;
use std::marker::Model;

/// The parts of a worker: readers and a pass of any kind, so that it crosses threads wherever these may. Its rings are empty
/// between calls. It can't be let go, since its pass can't.
pub struct Parts<T, P> {
    pub(crate) outbox: Outbox,
    // The numbers of the traces, and their readers in the same order.
    pub(crate) traces: VecDeque<u32>,
    pub(crate) readers: VecDeque<T>,
    pub(crate) pass: P,
    pub(crate) end: WorkerEnd,
}

/// A worker: its readers of traces, and its pass of the fleet of cones.
pub type Worker<S, H> = Parts<TraceReader<S>, FleetPass<H>>;

/// A reader that a worker didn't take, for want of memory.
#[derive(Drop)]
pub struct GiveRefused<S: Source> {
    pub reader: TraceReader<S>,
}

impl<T, P> Model for Parts<T, P> {
    ghost use Rattle.lert_worker.specs.Outbox.{IsResting};
    ghost use Rattle.lert_worker.specs.Ran.{AreGiven, Worked};

    ghost Value = { Worked T P };

    ghost view = { λ w. record {
      number = w.outbox.entry.by;
      settings = w.outbox.settings;
      traces = w.traces.items;
      readers = w.readers.items;
      pass = w.pass;
      end = w.end;
    } };

    ghost invariant = { λ w. IsResting w.outbox × AreGiven w.traces.items w.readers.items };
}

impl<S: Source, H: Held<Refusal = ConeFault>> Parts<TraceReader<S>, FleetPass<H>> {
    /// A worker without traces, which brings packets under a number. All memory of its rings is taken here. A refusal is want
    /// of memory, and hands the pass back.
    pub fn new(
        alloc: Global,
        number: u32,
        settings: &Settings,
        pass: FleetPass<H>,
    ) -> Result<Worker<S, H>, FleetPass<H>>
        ensures made { IfOk result (λ worker. worker ≡ record {
          number = number;
          settings = settings.now;
          traces = [];
          readers = [];
          pass = pass;
          end = WorkerEnd.Ran;
        }) }
        ensures back { IfErr result (λ back. back ≡ pass) }
    {
        match make_outbox(alloc, number, settings) {
            Ok(outbox) => Ok(Parts {
                outbox,
                traces: VecDeque::new(alloc),
                readers: VecDeque::new(alloc),
                pass,
                end: WorkerEnd::Ran,
            }),
            Err(OutOfMemory) => Err(pass),
        }
    }

    /// Takes the reader of a trace, whose number is above those of its traces, and at most 1,023. A refusal is want of memory,
    /// leaves the worker as it was, and hands the reader back.
    pub fn give(&mut self, trace: u32, reader: TraceReader<S>) -> Result<(), GiveRefused<S>>
        requires above { All (λ other. other < trace) self.old.traces }
        requires most { trace ≤ 1023 }
        ensures given { OnOk result (self.new ≡ record self.old {
          traces = self.old.traces ++ trace ∷ [];
          readers = self.old.readers ++ reader ∷ [];
        }) }
        ensures back { IfErr result (λ refused. (refused.reader ≡ reader) × (self.new ≡ self.old)) }
    {
        if self.traces.reserve(1).is_err() || self.readers.reserve(1).is_err() {
            return Err(GiveRefused { reader });
        }
        self.traces.push_back_reserved(trace);
        self.readers.push_back_reserved(reader);
        Ok(())
    }

    /// The first of its traces with its reader, which it hands back, and none exactly where it has none left. Takes no memory.
    pub fn take_back(&mut self) -> Option<(u32, TraceReader<S>)>
        ensures { MatchOption result
            ((self.old.traces ≡ []) × (self.old.readers ≡ []) × (self.new ≡ self.old))
            (λ first. IsGivenBack first.0 first.1 self.old self.new) }
    {
        let Some(trace) = self.traces.pop_front() else {
            return None;
        };
        let Some(reader) = self.readers.pop_front() else {
            unreachable!()
        };
        Some((trace, reader))
    }

    /// How it ended: `Ran` before it runs.
    pub fn end(&self) -> WorkerEnd
        ensures { result ≡ self.now.end }
    {
        self.end
    }

    /// Its pass, once all readers are taken back: none of them is let go.
    pub fn into_pass(self) -> FleetPass<H>
        requires none_left { self.traces ≡ [] }
        ensures { result ≡ self.pass }
    {
        let Parts {
            outbox: _,
            traces: _,
            readers,
            pass,
            end: _,
        } = self;
        readers.destroy_empty();
        pass
    }
}

// Empty rings for all cones, and an entry for what they hold.
fn make_outbox(alloc: Global, number: u32, settings: &Settings) -> Result<Outbox, OutOfMemory>
    ensures resting { IfOk result (λ outbox. IsResting outbox) }
    ensures number { IfOk result (λ outbox. outbox.entry.by ≡ number) }
    ensures settings { IfOk result (λ outbox. outbox.settings ≡ settings.now) }
{
    let packet = settings.numbers().packet as usize;
    let rings = Buffers::new(alloc, settings.cones(), packet)?;
    let entry = Entry::new(number, 0, KeyList::with_room(alloc, 4 * packet)?);
    Ok(Outbox {
        settings: *settings,
        rings,
        entry,
    })
}
