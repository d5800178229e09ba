//! Readers of traces, made and let go of.

ghost use Rattle.std.specs.Prelude.{◌≡◌, ◌≤◌, [], length};
ghost use Rattle.std.specs.VecDeque.{deque_capacity};
ghost use Rattle.lert_ingest.specs.Readers.{fresh_readers, sources_of};

use lert_io::Source;
use lert_trace::{MOST_ITEMS, TraceReader};
use std::collections::VecDeque;

/// A reader of each trace, in an empty list with room for all, and the emptied list of traces. Takes no memory.
pub fn open_readers<S: Source>(
    mut traces: VecDeque<S>,
    mut readers: VecDeque<TraceReader<S>>,
) -> (VecDeque<TraceReader<S>>, VecDeque<S>)
    requires empty { readers.items ≡ [] }
    requires room { length traces.items ≤ deque_capacity readers }
    ensures readers { result.0.items ≡ fresh_readers traces.items }
    ensures emptied { result.1.items ≡ [] }
    ensures room { length traces.items ≤ deque_capacity result.1 }
{
    while let Some(source) = traces.pop_front() {
        readers.push_back_reserved(TraceReader::new(source, MOST_ITEMS));
    }
    (readers, traces)
}

/// The traces of readers, in an empty list with room for all. Takes no memory.
pub fn close_readers<S: Source>(
    mut readers: VecDeque<TraceReader<S>>,
    mut traces: VecDeque<S>,
) -> VecDeque<S>
    requires empty { traces.items ≡ [] }
    requires room { length readers.items ≤ deque_capacity traces }
    ensures { result.items ≡ sources_of readers.items }
{
    while let Some(reader) = readers.pop_front() {
        traces.push_back_reserved(reader.into_source());
    }
    readers.destroy_empty();
    traces
}
