//! What the machine hands a run: the words of the command line, its files as a place of traces and bays, and a writer as a sink.
//!
//! What a real file gives or takes no contract tells: `FilePlace`, the bays and traces that it opens, and `TextSink` meet the
//! contracts of their traits, count each call of the system that failed, and tell nothing of their content.
#![tactic(auto)]

mod file_bay;
mod file_place;
mod file_source;
mod handed;
mod text_sink;
mod words;

pub use file_bay::FileBay;
pub use file_place::FilePlace;
pub use file_source::FileSource;
pub use text_sink::TextSink;
pub use words::{WordsFault, read_words};
