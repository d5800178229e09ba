//! One packet on its way to a cone.

ghost use Rattle.std.specs.Prelude.{◌≡◌};

use crate::key_list::KeyList;

/// Keys of one trace, with their weights, that go to a cone together. A contract compares entries by the packets that
/// they carry (`packet_of`), so without the room of the key list.
#[derive(Drop)]
pub struct Entry {
    /// The number of the caller that brings the packet.
    pub by: u32,
    /// The number of the trace that the keys come from.
    pub trace: u32,
    pub keys: KeyList,
}

impl Entry {
    pub fn new(by: u32, trace: u32, keys: KeyList) -> Entry
        ensures { result ≡ record { by = by; trace = trace; keys = keys } }
    {
        Entry { by, trace, keys }
    }
}
