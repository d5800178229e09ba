//! How a cone acknowledges a packet.

/// The positions of a packet's items, and what stands after it.
#[derive(Clone, Copy, Debug, PartialEq, Eq)]
pub struct Acked {
    /// The position of the packet's first item, counted from 1.
    pub from: u64,
    /// The position of its last item.
    pub to: u64,
    /// How many reports the cone has after the packet.
    pub reports: u64,
}
