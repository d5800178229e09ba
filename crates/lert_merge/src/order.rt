//! The pieces of several streams in one order.
//!
//! The one contract is that of `Order`: the pieces come one by one with the number of their stream, each from the front
//! of that stream, in ascending tails, and equal tails in any order. It asks a set of streams by number (`Streams`), of
//! which a vector is one (`Each`), and takes no memory: `Ahead` has what it reads ahead, and serves one order after
//! another. `Merge` stands on it, and so does a flush.

mod ahead;
mod each;
mod order;
mod streams;

pub use ahead::Ahead;
pub use each::Each;
pub use order::Order;
pub use streams::Streams;
