//! Which of several streams has the least key: a tree of losers.
//!
//! The one contract is that of `Tree`: of the keys that its streams have, the first stream's is the least, and stays so
//! while the first stream's key is replaced. A replacement costs a match for each doubling of the streams, with no branch
//! on a key. The order of several streams stands on it.

mod mask;
mod matches;
mod tree;

pub use tree::Tree;
