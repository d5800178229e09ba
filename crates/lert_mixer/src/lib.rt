//! Keys and their mixed values: which cone a key belongs to, and what of it is its tail there.
//!
//! The one contract: a key comes back from its cone and its tail, so a table that keeps tails whole counts
//! keys exactly. The mixer is the last step of a well-known hash of 64 bits, three folds and two odd
//! factors, each of which can be undone. Every call is straight-line code and takes no memory.
#![tactic(auto)]

mod cone;
mod mixer;

pub use cone::{cone_of, key_of, tail_of};
pub use mixer::{mix, unmix};
