//! A bound from above of what a tail weighs, in two bytes for each of some places.
//!
//! The one contract is `CoversCounts`, a relation to what each tail weighs in the generation before and in the present
//! one: no tail more than the bytes of its place say, up to 255. So `may_reach` refuses no tail that weighs what is
//! asked, and spares level 0 of a cone, which stands on it, most of its counts. Only `new` takes memory.

mod bound;
mod pair;
mod place;

pub use bound::Bound;
