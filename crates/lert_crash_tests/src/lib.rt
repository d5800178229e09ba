//! Tests of what a stop at any call of a cone's life leaves, of what it is opened again as, and of a stop inside that. No crate stands
//! on this one.
#![tactic(auto)]

#[cfg(test)]
mod crashes;
#[cfg(test)]
mod reopenings;
