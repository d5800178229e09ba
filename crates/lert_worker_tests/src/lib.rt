//! Tests of the lock of a cone, of the fleet of all cones' locks, and of workers over a fleet: what no clause says.
//!
//! That the calls answer at all, that `admitted` looks, that a second thread finds the lock held, that one which waits
//! for it is woken, also by a call that is refused, that a cone is free while another one's lock is held, and that a
//! fleet crosses threads where its states may; that two workers and four run at once, that one goes on with other cones
//! while one is held, and that items come to their cones with their weights. The waits end by themselves. No crate stands on
//! this one.
#![tactic(auto)]

#[cfg(test)]
mod callers;
#[cfg(test)]
mod counter;
#[cfg(test)]
mod crew;
#[cfg(test)]
mod flags;
#[cfg(test)]
mod fleet;
#[cfg(test)]
mod four;
#[cfg(test)]
mod late_source;
#[cfg(test)]
mod lock;
#[cfg(test)]
mod station;
#[cfg(test)]
mod threads;
#[cfg(test)]
mod weights;
#[cfg(test)]
mod workers;
