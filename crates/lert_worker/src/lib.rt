//! Workers: readers of traces that bring each item to its cone, through a fleet that other workers use too.
//!
//! The contract of one worker is that of `run_worker`: of each of its traces, one after the other, the packets that it brought to a
//! cone join to that cone's items of what was read, or to a beginning of them where the worker stopped; each but the last is
//! whole; and it waited for a cone only with a full ring or with the rest of a trace. It takes no memory, and holds no lock while
//! it reads. On it stands that of `run_crew`, in the room `crew`: readers and states of any kind in, the same ones out, with all that
//! the workers brought. What knows the states, as cones, stands on that.
#![tactic(auto)]

pub mod crew;
mod end;
mod halves;
mod outbox;
mod parts;
mod run;
mod sending;

pub use crew::{Crewed, run_crew};
pub use end::WorkerEnd;
pub use halves::run_all;
pub use parts::{GiveRefused, Parts, Worker};
pub use run::run_worker;
