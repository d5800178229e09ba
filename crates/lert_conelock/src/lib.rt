//! A lock round the state of a cone, for callers on any threads, whose calls make one history.
//!
//! Each call is answered as `apply` answers at its point of that history, which begins with all that
//! the caller's pass had seen. The closed state stands for the whole history, and of each caller's
//! number the history has just its calls, each once and in their order (`act`, `close`). Only `new`
//! takes memory and only `act` waits. The fleet of all cones stands on it.
//!
//! Word 0 of the lock's table is 0 while the lock is free and 1 while it is held, word 1 counts the
//! packets that were taken in, and the one slot holds the state. Every change is one of these steps,
//! each by the function of its name, and the rule in `specs/Rule.antt` holds between any two of them.
//!
//! ```text
//! step    word  changes                                                made by
//! take    0     0 → 1, or 1 stays and `met` grows                      try_act, act
//! commit  1     n → n + 1: history, `seen` and calls grow              the same, after `apply` answered Ok
//! note    1     none: the refused calls grow                           the same, after `apply` refused
//! free    0     1 → 0 with the state home, and wakes one that sleeps   the same
//! look    1     none: `seen` becomes the history                       admitted
//! split   0     none: one pass becomes two                             split
//! join    0     none: two passes become one                            join
//! agree   1     none: of two lists seen, the lesser begins the other   join
//! ```
//!
//! What callers do to word 0 is one list too (`specs/Moves.antt`): a take is missed, and counted as lost,
//! only while another caller has the lock.
//!
//! Nothing is said of progress: not that a wait ends, nor whose turn comes first.
#![tactic(auto)]

mod lock;
mod pass;
mod plays;
mod rule;
mod steps;
mod turn;
mod view;

pub use lock::ConeLock;
pub use pass::Pass;
pub use turn::Turn;
