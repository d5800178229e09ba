//! What threads show each other.

use std::alloc::Global;
use std::process::Abort;
use std::sync::Arc;
use std::sync::atomic::{AtomicU64, Ordering};
use std::thread::yield_now;

// How often one thread looks for another before it gives up.
const TURNS: u64 = 200_000_000;

/// That a state is inside a call, that another thread goes on meanwhile, and that it was woken. How many threads began, and
/// how many of these found all others begun.
#[derive(Drop)]
pub struct Flags {
    inside: AtomicU64,
    answered: AtomicU64,
    woken: AtomicU64,
    begun: AtomicU64,
    met: AtomicU64,
}

impl Flags {
    fn new() -> Flags {
        Flags {
            inside: AtomicU64::new(0),
            answered: AtomicU64::new(0),
            woken: AtomicU64::new(0),
            begun: AtomicU64::new(0),
            met: AtomicU64::new(0),
        }
    }

    pub fn enter(&self) {
        self.inside.store(1, Ordering::SeqCst);
    }

    pub fn answer(&self) {
        self.answered.store(1, Ordering::SeqCst);
    }

    pub fn wake(&self) {
        self.woken.store(1, Ordering::SeqCst);
    }

    /// One more thread begins, and looks until so many have begun, or gives up.
    pub fn begin(&self, all: u64) {
        self.begun.fetch_add(1, Ordering::SeqCst);
        if reaches(&self.begun, all) {
            self.met.fetch_add(1, Ordering::SeqCst);
        }
    }

    /// How many threads found all others begun.
    pub fn met(&self) -> u64 {
        self.met.load(Ordering::SeqCst)
    }

    /// Whether the flag is found set before this thread gives up.
    pub fn await_inside(&self) -> bool {
        reaches(&self.inside, 1)
    }

    /// Whether the flag is found set before this thread gives up.
    pub fn await_answer(&self) -> bool {
        reaches(&self.answered, 1)
    }

    /// Whether the flag is found set before this thread gives up.
    pub fn await_woken(&self) -> bool {
        reaches(&self.woken, 1)
    }
}

/// Flags of which none is set, shared.
pub fn new_flags(rt: &impl Abort, alloc: Global) -> Arc<Flags, Global> {
    match Arc::new(alloc, Flags::new()) {
        Ok(flags) => flags,
        Err(_) => panic!(rt; "memory"),
    }
}

/// One more owner of flags.
pub fn shared(rt: &impl Abort, flags: &Arc<Flags, Global>) -> Arc<Flags, Global> {
    match Arc::try_clone(flags) {
        Ok(flags) => flags,
        Err(_) => panic!(rt; "memory"),
    }
}

fn reaches(flag: &AtomicU64, least: u64) -> bool {
    for _ in 0..TURNS {
        if flag.load(Ordering::SeqCst) >= least {
            return true;
        }
        yield_now();
    }
    false
}
