//! Workers on several threads.

ghost use Rattle.std.specs.Prelude.{◌≡◌, ℕ, All};
ghost use Rattle.std.specs.Thread.{IsSync};
ghost use Rattle.lert_fleet.specs.Each.{EachTwo};
ghost use Rattle.lert_worker.specs.Ran.{HasRun, MayRun, Worked};

use crate::parts::{Parts, Worker};
use crate::run::run_worker;
use lert_base::{ConeFault, Held};
use lert_fleet::{Fleet, FleetPass};
use lert_io::Source;
use lert_trace::TraceReader;
use std::sync::Wait;
use std::thread::{Threads, join_mut};

/// Runs workers of a fleet, each as `run_worker` does: half of the slice on another thread, and half of each half likewise,
/// down to one worker. Where no thread can be started the caller runs that half last. Takes no memory.
pub fn run_all<S: Source + Send, H: Held<Refusal = ConeFault> + Send, R: Threads + Wait + Sync>(
    rt: &R,
    fleet: &Fleet<H>,
    workers: &mut [Worker<S, H>],
)
where
    H::Reply: Send,
    requires may { All (MayRun H.Held fleet.now) workers.old }
    ensures ran { EachTwo (HasRun S.remaining S.faults S.mark fleet.now) workers.old workers.new }
{
    run_parts(rt, fleet, workers);
}

// What a fleet does for a worker with these parts. A closure for another thread can't be lent a fleet of states that are known
// by their bound alone, nor such a worker; so the halves are cut of workers whose parts are opaque.
trait Serves<T, P> {
    ghost may: { Self → Worked T P → Type 0 };

    ghost ran: { Self → Worked T P → Worked T P → Type 0 };

    fn serve<R: Wait>(&self, rt: &R, worker: &mut Parts<T, P>)
        requires { may self.now worker.old }
        ensures { ran self.now worker.old worker.new };
}

impl<S: Source, H: Held<Refusal = ConeFault>> Serves<TraceReader<S>, FleetPass<H>> for Fleet<H> {
    ghost may = { λ fleet worker. MayRun H.Held fleet worker };

    ghost ran = { λ fleet old new. HasRun S.remaining S.faults S.mark fleet old new };

    fn serve<R: Wait>(&self, rt: &R, worker: &mut Parts<TraceReader<S>, FleetPass<H>>) {
        run_worker(rt, self, worker);
    }
}

fn run_parts<F: Serves<T, P> + Sync, T: Send, P: Send, R: Threads + Wait + Sync>(
    rt: &R,
    fleet: &F,
    workers: &mut [Parts<T, P>],
)
    requires may { All (F.may fleet.now) workers.old }
    ensures ran { EachTwo (F.ran fleet.now) workers.old workers.new }
{
    run_halves(rt, fleet, workers);
}

// A piece of work over something that is shared.
trait Work<F> {
    ghost may: { F → Self → Type 0 };

    ghost ran: { F → Self → Self → Type 0 };

    fn run<R: Wait>(&mut self, rt: &R, shared: &F)
        requires { may shared.now self.old }
        ensures { ran shared.now self.old self.new };
}

impl<F: Serves<T, P>, T, P> Work<F> for Parts<T, P> {
    ghost may = { λ fleet worker. F.may fleet worker };

    ghost ran = { λ fleet old new. F.ran fleet old new };

    fn run<R: Wait>(&mut self, rt: &R, shared: &F) {
        shared.serve(rt, self);
    }
}

// Does each piece of work of a slice, half of it on another thread.
fn run_halves<F: Sync, W: Work<F> + Send, R: Threads + Wait + Sync>(
    rt: &R,
    shared: &F,
    works: &mut [W],
)
    requires may { All (W.may shared.now) works.old }
    ensures ran { EachTwo (W.ran shared.now) works.old works.new }
{
    if works.len() < 2 {
        if let Some(work) = works.first_mut() {
            work.run(rt, shared);
        }
        return;
    }
    let (front, back) = works.split_at_mut(works.len() / 2);
    join_mut(
        rt,
        &mut ||
            requires sync { IsSync R.row }
            requires may { All (W.may shared.now) front.now }
            ensures { EachTwo (W.ran shared.entry.now) front.entry.now front.exit.now }
        { run_halves(rt, shared, front) },
        &mut ||
            requires sync { IsSync R.row }
            requires may { All (W.may shared.now) back.now }
            ensures { EachTwo (W.ran shared.entry.now) back.entry.now back.exit.now }
        { run_halves(rt, shared, back) },
    );
}
