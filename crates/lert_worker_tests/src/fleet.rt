//! The fleet in one thread.

ghost use Rattle.std.specs.Prelude.{◌≡◌, ℕ, ◌+◌, ◌<◌, ◌++◌, List, [], ◌∷◌, All, length, slice_get, Some, IfOk};
ghost use Rattle.lert_base.specs.Packet.{Packet, own};
ghost use Rattle.lert_base.specs.Entries.{packet_of};
ghost use Rattle.lert_conelock.specs.Prefix.{IsPrefix};
ghost use Rattle.lert_conelock.specs.After.{StandsAfter, AnswersAfter};
ghost use Rattle.lert_conelock.specs.Sight.{LockSight};
ghost use Rattle.lert_fleet.specs.Cones.{IsPassOf};
ghost use Rattle.lert_worker_tests.specs.Pairs.{ArePasses};

use crate::callers::fleet_of_two;
use crate::counter::{Counter, Full, entry_of};
use lert_base::{Entry, Held};
use lert_fleet::{Fleet, FleetPass, Turn};
use std::alloc::Global;
use std::process::Abort;
use std::sync::Wait;

fn shared<T: Sync>(_value: &T) {}

fn sent<T: Send>(_value: &T) {}

// A fleet is shared by threads, and its passes cross them, wherever the states may cross.
fn ask_both<S: Held + Send>(fleet: &Fleet<S>, pass: &FleetPass<S>) {
    shared(fleet);
    sent(pass);
}

// Two empty counters, with room for one packet and for eight.
fn two_counters(rt: &impl Abort, alloc: Global) -> Vec<Counter>
    ensures cones { length result.items ≡ 2 }
    ensures opened { All (λ state. (h : List Packet) × ((length (own h 0) ≡ state.zeros) × (length h ≡ state.zeros + state.others))) result.items }
{
    let mut states = Vec::with_capacity(alloc, 2).expect(rt, "memory");
    states.push_reserved(Counter::new('a', 1));
    states.push_reserved(Counter::new('b', 8));
    states
}

// What two callers of two cones were told, and whose counters came back, in their order, with what each counted.
#[derive(Clone, Copy, Debug, PartialEq, Eq)]
struct Told {
    cones: u32,
    numbers: (u32, u32),
    tries: [Turn<u64, Full>; 2],
    replies: [Result<u64, Full>; 2],
    counted: [(char, u64); 2],
}

// Both callers try the first cone, and then act on the second one.
fn call_both_cones<R: Wait>(
    rt: &R,
    fleet: Fleet<Counter>,
    mut first: FleetPass<Counter>,
    mut second: FleetPass<Counter>,
    mine: &Entry,
    theirs: &Entry,
) -> Told
    requires cones { length fleet ≡ 2 }
    requires passes { ArePasses fleet first second }
    requires entries { (mine.now.by ≡ 0) × (theirs.now.by ≡ 1) }
{
    ask_both(&fleet, &first);
    let cones = fleet.cones();
    let numbers = (first.number(), second.number());
    let tries = [
        fleet.try_admit(&mut first, 0, mine),
        fleet.try_admit(&mut second, 0, theirs),
    ];
    let replies = [
        fleet.admit(rt, &mut second, 1, theirs),
        fleet.admit(rt, &mut first, 1, mine),
    ];
    fleet.join(&mut first, second);
    Told {
        cones,
        numbers,
        tries,
        replies,
        counted: counted(fleet.close(first)),
    }
}

// The names of two counters, and what each counted.
fn counted(counters: Vec<Counter>) -> [(char, u64); 2]
    requires { length counters.items ≡ 2 }
{
    [count_of(&counters[0]), count_of(&counters[1])]
}

fn count_of(counter: &Counter) -> (char, u64) {
    (counter.name, counter.zeros + counter.others)
}

fn call_counters<R: Wait + Abort>(rt: &R, alloc: Global) -> Told {
    let mine = entry_of(rt, alloc, 0);
    let theirs = entry_of(rt, alloc, 1);
    let (fleet, first, second) = fleet_of_two(rt, alloc, two_counters(rt, alloc));
    call_both_cones(rt, fleet, first, second, &mine, &theirs)
}

#[test]
fn each_cone_counts_its_own_packets(rt: HostRuntime) {
    let expected = Told {
        cones: 2,
        numbers: (0, 1),
        tries: [Turn::Done(1), Turn::Refused(Full)],
        replies: [Ok(1), Ok(2)],
        counted: [('a', 1), ('b', 2)],
    };
    assert_eq!(rt; call_counters(&rt, rt.alloc()), expected);
}

// The contracts compose, cone by cone: a reply is the one at the call's own point of the history that
// the closed state of its cone stands for, whatever the other pass had seen of it.
fn admit_join_close<S: Held, R: Wait>(
    rt: &R,
    fleet: Fleet<S>,
    mut pass: FleetPass<S>,
    other: FleetPass<S>,
    cone: u32,
    entry: &Entry,
) -> (Result<S::Reply, S::Refusal>, Vec<S>)
    requires cone { cone < length fleet }
    requires belongs { IsPassOf pass fleet × IsPassOf other fleet }
    requires number { entry.now.by ≡ pass.lo }
    requires fits { (lock : LockSight S) → slice_get fleet cone ≡ Some lock →
        S.fits (S.terms lock.first) (packet_of entry.now) }
    requires meets { (pass.lo ≡ 0) × (other.lo ≡ pass.hi) }
    requires all { (place : ℕ) (lock : LockSight S) → slice_get fleet place ≡ Some lock →
        other.hi ≡ lock.numbers }
    ensures states { length result.1.items ≡ length fleet }
    ensures reply { (lock : LockSight S) (state : S) → slice_get fleet cone ≡ Some lock →
        slice_get result.1.items cone ≡ Some state →
        (history : List Packet) × StandsAfter S.Held lock.first history state
        × IfOk result.0 (λ reply. (past : List Packet)
        × IsPrefix (past ++ packet_of entry.now ∷ []) history
        × AnswersAfter S.Held lock.first past (packet_of entry.now) reply) }
{
    let reply = fleet.admit(rt, &mut pass, cone, entry);
    fleet.join(&mut pass, other);
    (reply, fleet.close(pass))
}

// The second caller's reply and then the first one's, of the second cone, and how many states came back.
fn reply_behind_another<R: Wait + Abort>(rt: &R, alloc: Global) -> ([Result<u64, Full>; 2], usize) {
    let mine = entry_of(rt, alloc, 0);
    let theirs = entry_of(rt, alloc, 1);
    let (fleet, first, mut second) = fleet_of_two(rt, alloc, two_counters(rt, alloc));
    let before = fleet.admit(rt, &mut second, 1, &theirs);
    let (reply, states) = admit_join_close(rt, fleet, first, second, 1, &mine);
    ([before, reply], states.len())
}

#[test]
fn a_reply_stands_in_the_history_of_its_cone(rt: HostRuntime) {
    let told = reply_behind_another(&rt, rt.alloc());
    assert_eq!(rt; told, ([Ok(1), Ok(2)], 2));
}
