//! The lock and the fleet on two threads.

ghost use Rattle.std.specs.Prelude.{◌≡◌, length};
ghost use Rattle.lert_conelock.specs.Sight.{BelongsTo};
ghost use Rattle.lert_fleet.specs.Cones.{IsPassOf};
ghost use Rattle.lert_worker_tests.specs.Pairs.{AreLockPasses, ArePasses};

use crate::callers::{fleet_of_two, lock_of_two};
use crate::counter::entry_of;
use crate::flags::{Flags, new_flags};
use crate::station::{Role, Station, empty_station, two_stations};
use lert_base::{ConeFault, Entry};
use lert_conelock::{ConeLock, Pass, Turn};
use lert_fleet::{Fleet, FleetPass};
use std::alloc::Global;
use std::process::Abort;
use std::sync::{Arc, Wait};
use std::thread::{Threads, join_mut};

// The packets of two callers, and the flags that they show each other.
#[derive(Drop)]
struct Meeting {
    flags: Arc<Flags, Global>,
    mine: Entry,
    theirs: Entry,
    ghost numbers: { (mine.by ≡ 0) × (theirs.by ≡ 1) },
}

fn new_meeting(rt: &impl Abort, alloc: Global) -> Meeting {
    Meeting {
        flags: new_flags(rt, alloc),
        mine: entry_of(rt, alloc, 0),
        theirs: entry_of(rt, alloc, 1),
    }
}

// The second thread tries once it knows that the first one is inside `apply`, and then waits for the lock.
fn try_and_wait<R: Wait>(
    rt: &R,
    lock: &ConeLock<Station>,
    pass: &mut Pass<Station>,
    entry: &Entry,
    flags: &Flags,
) -> (Turn<u64, ConeFault>, Result<u64, ConeFault>)
    requires belongs { BelongsTo pass.old lock.now }
    requires number { entry.now.by ≡ pass.old.lo }
    ensures belongs { BelongsTo pass.new lock.now }
    ensures range { (pass.new.lo ≡ pass.old.lo) × (pass.new.hi ≡ pass.old.hi) }
{
    let _seen = flags.await_inside();
    let turn = lock.try_act(pass, entry);
    flags.answer();
    let waited = lock.act(rt, pass, entry);
    flags.wake();
    (turn, waited)
}

// The first thread acts, and once more when it knows that the second one was woken, or gives up on that: then it wakes it.
fn act_twice<R: Wait>(
    rt: &R,
    lock: &ConeLock<Station>,
    pass: &mut Pass<Station>,
    entry: &Entry,
    flags: &Flags,
) -> [Result<u64, ConeFault>; 2]
    requires belongs { BelongsTo pass.old lock.now }
    requires number { entry.now.by ≡ pass.old.lo }
    ensures belongs { BelongsTo pass.new lock.now }
    ensures range { (pass.new.lo ≡ pass.old.lo) × (pass.new.hi ≡ pass.old.hi) }
{
    let reply = lock.act(rt, pass, entry);
    let _woken = flags.await_woken();
    [reply, lock.act(rt, pass, entry)]
}

// What the threads of a lock were told: the first one's replies, what the second one's try came to, the reply that it waited
// for, and how many packets were taken.
#[derive(Clone, Copy, Debug, PartialEq, Eq)]
struct AtLock {
    replies: [Result<u64, ConeFault>; 2],
    turn: Turn<u64, ConeFault>,
    waited: Result<u64, ConeFault>,
    taken: u64,
}

fn act_beside<R: Threads + Wait + Sync>(
    rt: &R,
    lock: ConeLock<Station>,
    mut first: Pass<Station>,
    mut second: Pass<Station>,
    meeting: &Meeting,
) -> AtLock
    requires { AreLockPasses lock first second }
{
    let Meeting {
        flags,
        mine,
        theirs,
    } = meeting;
    let (replies, (turn, waited)) = join_mut(
        rt,
        &mut ||
            requires { BelongsTo first lock × (mine.now.by ≡ first.lo) }
            ensures { BelongsTo first.exit lock × (first.exit.lo ≡ first.entry.lo) × (first.exit.hi ≡ first.entry.hi) }
        { act_twice(rt, &lock, &mut first, mine, flags) },
        &mut ||
            requires { BelongsTo second lock × (theirs.now.by ≡ second.lo) }
            ensures { BelongsTo second.exit lock × (second.exit.lo ≡ second.entry.lo) × (second.exit.hi ≡ second.entry.hi) }
        { try_and_wait(rt, &lock, &mut second, theirs, flags) },
    );
    lock.join(&mut first, second);
    AtLock {
        replies,
        turn,
        waited,
        taken: lock.close(first).taken,
    }
}

fn at_lock<R: Threads + Wait + Sync + Abort>(rt: &R, alloc: Global, role: Role) -> AtLock {
    let meeting = new_meeting(rt, alloc);
    let state = empty_station(rt, &meeting.flags, role);
    let (lock, first, second) = lock_of_two(rt, alloc, state);
    act_beside(rt, lock, first, second, &meeting)
}

// A lock that woke nobody would leave the second thread asleep.
#[test]
fn a_second_thread_finds_the_lock_held_waits_for_it_and_is_woken(rt: HostRuntime) {
    let expected = AtLock {
        replies: [Ok(1), Ok(3)],
        turn: Turn::Busy,
        waited: Ok(2),
        taken: 3,
    };
    assert_eq!(rt; at_lock(&rt, rt.alloc(), Role::Lingers), expected);
}

// A lock that woke nobody there would answer the first thread's second call first.
#[test]
fn a_second_thread_is_woken_also_where_the_first_one_is_refused(rt: HostRuntime) {
    let expected = AtLock {
        replies: [Err(ConeFault::Broken), Ok(2)],
        turn: Turn::Busy,
        waited: Ok(1),
        taken: 2,
    };
    assert_eq!(rt; at_lock(&rt, rt.alloc(), Role::Refuses), expected);
}

// The second thread tries both cones once it knows that the first one is inside the first cone, for which it then waits.
fn try_both_and_wait<R: Wait>(
    rt: &R,
    fleet: &Fleet<Station>,
    pass: &mut FleetPass<Station>,
    entry: &Entry,
    flags: &Flags,
) -> ([Turn<u64, ConeFault>; 2], Result<u64, ConeFault>)
    requires cones { length fleet.now ≡ 2 }
    requires belongs { IsPassOf pass.old fleet.now }
    requires number { entry.now.by ≡ pass.old.lo }
    ensures belongs { IsPassOf pass.new fleet.now }
    ensures range { (pass.new.lo ≡ pass.old.lo) × (pass.new.hi ≡ pass.old.hi) }
{
    let _seen = flags.await_inside();
    let turns = [
        fleet.try_admit(pass, 0, entry),
        fleet.try_admit(pass, 1, entry),
    ];
    flags.answer();
    (turns, fleet.admit(rt, pass, 0, entry))
}

// What the threads of a fleet were told: the first one's reply, what the second one's tries came to, the reply that it
// waited for, and how many states came back.
#[derive(Clone, Copy, Debug, PartialEq, Eq)]
struct AtFleet {
    reply: Result<u64, ConeFault>,
    turns: [Turn<u64, ConeFault>; 2],
    waited: Result<u64, ConeFault>,
    states: usize,
}

fn admit_beside<R: Threads + Wait + Sync>(
    rt: &R,
    fleet: Fleet<Station>,
    mut first: FleetPass<Station>,
    mut second: FleetPass<Station>,
    meeting: &Meeting,
) -> AtFleet
    requires cones { length fleet ≡ 2 }
    requires passes { ArePasses fleet first second }
{
    let Meeting {
        flags,
        mine,
        theirs,
    } = meeting;
    let (reply, (turns, waited)) = join_mut(
        rt,
        &mut || fleet.admit(rt, &mut first, 0, mine),
        &mut ||
            requires { (length fleet ≡ 2) × IsPassOf second fleet × (theirs.now.by ≡ second.lo) }
        { try_both_and_wait(rt, &fleet, &mut second, theirs, flags) },
    );
    fleet.join(&mut first, second);
    AtFleet {
        reply,
        turns,
        waited,
        states: fleet.close(first).len(),
    }
}

fn at_fleet<R: Threads + Wait + Sync + Abort>(rt: &R, alloc: Global) -> AtFleet {
    let meeting = new_meeting(rt, alloc);
    let roles = (Role::Lingers, Role::Counts);
    let states = two_stations(rt, alloc, &meeting.flags, roles);
    let (fleet, first, second) = fleet_of_two(rt, alloc, states);
    admit_beside(rt, fleet, first, second, &meeting)
}

#[test]
fn a_cone_is_free_while_another_is_held_and_who_waits_for_that_is_woken(rt: HostRuntime) {
    let expected = AtFleet {
        reply: Ok(1),
        turns: [Turn::Busy, Turn::Done(1)],
        waited: Ok(2),
        states: 2,
    };
    assert_eq!(rt; at_fleet(&rt, rt.alloc()), expected);
}
