//! The lock of a cone in one thread.

ghost use Rattle.std.specs.Prelude.{◌≡◌, ◌++◌, List, [], ◌∷◌, IfOk};
ghost use Rattle.lert_base.specs.Packet.{Packet};
ghost use Rattle.lert_base.specs.Entries.{packet_of};
ghost use Rattle.lert_conelock.specs.Prefix.{IsPrefix};
ghost use Rattle.lert_conelock.specs.After.{StandsAfter, AnswersAfter};
ghost use Rattle.lert_conelock.specs.Sight.{BelongsTo};

use crate::callers::lock_of_two;
use crate::counter::{Counter, Full, entry_of};
use lert_base::{Entry, Held};
use lert_conelock::{ConeLock, Pass, Turn};
use std::alloc::Global;
use std::process::Abort;
use std::sync::Wait;

// What two callers of a lock were told, and what its counter counted under number 0 and under others.
#[derive(Clone, Copy, Debug, PartialEq, Eq)]
struct Told {
    numbers: (u32, u32),
    replies: [Result<u64, Full>; 2],
    admitted: u64,
    counted: (u64, u64),
}

// Each of two callers acts once, and the first one looks behind that.
fn act_and_look<R: Wait + Abort>(rt: &R, alloc: Global) -> Told {
    let mine = entry_of(rt, alloc, 0);
    let theirs = entry_of(rt, alloc, 1);
    let (lock, mut first, mut second) = lock_of_two(rt, alloc, Counter::new('a', 8));
    let numbers = (first.number(), second.number());
    let replies = [
        lock.act(rt, &mut first, &mine),
        lock.act(rt, &mut second, &theirs),
    ];
    let admitted = lock.admitted(&mut first);
    lock.join(&mut first, second);
    let counter = lock.close(first);
    Told {
        numbers,
        replies,
        admitted,
        counted: (counter.zeros, counter.others),
    }
}

// The caller that acted first learns of the other one's call by looking alone.
#[test]
fn admitted_looks_and_each_call_counts_once(rt: HostRuntime) {
    let expected = Told {
        numbers: (0, 1),
        replies: [Ok(1), Ok(2)],
        admitted: 2,
        counted: (1, 1),
    };
    assert_eq!(rt; act_and_look(&rt, rt.alloc()), expected);
}

// What the calls of one caller were answered at a counter that has room for one packet.
#[derive(Clone, Copy, Debug, PartialEq, Eq)]
struct Refused {
    tries: [Turn<u64, Full>; 2],
    reply: Result<u64, Full>,
    admitted: u64,
    counted: (u64, u64),
}

fn act_past_the_room<R: Wait + Abort>(rt: &R, alloc: Global) -> Refused {
    let entry = entry_of(rt, alloc, 0);
    let Ok((lock, mut pass)) = ConeLock::new(alloc, Counter::new('a', 1), 1) else {
        panic!(rt; "memory");
    };
    let tries = [
        lock.try_act(&mut pass, &entry),
        lock.try_act(&mut pass, &entry),
    ];
    let reply = lock.act(rt, &mut pass, &entry);
    let admitted = lock.admitted(&mut pass);
    let counter = lock.close(pass);
    Refused {
        tries,
        reply,
        admitted,
        counted: (counter.zeros, counter.others),
    }
}

#[test]
fn a_refusal_is_handed_on_and_changes_nothing(rt: HostRuntime) {
    let expected = Refused {
        tries: [Turn::Done(1), Turn::Refused(Full)],
        reply: Err(Full),
        admitted: 1,
        counted: (1, 0),
    };
    assert_eq!(rt; act_past_the_room(&rt, rt.alloc()), expected);
}

// The contracts compose: the reply is the one at the call's own point of the history that the closed
// state stands for, whatever the other pass had seen before the two were joined.
fn act_join_close<S: Held, R: Wait>(
    rt: &R,
    lock: ConeLock<S>,
    mut pass: Pass<S>,
    other: Pass<S>,
    entry: &Entry,
) -> (Result<S::Reply, S::Refusal>, S)
    requires belongs { BelongsTo pass lock × BelongsTo other lock }
    requires number { entry.now.by ≡ pass.lo }
    requires fits { S.fits (S.terms lock.first) (packet_of entry.now) }
    requires all { (pass.lo ≡ 0) × (other.lo ≡ pass.hi) × (other.hi ≡ lock.numbers) }
    ensures { (history : List Packet) × StandsAfter S.Held lock.first history result.1
        × IfOk result.0 (λ reply. (past : List Packet)
        × IsPrefix (past ++ packet_of entry.now ∷ []) history
        × AnswersAfter S.Held lock.first past (packet_of entry.now) reply) }
{
    let reply = lock.act(rt, &mut pass, entry);
    lock.join(&mut pass, other);
    (reply, lock.close(pass))
}

// The second caller's reply, then the first one's, and what was counted.
fn reply_behind_another<R: Wait + Abort>(
    rt: &R,
    alloc: Global,
) -> ([Result<u64, Full>; 2], (u64, u64)) {
    let mine = entry_of(rt, alloc, 0);
    let theirs = entry_of(rt, alloc, 1);
    let (lock, first, mut second) = lock_of_two(rt, alloc, Counter::new('a', 8));
    let before = lock.act(rt, &mut second, &theirs);
    let (reply, counter) = act_join_close(rt, lock, first, second, &mine);
    ([before, reply], (counter.zeros, counter.others))
}

#[test]
fn a_reply_stands_in_the_history_of_the_close(rt: HostRuntime) {
    let told = reply_behind_another(&rt, rt.alloc());
    assert_eq!(rt; told, ([Ok(1), Ok(2)], (1, 1)));
}
