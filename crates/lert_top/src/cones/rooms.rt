//! The memory of cones.

ghost use Rattle.std.specs.Prelude.{◌≡◌, ◌-◌, ◌/◌, ◌^◌, All, length, IfOk};
ghost use Rattle.std.specs.Thread.{IsSync};
ghost use Rattle.lert_ingest.specs.Cones.{IsNewRoom};

use lert_base::Settings;
use lert_cone::ConeRoom;
use lert_cqf::Cqf;
use lert_io::OutOfMemory;
use std::alloc::Global;
use std::random::RandomSource;
use std::thread::{Threads, join};

/// The memory of all cones, made by at most so many threads, of which the caller's is one. Where no thread can be started the
/// caller makes it. The reports of all cones are under one secret, which is drawn here. Its only error is want of memory.
pub fn make_rooms<R: Threads + Sync + RandomSource>(
    rt: &R,
    alloc: Global,
    settings: &Settings,
    threads: u32,
) -> Result<Vec<ConeRoom<Cqf>>, OutOfMemory>
    ensures number { IfOk result (λ rooms. length rooms.items ≡ 2 ^ settings.now.cone_bits) }
    ensures each { IfOk result (λ rooms. All (IsNewRoom settings.now) rooms.items) }
{
    let secret = draw_secret(rt);
    share_rooms(rt, alloc, settings, secret, settings.cones(), threads)
}

/// A number that nobody can know before, from the system's random bytes, under which reports are held. Where the system gives
/// none it is 0, as everybody knows: then keys can be chosen that make a run slow, and no answer is another.
pub fn draw_secret<R: RandomSource>(rt: &R) -> u64 {
    let mut bytes = [0; 8];
    match rt.fill_bytes(&mut bytes) {
        Ok(()) => u64::from_le_bytes(bytes),
        Err(_) => 0,
    }
}

/// The memory of so many cones with their reports under a secret, made by the caller's thread alone. Its only error is want of
/// memory.
pub fn make_rooms_alone(
    alloc: Global,
    settings: &Settings,
    secret: u64,
    number: u32,
) -> Result<Vec<ConeRoom<Cqf>>, OutOfMemory>
    ensures number { IfOk result (λ rooms. length rooms.items ≡ number) }
    ensures each { IfOk result (λ rooms. All (IsNewRoom settings.now) rooms.items) }
{
    let mut rooms = Vec::with_capacity(alloc, number as usize)?;
    for _ in 0..number {
        rooms.push(ConeRoom::new(alloc, settings)?.with_secret(secret))?;
    }
    Ok(rooms)
}

// The memory of so many cones, half of which another thread makes, where there may be two.
fn share_rooms<R: Threads + Sync>(
    rt: &R,
    alloc: Global,
    settings: &Settings,
    secret: u64,
    number: u32,
    threads: u32,
) -> Result<Vec<ConeRoom<Cqf>>, OutOfMemory>
    ensures number { IfOk result (λ rooms. length rooms.items ≡ number) }
    ensures each { IfOk result (λ rooms. All (IsNewRoom settings.now) rooms.items) }
{
    if number < 2 || threads < 2 {
        return make_rooms_alone(alloc, settings, secret, number);
    }
    let (front, back) = join(
        rt,
        || -> Result<Vec<ConeRoom<Cqf>>, OutOfMemory>
            requires sync { IsSync R.row }
            ensures number { IfOk result (λ rooms. length rooms.items ≡ number / 2) }
            ensures each { IfOk result (λ rooms. All (IsNewRoom settings.entry.now) rooms.items) }
        { share_rooms(rt, alloc, settings, secret, number / 2, threads / 2) },
        || -> Result<Vec<ConeRoom<Cqf>>, OutOfMemory>
            requires sync { IsSync R.row }
            ensures number { IfOk result (λ rooms. length rooms.items ≡ number - number / 2) }
            ensures each { IfOk result (λ rooms. All (IsNewRoom settings.entry.now) rooms.items) }
        {
            share_rooms(
                rt,
                alloc,
                settings,
                secret,
                number - number / 2,
                threads - threads / 2,
            )
        },
    );
    let mut rooms = front?;
    rooms.append(&mut back?)?;
    Ok(rooms)
}
