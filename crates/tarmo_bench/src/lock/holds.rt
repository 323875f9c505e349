//! The same holds by either lock, shared out among threads.
ghost use Rattle.std.specs.Prelude.{◌≡◌, ◌<◌, ◌≤◌, ℕ, true, [], length, slice_index_or, All};
ghost use Rattle.turn_lock.specs.Passes.{PassView, IsOf};

use crate::lock::log::Log;
use std::alloc::Global;
use std::rt::Clock;
use std::sync::{Mutex, Wait};
use std::thread::Threads;
use std::time::Instant;
use std::{io, thread};
use turn_lock::{Pass, TurnLock};

/// How long all holds took, and how many left an entry.
#[derive(Clone, Copy)]
pub struct Run {
    pub micros: u64,
    pub holds: usize,
}

fn hold_often<R: Wait>(rt: &R, lock: &TurnLock<Log>, pass: &mut Pass<Log>, times: u64)
    requires lock { IsOf lock.now pass.old }
    requires idle { pass.old.idle ≡ true }
    ensures lock { IsOf lock.now pass.new }
    ensures idle { pass.new.idle ≡ true }
    ensures number { pass.new.number ≡ pass.old.number }
{
    for number in 0..times {
        let mut held = lock.enter(rt, pass);
        let _ = held.value().add(pass.number(), number);
        lock.leave(pass, held);
    }
}

fn all_hold_often<R: Threads + Wait + Sync>(
    rt: &R,
    lock: &TurnLock<Log>,
    passes: &mut [Pass<Log>],
    times: u64,
)
    requires { All (λ pass. IsOf lock.now pass × (pass.idle ≡ true)) passes.old }
    ensures { (k : ℕ) (d : PassView (ℕ × ℕ) ℕ) → k < length passes.old
        → IsOf lock.now (slice_index_or passes.new k d)
        × ((slice_index_or passes.new k d).idle ≡ true)
        × ((slice_index_or passes.new k d).number ≡ (slice_index_or passes.old k d).number) }
{
    thread::for_each_mut(
        rt,
        passes,
        80,
        &|_: usize, pass: &mut Pass<Log>|
            requires { IsOf lock.now pass.old × (pass.old.idle ≡ true) }
            ensures { IsOf lock.entry.now pass.new × (pass.new.idle ≡ true)
                × (pass.new.number ≡ pass.old.number) }
        { hold_often(rt, lock, pass, times) },
    );
}

pub fn by_turn_lock<R: Threads + Wait + Clock + Sync>(
    rt: &R,
    alloc: Global,
    threads: u32,
    holds: u64,
) -> io::Result<Run>
    requires some { 0 < threads }
    requires most { threads ≤ 80 }
{
    let log = Log {
        items: Vec::new(alloc),
    };
    let (lock, mut passes) = TurnLock::make(alloc, log, threads)?;
    let micros = time_of_all(rt, &lock, passes.as_mut_slice(), holds / threads as u64);
    let log = lock.close(passes, Vec::new(alloc));
    Ok(Run {
        micros: micros?,
        holds: log.items.len(),
    })
}

// How many microseconds it takes that each pass holds the lock so often.
fn time_of_all<R: Threads + Wait + Clock + Sync>(
    rt: &R,
    lock: &TurnLock<Log>,
    passes: &mut [Pass<Log>],
    times: u64,
) -> io::Result<u64>
    requires { All (λ pass. IsOf lock.now pass × (pass.idle ≡ true)) passes.old }
    ensures { (k : ℕ) (d : PassView (ℕ × ℕ) ℕ) → k < length passes.old
        → IsOf lock.now (slice_index_or passes.new k d)
        × ((slice_index_or passes.new k d).idle ≡ true)
        × ((slice_index_or passes.new k d).number ≡ (slice_index_or passes.old k d).number) }
{
    let start = Instant::now(rt);
    all_hold_often(rt, lock, passes, times);
    let time = start?.elapsed(rt)?;
    Ok(u64::try_from(time.as_micros()).unwrap_or(u64::MAX))
}

fn lock_often<R: Wait>(rt: &R, log: &Mutex<Log>, caller: u32, times: u64) {
    for number in 0..times {
        let _ = log.lock(rt).add(caller, number);
    }
}

pub fn by_mutex<R: Threads + Wait + Clock + Sync>(
    rt: &R,
    alloc: Global,
    threads: u32,
    holds: u64,
) -> io::Result<Run>
    requires { 0 < threads }
{
    let log = Mutex::new(Log {
        items: Vec::new(alloc),
    });
    let shared = &log;
    let mut callers: Vec<u32> = (1..=threads).collect(alloc)?;
    let times = holds / threads as u64;
    let start = Instant::now(rt)?;
    thread::for_each_mut(
        rt,
        callers.as_mut_slice(),
        80,
        &|_: usize, caller: &mut u32| { lock_often(rt, shared, *caller, times) },
    );
    let time = start.elapsed(rt)?;
    Ok(Run {
        micros: u64::try_from(time.as_micros()).unwrap_or(u64::MAX),
        holds: log.into_inner().items.len(),
    })
}
