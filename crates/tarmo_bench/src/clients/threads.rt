//! The calls of clients in threads of their own, through one service.
ghost use Rattle.std.specs.Prelude.{◌≡◌, ◌+◌, ◌<◌, ◌≤◌, ℕ, length, slice_index_or, All};
ghost use Rattle.service.specs.Passes.{BoardPass, IsReady, IsClientPass};

use crate::clients::Times;
use crate::clients::calls::{micros, segment};
use anyhow::Result;
use board_core::AskFault;
use entry_core::{Rules, Segment};
use service::{ClientPass, Service};
use std::alloc::Global;
use std::rt::Clock;
use std::sync::Wait;
use std::sync::atomic::AtomicU64;
use std::sync::atomic::Ordering::SeqCst;
use std::thread;
use std::thread::Threads;
use std::time::Instant;

// Adds so many jobs.
fn add_often<R: Wait>(
    rt: &R,
    alloc: Global,
    service: &Service,
    pass: &mut ClientPass,
    times: u32,
    answered: &AtomicU64,
)
    requires ready { IsReady service.now.lock pass.old }
    requires client { IsClientPass service.now.lock pass.old }
    ensures ready { IsReady service.now.lock pass.new }
    ensures client { IsClientPass service.now.lock pass.new }
{
    for _ in 0..times {
        let Ok(Segment { clauses, cube }) = segment(alloc) else {
            return;
        };
        if service.add(rt, pass, clauses, cube).is_ok() {
            answered.fetch_add(1, SeqCst);
        }
    }
}

// Asks for jobs 1 to `times`.
fn ask_often<R: Wait>(
    rt: &R,
    service: &Service,
    pass: &mut ClientPass,
    times: u32,
    answered: &AtomicU64,
)
    requires ready { IsReady service.now.lock pass.old }
    requires client { IsClientPass service.now.lock pass.old }
    ensures ready { IsReady service.now.lock pass.new }
    ensures client { IsClientPass service.now.lock pass.new }
{
    for job in 1..=times {
        if matches!(service.result(rt, pass, job), Err(AskFault::NotYet)) {
            answered.fetch_add(1, SeqCst);
        }
    }
}

// Each client adds so many jobs.
fn all_add<R: Threads + Wait + Sync>(
    rt: &R,
    alloc: Global,
    service: &Service,
    passes: &mut [ClientPass],
    times: u32,
    answered: &AtomicU64,
)
    requires { All (λ pass. IsReady service.now.lock pass × IsClientPass service.now.lock pass)
        passes.old }
    ensures { (k : ℕ) (d : BoardPass) → k < length passes.old
        → IsReady service.now.lock (slice_index_or passes.new k d)
        × IsClientPass service.now.lock (slice_index_or passes.new k d) }
{
    thread::for_each_mut(
        rt,
        passes,
        80,
        &|_: usize, pass: &mut ClientPass|
            requires { IsReady service.now.lock pass.old × IsClientPass service.now.lock pass.old }
            ensures { IsReady service.entry.now.lock pass.new
                × IsClientPass service.entry.now.lock pass.new }
        { add_often(rt, alloc, service, pass, times, answered) },
    );
}

// Each client asks for so many jobs.
fn all_ask<R: Threads + Wait + Sync>(
    rt: &R,
    service: &Service,
    passes: &mut [ClientPass],
    times: u32,
    answered: &AtomicU64,
)
    requires { All (λ pass. IsReady service.now.lock pass × IsClientPass service.now.lock pass)
        passes.old }
{
    thread::for_each_mut(
        rt,
        passes,
        80,
        &|_: usize, pass: &mut ClientPass|
            requires { IsReady service.now.lock pass.old × IsClientPass service.now.lock pass.old }
        { ask_often(rt, service, pass, times, answered) },
    );
}

/// Adds so many jobs by these clients together, then asks as often.
pub(crate) fn by_service<R: Threads + Wait + Clock + Sync>(
    rt: &R,
    alloc: Global,
    clients: u32,
    jobs: u32,
) -> Result<Times>
    requires some { 0 < clients }
    requires most { clients ≤ 4 }
{
    let rules = Rules {
        clients,
        workers: 1,
        attempts: 1,
        conflicts: 1,
        first: false,
        traces: false,
    };
    let (service, mut passes, _) = Service::make(alloc, rules)?;
    all_times(rt, alloc, &service, passes.as_mut_slice(), jobs / clients)
}

// What it takes that each client adds so many jobs, and then that each asks as often.
fn all_times<R: Threads + Wait + Clock + Sync>(
    rt: &R,
    alloc: Global,
    service: &Service,
    passes: &mut [ClientPass],
    times: u32,
) -> Result<Times>
    requires { All (λ pass. IsReady service.now.lock pass × IsClientPass service.now.lock pass)
        passes.old }
{
    let answered = AtomicU64::new(0);
    let start = Instant::now(rt)?;
    all_add(rt, alloc, service, passes, times, &answered);
    let adding = micros(start.elapsed(rt)?);
    let start = Instant::now(rt)?;
    all_ask(rt, service, passes, times, &answered);
    let asking = micros(start.elapsed(rt)?);
    Ok(Times {
        adding,
        asking,
        answered: answered.load(SeqCst),
    })
}
