//! The same calls round a vector in one of std's `Mutex`es.
ghost use Rattle.std.specs.Prelude.{◌<◌};

use crate::clients::Times;
use crate::clients::calls::{micros, segment};
use anyhow::Result;
use entry_core::Segment;
use std::alloc::Global;
use std::rt::Clock;
use std::sync::atomic::AtomicU64;
use std::sync::atomic::Ordering::SeqCst;
use std::sync::{Arc, Mutex, Wait};
use std::thread;
use std::thread::Threads;
use std::time::Instant;

type Segments = Mutex<Vec<Arc<Segment>>>;

fn add_often<R: Wait>(
    rt: &R,
    alloc: Global,
    segments: &Segments,
    times: u32,
    answered: &AtomicU64,
) {
    for _ in 0..times {
        let Ok(segment) = segment(alloc) else {
            return;
        };
        let Ok(segment) = Arc::new(alloc, segment) else {
            return;
        };
        if segments.lock(rt).push(segment).is_ok() {
            answered.fetch_add(1, SeqCst);
        }
    }
}

fn ask_often<R: Wait>(rt: &R, segments: &Segments, times: u32, answered: &AtomicU64) {
    for place in 0..times {
        let found = match segments.lock(rt).get(place as usize) {
            Some(segment) => segment.clone().is_ok(),
            None => false,
        };
        if found {
            answered.fetch_add(1, SeqCst);
        }
    }
}

/// Puts so many segments into the vector by these clients together, then looks as often at one.
pub(crate) fn by_mutex<R: Threads + Wait + Clock + Sync>(
    rt: &R,
    alloc: Global,
    clients: u32,
    jobs: u32,
) -> Result<Times>
    requires { 0 < clients }
{
    let segments: Segments = Mutex::new(Vec::new(alloc));
    let shared = &segments;
    let answered = AtomicU64::new(0);
    let counted = &answered;
    let times = jobs / clients;
    let mut callers: Vec<u32> = (1..=clients).collect(alloc)?;
    let start = Instant::now(rt)?;
    thread::for_each_mut(
        rt,
        callers.as_mut_slice(),
        80,
        &|_: usize, _: &mut u32| { add_often(rt, alloc, shared, times, counted) },
    );
    let adding = micros(start.elapsed(rt)?);
    let start = Instant::now(rt)?;
    thread::for_each_mut(
        rt,
        callers.as_mut_slice(),
        80,
        &|_: usize, _: &mut u32| { ask_often(rt, shared, times, counted) },
    );
    let asking = micros(start.elapsed(rt)?);
    Ok(Times {
        adding,
        asking,
        answered: answered.load(SeqCst),
    })
}
