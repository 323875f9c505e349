//! How long a hold of `turn_lock` takes beside one of std's `Mutex`, where each hold adds an entry
//! to a log.

mod holds;
mod log;

use crate::lock::holds::{by_mutex, by_turn_lock};
use anyhow::Result;
use std::alloc::Global;
use std::rt::Clock;
use std::sync::Wait;
use std::thread::Threads;

// So few that a run ends at once.
const FEW: u32 = 400;

/// Holds each lock so often by 1, 2 and 4 threads, and tells the times.
pub(crate) fn measure<R: Threads + Wait + Clock + Print + Sync>(
    rt: &R,
    alloc: Global,
    given: Option<u32>,
) -> Result<()> {
    let holds = given.unwrap_or(FEW) as u64;
    for threads in [1, 2, 4] {
        let turns = by_turn_lock(rt, alloc, threads, holds)?;
        let mutex = by_mutex(rt, alloc, threads, holds)?;
        println!(rt;
            "threads {threads}: {} and {} holds",
            turns.holds, mutex.holds
        )?;
        if given.is_some() {
            let tenths = turns.micros.saturating_mul(10) / mutex.micros.max(1);
            println!(rt;
                "{} us by turn_lock, {} us by Mutex, ratio {}.{}",
                turns.micros,
                mutex.micros,
                tenths / 10,
                tenths % 10
            )?;
        }
    }
    Ok(())
}
