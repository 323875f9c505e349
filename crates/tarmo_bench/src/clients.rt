//! How long calls of clients take: through the service, on a bare board, and round std's `Mutex`
//! with a vector of segments.

mod calls;
mod threads;
mod vector;

use anyhow::{Result, ensure};
use sat_base::limits::MOST_JOBS;
use std::alloc::Global;
use std::rt::Clock;
use std::sync::Wait;
use std::thread::Threads;

// So few that a run ends at once.
const FEW: u32 = 400;

/// What the same calls took: each adds a job, or asks for a job's verdict.
#[derive(Clone, Copy)]
pub(crate) struct Times {
    /// Microseconds of all calls that add.
    pub(crate) adding: u64,
    /// Microseconds of all calls that ask.
    pub(crate) asking: u64,
    /// How many calls were answered as they should be.
    pub(crate) answered: u64,
}

// Tenths of the ratio of two times.
fn ratio(time: u64, other: u64) -> (u64, u64) {
    let tenths = time.saturating_mul(10) / other.max(1);
    (tenths / 10, tenths % 10)
}

/// Adds so many jobs and asks for each, by 1, 2 and 4 clients, and tells the times.
pub(crate) fn measure<R: Threads + Wait + Clock + Print + Sync>(
    rt: &R,
    alloc: Global,
    given: Option<u32>,
) -> Result<()> {
    let jobs = given.unwrap_or(FEW);
    ensure!(jobs <= MOST_JOBS, "at most 1048576 jobs");
    let bare = calls::by_board(rt, alloc, jobs)?;
    println!(rt; "bare board: {} calls answered", bare.answered)?;
    for clients in [1, 2, 4] {
        let service = threads::by_service(rt, alloc, clients, jobs)?;
        let vector = vector::by_mutex(rt, alloc, clients, jobs)?;
        println!(rt;
            "clients {clients}: {} and {} calls answered",
            service.answered, vector.answered
        )?;
        if given.is_some() {
            let pairs = [
                ("add", service.adding, bare.adding, vector.adding),
                ("result", service.asking, bare.asking, vector.asking),
            ];
            for (name, time, board, mutex) in pairs {
                let (ones, tenths) = ratio(time, board);
                let (mutex_ones, mutex_tenths) = ratio(time, mutex);
                println!(rt;
                    "{name}: {time} us by service, {board} us by board, ratio {ones}.{tenths}, \
                     {mutex} us by Mutex, ratio {mutex_ones}.{mutex_tenths}"
                )?;
            }
        }
    }
    Ok(())
}
