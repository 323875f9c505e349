//! Adds jobs to a board, and takes and ends an attempt at each.

mod calls;

use anyhow::{Result, ensure};
use sat_base::limits::MOST_JOBS;
use std::time::CpuClock;

/// Takes so many jobs, and tells the processor time that adding took, and taking and ending.
pub(crate) fn measure(rt: &HostRuntime, given: Option<u32>) -> Result<()> {
    let count = given.unwrap_or(1000);
    ensure!(count <= MOST_JOBS, "at most 1048576 jobs");

    let mut board = calls::board(rt.alloc())?;
    let start = rt.process_cpu_time()?;
    calls::add_all(rt.alloc(), &mut board, count)?;
    let adding = rt.process_cpu_time()?.saturating_sub(start);
    let start = rt.process_cpu_time()?;
    calls::end_all(&mut board, count)?;
    let ending = rt.process_cpu_time()?.saturating_sub(start);

    let settled = board.settled();
    println!(rt; "{count} jobs, {settled} of them settled")?;
    if given.is_some() {
        println!(rt; "adding {adding:?}, taking and ending {ending:?}")?;
    }
    Ok(())
}
