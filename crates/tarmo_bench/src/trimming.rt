//! Trims and prints a long derivation.
//!
//! The inputs are a variable and implications from each variable to the next one. The i-th own step
//! derives the variable behind the i-th from the step before it and an implication, so the last one
//! rests on all of them.

mod chain;

use anyhow::{Result, ensure};
use std::time::CpuClock;
use step_table::Steps;

/// Trims and prints so many steps, and tells the processor time that both took.
pub(crate) fn measure(rt: &HostRuntime, given: Option<u32>) -> Result<()> {
    let count = given.unwrap_or(1000);
    ensure!(count <= chain::MOST, "at most 1000000 steps");

    let steps = chain::steps(rt.alloc(), count)?;
    let own = Steps::of(rt.alloc(), &steps)?;
    let start = rt.process_cpu_time()?;
    let trimmed = chain::trimmed(rt.alloc(), count, &steps, &own)?;
    let trimming = rt.process_cpu_time()?.saturating_sub(start);
    let start = rt.process_cpu_time()?;
    let text = chain::printed(rt.alloc(), count, &trimmed)?;
    let printing = rt.process_cpu_time()?.saturating_sub(start);

    let kept = trimmed.len();
    let bytes = text.len();
    println!(rt; "{count} steps, {kept} of them kept, {bytes} bytes")?;
    if given.is_some() {
        println!(rt; "trimming {trimming:?}, printing {printing:?}")?;
    }
    Ok(())
}
