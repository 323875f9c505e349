//! Checks a long trace.
//!
//! The inputs are implications from each variable to the next one. Each step has ten of them as
//! hints and derives that a variable implies the tenth after it. The steps jump over the inputs, so
//! that the checker's memory is read out of order.

mod long_trace;

use anyhow::{Result, ensure};
use std::time::CpuClock;
use trace_core::Checker;

/// Checks so many steps, and tells the processor time that the inputs and the checks took.
pub(crate) fn measure(rt: &HostRuntime, given: Option<u32>) -> Result<()> {
    let count = given.unwrap_or(1000);
    ensure!(count <= long_trace::MOST, "at most 1000000 steps");

    let mut checker = Checker::new(rt.alloc());
    let start = rt.process_cpu_time()?;
    long_trace::add_inputs(rt.alloc(), &mut checker, count)?;
    let inputs = rt.process_cpu_time()?.saturating_sub(start);
    let steps = long_trace::steps(rt.alloc(), count)?;
    let start = rt.process_cpu_time()?;
    let ok = long_trace::are_ok(&mut checker, &steps)?;
    let checks = rt.process_cpu_time()?.saturating_sub(start);

    println!(rt; "{count} steps, all ok: {ok}")?;
    if given.is_some() {
        println!(rt; "inputs {inputs:?}, checks {checks:?}")?;
    }
    Ok(())
}
