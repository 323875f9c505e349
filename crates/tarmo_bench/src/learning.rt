//! Learns from the same conflict over and over.
//!
//! The text is three pigeons in two holes, and a clause of one literal for each further variable,
//! so that the trail is as long as the text has variables. The time of a call must not grow with
//! it.

mod instance;
mod search;

use crate::learning::instance::{learn_once, prepare};
use analyze::Scratch;
use anyhow::{Context, Result, ensure};
use sat_base::limits::GREATEST_VARIABLE;
use std::time::CpuClock;

/// Learns so often from a text of so many variables, and tells the processor time of the calls.
pub(crate) fn measure(rt: &HostRuntime, vars: Option<u32>, calls: Option<u32>) -> Result<()> {
    let given = vars.is_some();
    let vars = vars.unwrap_or(100);
    let calls = calls.unwrap_or(10);
    ensure!(
        vars >= 6 && vars <= GREATEST_VARIABLE,
        "6 to 8388607 variables"
    );

    let alloc = rt.alloc();
    let conflict = prepare(alloc, vars)?.context("no conflict")?;
    let mut scratch = Scratch::new(alloc);
    scratch.reserve(vars)?;
    let mut hints = 0u64;
    let start = rt.process_cpu_time()?;
    for _ in 0..calls {
        let learnt = learn_once(alloc, &mut scratch, &conflict)?;
        hints = hints.saturating_add(learnt.step.hints.items().len() as u64);
    }
    let time = rt.process_cpu_time()?.saturating_sub(start);
    println!(rt; "{vars} variables, {calls} clauses learnt with {hints} hints")?;
    if given {
        println!(rt; "{time:?}")?;
    }
    Ok(())
}
