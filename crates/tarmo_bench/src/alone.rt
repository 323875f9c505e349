//! The program's run on one thread: `run_alone` over standard input and output, with the words
//! behind `alone`. So a measurement sees what the threads of `tarmo` cost.

use anyhow::{Result, bail};
use run_io::{StdSink, StdSource};
use std::env;
use tarmo_run::{UNDECIDED, run_alone};

/// Runs, and fails where the status is above 1.
pub(crate) fn measure(rt: &HostRuntime) -> Result<()> {
    let words: Vec<String> = env::args(rt)?.skip(2).collect(rt.alloc())?;
    let mut source = StdSource::new(rt);
    let mut sink = StdSink::new(rt);
    let status = run_alone(rt.alloc(), &words, &mut source, &mut sink).status;
    if status > UNDECIDED {
        bail!("status {status}");
    }
    Ok(())
}
