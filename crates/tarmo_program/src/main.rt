//! The program `tarmo`: makes the real source and sink, calls the run and ends with its status.
//!
//! Everything that the program promises is the contract of `run`. It knows no text and no answer.
#![tactic(auto)]

use run_io::{NoGate, StdSink, StdSource};
use std::process::ExitCode;
use std::{env, io};
use tarmo_run::{NO_MEMORY, WORDS_REFUSED, run};
use words::{WordsFault, usage};

fn main(rt: HostRuntime) -> ExitCode {
    let status = match arguments(&rt) {
        Ok(words) => {
            let mut source = StdSource::new(&rt);
            let mut sink = StdSink::new(&rt);
            run(&rt, rt.alloc(), &words, &mut source, &mut sink, &NoGate).status
        }
        Err(fault) if fault.kind() == io::ErrorKind::OutOfMemory => NO_MEMORY,
        // A word that is no UTF-8 is a word all the same.
        Err(_) => WORDS_REFUSED,
    };
    if status == WORDS_REFUSED {
        let _ = show_usage(&rt);
    }
    ExitCode::from(status)
}

// The words behind the program's name.
fn arguments(rt: &HostRuntime) -> io::Result<Vec<String>> {
    Ok(env::args(rt)?.skip(1).collect(rt.alloc())?)
}

// Says on standard error that the words are refused, and below it which ones there are.
fn show_usage(rt: &HostRuntime) -> io::Result<()> {
    eprintln!(rt; "{}", WordsFault::Refused)?;
    eprint!(rt; "{}", usage(rt.alloc())?)
}
