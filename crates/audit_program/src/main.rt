//! The program `tarmo_audit`: makes the real sources and sink, calls the run and ends with its
//! status.
//!
//! Everything that the program promises is the contract of `audit_run`. It knows no text and no
//! rule.
#![tactic(auto)]

use audit_run::audit_run;
use run_io::{StdSink, StdSource};
use std::process::ExitCode;
use std::{env, io};

const WORDS_REFUSED: u8 = 5;

const NO_MEMORY: u8 = 6;

fn main(rt: HostRuntime) -> ExitCode {
    let status = match words(&rt) {
        Ok(words) => {
            let mut icnf = StdSource::new(&rt);
            let mut output = StdSource::new(&rt);
            let mut sink = StdSink::new(&rt);
            audit_run(rt.alloc(), &words, &mut icnf, &mut output, &mut sink)
        }
        Err(fault) if fault.kind() == io::ErrorKind::OutOfMemory => NO_MEMORY,
        // A word that is no UTF-8 is a word all the same.
        Err(_) => WORDS_REFUSED,
    };
    if status == WORDS_REFUSED {
        let _ = eprintln!(rt; "tarmo_audit: words refused");
    }
    ExitCode::from(status)
}

// The words behind the program's name.
fn words(rt: &HostRuntime) -> io::Result<Vec<String>> {
    Ok(env::args(rt)?.skip(1).collect(rt.alloc())?)
}
