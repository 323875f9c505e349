//! Measures a part of Tarmo: `tarmo_bench MEASURE [SIZES]`.
//!
//! The first word says what is measured, and the others how much. With sizes a measure tells the
//! time that it took; without, it does a little and tells only what came out. Without words, or
//! with others, the program says which words there are.
#![tactic(auto)]

mod alone;
mod board;
mod checker;
mod clients;
mod learning;
mod lock;
mod reader;
mod solver;
mod trimming;

use anyhow::Result;
use std::env;

const USAGE: &str = "\
tarmo_bench MEASURE [SIZES]

  reader                     counts what an iCNF text on standard input states
  solver                     solves it, and counts what the search did
  checker [STEPS]            checks a trace of so many steps
  learning [VARIABLES CALLS] learns from one conflict again and again
  trimming [STEPS]           trims and prints a derivation of so many steps
  board [JOBS]               adds so many jobs to a board, takes and ends each
  lock [HOLDS]               holds the lock so often, and std's Mutex beside it
  alone [WORDS]              answers the text on standard input as `tarmo WORDS` on one thread
  service [JOBS]             adds so many jobs through the service and asks for each, and the same
                             on a bare board and round std's Mutex

With sizes the times are told.";

// The word at a place behind the program's name, as a number.
fn size_at(rt: &HostRuntime, place: usize) -> Result<Option<u32>> {
    match env::args(rt)?.nth(place) {
        Some(word) => Ok(Some(word.parse::<u32>()?)),
        None => Ok(None),
    }
}

fn main(rt: HostRuntime) -> Result<()> {
    let Some(measure) = env::args(&rt)?.nth(1) else {
        println!(rt; "{USAGE}")?;
        return Ok(());
    };
    match measure.as_str() {
        "alone" => alone::measure(&rt),
        "reader" => reader::measure(&rt),
        "solver" => solver::measure(&rt),
        "checker" => checker::measure(&rt, size_at(&rt, 2)?),
        "learning" => learning::measure(&rt, size_at(&rt, 2)?, size_at(&rt, 3)?),
        "trimming" => trimming::measure(&rt, size_at(&rt, 2)?),
        "board" => board::measure(&rt, size_at(&rt, 2)?),
        "lock" => lock::measure(&rt, rt.alloc(), size_at(&rt, 2)?),
        "service" => clients::measure(&rt, rt.alloc(), size_at(&rt, 2)?),
        _ => {
            println!(rt; "{USAGE}")?;
            Ok(())
        }
    }
}
