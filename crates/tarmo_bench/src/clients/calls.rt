//! The same calls on a board of one's own.

use crate::clients::Times;
use anyhow::Result;
use board_core::{AskFault, Board};
use entry_core::{Clauses, Rules, Segment};
use sat_base::Cube;
use std::alloc::{AllocError, Global};
use std::rt::Clock;
use std::sync::Arc;
use std::time::{Duration, Instant};

/// A job without clauses and literals.
pub(crate) fn segment(alloc: Global) -> Result<Segment, AllocError> {
    Ok(Segment {
        clauses: Clauses::of(Vec::new(alloc)),
        cube: Cube::from_lits(alloc, &[])?,
    })
}

/// A time as whole microseconds.
pub(crate) fn micros(time: Duration) -> u64 {
    u64::try_from(time.as_micros()).unwrap_or(u64::MAX)
}

/// Adds so many jobs to a board, then asks for each.
pub(crate) fn by_board<R: Clock>(rt: &R, alloc: Global, jobs: u32) -> Result<Times> {
    let rules = Rules {
        clients: 1,
        workers: 1,
        attempts: 1,
        conflicts: 1,
        first: false,
        traces: false,
    };
    let mut board = Board::new(alloc, rules)?;
    let mut answered = 0u64;
    let start = Instant::now(rt)?;
    for _ in 0..jobs {
        if board.rules().clients == 1 && board.add(1, Arc::new(alloc, segment(alloc)?)?).is_ok() {
            answered = answered.saturating_add(1);
        }
    }
    let adding = micros(start.elapsed(rt)?);
    let start = Instant::now(rt)?;
    for job in 1..=jobs {
        if matches!(board.verdict(job), Err(AskFault::NotYet)) {
            answered = answered.saturating_add(1);
        }
    }
    let asking = micros(start.elapsed(rt)?);
    Ok(Times {
        adding,
        asking,
        answered,
    })
}
