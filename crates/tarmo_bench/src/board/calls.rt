//! The calls on the board.

use anyhow::{Result, bail, ensure};
use board_core::{Board, Task};
use entry_core::{Clauses, Rules, Segment};
use sat_base::Cube;
use std::alloc::{AllocError, Global};
use std::sync::Arc;

/// A board of one client and one worker.
pub(crate) fn board(alloc: Global) -> Result<Board, AllocError> {
    Board::new(
        alloc,
        Rules {
            clients: 1,
            workers: 1,
            attempts: 1,
            conflicts: 1,
            first: false,
            traces: true,
        },
    )
}

/// Adds so many jobs without clauses and literals.
pub(crate) fn add_all(alloc: Global, board: &mut Board, count: u32) -> Result<()> {
    let segment = Segment {
        clauses: Clauses::of(Vec::new(alloc)),
        cube: Cube::from_lits(alloc, &[])?,
    };
    let segment = Arc::new(alloc, segment)?;
    for _ in 0..count {
        ensure!(board.rules().clients == 1, "one client");
        if board.add(1, segment.clone()?).is_err() {
            bail!("a job was refused");
        }
    }
    Ok(())
}

/// Takes so many attempts, and ends each.
pub(crate) fn end_all(board: &mut Board, count: u32) -> Result<()> {
    for _ in 0..count {
        ensure!(
            board.rules().clients == 1 && board.rules().workers == 1,
            "one worker"
        );
        let Task::Job { attempt, .. } = board.take(2)? else {
            bail!("no job to take");
        };
        if board.starve(2, attempt).is_err() {
            bail!("an attempt came too late");
        }
    }
    Ok(())
}
