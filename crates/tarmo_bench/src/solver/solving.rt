//! One session over the statements of a text.

use crate::reader::Taker;
use anyhow::{Result, ensure};
use icnf_text::{Statement, Statements};
use sat_base::limits::{MOST_CLAUSES, MOST_JOBS};
use sat_base::{Clause, Cube};
use session::{Conclusion, Session};
use std::alloc::Global;

// The search goes back to level 0 each time that it has learnt so many clauses, as the program's.
const ROUND: u64 = 256;

/// A session, the clauses behind the last cube, and how many cubes had the empty part as answer.
#[derive(Debug, Drop)]
pub(crate) struct Solver {
    session: Session,
    pending: Vec<Clause>,
    empty_parts: u64,
}

/// What was done.
#[derive(Clone, Copy, Debug, PartialEq, Eq)]
pub(crate) struct Counts {
    pub jobs: u32,
    pub conflicts: u64,
    pub session: session::Counts,
}

impl Solver {
    pub(crate) fn new(alloc: Global) -> Solver {
        Solver {
            session: Session::new(alloc, 0),
            pending: Vec::new(alloc),
            empty_parts: 0,
        }
    }

    pub(crate) fn counts(&self) -> Counts {
        let session = self.session.counts();
        Counts {
            jobs: self.session.bound(),
            conflicts: session.learnt.saturating_add(self.empty_parts),
            session,
        }
    }

    // Loads the clauses behind the last cube, and answers this one.
    fn answer(&mut self, cube: &Cube) -> Result<()> {
        let clauses = self.session.inputs() as usize + self.pending.len();
        ensure!(clauses <= MOST_CLAUSES as usize, "at most 16777216 clauses");
        ensure!(self.session.bound() < MOST_JOBS, "at most 1048576 cubes");
        self.session.load(&self.pending, cube)?;
        self.pending.clear();
        if let Conclusion::Refuted(part, _) = self.session.solve_until_answered(cube, ROUND)? {
            if part.lits().is_empty() {
                self.empty_parts = self.empty_parts.saturating_add(1);
            }
        }
        Ok(())
    }
}

impl Taker for Solver {
    fn take(&mut self, statements: Statements) -> Result<()> {
        for numbered in statements.into_items() {
            match numbered.statement {
                Statement::Clause(clause) => self.pending.push(clause)?,
                Statement::Cube(cube) => self.answer(&cube)?,
            }
        }
        Ok(())
    }
}
