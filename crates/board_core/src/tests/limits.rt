//! Segments that are too large for a board, and one that fills it.

use super::board;
use crate::AddFault;
use entry_core::{Clauses, Segment};
use sat_base::{Clause, Cube, Lit};
use std::alloc::Global;
use std::process::Abort;
use std::sync::Arc;
use std::test::Fail;

fn segment(alloc: Global, clauses: Vec<Clause>) -> Result<Arc<Segment>, Fail> {
    let segment = Segment {
        clauses: Clauses::of(clauses),
        cube: Cube::of_ascending(Vec::new(alloc)),
    };
    Ok(Arc::new(alloc, segment)?)
}

#[test]
fn one_clause_too_many_is_refused(rt: HostRuntime) -> Result<(), Fail> {
    let alloc = rt.alloc();
    let mut clauses = Vec::with_capacity(alloc, 16_777_217)?;
    for _ in 0..16_777_217 {
        clauses.push(Clause::of_ascending(Vec::new(alloc)))?;
    }
    let mut board = board(alloc)?;
    assert!(rt; board.rules().clients == 2);
    assert_eq!(rt;
        board.add(1, segment(alloc, clauses)?),
        Err(AddFault::TooManyClauses)
    );
    assert_eq!(rt; board.jobs(), 0);
    Ok(())
}

fn clause(alloc: Global, rt: &impl Abort, most: i32) -> Result<Clause, Fail> {
    let mut lits = Vec::new(alloc);
    for var in 1..=most {
        lits.push(Lit::of(var).expect(rt, "a literal"))?;
        lits.push(Lit::of(-var).expect(rt, "a literal"))?;
    }
    Ok(Clause::from_lits(alloc, &lits)?)
}

// Two clauses of all 16,777,214 literals, and a third.
fn full(alloc: Global, all: &Clause, third: Clause) -> Result<Arc<Segment>, Fail> {
    let clauses = vec![in alloc; all.copy(alloc)?, all.copy(alloc)?, third]?;
    segment(alloc, clauses)
}

#[test]
fn one_literal_too_many_is_refused(rt: HostRuntime) -> Result<(), Fail> {
    let alloc = rt.alloc();
    let all = clause(alloc, &rt, 8_388_607)?;
    assert_eq!(rt; all.lits().len(), 16_777_214);
    let mut five = Vec::new(alloc);
    for number in [1, 2, 3, 4, 5] {
        five.push(Lit::of(number).expect(&rt, "a literal"))?;
    }
    let five = Clause::from_lits(alloc, &five)?;
    let four = clause(alloc, &rt, 2)?;
    assert!(rt; five.lits().len() == 5 && four.lits().len() == 4);
    let mut board = board(alloc)?;
    assert!(rt; board.rules().clients == 2);
    assert_eq!(rt;
        board.add(1, full(alloc, &all, five)?),
        Err(AddFault::TooManyLiterals)
    );
    assert!(rt; board.rules().clients == 2);
    assert_eq!(rt; board.add(1, full(alloc, &all, four)?), Ok(1));
    Ok(())
}
