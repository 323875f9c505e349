//! Reads an iCNF text from standard input, and prints how many clauses, cubes and literals it has
//! and whether it is accepted: the reader alone, to be timed from outside.

use anyhow::Result;
use icnf_text::{Fault, Reader, Statement, Statements};
use std::io::Read;

/// What is done with the statements of a text, piece by piece.
pub(crate) trait Taker {
    fn take(&mut self, statements: Statements) -> Result<()>;
}

#[derive(Drop)]
struct Counts {
    clauses: u64,
    cubes: u64,
    literals: u64,
}

impl Taker for Counts {
    fn take(&mut self, statements: Statements) -> Result<()> {
        for numbered in statements.items() {
            let lits = match &numbered.statement {
                Statement::Clause(clause) => {
                    self.clauses = self.clauses.wrapping_add(1);
                    clause.lits()
                }
                Statement::Cube(cube) => {
                    self.cubes = self.cubes.wrapping_add(1);
                    cube.lits()
                }
            };
            self.literals = self.literals.wrapping_add(lits.len() as u64);
        }
        Ok(())
    }
}

/// Gives the statements of the text on standard input to the taker, and answers the text's fault.
pub(crate) fn read_all(rt: &HostRuntime, taker: &mut impl Taker) -> Result<Option<Fault>> {
    let mut input = rt.reader();
    let mut reader = Reader::new(rt.alloc());
    let mut piece = [0u8; 65536];
    for _ in 0..u64::MAX {
        let count = input.read(&mut piece)?;
        if count == 0 {
            break;
        }
        taker.take(reader.feed(&piece[..count])?.statements)?;
    }
    let fed = reader.finish()?;
    taker.take(fed.statements)?;
    Ok(fed.fault)
}

/// Prints whether the text is accepted, or where and why it isn't.
pub(crate) fn print_end(rt: &HostRuntime, fault: Option<Fault>) -> Result<()> {
    match fault {
        None => println!(rt; "accepted")?,
        Some(fault) => {
            let line = fault.line;
            let reason = fault.reason;
            println!(rt; "refused {line} {reason:?}")?
        }
    }
    Ok(())
}

pub(crate) fn measure(rt: &HostRuntime) -> Result<()> {
    let mut counts = Counts {
        clauses: 0,
        cubes: 0,
        literals: 0,
    };
    let fault = read_all(rt, &mut counts)?;
    let Counts {
        clauses,
        cubes,
        literals,
    } = counts;
    println!(rt; "clauses {clauses} cubes {cubes} literals {literals}")?;
    print_end(rt, fault)
}
