//! Solves the jobs of an iCNF text on standard input by one session, in order and in rounds of 256
//! learnt clauses, as the program does where it has no options, and prints what the search did:
//!
//! - `jobs`: the cubes, each of which was answered;
//! - `learnt`: the learnt clauses, all of which are held;
//! - `conflicts`: how often the search met a false clause. Above level 0 it learns exactly one
//!   clause from it; at level 0 it answers the empty part. So these are the learnt clauses and the
//!   jobs whose answer is the empty part;
//! - `decisions`: how often a level was opened, by an assumption or by a free variable;
//! - `propagations`: how often a clause forced a literal.
//!
//! The search drops no clause, and one session shares none, so no line tells of that.

mod solving;
#[cfg(test)]
mod tests;

use crate::reader::{print_end, read_all};
use crate::solver::solving::Solver;
use anyhow::Result;

/// Solves the jobs up to the end of the text or to its first fault, and prints the counts.
pub(crate) fn measure(rt: &HostRuntime) -> Result<()> {
    let mut solver = Solver::new(rt.alloc());
    let fault = read_all(rt, &mut solver)?;
    let counts = solver.counts();
    println!(rt; "jobs {}", counts.jobs)?;
    println!(rt; "learnt {}", counts.session.learnt)?;
    println!(rt; "conflicts {}", counts.conflicts)?;
    println!(rt; "decisions {}", counts.session.decisions)?;
    println!(rt; "propagations {}", counts.session.propagations)?;
    print_end(rt, fault)
}
