//! The clauses and jobs of statements, one statement after the other.

ghost use Rattle.std.specs.Prelude.{◌≡◌, ◌++◌, [], ◌∷◌, ◌≤◌, ◌<◌, ℕ, List, Option, true, map};
ghost use Rattle.std.specs.Prelude.{length, max, IfOk, OnOk};
ghost use Rattle.icnf_text.specs.declared.faults.Fault.{Fault};
ghost use Rattle.icnf_text.specs.declared.statements.Numbered.{Numbered};
ghost use Rattle.verdict_audit.specs.Case.{Case, case_after, case_of, clauses_after, last_line_of};
ghost use Rattle.verdict_audit.specs.Case.{queries_after};
ghost use Rattle.verdict_audit.specs.Problem.{IsTaken, query_in};

use icnf_text::{Fault, Numbered, Statement};
use line_tokens::print_number;
use sat_base::limits::MOST_CLAUSES;
use sat_base::{Clause, Cube, greatest_variable};
use std::alloc::{AllocError, Global};

/// A job: how many of the clauses stand before its cube, its greatest variable, and the cube.
#[derive(Debug, Drop)]
pub(crate) struct Job {
    pub(crate) inputs: usize,
    pub(crate) variables: u32,
    pub(crate) cube: Cube,
}

/// The clauses and jobs of statements, the tag of each clause, and the greatest variable of the
/// clauses.
#[derive(Debug, Drop)]
pub(crate) struct Taken {
    pub(crate) clauses: Vec<Clause>,
    pub(crate) tags: Vec<u32>,
    pub(crate) jobs: Vec<Job>,
    pub(crate) greatest: u32,
}

// Takes a clause. A text has no more clauses than there is room for, so that the refusal for more
// never comes.
fn take_clause(taken: &mut Taken, clause: Clause) -> Result<(), AllocError>
    requires { IsTaken
        taken.old.clauses.items taken.old.tags.items taken.old.jobs.items taken.old.greatest }
    ensures clauses { OnOk result
        (taken.new.clauses.items ≡ taken.old.clauses.items ++ clause ∷ []) }
    ensures jobs { OnOk result (taken.new.jobs.items ≡ taken.old.jobs.items) }
    ensures kept { OnOk result (IsTaken
        taken.new.clauses.items taken.new.tags.items taken.new.jobs.items taken.new.greatest) }
{
    if taken.clauses.len() >= MOST_CLAUSES as usize {
        return Err(AllocError);
    }
    taken.greatest = taken.greatest.max(greatest_variable(clause.lits()));
    taken.tags.push(1)?;
    taken.clauses.push(clause)?;
    Ok(())
}

// Takes a cube.
fn take_cube(taken: &mut Taken, cube: Cube) -> Result<(), AllocError>
    requires { IsTaken
        taken.old.clauses.items taken.old.tags.items taken.old.jobs.items taken.old.greatest }
    ensures clauses { OnOk result (taken.new.clauses.items ≡ taken.old.clauses.items) }
    ensures jobs { OnOk result
        (map query_in taken.new.jobs.items
        ≡ map query_in taken.old.jobs.items
        ++ record { inputs = length taken.old.clauses.items; cube = cube } ∷ []) }
    ensures kept { OnOk result (IsTaken
        taken.new.clauses.items taken.new.tags.items taken.new.jobs.items taken.new.greatest) }
{
    let variables = taken.greatest.max(greatest_variable(cube.lits()));
    let inputs = taken.clauses.len();
    taken.jobs.push(Job {
        inputs,
        variables,
        cube,
    })?;
    Ok(())
}

fn take(taken: &mut Taken, statement: Statement) -> Result<(), AllocError>
    requires { IsTaken
        taken.old.clauses.items taken.old.tags.items taken.old.jobs.items taken.old.greatest }
    ensures clauses { OnOk result
        (taken.new.clauses.items ≡ clauses_after taken.old.clauses.items statement) }
    ensures jobs { OnOk result
        (map query_in taken.new.jobs.items
        ≡ queries_after (length taken.old.clauses.items)
        (map query_in taken.old.jobs.items) statement) }
    ensures kept { OnOk result (IsTaken
        taken.new.clauses.items taken.new.tags.items taken.new.jobs.items taken.new.greatest) }
{
    match statement {
        Statement::Clause(clause) => take_clause(taken, clause),
        Statement::Cube(cube) => take_cube(taken, cube),
    }
}

// Takes statements in order.
pub(crate) fn take_all(taken: &mut Taken, statements: Vec<Numbered>) -> Result<(), AllocError>
    requires { IsTaken
        taken.old.clauses.items taken.old.tags.items taken.old.jobs.items taken.old.greatest }
    ensures case { OnOk result
        ((fault : Option Fault) (rest : List Numbered)
        → case_after fault taken.new.clauses.items (map query_in taken.new.jobs.items) rest
        ≡ case_after fault taken.old.clauses.items (map query_in taken.old.jobs.items)
        (statements.items ++ rest)) }
    ensures kept { OnOk result (IsTaken
        taken.new.clauses.items taken.new.tags.items taken.new.jobs.items taken.new.greatest) }
{
    for numbered in statements {
        take(taken, numbered.statement)?;
    }
    Ok(())
}

// The last line of a whole output for so many jobs, without its line feed.
pub(crate) fn last_line(
    alloc: Global,
    fault: Option<Fault>,
    jobs: u64,
) -> Result<Vec<u8>, AllocError>
    ensures { IfOk result (λ line. line.items ≡ last_line_of fault jobs) }
{
    let mut line = Vec::new(alloc);
    match fault {
        None => {
            line.extend_from_slice(b"end ")?;
            print_number(&mut line, jobs)?;
        }
        Some(fault) => {
            line.extend_from_slice(b"refused ")?;
            print_number(&mut line, fault.line)?;
            line.extend_from_slice(b" ")?;
            line.extend_from_slice(fault.reason.text())?;
        }
    }
    Ok(line)
}
