//! Statements of drawn literals.

ghost use Rattle.std.specs.Prelude.{◌≡◌, ◌+◌, ◌++◌, ◌≤◌, IfOk, OnOk, ℕ};
ghost use Rattle.icnf_gen.specs.Draws.{state_after};
ghost use Rattle.icnf_gen.specs.Drawn.{drawn_clause, drawn_cube, implication, stretch};

use crate::draws::{Draws, positive};
use icnf_text::Statement;
use sat_base::{Clause, Cube};
use std::alloc::{AllocError, Global};

/// The clause that a variable implies the next one.
pub(crate) fn implication(alloc: Global, variable: u32) -> Result<Statement, AllocError>
    requires low { 1 ≤ variable }
    requires high { variable ≤ 8388606 }
    ensures { IfOk result (λ statement. statement ≡ implication variable) }
{
    let lits = [positive(variable).negated(), positive(variable + 1)];
    Ok(Statement::Clause(Clause::of_ascending(Vec::from_slice(alloc, &lits)?)))
}

/// A clause of three drawn literals.
pub(crate) fn drawn_clause(alloc: Global, draws: &mut Draws) -> Result<Statement, AllocError>
    ensures state { (seed : ℕ) (before : ℕ) → draws.old ≡ state_after seed before
        → draws.new ≡ state_after seed (before + 3) }
    ensures statement { IfOk result
        (λ statement. (seed : ℕ) (before : ℕ) → draws.old ≡ state_after seed before
        → statement ≡ drawn_clause seed before) }
{
    let lits = [draws.lit(), draws.lit(), draws.lit()];
    let clause = Clause::from_lits(alloc, &lits)?;
    let _ = clause.lits();
    Ok(Statement::Clause(clause))
}

/// A cube of two drawn literals and the first variable of the chain.
pub(crate) fn drawn_cube(alloc: Global, draws: &mut Draws) -> Result<Statement, AllocError>
    ensures state { (seed : ℕ) (before : ℕ) → draws.old ≡ state_after seed before
        → draws.new ≡ state_after seed (before + 2) }
    ensures statement { IfOk result
        (λ statement. (seed : ℕ) (before : ℕ) → draws.old ≡ state_after seed before
        → statement ≡ drawn_cube seed before) }
{
    let lits = [draws.lit(), draws.lit(), positive(101)];
    let cube = Cube::from_lits(alloc, &lits)?;
    let _ = cube.lits();
    Ok(Statement::Cube(cube))
}
