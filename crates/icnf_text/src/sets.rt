//! Clauses and cubes of literals in any order.

ghost use Rattle.std.specs.Prelude.{◌≡◌, IfOk};
ghost use Rattle.sat_base.specs.Lit.{in_order};

use sat_base::{Clause, Cube, Lit, is_strictly_ascending};
use std::alloc::{AllocError, Global};

// Most texts have their literals in ascending order, so that nothing is to be sorted. A look at the
// literals of what was made brings that they are a set in order.
pub(crate) fn clause_of(alloc: Global, lits: &[Lit]) -> Result<Clause, AllocError>
    ensures { IfOk result (λ clause. clause ≡ in_order lits.now) }
{
    if is_strictly_ascending(lits) {
        let set = Vec::from_slice(alloc, lits)?;
        let clause = Clause::of_ascending(set);
        let _ = clause.lits();
        return Ok(clause);
    }
    let clause = Clause::from_lits(alloc, lits)?;
    let _ = clause.lits();
    Ok(clause)
}

// The same for a cube.
pub(crate) fn cube_of(alloc: Global, lits: &[Lit]) -> Result<Cube, AllocError>
    ensures { IfOk result (λ cube. cube ≡ in_order lits.now) }
{
    if is_strictly_ascending(lits) {
        let set = Vec::from_slice(alloc, lits)?;
        let cube = Cube::of_ascending(set);
        let _ = cube.lits();
        return Ok(cube);
    }
    let cube = Cube::from_lits(alloc, lits)?;
    let _ = cube.lits();
    Ok(cube)
}
