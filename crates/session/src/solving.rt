//! One call of the solver.

ghost use Rattle.std.specs.Prelude.{◌≡◌, IfOk};
ghost use Rattle.session.specs.Searching.{IsSearching, solver_of};
ghost use Rattle.session.specs.Solving.{Keeps, Solves};

use crate::inputs::{greatest_variable, reserve};
use crate::levels::go_back;
use crate::rounds::{Round, run_round};
use crate::search::Search;
use sat_base::Cube;
use std::alloc::AllocError;

/// One round of at most `limit` learnt clauses on the inputs and the cube: a model of exactly the
/// variables 1 to the greatest one of the inputs and the cube, a refuted part of the cube with the
/// own step of its negation, or a pause. The search is at level 0 before and after. What was learnt
/// is kept, also after want of memory.
pub(crate) fn solve(search: &mut Search, cube: &Cube, limit: u64) -> Result<Round, AllocError>
    requires kept { IsSearching search.old }
    requires zero { search.old.trail.depth ≡ 0 }
    ensures kept { IsSearching search.new }
    ensures zero { search.new.trail.depth ≡ 0 }
    ensures keeps { Keeps (solver_of search.old) (solver_of search.new) }
    ensures round { IfOk result (Solves (solver_of search.old)
        (solver_of search.new) cube.now limit) }
{
    let outcome = solve_deep(search, cube, limit);
    go_back(search);
    outcome
}

// The round, which may leave levels open.
fn solve_deep(search: &mut Search, cube: &Cube, limit: u64) -> Result<Round, AllocError>
    requires kept { IsSearching search.old }
    requires zero { search.old.trail.depth ≡ 0 }
    ensures kept { IsSearching search.new }
    ensures keeps { Keeps (solver_of search.old) (solver_of search.new) }
    ensures round { IfOk result (Solves (solver_of search.old)
        (solver_of search.new) cube.now limit) }
{
    let lits = cube.lits();
    let vars = search.greatest.max(greatest_variable(lits));
    reserve(search, vars)?;
    search.cursor.literals = 0;
    run_round(search, cube, vars, limit)
}
