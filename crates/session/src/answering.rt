//! Rounds until there is an answer.

ghost use Rattle.std.specs.Prelude.{◌≡◌, ◌<◌, IfOk};
ghost use Rattle.session.specs.Searching.{IsSearching, solver_of};
ghost use Rattle.session.specs.Solving.{Keeps};
ghost use Rattle.session.specs.Answering.{Answers};

use crate::rounds::Round;
use crate::search::Search;
use crate::solving::solve;
use sat_base::{Assign, Cube};
use std::alloc::AllocError;

/// The answer to a cube: what rounds come to that go on until there is one.
#[derive(Debug, Drop)]
pub enum Conclusion {
    /// A model of the inputs and the cube.
    Model(Assign),
    /// A refuted part of the cube, and the number of the own step that derives the clause of its
    /// negated literals.
    Refuted(Cube, u64),
}

/// Rounds of `limit` learnt clauses until the cube has its answer. The search is at level 0 before
/// and after. What was learnt is kept, also after want of memory. It comes to an end: over V
/// variables there are at most 3^V clauses that aren't tautologies, and no clause is learnt twice.
pub(crate) fn solve_until_answered(
    search: &mut Search,
    cube: &Cube,
    limit: u64,
) -> Result<Conclusion, AllocError>
    requires kept { IsSearching search.old }
    requires zero { search.old.trail.depth ≡ 0 }
    requires some { 0 < limit }
    ensures kept { IsSearching search.new }
    ensures zero { search.new.trail.depth ≡ 0 }
    ensures keeps { Keeps (solver_of search.old) (solver_of search.new) }
    ensures answer { IfOk result (Answers (solver_of search.old) (solver_of search.new) cube.now) }
{
    loop {
        match solve(search, cube, limit)? {
            Round::Model(model) => return Ok(Conclusion::Model(model)),
            Round::Refuted(part, number) => return Ok(Conclusion::Refuted(part, number)),
            Round::Paused => {}
        }
    }
}
