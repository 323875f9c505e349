//! Rounds of the search, which is conflict-driven clause learning:
//!
//! - Propagate unit clauses: `propagate_and_name`.
//! - If a clause is false at level 0, the inputs are refuted: `refute_all`.
//! - If a clause is false above level 0, analyze the conflict to its first unique implication
//!   point, learn the clause that it gives, jump back to where this is unit, and assert its
//!   literal: `learn_and_backjump`. Now and then go back to level 0: `restart_if_due`.
//! - Else if an assumption is false, a part of the cube is refuted: `refute_literal`.
//! - Else if an assumption is unassigned, it is the next decision; then it is a free variable:
//!   `next_move` and `decide`.
//! - Else all variables of the inputs are assigned, and the trail is a model: `assignment`.

ghost use Rattle.std.specs.Prelude.{◌≡◌, ℕ, ◌<◌, List, [], length, IfOk, IfSome, IfNone};
ghost use Rattle.trail_core.specs.UnderTrail.{IsComplete};
ghost use Rattle.clause_arena.specs.Arena.{lits_of_each};
ghost use Rattle.session.specs.Cubes.{KeepsCubes};
ghost use Rattle.session.specs.Searching.{IsSearching, AreAllNamed, HasSameVariables, IsConflict};
ghost use Rattle.session.specs.Searching.{solver_of};
ghost use Rattle.session.specs.Rounds.{IsInRound};
ghost use Rattle.session.specs.Watched.{IsSettled};
ghost use Rattle.session.specs.Descents.{Descends};
ghost use Rattle.session.specs.Solving.{Concludes, Keeps, Learns, LearnsOne, Solves};

use crate::conflicts::learn_and_backjump;
use crate::levels::{decide, restart_if_due};
use crate::models::assignment;
use crate::moves::{Move, next_move};
use crate::propagation::propagate_and_name;
use crate::refuting::{refute_all, refute_literal};
use crate::search::Search;
use sat_base::{Assign, Cube};
use std::alloc::AllocError;

/// What came of a round.
#[derive(Debug, Drop)]
pub enum Round {
    /// A model of the inputs and the cube.
    Model(Assign),
    /// A refuted part of the cube, and the number of the own step that derives the clause of its
    /// negated literals.
    Refuted(Cube, u64),
    /// As many clauses as the limit were learnt.
    Paused,
}

/// How decisions came to an end.
#[derive(Debug, Drop)]
pub(crate) enum Descent {
    /// The clause of this number is false.
    Conflict(usize),
    /// The search has its answer.
    Ended(Round),
}

/// One round: it goes on until the search has its answer, or so many clauses were learnt.
pub(crate) fn run_round(
    search: &mut Search,
    cube: &Cube,
    vars: u32,
    limit: u64,
) -> Result<Round, AllocError>
    requires round { IsInRound search.old cube.now vars }
    ensures kept { IsSearching search.new }
    ensures keeps { Keeps (solver_of search.old) (solver_of search.new) }
    ensures round { IfOk result (Solves (solver_of search.old)
        (solver_of search.new) cube.now limit) }
{
    let mut count = 0;
    while count < limit {
        match learn_or_answer(search, cube, vars)? {
            Some(round) => return Ok(round),
            None => count += 1,
        }
    }
    Ok(Round::Paused)
}

// Goes on until the search has its answer, or learns one clause.
fn learn_or_answer(search: &mut Search, cube: &Cube, vars: u32) -> Result<Option<Round>, AllocError>
    requires round { IsInRound search.old cube.now vars }
    ensures round { IsInRound search.new cube.now vars }
    ensures keeps { Keeps (solver_of search.old) (solver_of search.new) }
    ensures ends { IfOk result (λ end. IfSome end
        (Concludes (solver_of search.old) (solver_of search.new) cube.now)) }
    ensures learns { IfOk result (λ end. IfNone end
        (LearnsOne (solver_of search.old) (solver_of search.new))) }
{
    match descend(search, cube, vars)? {
        Descent::Ended(round) => Ok(Some(round)),
        Descent::Conflict(id) => resolve_conflict(search, id),
    }
}

// A conflict at level 0 refutes the empty part; any other teaches a clause.
fn resolve_conflict(search: &mut Search, id: usize) -> Result<Option<Round>, AllocError>
    requires kept { IsSearching search.old }
    requires conflict { IsConflict search.old id }
    ensures kept { IsSearching search.new }
    ensures keeps { Keeps (solver_of search.old) (solver_of search.new) }
    ensures variables { HasSameVariables search.old search.new }
    ensures cubes { KeepsCubes search.old search.new }
    ensures ends { IfOk result (λ end. IfSome end
        (λ round. (cube : List ℕ) → Concludes (solver_of search.old)
        (solver_of search.new) cube round)) }
    ensures learns { IfOk result (λ end. IfNone end
        (LearnsOne (solver_of search.old) (solver_of search.new))) }
{
    if search.trail.depth() != 0 {
        learn_and_backjump(search, id)?;
        restart_if_due(search);
        return Ok(None);
    }
    let (part, number) = refute_all(search, id)?;
    Ok(Some(Round::Refuted(part, number)))
}

// Decides until a clause is false, or the search has its answer.
fn descend(search: &mut Search, cube: &Cube, vars: u32) -> Result<Descent, AllocError>
    requires round { IsInRound search.old cube.now vars }
    ensures round { IsInRound search.new cube.now vars }
    ensures keeps { Keeps (solver_of search.old) (solver_of search.new) }
    ensures descends { IfOk result (Descends search.old search.new cube.now) }
{
    loop {
        match propagate_and_decide(search, cube, vars)? {
            Some(end) => return Ok(end),
            None => {}
        }
    }
}

// Propagates and decides once, where the search doesn't come to an end.
fn propagate_and_decide(
    search: &mut Search,
    cube: &Cube,
    vars: u32,
) -> Result<Option<Descent>, AllocError>
    requires round { IsInRound search.old cube.now vars }
    ensures round { IsInRound search.new cube.now vars }
    ensures keeps { Keeps (solver_of search.old) (solver_of search.new) }
    ensures ends { IfOk result (λ end. IfSome end (Descends search.old search.new cube.now)) }
    ensures learns { IfOk result (λ end. IfNone end
        (Learns (solver_of search.old) (solver_of search.new) [] [])) }
    ensures vars { search.new.trail.vars ≡ search.old.trail.vars }
    ensures longer { IfOk result (λ end. IfNone end
        (length search.old.trail.entries < length search.new.trail.entries)) }
{
    match propagate_and_name(search)? {
        Some(id) => Ok(Some(Descent::Conflict(id))),
        None => decide_or_answer(search, cube, vars),
    }
}

// Makes the next move, where propagation is complete.
fn decide_or_answer(
    search: &mut Search,
    cube: &Cube,
    vars: u32,
) -> Result<Option<Descent>, AllocError>
    requires round { IsInRound search.old cube.now vars }
    requires complete { IsComplete search.old.trail.entries search.old.trail.depth
        (lits_of_each search.old.store.clauses) }
    requires all_named { AreAllNamed search.old }
    requires settled { IsSettled search.old.store search.old.trail }
    ensures round { IsInRound search.new cube.now vars }
    ensures keeps { Keeps (solver_of search.old) (solver_of search.new) }
    ensures ends { IfOk result (λ end. IfSome end (Descends search.old search.new cube.now)) }
    ensures learns { IfOk result (λ end. IfNone end
        (Learns (solver_of search.old) (solver_of search.new) [] [])) }
    ensures vars { search.new.trail.vars ≡ search.old.trail.vars }
    ensures longer { IfOk result (λ end. IfNone end
        (length search.old.trail.entries < length search.new.trail.entries)) }
{
    match next_move(&search.trail, &mut search.cursor, &mut search.order, cube) {
        Move::Decide(lit) => {
            decide(search, lit)?;
            Ok(None)
        }
        Move::Blame(lit) => {
            let (part, number) = refute_literal(search, lit)?;
            Ok(Some(Descent::Ended(Round::Refuted(part, number))))
        }
        Move::Stop => {
            let model = assignment(search.alloc, &search.trail, vars)?;
            Ok(Some(Descent::Ended(Round::Model(model))))
        }
    }
}
