//! How a search refutes a cube.

ghost use Rattle.std.specs.Prelude.{◌≡◌, ℕ, ◌<◌, List, ◌∷◌, [], length, Contains, IfOk};
ghost use Rattle.clause_arena.specs.Arena.{clause_at};
ghost use Rattle.trail_core.specs.Trail.{lits_of};
ghost use Rattle.trail_core.specs.UnderTrail.{IsFalseClause, IsFalseLit};
ghost use Rattle.analyze.specs.Table.{KnowsUnits};
ghost use Rattle.session.specs.Solver.{inputs_of};
ghost use Rattle.session.specs.Searching.{IsSearching, HasStepsMore, table_of};
ghost use Rattle.session.specs.Fronts.{IsFront};
ghost use Rattle.session.specs.OnTrail.{IsForCube};
ghost use Rattle.session.specs.Refutations.{IsRefutation};

use crate::naming::name_units;
use crate::search::{Search, push_step};
use crate::unit_steps::unit_step;
use analyze::refute;
use sat_base::{Cube, Lit};
use std::alloc::AllocError;

/// The part of a cube that is to blame for a literal of it that is false, and the number of the own
/// step that derives the part's negation.
pub(crate) fn refute_literal(search: &mut Search, lit: Lit) -> Result<(Cube, u64), AllocError>
    requires kept { IsSearching search.old }
    requires units { KnowsUnits (table_of search.old) search.old.trail.entries
        search.old.units.items search.old.tags.items }
    requires refuted { IsFalseLit (lits_of search.old.trail.entries) lit }
    ensures kept { IsSearching search.new }
    ensures parts { search.new ≡ record search.old { steps = search.new.steps } }
    ensures steps { IsFront search.old.steps search.new.steps }
    ensures last { IfOk result
        (λ answer. HasStepsMore search.old.steps search.new.steps (answer.1 ∷ [])) }
    ensures answer { IfOk result (λ answer. (cube : List ℕ)
        → IsForCube cube search.old.trail.entries → Contains cube lit
        → IsRefutation (inputs_of search.old.store.clauses) search.new.steps cube
        answer.0 answer.1) }
{
    let (part, step) = refute(
        search.alloc,
        &mut search.scratch,
        search.store.arena(),
        &search.units,
        &search.tags,
        &search.trail,
        lit,
    )?;
    let number = push_step(search, &step)?;
    Ok((part, number))
}

/// The empty part, and the number of the own step of the empty clause, where a clause is false at
/// level 0.
pub(crate) fn refute_all(search: &mut Search, conflict: usize) -> Result<(Cube, u64), AllocError>
    requires kept { IsSearching search.old }
    requires zero { search.old.trail.depth ≡ 0 }
    requires known { conflict < length search.old.store.clauses }
    requires refuted { IsFalseClause (lits_of search.old.trail.entries)
        (clause_at search.old.store.clauses conflict).lits }
    ensures kept { IsSearching search.new }
    ensures parts { search.new ≡ record search.old {
      units = search.new.units;
      tags = search.new.tags;
      named = search.new.named;
      steps = search.new.steps;
    } }
    ensures steps { IsFront search.old.steps search.new.steps }
    ensures last { IfOk result
        (λ answer. HasStepsMore search.old.steps search.new.steps (answer.1 ∷ [])) }
    ensures answer { IfOk result (λ answer. (cube : List ℕ)
        → IsRefutation (inputs_of search.old.store.clauses) search.new.steps cube
        answer.0 answer.1) }
{
    name_units(search)?;
    let step = unit_step(
        search.alloc,
        search.store.arena(),
        &search.units,
        &search.tags,
        conflict,
        None,
    )?;
    let number = push_step(search, &step)?;
    Ok((Cube::of_ascending(Vec::new(search.alloc)), number))
}
