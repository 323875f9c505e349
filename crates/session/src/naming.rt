//! Names for the unit clauses of level 0.

ghost use Rattle.std.specs.Prelude.{◌≡◌, ℕ, ◌+◌, ◌<◌, ◌≤◌, [], ◌∷◌, ◌++◌, length, IfOk, OnOk};
ghost use Rattle.sat_base.specs.Lit.{variable};
ghost use Rattle.clause_arena.specs.Arena.{lits_of_each};
ghost use Rattle.trail_core.specs.Trail.{entry_at};
ghost use Rattle.analyze.specs.Table.{IsNameOf};
ghost use Rattle.session.specs.Searching.{IsSearching, HasUnitsMore, table_of};

use crate::search::{Search, push_step};
use crate::unit_steps::unit_step;
use sat_base::{Lit, Ref};
use std::alloc::AllocError;

/// Names the unit clause of each literal of level 0 that has no name yet.
pub(crate) fn name_units(search: &mut Search) -> Result<(), AllocError>
    requires kept { IsSearching search.old }
    requires zero { search.old.trail.depth ≡ 0 }
    ensures kept { IsSearching search.new }
    ensures all { OnOk result (search.new.named ≡ length search.old.trail.entries) }
    ensures parts { search.new ≡ record search.old {
      units = search.new.units;
      tags = search.new.tags;
      named = search.new.named;
      steps = search.new.steps;
    } }
    ensures steps { HasUnitsMore search.old.steps search.new.steps }
{
    while search.named < search.trail.lits().len() {
        name_next(search)?;
    }
    Ok(())
}

// Names the unit clause of the next literal.
fn name_next(search: &mut Search) -> Result<(), AllocError>
    requires kept { IsSearching search.old }
    requires zero { search.old.trail.depth ≡ 0 }
    requires some { search.old.named < length search.old.trail.entries }
    ensures kept { IsSearching search.new }
    ensures one { OnOk result (search.new.named ≡ search.old.named + 1) }
    ensures parts { search.new ≡ record search.old {
      units = search.new.units;
      tags = search.new.tags;
      named = search.new.named;
      steps = search.new.steps;
    } }
    ensures steps { HasUnitsMore search.old.steps search.new.steps }
{
    let lit = search.trail.lits()[search.named];
    let Some(id) = search.trail.reason(lit.var()) else {
        unreachable!()
    };
    let (name, tag) = unit_name(search, lit, id)?;
    let index = lit.var() as usize - 1;
    search.units[index] = name;
    search.tags[index] = tag;
    search.named += 1;
    Ok(())
}

// The name and the tag of the unit clause of a literal of level 0: those of its reason, where this
// has no other literal, else those of a new step.
fn unit_name(search: &mut Search, lit: Lit, id: usize) -> Result<(Ref, u32), AllocError>
    requires kept { IsSearching search.old }
    requires next { lit ≡ (entry_at search.old.trail.entries search.old.named).lit }
    requires forced { (entry_at search.old.trail.entries search.old.named).reason ≡ Some id }
    requires some { search.old.named < length search.old.trail.entries }
    requires zero { search.old.trail.depth ≡ 0 }
    ensures kept { IsSearching search.new }
    ensures name { IfOk result (λ answer. IsNameOf (table_of search.new) answer.0
        (lit ∷ []) answer.1) }
    ensures parts { search.new ≡ record search.old { steps = search.new.steps } }
    ensures steps { HasUnitsMore search.old.steps search.new.steps }
{
    let arena = search.store.arena();
    if arena.lits(id).len() == 1 {
        return Ok((arena.origin(id), arena.tag(id)));
    }
    let step = unit_step(
        search.alloc,
        arena,
        &search.units,
        &search.tags,
        id,
        Some(lit),
    )?;
    let tag = step.tag;
    let number = push_step(search, &step)?;
    Ok((Ref::Own(number), tag))
}
