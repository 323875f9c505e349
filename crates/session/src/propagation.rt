//! Unit propagation, and what comes with it.

ghost use Rattle.std.specs.Prelude.{◌≡◌, ◌≤◌, [], length, IfOk, OnOk, IfSome, IfNone};
ghost use Rattle.trail_core.specs.UnderTrail.{IsComplete};
ghost use Rattle.clause_arena.specs.Arena.{lits_of_each};
ghost use Rattle.session.specs.Cubes.{KeepsCubes};
ghost use Rattle.session.specs.Searching.{IsSearching, HasSameVariables, IsConflict, HasUnitsMore};
ghost use Rattle.session.specs.Searching.{AreAllNamed, solver_of};
ghost use Rattle.session.specs.Solving.{Learns};
ghost use Rattle.session.specs.Watched.{IsSettled};

use crate::naming::name_units;
use crate::search::Search;
use propagate::propagate;
use std::alloc::AllocError;

/// Propagates, and where no clause is false, sees to it that the unit clauses of level 0 have
/// names. Answers the number of a clause that is false, or none.
pub(crate) fn propagate_and_name(search: &mut Search) -> Result<Option<usize>, AllocError>
    requires kept { IsSearching search.old }
    ensures kept { IsSearching search.new }
    ensures learns { Learns (solver_of search.old) (solver_of search.new) [] [] }
    ensures variables { HasSameVariables search.old search.new }
    ensures cubes { KeepsCubes search.old search.new }
    ensures grown { length search.old.trail.entries ≤ length search.new.trail.entries }
    ensures conflict { IfOk result (λ found. IfSome found (IsConflict search.new)) }
    ensures complete { IfOk result (λ found. IfNone found
        (IsComplete search.new.trail.entries search.new.trail.depth
        (lits_of_each search.new.store.clauses))) }
    ensures all_named { IfOk result (λ found. IfNone found (AreAllNamed search.new)) }
    ensures settled { IfOk result (λ found. IfNone found
        (IsSettled search.new.store search.new.trail)) }
{
    let found = propagate(&mut search.store, &mut search.trail);
    // Brings `IsTrail` of the trail with what was forced.
    let _ = search.trail.depth();
    match found {
        Some(id) => Ok(Some(id)),
        None => {
            name_zero(search)?;
            Ok(None)
        }
    }
}

// Names the unit clauses of level 0, at that level; at higher ones they have their names.
fn name_zero(search: &mut Search) -> Result<(), AllocError>
    requires kept { IsSearching search.old }
    ensures kept { IsSearching search.new }
    ensures parts { search.new ≡ record search.old {
      units = search.new.units;
      tags = search.new.tags;
      named = search.new.named;
      steps = search.new.steps;
    } }
    ensures steps { HasUnitsMore search.old.steps search.new.steps }
    ensures all_named { OnOk result (AreAllNamed search.new) }
{
    if search.trail.depth() != 0 {
        return Ok(());
    }
    name_units(search)
}
