//! Levels of the trail: a decision opens one, and a jump back takes those above a level away.

ghost use Rattle.std.specs.Prelude.{◌≡◌, ℕ, ◌+◌, ◌<◌, ◌≤◌, List, [], length, OnOk};
ghost use Rattle.sat_base.specs.Lit.{IsLit, variable};
ghost use Rattle.clause_arena.specs.Arena.{lits_of_each};
ghost use Rattle.trail_core.specs.Trail.{lits_of, up_to};
ghost use Rattle.trail_core.specs.UnderTrail.{IsComplete, IsUnassigned};
ghost use Rattle.session.specs.OnTrail.{IsChoice};
ghost use Rattle.session.specs.Cubes.{IsOnCube, KeepsCubes};
ghost use Rattle.session.specs.Searching.{IsSearching, AreAllNamed, HasSameVariables, solver_of};
ghost use Rattle.session.specs.Watched.{IsSettled};

use crate::search::Search;
use sat_base::Lit;
use std::alloc::AllocError;

/// Opens a level with a decision. After want of memory none is opened.
pub(crate) fn decide(search: &mut Search, lit: Lit) -> Result<(), AllocError>
    requires kept { IsSearching search.old }
    requires complete { IsComplete search.old.trail.entries search.old.trail.depth
        (lits_of_each search.old.store.clauses) }
    requires all_named { AreAllNamed search.old }
    requires settled { IsSettled search.old.store search.old.trail }
    requires is { IsLit lit }
    requires within { variable lit ≤ search.old.trail.vars }
    requires free { IsUnassigned (lits_of search.old.trail.entries) lit }
    ensures kept { IsSearching search.new }
    ensures parts { search.new ≡ record search.old {
      trail = search.new.trail;
      cursors = search.new.cursors;
    } }
    ensures vars { search.new.trail.vars ≡ search.old.trail.vars }
    ensures longer { OnOk result
        (length search.new.trail.entries ≡ length search.old.trail.entries + 1) }
    ensures cube { (cube : List ℕ) → IsChoice cube (lits_of search.old.trail.entries) lit
        → IsOnCube cube search.old → IsOnCube cube search.new }
{
    search.cursors.push(search.cursor)?;
    search.trail.open_level();
    search.trail.assign(lit, None);
    // Brings `IsTrail` of the trail with the decision.
    let _ = search.trail.depth();
    Ok(())
}

/// Takes the levels above this one back. The walk over the cube goes on where it was before they
/// were opened.
pub(crate) fn backjump(search: &mut Search, level: u32)
    requires kept { IsSearching search.old }
    requires within { level < search.old.trail.depth }
    requires nothing_new { 0 < level → search.old.store.fresh ≡ [] }
    ensures kept { IsSearching search.new }
    ensures parts { search.new ≡ record search.old {
      trail = search.new.trail;
      cursor = search.new.cursor;
      cursors = search.new.cursors;
      order = search.new.order;
    } }
    ensures entries { search.new.trail.entries ≡ up_to level search.old.trail.entries }
    ensures depth { search.new.trail.depth ≡ level }
    ensures vars { search.new.trail.vars ≡ search.old.trail.vars }
    ensures cubes { KeepsCubes search.old search.new }
{
    search.order.put_back_above(&search.trail, level);
    search.trail.back_to(level);
    let levels = level as usize;
    search.cursor = search.cursors[levels];
    search.cursors.truncate(levels);
    // Brings `IsTrail` of the shorter trail.
    let _ = search.trail.depth();
}

/// Takes all levels back.
pub(crate) fn go_back(search: &mut Search)
    requires kept { IsSearching search.old }
    ensures kept { IsSearching search.new }
    ensures zero { search.new.trail.depth ≡ 0 }
    ensures solver { solver_of search.new ≡ solver_of search.old }
    ensures variables { HasSameVariables search.old search.new }
    ensures cubes { KeepsCubes search.old search.new }
{
    if search.trail.depth() > 0 {
        backjump(search, 0);
    }
}

/// Counts a learnt clause, and takes all levels back where a restart comes after it.
pub(crate) fn restart_if_due(search: &mut Search)
    requires kept { IsSearching search.old }
    ensures kept { IsSearching search.new }
    ensures solver { solver_of search.new ≡ solver_of search.old }
    ensures variables { HasSameVariables search.old search.new }
    ensures cubes { KeepsCubes search.old search.new }
{
    if search.restarts.is_due() {
        go_back(search);
    }
}
