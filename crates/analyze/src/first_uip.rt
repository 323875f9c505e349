//! The first unique implication point.

ghost use Rattle.std.specs.Prelude.{◌≡◌, ◌≢◌, ◌+◌, ◌-◌, ◌<◌, ◌≤◌, ◌⊎◌, length, IfOk, IfNone};
ghost use Rattle.std.specs.Prelude.{IfSome, Some, None};
ghost use Rattle.clause_arena.specs.Arena.{clause_at, lits_of_each};
ghost use Rattle.trail_core.specs.Trail.{entry_at};
ghost use Rattle.trail_core.specs.UnderTrail.{IsFounded, IsComplete};
ghost use Rattle.analyze.specs.Seen.{Agree, AreDistinct};
ghost use Rattle.analyze.specs.FirstUip.{IsResolvedFrom, IsUnderWay, IsFirstUip};

use crate::nodes::reason;
use crate::seen::analyze_clause;
use clause_arena::Arena;
use std::alloc::AllocError;
use trail_core::Trail;

/// Resolves backwards along the trail until one literal of the present level is left among those
/// seen, and answers its place: the first unique implication point. At the start the variables of
/// the conflict are seen, `left` of which are of the present level.
pub(crate) fn first_uip(
    seen: &mut [bool],
    analyzed: &mut Vec<usize>,
    arena: &Arena,
    trail: &Trail,
    conflict: usize,
    left: usize,
) -> Result<usize, AllocError>
    requires room { trail.now.vars ≤ length seen.old }
    requires agree { Agree seen.old analyzed.old.items }
    requires distinct { AreDistinct analyzed.old.items }
    requires founded { IsFounded (lits_of_each arena.now) trail.now.entries trail.now.depth }
    requires complete { IsComplete trail.now.entries (trail.now.depth - 1)
        (lits_of_each arena.now) }
    requires deep { 0 < trail.now.depth }
    requires resolved_from { IsResolvedFrom arena.now trail.now.entries trail.now.depth
        (clause_at arena.now conflict).lits (length trail.now.entries) analyzed.old.items }
    requires under_way { IsUnderWay trail.now.entries trail.now.depth
        (length trail.now.entries) left
        analyzed.old.items }
    ensures agree { Agree seen.new analyzed.new.items }
    ensures distinct { AreDistinct analyzed.new.items }
    ensures resolved_from { IfOk result
        (λ point. IsResolvedFrom arena.now trail.now.entries trail.now.depth
        (clause_at arena.now conflict).lits (point + 1) analyzed.new.items) }
    ensures point { IfOk result
        (λ point. IsFirstUip trail.now.entries trail.now.depth analyzed.new.items point) }
{
    let mut left = left;
    let mut place = trail.lits().len();
    loop {
        place -= 1;
        if seen[place] {
            let Some(id) = reason_unless_last(trail, place, left) else {
                return Ok(place);
            };
            left -= 1;
            left += analyze_clause(seen, analyzed, trail, arena.lits(id))?;
        }
    }
}

// The reason of the literal at the place, none where it is the last one left.
fn reason_unless_last(trail: &Trail, place: usize, left: usize) -> Option<usize>
    requires { place < length trail.now.entries }
    ensures none { IfNone result ((left ≡ 1) ⊎ ((entry_at trail.now.entries place).reason ≡ None)) }
    ensures some { IfSome result
        (λ id. (left ≢ 1) × ((entry_at trail.now.entries place).reason ≡ Some id)) }
{
    if left == 1 {
        return None;
    }
    reason(trail, place)
}
