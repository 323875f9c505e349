//! Which variables an analysis has seen: a flag for each place of the trail, and the list of the
//! places whose flags are set, which is what there is to analyze.

ghost use Rattle.std.specs.Prelude.{◌≡◌, ℕ, ◌≤◌, length, Contains, IfOk, OnOk, [], false};
ghost use Rattle.sat_base.specs.Lit.{variable};
ghost use Rattle.trail_core.specs.Trail.{IsTrail, StandsAt};
ghost use Rattle.analyze.specs.Graph.{IsPlaceOf};
ghost use Rattle.analyze.specs.Seen.{Agree, AreClear, AreDistinct, HasGrown, AreAllSeen};

use crate::nodes::level;
use sat_base::Lit;
use std::alloc::AllocError;
use trail_core::Trail;

// Sees the variable of the literal, if it is assigned. Answers 1 where its place wasn't seen before
// and is of the present level, and 0 otherwise.
fn analyze_literal(
    seen: &mut [bool],
    analyzed: &mut Vec<usize>,
    trail: &Trail,
    present: u32,
    lit: Lit,
) -> Result<usize, AllocError>
    requires trail { IsTrail trail.now }
    requires present { present ≡ trail.now.depth }
    requires room { trail.now.vars ≤ length seen.old }
    requires agree { Agree seen.old analyzed.old.items }
    requires distinct { AreDistinct analyzed.old.items }
    ensures agree { Agree seen.new analyzed.new.items }
    ensures distinct { AreDistinct analyzed.new.items }
    ensures all_seen { OnOk result
        ((place : ℕ) → StandsAt trail.now.entries (variable lit) place
        → Contains analyzed.new.items place) }
    ensures grown { IfOk result
        (λ count. HasGrown trail.now.entries trail.now.depth
        (StandsAt trail.now.entries (variable lit)) analyzed.old.items analyzed.new.items count) }
    ensures one { IfOk result (λ count. count ≤ 1) }
{
    let Some(place) = trail.place(lit.var()) else {
        return Ok(0);
    };
    if seen[place] {
        return Ok(0);
    }
    analyzed.push(place)?;
    seen[place] = true;
    if level(trail, place) == present {
        return Ok(1);
    }
    Ok(0)
}

/// Sees each assigned variable of the clause: flags and lists its place on the trail. Answers how
/// many of the places that weren't seen before are of the present level.
pub(crate) fn analyze_clause(
    seen: &mut [bool],
    analyzed: &mut Vec<usize>,
    trail: &Trail,
    clause: &[Lit],
) -> Result<usize, AllocError>
    requires room { trail.now.vars ≤ length seen.old }
    requires agree { Agree seen.old analyzed.old.items }
    requires distinct { AreDistinct analyzed.old.items }
    ensures agree { Agree seen.new analyzed.new.items }
    ensures distinct { AreDistinct analyzed.new.items }
    ensures trail { IsTrail trail.now }
    ensures all_seen { OnOk result (AreAllSeen trail.now.entries analyzed.new.items clause.now) }
    ensures grown { IfOk result
        (λ count. HasGrown trail.now.entries trail.now.depth
        (IsPlaceOf trail.now.entries clause.now) analyzed.old.items analyzed.new.items count) }
{
    let present = trail.depth();
    let mut count = 0;
    for lit in clause {
        count += analyze_literal(seen, analyzed, trail, present, *lit)?;
    }
    Ok(count)
}

/// Clears the flags of all that is listed, and empties the list.
pub(crate) fn clear(seen: &mut [bool], analyzed: &mut Vec<usize>)
    requires { Agree seen.old analyzed.old.items }
    ensures clear { AreClear seen.new }
    ensures empty { analyzed.new.items ≡ [] }
{
    for place in analyzed.iter() {
        seen[*place] = false;
    }
    analyzed.clear();
}
