//! Propagation along watch lists.

ghost use Rattle.std.specs.Prelude.{◌≡◌, ℕ, ◌+◌, ◌<◌, ◌≤◌, [], length, Some, IfSome, IfNone};
ghost use Rattle.sat_base.specs.Lit.{opposite};
ghost use Rattle.clause_arena.specs.Arena.{HasNoRepeat, clause_at, lits_of_each};
ghost use Rattle.trail_core.specs.Trail.{IsTrail, entry_at, lits_of};
ghost use Rattle.trail_core.specs.UnderTrail.{IsComplete};
ghost use Rattle.watch_ring.specs.Ring.{list_of};
ghost use Rattle.propagate.specs.Store.{AreWithin};
ghost use Rattle.propagate.specs.Pairing.{IsPaired};
ghost use Rattle.propagate.specs.Lists.{IsConnected, HasPropagated};
ghost use Rattle.propagate.specs.Walk.{IsRefuted, IsSeen, IsUnderway, HasStepped, left_from};

use crate::places::free_place;
use clause_arena::Arena;
use sat_base::Lit;
use trail_core::{Trail, Truth};
use watch_ring::WatchRing;

/// Looks at all literals of the trail that weren't looked at yet, and at those that come meanwhile,
/// until none is left or a clause is false: then the answer is its number.
pub(crate) fn look_at_all(
    arena: &mut Arena,
    ring: &mut WatchRing,
    trail: &mut Trail,
) -> Option<usize>
    requires { IsConnected arena.old [] ring.old trail.old }
    ensures connected { IsConnected arena.new [] ring.new trail.new }
    ensures kept { HasPropagated arena.old ring.old trail.old arena.new ring.new trail.new }
    ensures refuted { IfSome result (IsRefuted arena.new trail.new.entries) }
    ensures complete { IfNone result
        (IsComplete trail.new.entries trail.new.depth (lits_of_each arena.new)) }
    ensures looked { IfNone result (trail.new.looked ≡ length trail.new.entries) }
{
    loop {
        let n = trail.looked();
        let lits = trail.lits();
        if n == lits.len() {
            // Brings that no clause has a literal twice.
            let _ = arena.len();
            return None;
        }
        let lit = lits[n];
        match visit(arena, ring, trail, lit) {
            Some(id) => return Some(id),
            None => trail.mark(n + 1),
        }
    }
}

/// Goes through the clauses that watch the opposite of a literal, the first one that wasn't looked
/// at, until one is false: then the answer is its number.
fn visit(arena: &mut Arena, ring: &mut WatchRing, trail: &mut Trail, lit: Lit) -> Option<usize>
    requires connected { IsConnected arena.old [] ring.old trail.old }
    requires next { trail.old.looked < length trail.old.entries }
    requires is { (entry_at trail.old.entries trail.old.looked).lit ≡ lit }
    ensures connected { IsConnected arena.new [] ring.new trail.new }
    ensures kept { HasPropagated arena.old ring.old trail.old arena.new ring.new trail.new }
    ensures looked { trail.new.looked ≡ trail.old.looked }
    ensures refuted { IfSome result (IsRefuted arena.new trail.new.entries) }
    ensures paired { IfNone result
        (IsPaired arena.new [] trail.new.entries (trail.old.looked + 1)) }
    ensures trail { IsTrail trail.new }
{
    let gone = lit.negated();
    let mut before: Option<(usize, u8)> = None;
    let mut here = ring.first(gone);
    while let Some((id, side)) = here {
        match take_step(arena, ring, trail, gone, before, id, side) {
            Step::On {
                before: last,
                here: next,
            } => {
                before = last;
                here = next;
            }
            Step::Refuted => {
                // Brings `IsTrail` of the trail at this exit.
                let _ = trail.depth();
                return Some(id);
            }
        }
    }
    let _ = trail.depth();
    None
}

// What came of a side.
enum Step {
    // The next side, and the one behind which it stands.
    On {
        before: Option<(usize, u8)>,
        here: Option<(usize, u8)>,
    },
    // Its clause is false.
    Refuted,
}

// Deals with one side in the list of a false literal: its clause is satisfied, watches another
// literal from now on, forces the literal on its other side, or is false.
fn take_step(
    arena: &mut Arena,
    ring: &mut WatchRing,
    trail: &mut Trail,
    gone: Lit,
    before: Option<(usize, u8)>,
    id: usize,
    side: u8,
) -> Step
    requires { IsUnderway arena.old ring.old trail.old gone before (Some (id, side)) }
    ensures kept { HasPropagated arena.old ring.old trail.old arena.new ring.new trail.new }
    ensures looked { trail.new.looked ≡ trail.old.looked }
    ensures connected { IsConnected arena.new [] ring.new trail.new }
    ensures stepped { HasStepped arena.new ring.new trail.new gone id
        (left_from (Some (id, side)) (list_of ring.old gone)) result }
{
    match look_at(arena, trail, id, side) {
        Look::Satisfied => Step::On {
            before: Some((id, side)),
            here: ring.next(id, side),
        },
        Look::Free(place, lit) => {
            let here = ring.next(id, side);
            arena.swap(id, side as usize, place);
            ring.move_to(gone, before, id, side, lit);
            Step::On { before, here }
        }
        Look::Forced(lit) => {
            trail.assign(lit, Some(id));
            Step::On {
                before: Some((id, side)),
                here: ring.next(id, side),
            }
        }
        Look::False => Step::Refuted,
    }
}

// What a clause is whose watched literal on one side is false.
enum Look {
    // Its other watched literal is true.
    Satisfied,
    // The literal in this place, which isn't watched, isn't false.
    Free(usize, Lit),
    // It is unit, and this is its other watched literal.
    Forced(Lit),
    // Each of its literals is false.
    False,
}

// Looks at the other watched literal first, and then for one that may be watched instead.
fn look_at(arena: &Arena, trail: &Trail, id: usize, side: u8) -> Look
    requires known { id < length arena.now }
    requires side { side < 2 }
    requires wide { 2 ≤ length (clause_at arena.now id).lits }
    requires within { AreWithin trail.now.vars (clause_at arena.now id).lits }
    ensures seen { IsSeen (lits_of trail.now.entries) (clause_at arena.now id).lits side result }
    ensures distinct { HasNoRepeat (clause_at arena.now id).lits }
    ensures trail { IsTrail trail.now }
{
    let lits = arena.lits(id);
    let other = lits[1 - side as usize];
    match trail.truth(other) {
        Truth::True => Look::Satisfied,
        Truth::False => match free_place(lits, trail, 2) {
            Some(place) => Look::Free(place, lits[place]),
            None => Look::False,
        },
        Truth::Unassigned => match free_place(lits, trail, 2) {
            Some(place) => Look::Free(place, lits[place]),
            None => Look::Forced(other),
        },
    }
}
