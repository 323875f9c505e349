//! Clauses that propagation hasn't seen yet.

ghost use Rattle.std.specs.Prelude.{◌≡◌, ℕ, ◌+◌, ◌<◌, ◌≤◌, length, IsTrue, not};
ghost use Rattle.clause_arena.specs.Arena.{clause_at};
ghost use Rattle.trail_core.specs.Trail.{IsTrail};
ghost use Rattle.watch_ring.specs.Ring.{list_of};
ghost use Rattle.propagate.specs.Store.{AreWithin};
ghost use Rattle.propagate.specs.Pairing.{IsReady};
ghost use Rattle.propagate.specs.Lists.{IsConnected, HasPropagated, IsWatched, new_from};
ghost use Rattle.propagate.specs.Choice.{IsRearranged, IsOneLeft, IsChosen};
ghost use Rattle.propagate.specs.Walk.{IsRefuted};

use crate::places::{free_place, top_place};
use clause_arena::Arena;
use trail_core::{Trail, Truth};
use watch_ring::WatchRing;

/// Takes the clauses from this number on into the lists, one after the other, and assigns what they
/// force, until one is false. The answer is the number of those that aren't new any more.
pub(crate) fn settle_new(
    arena: &mut Arena,
    ring: &mut WatchRing,
    trail: &mut Trail,
    from: usize,
) -> usize
    requires known { from ≤ length arena.old }
    requires connected { IsConnected arena.old (new_from from arena.old) ring.old trail.old }
    ensures connected { IsConnected arena.new (new_from result arena.new) ring.new trail.new }
    ensures kept { HasPropagated arena.old ring.old trail.old arena.new ring.new trail.new }
    ensures more { from ≤ result }
    ensures known { result ≤ length arena.new }
    ensures refuted { result < length arena.new → IsRefuted arena.new trail.new.entries result }
{
    let mut id = from;
    while id < arena.len() {
        if !settle(arena, ring, trail, id) {
            return id;
        }
        id += 1;
    }
    id
}

// Takes the first new clause into the lists, if it isn't false, and assigns what it forces. The
// answer tells whether it isn't false.
fn settle(arena: &mut Arena, ring: &mut WatchRing, trail: &mut Trail, id: usize) -> bool
    requires known { id < length arena.old }
    requires connected { IsConnected arena.old (new_from id arena.old) ring.old trail.old }
    ensures kept { HasPropagated arena.old ring.old trail.old arena.new ring.new trail.new }
    ensures settled { IsTrue result
        → IsConnected arena.new (new_from (id + 1) arena.new) ring.new trail.new }
    ensures still_new { IsTrue (not result)
        → IsConnected arena.new (new_from id arena.new) ring.new trail.new }
    ensures refuted { IsTrue (not result) → IsRefuted arena.new trail.new.entries id }
{
    match choose(arena, trail, id) {
        Choice::False => false,
        Choice::One => {
            settle_one(arena, ring, trail, id);
            true
        }
        Choice::Two => {
            watch(arena, ring, id);
            true
        }
    }
}

// Takes a clause into the lists of which all literals but the first one are false, and makes that
// one true where it isn't.
fn settle_one(arena: &Arena, ring: &mut WatchRing, trail: &mut Trail, id: usize)
    requires known { id < length arena.now }
    requires connected { IsConnected arena.now (new_from id arena.now) ring.old trail.old }
    requires one { IsOneLeft trail.old.entries trail.old.depth (clause_at arena.now id).lits }
    ensures kept { HasPropagated arena.now ring.old trail.old arena.now ring.new trail.new }
    ensures settled { IsConnected arena.now (new_from (id + 1) arena.now) ring.new trail.new }
{
    watch(arena, ring, id);
    let lit = arena.lits(id)[0];
    match trail.truth(lit) {
        Truth::True => {}
        Truth::False => {}
        Truth::Unassigned => trail.assign(lit, Some(id)),
    }
}

// Puts a clause into the lists of its first two literals, if it has so many.
fn watch(arena: &Arena, ring: &mut WatchRing, id: usize)
    requires known { id < length arena.now }
    requires reserved { AreWithin ring.old.vars (clause_at arena.now id).lits }
    requires sides { length arena.now ≤ ring.old.clauses }
    requires lists { IsWatched arena.now (new_from id arena.now) (list_of ring.old) }
    ensures lists { IsWatched arena.now (new_from (id + 1) arena.now) (list_of ring.new) }
    ensures vars { ring.new.vars ≡ ring.old.vars }
    ensures clauses { ring.new.clauses ≡ ring.old.clauses }
{
    let lits = arena.lits(id);
    if lits.len() < 2 {
        return;
    }
    ring.join(lits[0], id, 0);
    ring.join(lits[1], id, 1);
}

// What a clause is, once the literals to be watched stand in front.
enum Choice {
    // Each literal is false.
    False,
    // The first literal isn't false, and all others are.
    One,
    // The first two literals aren't false.
    Two,
}

// Brings two literals that aren't false into the first two places; where there is only one, that
// and a false one of the highest level.
fn choose(arena: &mut Arena, trail: &Trail, id: usize) -> Choice
    requires known { id < length arena.old }
    requires within { AreWithin trail.now.vars (clause_at arena.old id).lits }
    requires ready { IsReady trail.now.entries trail.now.depth (clause_at arena.old id).lits }
    ensures rearranged { IsRearranged arena.old arena.new id }
    ensures chosen { IsChosen trail.now.entries trail.now.depth (clause_at arena.new id).lits
        result }
    ensures trail { IsTrail trail.now }
{
    let _ = trail.depth();
    let Some(first) = free_place(arena.lits(id), trail, 0) else {
        return Choice::False;
    };
    arena.swap(id, 0, first);
    if let Some(second) = free_place(arena.lits(id), trail, 1) {
        arena.swap(id, 1, second);
        return Choice::Two;
    }
    if let Some(second) = top_place(arena.lits(id), trail) {
        arena.swap(id, 1, second);
        return Choice::One;
    }
    Choice::One
}
