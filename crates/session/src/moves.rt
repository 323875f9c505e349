//! The next decision.

ghost use Rattle.std.specs.Prelude.{◌≡◌, ◌≤◌, IfSome, IfNone, MatchBool, All, Contains};
ghost use Rattle.std.specs.Prelude.{take};
ghost use Rattle.sat_base.specs.Lit.{IsLit, variable};
ghost use Rattle.trail_core.specs.Trail.{IsTrail, lits_of};
ghost use Rattle.trail_core.specs.UnderTrail.{IsTrueLit};
ghost use Rattle.session.specs.Moves.{IsMove};
ghost use Rattle.session.specs.OnTrail.{IsCubeTrue};
ghost use Rattle.session.specs.Cursors.{PassesTrue};
ghost use Rattle.session.specs.Orders.{IsOrder, OffersFree};

use crate::order::Order;
use crate::search::Cursor;
use sat_base::{Cube, Lit};
use trail_core::Trail;

/// What a search does next, once propagation is complete.
#[derive(Clone, Copy, Debug, PartialEq, Eq)]
pub(crate) enum Move {
    /// The next decision.
    Decide(Lit),
    /// A literal of the cube that is false.
    Blame(Lit),
    /// Every variable of the inputs is assigned.
    Stop,
}

/// The cube's first literal that isn't true comes first, as the next decision where it is
/// unassigned. Then it is a free variable of the order, and where none is left, the trail is a
/// model: that all are assigned is seen at once, without a look through the order. The cursor
/// passes only literals that are true, before and after.
#[tactic(auto, using(crate::proofs::Orders::complete_literals))]
pub(crate) fn next_move(trail: &Trail, cursor: &mut Cursor, order: &mut Order, cube: &Cube) -> Move
    requires passed { PassesTrue cube.now (lits_of trail.now.entries) cursor.old }
    requires order { IsOrder order.old }
    requires offers { OffersFree trail.now.entries order.old.ranking }
    requires reserved { order.old.vars ≤ trail.now.vars }
    requires within { All (λ lit. variable lit ≤ trail.now.vars) cube.now }
    ensures passed { PassesTrue cube.now (lits_of trail.now.entries) cursor.new }
    ensures order { IsOrder order.new }
    ensures offers { OffersFree trail.now.entries order.new.ranking }
    ensures vars { order.new.vars ≡ order.old.vars }
    ensures next { IsMove (lits_of trail.now.entries) cube.now order.old.vars trail.now.vars
        result }
{
    if let Some(lit) = first_open(trail, &mut cursor.literals, cube) {
        return match trail.value(lit) {
            Some(_) => Move::Blame(lit),
            None => Move::Decide(lit),
        };
    }
    if trail.is_complete() {
        return Move::Stop;
    }
    match order.next(trail) {
        Some(lit) => Move::Decide(lit),
        None => Move::Stop,
    }
}

// The first literal of the cube that isn't true. The cursor spares the walk over those before it.
fn first_open(trail: &Trail, cursor: &mut usize, cube: &Cube) -> Option<Lit>
    requires passed { All (Contains (lits_of trail.now.entries)) (take cursor.old cube.now) }
    ensures passed { All (Contains (lits_of trail.now.entries)) (take cursor.new cube.now) }
    ensures some { IfSome result (λ lit. IsLit lit × Contains cube.now lit
        × (IsTrueLit (lits_of trail.now.entries) lit → ⊥)) }
    ensures none { IfNone result (IsCubeTrue (lits_of trail.now.entries) cube.now) }
{
    let lits = cube.lits();
    while *cursor < lits.len() {
        let lit = lits[*cursor];
        if !is_true(trail, lit) {
            return Some(lit);
        }
        *cursor += 1;
    }
    None
}

pub(crate) fn is_true(trail: &Trail, lit: Lit) -> bool
    ensures value { MatchBool result (IsTrueLit (lits_of trail.now.entries) lit)
        (IsTrueLit (lits_of trail.now.entries) lit → ⊥) }
    ensures trail { IsTrail trail.now }
{
    match trail.value(lit) {
        Some(value) => value,
        None => false,
    }
}
