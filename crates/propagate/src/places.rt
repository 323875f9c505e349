//! Searches in a clause under a trail.

ghost use Rattle.std.specs.Prelude.{◌≡◌, ℕ, ◌+◌, ◌<◌, ◌≤◌, length, IfSome, IfNone, true, false};
ghost use Rattle.sat_base.specs.Lit.{variable};
ghost use Rattle.trail_core.specs.Trail.{IsTrail, lits_of};
ghost use Rattle.trail_core.specs.UnderTrail.{IsFalseLit};
ghost use Rattle.propagate.specs.Store.{AreWithin};
ghost use Rattle.propagate.specs.Places.{IsFreePlace, AreFalseFrom, IsTopPlace, AreNotAtFrom};

use sat_base::Lit;
use trail_core::{Trail, Truth};

/// Whether a literal is false.
fn is_false(trail: &Trail, lit: Lit) -> bool
    requires { variable lit ≤ trail.now.vars }
    ensures yes { result ≡ true → IsFalseLit (lits_of trail.now.entries) lit }
    ensures no { result ≡ false → IsFalseLit (lits_of trail.now.entries) lit → ⊥ }
{
    match trail.truth(lit) {
        Truth::True => false,
        Truth::False => true,
        Truth::Unassigned => false,
    }
}

/// The first place, from this one on, whose literal isn't false.
pub(crate) fn free_place(lits: &[Lit], trail: &Trail, from: usize) -> Option<usize>
    requires { AreWithin trail.now.vars lits.now }
    ensures found { IfSome result (IsFreePlace (lits_of trail.now.entries) lits.now from) }
    ensures none { IfNone result (AreFalseFrom (lits_of trail.now.entries) lits.now from) }
{
    for place in from..lits.len() {
        if !is_false(trail, lits[place]) {
            return Some(place);
        }
    }
    None
}

/// The first place behind the first one whose literal's variable was assigned at the depth.
pub(crate) fn top_place(lits: &[Lit], trail: &Trail) -> Option<usize>
    ensures found { IfSome result
        (IsTopPlace trail.now.entries lits.now trail.now.depth) }
    ensures none { IfNone result
        (AreNotAtFrom trail.now.entries lits.now trail.now.depth 1 (length lits.now)) }
{
    let depth = trail.depth();
    for place in 1..lits.len() {
        if trail.level(lits[place].var()) == Some(depth) {
            return Some(place);
        }
    }
    None
}
