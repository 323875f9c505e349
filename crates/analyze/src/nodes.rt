//! The literal, the level and the reason at a place of the trail.

ghost use Rattle.std.specs.Prelude.{◌≡◌, ◌<◌, length};
ghost use Rattle.trail_core.specs.Trail.{IsTrail, entry_at};
ghost use Rattle.analyze.specs.Graph.{lit_at, level_at};

use sat_base::Lit;
use trail_core::Trail;

/// The literal that became true at the place.
pub(crate) fn literal(trail: &Trail, place: usize) -> Lit
    requires { place < length trail.now.entries }
    ensures value { result ≡ lit_at trail.now.entries place }
    ensures trail { IsTrail trail.now }
{
    trail.lits()[place]
}

/// The level of the place.
pub(crate) fn level(trail: &Trail, place: usize) -> u32
    requires { place < length trail.now.entries }
    ensures value { result ≡ level_at trail.now.entries place }
    ensures trail { IsTrail trail.now }
{
    trail.level(literal(trail, place).var()).unwrap_or(0)
}

/// The number of the clause that forced the literal at the place, if one did.
pub(crate) fn reason(trail: &Trail, place: usize) -> Option<usize>
    requires { place < length trail.now.entries }
    ensures { result ≡ (entry_at trail.now.entries place).reason }
{
    trail.reason(literal(trail, place).var())
}
