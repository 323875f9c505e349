//! The clauses by which literals are resolved away: their names and the greatest of their tags.

ghost use Rattle.std.specs.Prelude.{◌≡◌, ℕ, ◌≤◌, ◌<◌, map, length, All, IfOk};
ghost use Rattle.trace_core.specs.Trace.{greatest};
ghost use Rattle.analyze.specs.Naming.{name_for, tag_for, HasClause};

use crate::nodes::{level, literal, reason};
use clause_arena::Arena;
use sat_base::Ref;
use std::alloc::{AllocError, Global};
use trail_core::Trail;

/// The name of a known clause, and its tag.
#[derive(Clone, Copy, Debug)]
pub(crate) struct Citation {
    pub(crate) name: Ref,
    pub(crate) tag: u32,
}

/// The names of known clauses, and the greatest of their tags.
#[derive(Debug, Drop)]
pub(crate) struct Citations {
    pub(crate) names: Vec<Ref>,
    pub(crate) tag: u32,
}

/// The clause by which the literal at the place is resolved away: the unit clause of a literal of
/// level 0, and the reason of another.
pub(crate) fn cite(
    arena: &Arena,
    units: &[Ref],
    tags: &[u32],
    trail: &Trail,
    place: usize,
) -> Citation
    requires clause { HasClause arena.now trail.now.entries place }
    requires units { trail.now.vars ≤ length units.now }
    requires tags { trail.now.vars ≤ length tags.now }
    ensures name { result.name ≡ name_for arena.now trail.now.entries units.now place }
    ensures tag { result.tag ≡ tag_for arena.now trail.now.entries tags.now place }
{
    if level(trail, place) == 0 {
        let index = literal(trail, place).var() as usize - 1;
        return Citation {
            name: units[index],
            tag: tags[index],
        };
    }
    let id = reason(trail, place).unwrap();
    Citation {
        name: arena.origin(id),
        tag: arena.tag(id),
    }
}

/// The clauses by which the literals at these places are resolved away, in that order.
pub(crate) fn cite_all(
    alloc: Global,
    arena: &Arena,
    units: &[Ref],
    tags: &[u32],
    trail: &Trail,
    places: &[usize],
) -> Result<Citations, AllocError>
    requires clauses { All (HasClause arena.now trail.now.entries) places.now }
    requires units { trail.now.vars ≤ length units.now }
    requires tags { trail.now.vars ≤ length tags.now }
    ensures names { IfOk result
        (λ cited. cited.names.items
        ≡ map (name_for arena.now trail.now.entries units.now) places.now) }
    ensures tag { IfOk result
        (λ cited. cited.tag
        ≡ greatest (map (tag_for arena.now trail.now.entries tags.now) places.now)) }
{
    let mut names = Vec::new(alloc);
    let mut tag: u32 = 0;
    for place in places {
        let cited = cite(arena, units, tags, trail, *place);
        names.push(cited.name)?;
        tag = tag.max(cited.tag);
    }
    Ok(Citations { names, tag })
}
