//! Steps that take the literals which are false at level 0 out of a clause.

ghost use Rattle.std.specs.Prelude.{◌≡◌, ◌≢◌, ℕ, ◌<◌, ◌≤◌, List, [], ◌∷◌, ◌++◌, map, take, length};
ghost use Rattle.std.specs.Prelude.{All, Contains, Option, None, Some, IfOk};
ghost use Rattle.sat_base.specs.Lit.{variable, opposite};
ghost use Rattle.sat_base.specs.declared.origins.Ref.{Ref};
ghost use Rattle.trace_core.specs.Known.{Known};
ghost use Rattle.trace_core.specs.Trace.{IsOkStep};
ghost use Rattle.clause_arena.specs.Arena.{clause_at};
ghost use Rattle.analyze.specs.Table.{IsNameOf, unit_of, tag_of_unit};
ghost use Rattle.session.specs.Units.{KnowsOpposites, is_kept, only_kept};

use clause_arena::Arena;
use sat_base::{Clause, Lit, Ref};
use std::alloc::{AllocError, Global};
use trace_core::{Hints, Step};

/// The step that takes all literals but the kept one out of a clause of the arena. Each of these is
/// false at level 0, and its opposite is a unit clause under the name of its variable.
pub(crate) fn unit_step(
    alloc: Global,
    arena: &Arena,
    units: &[Ref],
    tags: &[u32],
    id: usize,
    kept: Option<Lit>,
) -> Result<Step, AllocError>
    requires known { id < length arena.now }
    requires units { All (λ lit. variable lit ≤ length units.now) (clause_at arena.now id).lits }
    requires tags { All (λ lit. variable lit ≤ length tags.now) (clause_at arena.now id).lits }
    requires proper { (lit : ℕ) → Contains (clause_at arena.now id).lits lit
        → Contains (clause_at arena.now id).lits (opposite lit) → ⊥ }
    requires kept { (lit : ℕ) → kept ≡ Some lit → Contains (clause_at arena.now id).lits lit }
    ensures clause { IfOk result (λ step. step.clause ≡ only_kept kept) }
    ensures derived { IfOk result (λ step. (table : Ref → Option Known)
        → IsNameOf table (clause_at arena.now id).origin (clause_at arena.now id).lits
        (clause_at arena.now id).tag
        → KnowsOpposites table units.now tags.now kept (clause_at arena.now id).lits
        → IsOkStep table step) }
{
    let mut hints = Vec::new(alloc);
    let mut tag: u32 = 0;
    for lit in arena.lits(id) {
        if !is_kept(kept, *lit) {
            hints.push(unit_of(units, *lit))?;
            tag = tag.max(tag_of_unit(tags, *lit));
        }
    }
    hints.push(arena.origin(id))?;
    Ok(Step {
        clause: kept_clause(alloc, kept)?,
        hints: Hints::of(hints),
        tag: tag.max(arena.tag(id)),
    })
}

// The name of the unit clause of the literal's variable.
fn unit_of(units: &[Ref], lit: Lit) -> Ref
    requires { variable lit ≤ length units.now }
    ensures { result ≡ unit_of units.now (variable lit) }
{
    units[lit.var() as usize - 1]
}

// The tag of that clause.
fn tag_of_unit(tags: &[u32], lit: Lit) -> u32
    requires { variable lit ≤ length tags.now }
    ensures { result ≡ tag_of_unit tags.now (variable lit) }
{
    tags[lit.var() as usize - 1]
}

fn is_kept(kept: Option<Lit>, lit: Lit) -> bool
    ensures { result ≡ is_kept kept lit }
{
    match kept {
        Some(kept) => kept.code() == lit.code(),
        None => false,
    }
}

fn kept_clause(alloc: Global, kept: Option<Lit>) -> Result<Clause, AllocError>
    ensures { IfOk result (λ clause. clause ≡ only_kept kept) }
{
    let mut lits = Vec::new(alloc);
    if let Some(lit) = kept {
        lits.push(lit)?;
    }
    Ok(Clause::of_ascending(lits))
}
