//! The part of the assumptions that is to blame for a false literal.

ghost use Rattle.std.specs.Prelude.{◌≡◌, ℕ, ◌+◌, ◌*◌, ◌<◌, ◌≤◌, ◌↔◌, ◌⊎◌, [], ◌∷◌, map, length};
ghost use Rattle.std.specs.Prelude.{All, Contains, IfOk, IsTrue, None, Option};
ghost use Rattle.sat_base.specs.Lit.{opposite, variable, IsTautology};
ghost use Rattle.sat_base.specs.declared.origins.Ref.{Ref};
ghost use Rattle.trace_core.specs.Known.{Known};
ghost use Rattle.clause_arena.specs.Arena.{lits_of_each};
ghost use Rattle.trail_core.specs.Trail.{entry_at, lits_of};
ghost use Rattle.trail_core.specs.UnderTrail.{IsFalseLit, IsFounded};
ghost use Rattle.analyze.specs.Graph.{IsDecision, lit_at, level_at};
ghost use Rattle.analyze.specs.Table.{KnowsArena, KnowsUnits};
ghost use Rattle.analyze.specs.Refuted.{IsPart, IsNegationOf, IsRefutedBy, IsExcludedOf};
ghost use Rattle.analyze.specs.Seen.{Agree, AreClear};

use crate::Scratch;
use crate::classify::{Rule, classify};
use crate::naming::cite_all;
use crate::nodes::{level, literal, reason};
use crate::seen::{analyze_clause, clear};
use clause_arena::Arena;
use sat_base::{Clause, Cube, Lit, Ref};
use std::alloc::{AllocError, Global};
use trace_core::{Hints, Step};
use trail_core::Trail;

/// Which of the decisions refute a literal that is false: a part that holds the literal and
/// decisions, and the step that derives the clause of the part's negated literals. Where the
/// literal's negation is itself a decision, the part is these two, and the step is a tautology
/// without hints.
///
/// `units` and `tags` are as for `learn`, and the trail is founded on the arena. The scratch is as
/// before also where memory is wanting. The time is linear in the literals of the clauses that the
/// hints name, besides a sort of what was seen.
pub fn refute(
    alloc: Global,
    scratch: &mut Scratch,
    arena: &Arena,
    units: &[Ref],
    tags: &[u32],
    trail: &Trail,
    lit: Lit,
) -> Result<(Cube, Step), AllocError>
    requires room { trail.now.vars ≤ scratch.old }
    requires units { trail.now.vars ≤ length units.now }
    requires tags { trail.now.vars ≤ length tags.now }
    requires founded { IsFounded (lits_of_each arena.now) trail.now.entries trail.now.depth }
    requires refuted { IsFalseLit (lits_of trail.now.entries) lit }
    ensures scratch { scratch.new ≡ scratch.old }
    ensures part { IfOk result (λ answer. IsPart trail.now.entries lit answer.0) }
    ensures negation { IfOk result (λ answer. IsNegationOf answer.0 answer.1.clause) }
    ensures decided { IfOk result
        (λ answer. IsDecision trail.now.entries (opposite lit)
        → IsTautology answer.1.clause × (answer.1.hints ≡ [])) }

    // For every table that knows the arena's clauses and the unit clauses of level 0.
    ensures derived { IfOk result
        (λ answer. (table : Ref → Option Known) → KnowsArena table arena.now
        → KnowsUnits table trail.now.entries units.now tags.now
        → IsRefutedBy table answer.1) }
{
    let seen = scratch.seen.as_mut_slice();
    let outcome = blame(
        alloc,
        seen,
        &mut scratch.analyzed,
        arena,
        units,
        tags,
        trail,
        lit,
    );
    clear(seen, &mut scratch.analyzed);
    outcome
}

// Finds the part with flags and a list that the caller clears.
fn blame(
    alloc: Global,
    seen: &mut [bool],
    analyzed: &mut Vec<usize>,
    arena: &Arena,
    units: &[Ref],
    tags: &[u32],
    trail: &Trail,
    lit: Lit,
) -> Result<(Cube, Step), AllocError>
    requires room { trail.now.vars ≤ length seen.old }
    requires clear { AreClear seen.old }
    requires empty { analyzed.old.items ≡ [] }
    requires units { trail.now.vars ≤ length units.now }
    requires tags { trail.now.vars ≤ length tags.now }
    requires founded { IsFounded (lits_of_each arena.now) trail.now.entries trail.now.depth }
    requires refuted { IsFalseLit (lits_of trail.now.entries) lit }
    ensures agree { Agree seen.new analyzed.new.items }
    ensures part { IfOk result (λ answer. IsPart trail.now.entries lit answer.0) }
    ensures negation { IfOk result (λ answer. IsNegationOf answer.0 answer.1.clause) }
    ensures decided { IfOk result
        (λ answer. IsDecision trail.now.entries (opposite lit)
        → IsTautology answer.1.clause × (answer.1.hints ≡ [])) }
    ensures derived { IfOk result
        (λ answer. (table : Ref → Option Known) → KnowsArena table arena.now
        → KnowsUnits table trail.now.entries units.now tags.now
        → IsRefutedBy table answer.1) }
{
    analyze_clause(seen, analyzed, trail, &[lit])?;
    if is_decision(trail, analyzed[0]) {
        return excluded_middle(alloc, lit);
    }
    let parts = classify(alloc, seen, analyzed, arena, trail, Rule::Refuting)?;
    let part = part_of(alloc, trail, &parts.kept, lit)?;
    let cited = cite_all(alloc, arena, units, tags, trail, &parts.resolved)?;
    let clause = part.negated(alloc)?;
    let step = Step {
        clause,
        hints: Hints::of(cited.names),
        tag: cited.tag,
    };
    Ok((part, step))
}

// Whether the literal at the place is a decision.
fn is_decision(trail: &Trail, place: usize) -> bool
    requires { place < length trail.now.entries }
    ensures { IsTrue result ↔ (0 < level_at trail.now.entries place)
        × ((entry_at trail.now.entries place).reason ≡ None) }
{
    level(trail, place) > 0 && reason(trail, place).is_none()
}

// The part of a literal and its negation, and the tautology of them.
fn excluded_middle(alloc: Global, lit: Lit) -> Result<(Cube, Step), AllocError>
    ensures { IfOk result (λ answer. IsExcludedOf lit answer.0 answer.1) }
{
    let part = Cube::of_ascending(both_literals(alloc, lit)?);
    let clause = Clause::of_ascending(both_literals(alloc, lit)?);
    let step = Step {
        clause,
        hints: Hints::of(Vec::new(alloc)),
        tag: 0,
    };
    Ok((part, step))
}

// The two literals of the variable, in ascending order.
fn both_literals(alloc: Global, lit: Lit) -> Result<Vec<Lit>, AllocError>
    ensures both { IfOk result
        (λ lits. lits.items ≡ (2 * variable lit) ∷ (2 * variable lit + 1) ∷ []) }
    ensures above { 0 < variable lit }
{
    // Brings that the number is a literal's, so its variable is above 0.
    let _ = lit.var();
    let mut lits = Vec::new(alloc);
    if lit.is_negative() {
        lits.push(lit.negated())?;
        lits.push(lit)?;
    } else {
        lits.push(lit)?;
        lits.push(lit.negated())?;
    }
    Ok(lits)
}

// The cube of a literal and the literals at these places.
fn part_of(alloc: Global, trail: &Trail, places: &[usize], lit: Lit) -> Result<Cube, AllocError>
    requires { All (λ place. place < length trail.now.entries) places.now }
    ensures { IfOk result
        (λ part. (other : ℕ)
        → Contains part other ↔ Contains (lit ∷ map (lit_at trail.now.entries) places.now) other) }
{
    let mut lits = Vec::new(alloc);
    lits.push(lit)?;
    for place in places {
        lits.push(literal(trail, *place))?;
    }
    Cube::from_lits(alloc, &lits)
}
