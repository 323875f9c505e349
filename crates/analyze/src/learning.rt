//! Learning a clause from a conflict.

ghost use Rattle.std.specs.Prelude.{◌≡◌, ◌≢◌, ℕ, ◌-◌, ◌<◌, ◌≤◌, ◌↔◌, ◌⊎◌, [], map, length, All};
ghost use Rattle.std.specs.Prelude.{Contains, IfOk, Option};
ghost use Rattle.std.specs.List.Sorted.{IsStrictlySortedBy};
ghost use Rattle.std.specs.Ordering.{nat_cmp};
ghost use Rattle.sat_base.specs.Lit.{opposite};
ghost use Rattle.sat_base.specs.declared.origins.Ref.{Ref};
ghost use Rattle.trace_core.specs.Known.{Known};
ghost use Rattle.clause_arena.specs.Arena.{clause_at, lits_of_each};
ghost use Rattle.trail_core.specs.Trail.{lits_of};
ghost use Rattle.trail_core.specs.UnderTrail.{IsFalseClause, IsFounded, IsComplete};
ghost use Rattle.analyze.specs.Graph.{IsVariableAbove, lit_at, level_at};
ghost use Rattle.analyze.specs.Table.{KnowsArena, KnowsUnits};
ghost use Rattle.analyze.specs.Learnt.{IsAsserting, IsNew, IsMinimized, IsLearntBy};
ghost use Rattle.analyze.specs.Seen.{Agree, AreClear};

use crate::Scratch;
use crate::classify::{Rule, classify};
use crate::first_uip::first_uip;
use crate::naming::cite_all;
use crate::nodes::{level, literal};
use crate::seen::{analyze_clause, clear};
use clause_arena::Arena;
use sat_base::{Clause, Items, Lit, Ref};
use std::alloc::{AllocError, Global};
use trace_core::{Hints, Step};
use trail_core::Trail;

/// What a conflict teaches.
#[derive(Debug, Drop)]
pub struct Learnt {
    /// The learnt clause.
    pub clause: Clause,
    /// The level to go back to: there the clause is unit.
    pub back: u32,
    /// The step that derives the clause.
    pub step: Step,
    /// The variables above level 0 in the clauses that the hints name, in ascending order.
    pub met: Items<u32>,
}

/// Learns a clause from a clause of the arena that is false: resolves backwards along the trail
/// until one literal of the present level is left, the first unique implication point
/// (Marques-Silva and Sakallah), and drops each literal of a lower level whose reason has no other
/// literals than the clause had before, or such as are false at level 0 (local minimization,
/// Sörensson and Biere).
///
/// Item v - 1 of `units` and `tags` belongs to variable v: for a variable of level 0 the name of
/// the clause of its one true literal, and that clause's tag; the items of other variables say
/// nothing. The trail is founded on the arena, and propagation was complete before the last
/// decision.
///
/// The scratch is as before also where memory is wanting. The time is linear in the literals of the
/// clauses that are resolved, besides two sorts of what was seen.
pub fn learn(
    alloc: Global,
    scratch: &mut Scratch,
    arena: &Arena,
    units: &[Ref],
    tags: &[u32],
    trail: &Trail,
    conflict: usize,
) -> Result<Learnt, AllocError>
    requires room { trail.now.vars ≤ scratch.old }
    requires units { trail.now.vars ≤ length units.now }
    requires tags { trail.now.vars ≤ length tags.now }
    requires founded { IsFounded (lits_of_each arena.now) trail.now.entries trail.now.depth }
    requires deep { 0 < trail.now.depth }
    requires complete { IsComplete trail.now.entries (trail.now.depth - 1)
        (lits_of_each arena.now) }
    requires known { conflict < length arena.now }
    requires refuted { IsFalseClause (lits_of trail.now.entries)
        (clause_at arena.now conflict).lits }
    ensures scratch { scratch.new ≡ scratch.old }
    ensures step { IfOk result (λ learnt. learnt.step.clause ≡ learnt.clause) }
    ensures refuted { IfOk result
        (λ learnt. IsFalseClause (lits_of trail.now.entries) learnt.clause) }
    ensures asserting { IfOk result
        (λ learnt. IsAsserting trail.now.entries trail.now.depth learnt.back learnt.clause) }
    ensures fresh { IfOk result (λ learnt. IsNew arena.now learnt.clause) }
    ensures minimized { IfOk result
        (λ learnt. IsMinimized arena.now trail.now.entries trail.now.depth
        learnt.met learnt.clause) }
    ensures ascending { IfOk result (λ learnt. IsStrictlySortedBy nat_cmp learnt.met) }

    // For every table that knows the arena's clauses and the unit clauses of level 0.
    ensures derived { IfOk result
        (λ learnt. (table : Ref → Option Known) → KnowsArena table arena.now
        → KnowsUnits table trail.now.entries units.now tags.now
        → IsLearntBy table trail.now.entries learnt.step learnt.met) }
{
    let seen = scratch.seen.as_mut_slice();
    let outcome = derive(
        alloc,
        seen,
        &mut scratch.analyzed,
        arena,
        units,
        tags,
        trail,
        conflict,
    );
    clear(seen, &mut scratch.analyzed);
    outcome
}

// Learns with flags and a list that the caller clears.
fn derive(
    alloc: Global,
    seen: &mut [bool],
    analyzed: &mut Vec<usize>,
    arena: &Arena,
    units: &[Ref],
    tags: &[u32],
    trail: &Trail,
    conflict: usize,
) -> Result<Learnt, AllocError>
    requires room { trail.now.vars ≤ length seen.old }
    requires clear { AreClear seen.old }
    requires empty { analyzed.old.items ≡ [] }
    requires units { trail.now.vars ≤ length units.now }
    requires tags { trail.now.vars ≤ length tags.now }
    requires founded { IsFounded (lits_of_each arena.now) trail.now.entries trail.now.depth }
    requires deep { 0 < trail.now.depth }
    requires complete { IsComplete trail.now.entries (trail.now.depth - 1)
        (lits_of_each arena.now) }
    requires known { conflict < length arena.now }
    requires refuted { IsFalseClause (lits_of trail.now.entries)
        (clause_at arena.now conflict).lits }
    ensures agree { Agree seen.new analyzed.new.items }
    ensures step { IfOk result (λ learnt. learnt.step.clause ≡ learnt.clause) }
    ensures refuted { IfOk result
        (λ learnt. IsFalseClause (lits_of trail.now.entries) learnt.clause) }
    ensures asserting { IfOk result
        (λ learnt. IsAsserting trail.now.entries trail.now.depth learnt.back learnt.clause) }
    ensures fresh { IfOk result (λ learnt. IsNew arena.now learnt.clause) }
    ensures minimized { IfOk result
        (λ learnt. IsMinimized arena.now trail.now.entries trail.now.depth
        learnt.met learnt.clause) }
    ensures ascending { IfOk result (λ learnt. IsStrictlySortedBy nat_cmp learnt.met) }
    ensures derived { IfOk result
        (λ learnt. (table : Ref → Option Known) → KnowsArena table arena.now
        → KnowsUnits table trail.now.entries units.now tags.now
        → IsLearntBy table trail.now.entries learnt.step learnt.met) }
{
    let left = analyze_clause(seen, analyzed, trail, arena.lits(conflict))?;
    let point = first_uip(seen, analyzed, arena, trail, conflict, left)?;
    let parts = classify(alloc, seen, analyzed, arena, trail, Rule::Learning(point))?;
    let clause = clause_of(alloc, trail, &parts.kept)?;
    let mut cited = cite_all(alloc, arena, units, tags, trail, &parts.resolved)?;
    cited.names.push(arena.origin(conflict))?;
    let tag = cited.tag.max(arena.tag(conflict));
    Ok(Learnt {
        clause: clause.copy(alloc)?,
        back: highest_level(trail, &parts.kept, point),
        step: Step {
            clause,
            hints: Hints::of(cited.names),
            tag,
        },
        met: variables_of(alloc, trail, analyzed)?,
    })
}

// The clause of the negations of the literals at these places.
fn clause_of(alloc: Global, trail: &Trail, places: &[usize]) -> Result<Clause, AllocError>
    requires { All (λ place. place < length trail.now.entries) places.now }
    ensures { IfOk result
        (λ clause. (lit : ℕ)
        → Contains clause lit
        ↔ Contains (map (lit_at trail.now.entries) places.now) (opposite lit)) }
{
    let mut lits = Vec::new(alloc);
    for place in places {
        lits.push(literal(trail, *place).negated())?;
    }
    Clause::from_lits(alloc, &lits)
}

// The highest level of these places but one, 0 without others.
fn highest_level(trail: &Trail, places: &[usize], but: usize) -> u32
    requires { All (λ place. place < length trail.now.entries) places.now }
    ensures bound { (place : ℕ) → Contains places.now place → place ≢ but
        → level_at trail.now.entries place ≤ result }
    ensures reached { (result ≡ 0)
        ⊎ ((place : ℕ) × Contains places.now place × (place ≢ but)
        × (level_at trail.now.entries place ≡ result)) }
{
    let mut highest: u32 = 0;
    for place in places {
        if *place != but {
            highest = highest.max(level(trail, *place));
        }
    }
    highest
}

// The variables above level 0 among the places seen, in ascending order.
fn variables_of(alloc: Global, trail: &Trail, analyzed: &[usize]) -> Result<Items<u32>, AllocError>
    requires { All (λ place. place < length trail.now.entries) analyzed.now }
    ensures ascending { IfOk result (λ vars. IsStrictlySortedBy nat_cmp vars) }
    ensures members { IfOk result
        (λ vars. (var : ℕ)
        → Contains vars var ↔ IsVariableAbove trail.now.entries analyzed.now var) }
{
    let mut vars = Vec::new(alloc);
    for place in analyzed {
        if level(trail, *place) > 0 {
            vars.push(literal(trail, *place).var())?;
        }
    }
    vars.sort()?;
    vars.dedup();
    Ok(Items::of(vars))
}
