//! The cut through the implication graph: which literals stay and which are resolved away.

ghost use Rattle.std.specs.Prelude.{◌≡◌, ℕ, ◌<◌, ◌≤◌, false, List, [], length, Contains};
ghost use Rattle.std.specs.Prelude.{IfOk, OnOk, IsTrue};
ghost use Rattle.std.specs.List.Sorted.{IsStrictlySortedBy};
ghost use Rattle.std.specs.Ordering.{nat_cmp};
ghost use Rattle.sat_base.specs.Lit.{variable};
ghost use Rattle.clause_arena.specs.Arena.{ArenaClause, lits_of_each};
ghost use Rattle.trail_core.specs.Trail.{IsTrail};
ghost use Rattle.trail_core.specs.UnderTrail.{IsFounded};
ghost use Rattle.analyze.specs.Seen.{Agree, AreDistinct};
ghost use Rattle.analyze.specs.Graph.{level_at};
ghost use Rattle.analyze.specs.declared.classify.Rule.TheVariants.{Learning, Refuting};
ghost use Rattle.analyze.specs.Cut.{IsDeepFor, IsPrepared, IsRole, IsCut, AddsNothing};
ghost use Rattle.analyze.specs.Cut.{AddsPlace};

use crate::nodes::{level, reason};
use crate::seen::analyze_clause;
use clause_arena::Arena;
use sat_base::Lit;
use std::alloc::{AllocError, Global};
use trail_core::Trail;

/// What an analysis is for.
#[derive(Clone, Copy, Debug)]
pub(crate) enum Rule {
    /// A clause: the unique implication point at this place stays, and of the lower levels what
    /// isn't implied by the others.
    Learning(usize),
    /// A refuted part: the decisions stay.
    Refuting,
}

/// What becomes of a literal.
#[derive(Clone, Copy, Debug)]
pub(crate) enum Role {
    /// It stays.
    Kept,
    /// It is resolved away; all that this needs is seen.
    Resolved,
    /// It is resolved away with the clause of this number, whose other literals are to be seen.
    Implied(usize),
}

/// The places of the literals that stay, and those that are resolved away, in ascending order.
#[derive(Debug, Drop)]
pub(crate) struct Cut {
    pub(crate) kept: Vec<usize>,
    pub(crate) resolved: Vec<usize>,
}

/// Classifies the places seen, and those that are seen besides as the rule asks.
pub(crate) fn classify(
    alloc: Global,
    seen: &mut [bool],
    analyzed: &mut Vec<usize>,
    arena: &Arena,
    trail: &Trail,
    rule: Rule,
) -> Result<Cut, AllocError>
    requires room { trail.now.vars ≤ length seen.old }
    requires agree { Agree seen.old analyzed.old.items }
    requires distinct { AreDistinct analyzed.old.items }
    requires within { (place : ℕ) → Contains analyzed.old.items place
        → place < length trail.now.entries }
    requires founded { IsFounded (lits_of_each arena.now) trail.now.entries trail.now.depth }
    requires deep { IsDeepFor trail.now.entries trail.now.depth rule }
    requires prepared { IsPrepared arena.now trail.now.entries trail.now.depth rule
        analyzed.old.items }
    ensures agree { Agree seen.new analyzed.new.items }
    ensures cut { IfOk result
        (λ parts. IsCut arena.now trail.now.entries trail.now.depth rule analyzed.old.items
        analyzed.new.items analyzed.new.items parts.kept.items parts.resolved.items) }
    ensures ascending { IfOk result (λ parts. IsStrictlySortedBy nat_cmp parts.resolved.items) }
{
    let mut kept = Vec::new(alloc);
    let mut resolved = Vec::new(alloc);
    classify_all(seen, analyzed, &mut kept, &mut resolved, arena, trail, rule)?;
    resolved.sort()?;
    resolved.dedup();
    Ok(Cut { kept, resolved })
}

// Goes through the places seen, in the order in which they were seen.
fn classify_all(
    seen: &mut [bool],
    analyzed: &mut Vec<usize>,
    kept: &mut Vec<usize>,
    resolved: &mut Vec<usize>,
    arena: &Arena,
    trail: &Trail,
    rule: Rule,
) -> Result<(), AllocError>
    requires room { trail.now.vars ≤ length seen.old }
    requires agree { Agree seen.old analyzed.old.items }
    requires distinct { AreDistinct analyzed.old.items }
    requires within { (place : ℕ) → Contains analyzed.old.items place
        → place < length trail.now.entries }
    requires founded { IsFounded (lits_of_each arena.now) trail.now.entries trail.now.depth }
    requires deep { IsDeepFor trail.now.entries trail.now.depth rule }
    requires prepared { IsPrepared arena.now trail.now.entries trail.now.depth rule
        analyzed.old.items }
    requires nothing_kept { kept.old.items ≡ [] }
    requires nothing_resolved { resolved.old.items ≡ [] }
    ensures agree { Agree seen.new analyzed.new.items }
    ensures cut { OnOk result
        (IsCut arena.now trail.now.entries trail.now.depth rule analyzed.old.items
        analyzed.new.items analyzed.new.items kept.new.items resolved.new.items) }
{
    let mut next = 0;
    while next < analyzed.len() {
        let place = analyzed[next];
        match role_of(seen, arena, trail, rule, place) {
            Role::Kept => kept.push(place)?,
            Role::Resolved => resolved.push(place)?,
            Role::Implied(id) => {
                analyze_clause(seen, analyzed, trail, arena.lits(id))?;
                resolved.push(place)?;
            }
        }
        next += 1;
    }
    Ok(())
}

// What becomes of the literal at a place that was seen.
fn role_of(seen: &[bool], arena: &Arena, trail: &Trail, rule: Rule, place: usize) -> Role
    requires within { place < length trail.now.entries }
    requires room { trail.now.vars ≤ length seen.now }
    requires founded { IsFounded (lits_of_each arena.now) trail.now.entries trail.now.depth }
    requires deep { IsDeepFor trail.now.entries trail.now.depth rule }
    ensures trail { IsTrail trail.now }
    ensures role { (analyzed : List ℕ) → Agree seen.now analyzed → Contains analyzed place
        → IsPrepared arena.now trail.now.entries trail.now.depth rule analyzed
        → IsRole arena.now trail.now.entries trail.now.depth rule analyzed place result }
{
    if level(trail, place) == 0 {
        return Role::Resolved;
    }
    match rule {
        Rule::Learning(point) => learning_role(seen, arena, trail, point, place),
        Rule::Refuting => refuting_role(trail, place),
    }
}

// A literal below the present level is implied where each other literal of its reason was seen or
// is of level 0.
fn learning_role(seen: &[bool], arena: &Arena, trail: &Trail, point: usize, place: usize) -> Role
    requires within { place < length trail.now.entries }
    requires above { 0 < level_at trail.now.entries place }
    requires room { trail.now.vars ≤ length seen.now }
    requires founded { IsFounded (lits_of_each arena.now) trail.now.entries trail.now.depth }
    ensures { (analyzed : List ℕ) → Agree seen.now analyzed → Contains analyzed place
        → IsPrepared arena.now trail.now.entries trail.now.depth (Learning point) analyzed
        → IsRole arena.now trail.now.entries trail.now.depth
        (Learning point) analyzed place result }
{
    if place == point {
        return Role::Kept;
    }
    if level(trail, place) == trail.depth() {
        return Role::Resolved;
    }
    let Some(id) = reason(trail, place) else {
        return Role::Kept;
    };
    if adds_little(seen, trail, arena.lits(id)) {
        return Role::Implied(id);
    }
    Role::Kept
}

fn refuting_role(trail: &Trail, place: usize) -> Role
    requires within { place < length trail.now.entries }
    requires above { 0 < level_at trail.now.entries place }
    ensures { (clauses : List ArenaClause) (analyzed : List ℕ)
        → IsRole clauses trail.now.entries trail.now.depth Refuting analyzed place result }
{
    match reason(trail, place) {
        Some(id) => Role::Implied(id),
        None => Role::Kept,
    }
}

// Whether each assigned variable of the clause was seen or is of level 0.
fn adds_little(seen: &[bool], trail: &Trail, clause: &[Lit]) -> bool
    requires { trail.now.vars ≤ length seen.now }
    ensures little { IsTrue result → (lit : ℕ) → Contains clause.now lit
        → AddsNothing trail.now.entries seen.now (variable lit) }
    ensures more { result ≡ false → (lit : ℕ) × Contains clause.now lit
        × AddsPlace trail.now.entries seen.now (variable lit) }
{
    for lit in clause {
        if !adds_nothing(seen, trail, *lit) {
            return false;
        }
    }
    true
}

// Whether the variable of the literal was seen, is of level 0, or isn't assigned.
fn adds_nothing(seen: &[bool], trail: &Trail, lit: Lit) -> bool
    requires { trail.now.vars ≤ length seen.now }
    ensures nothing { IsTrue result → AddsNothing trail.now.entries seen.now (variable lit) }
    ensures place { result ≡ false → AddsPlace trail.now.entries seen.now (variable lit) }
{
    let Some(place) = trail.place(lit.var()) else {
        return true;
    };
    let at = level(trail, place);
    seen[place] || at == 0
}
