//! What a search does with a clause that is false.

ghost use Rattle.std.specs.Prelude.{◌≡◌, ℕ, ◌<◌, [], ◌∷◌, ◌++◌, ◌≤◌, Some, length, Contains, OnOk};
ghost use Rattle.std.specs.Prelude.{IfOk, IfSome, IfNone};
ghost use Rattle.sat_base.specs.Lit.{IsLitSet, variable};
ghost use Rattle.sat_base.specs.declared.origins.Ref.TheVariants.{Own};
ghost use Rattle.clause_arena.specs.Arena.{lits_of_each};
ghost use Rattle.trail_core.specs.Trail.{lits_of, up_to};
ghost use Rattle.trail_core.specs.UnderTrail.{HasOthersFalse, IsOpenClause, IsUnassigned};
ghost use Rattle.propagate.specs.Store.{AreWithin};
ghost use Rattle.propagate.specs.Pairing.{IsReady};
ghost use Rattle.session.specs.Solver.{IsStep};
ghost use Rattle.session.specs.Searching.{IsSearching, HasSameVariables, IsConflict, solver_of};
ghost use Rattle.session.specs.Cubes.{KeepsCubes};
ghost use Rattle.session.specs.Lessons.{IsLesson};
ghost use Rattle.session.specs.Solving.{Keeps, LearnsOne};

use crate::levels::backjump;
use crate::search::{Search, push_step};
use analyze::learn;
use sat_base::{Clause, Items, Lit, Ref};
use std::alloc::AllocError;
use trace_core::Step;
use trail_core::Trail;

/// What a conflict teaches: a clause, the level at which it is unit, the step that derives it, the
/// variables that the clauses it came from have above level 0, and of how many levels its literals
/// are, as far as `levels_of` tells them apart.
#[derive(Debug, Drop)]
pub(crate) struct Lesson {
    clause: Clause,
    back: u32,
    step: Step,
    met: Items<u32>,
    levels: u32,
}

/// Learns a clause from a clause that is false above level 0, ranks the variables higher that it
/// met, adds the clause to the store, goes back to where it is unit, and makes its literal true.
pub(crate) fn learn_and_backjump(search: &mut Search, conflict: usize) -> Result<(), AllocError>
    requires kept { IsSearching search.old }
    requires deep { 0 < search.old.trail.depth }
    requires conflict { IsConflict search.old conflict }
    ensures kept { IsSearching search.new }
    ensures keeps { Keeps (solver_of search.old) (solver_of search.new) }
    ensures variables { HasSameVariables search.old search.new }
    ensures cubes { KeepsCubes search.old search.new }
    ensures ok { OnOk result (LearnsOne (solver_of search.old) (solver_of search.new)) }
{
    let Lesson {
        clause,
        back,
        step,
        met,
        levels,
    } = analyze_conflict(search, conflict)?;
    let mut met = met.into_items();
    search.order.bump_all(&mut met);
    search.restarts.count_clause(levels);
    let tag = step.tag;
    let number = push_step(search, &step)?;
    // Back first: where the clause finds no room, the trail stands as it should all the same.
    backjump(search, back);
    let Some(lit) = unassigned(&search.trail, &clause) else {
        unreachable!()
    };
    hold(search, &clause, tag, number, lit)
}

fn analyze_conflict(search: &mut Search, conflict: usize) -> Result<Lesson, AllocError>
    requires kept { IsSearching search.old }
    requires deep { 0 < search.old.trail.depth }
    requires conflict { IsConflict search.old conflict }
    ensures same { search.new ≡ search.old }
    ensures lesson { IfOk result (λ lesson. IsLesson search.old lesson) }
{
    let learnt = learn(
        search.alloc,
        &mut search.scratch,
        search.store.arena(),
        &search.units,
        &search.tags,
        &search.trail,
        conflict,
    )?;
    let levels = levels_of(&search.trail, &learnt.clause);
    Ok(Lesson {
        clause: learnt.clause,
        back: learnt.back,
        step: learnt.step,
        met: learnt.met,
        levels,
    })
}

// Of how many levels the literals of a clause are. Levels that are a multiple of 1024 apart count
// as one.
fn levels_of(trail: &Trail, clause: &Clause) -> u32 {
    let mut marks = [0u64; 16];
    for lit in clause.lits() {
        let level = trail.level(lit.var()).unwrap_or(0);
        marks[(level / 64 % 16) as usize] |= 1u64 << (level % 64);
    }
    let mut count: u32 = 0;
    for mark in marks {
        count = count.saturating_add(mark.count_ones());
    }
    count
}

// Adds the clause of an own step to the store, lists the step as learnt, and makes the literal of
// the clause true that it forces. After want of memory none of it is done.
fn hold(
    search: &mut Search,
    clause: &Clause,
    tag: u32,
    number: u64,
    lit: Lit,
) -> Result<(), AllocError>
    requires kept { IsSearching search.old }
    requires step { IsStep search.old.steps number
        (record { clause = clause.now; tag = tag }) }
    requires set { IsLitSet clause.now }
    requires within { AreWithin search.old.greatest clause.now }
    requires open_below { (level : ℕ) → level < search.old.trail.depth
        → IsOpenClause (lits_of (up_to level search.old.trail.entries)) clause.now }
    requires free { IsUnassigned (lits_of search.old.trail.entries) lit }
    requires forced { HasOthersFalse (lits_of search.old.trail.entries) clause.now lit }
    requires ready { IsReady search.old.trail.entries search.old.trail.depth clause.now }
    requires nothing_new { 0 < search.old.trail.depth → search.old.store.fresh ≡ [] }
    ensures kept { IsSearching search.new }
    ensures parts { search.new ≡ record search.old {
      store = search.new.store;
      trail = search.new.trail;
      learnt = search.new.learnt;
    } }
    ensures keeps { Keeps (solver_of search.old) (solver_of search.new) }
    ensures vars { search.new.trail.vars ≡ search.old.trail.vars }
    ensures cubes { KeepsCubes search.old search.new }
    ensures held { OnOk result (search.new.store.clauses ≡ search.old.store.clauses
        ++ record { lits = clause.now; tag = tag; origin = Own number } ∷ []) }
    ensures listed { OnOk result (search.new.learnt.items ≡ search.old.learnt.items
        ++ number ∷ []) }
{
    search.learnt.reserve(1)?;
    let id = search.store.add(clause, tag, Ref::Own(number))?;
    search.learnt.push_reserved(number);
    search.trail.assign(lit, Some(id));
    // Brings `IsTrail` of the trail with the literal.
    let _ = search.trail.depth();
    Ok(())
}

// The first literal of the clause that is unassigned.
fn unassigned(trail: &Trail, clause: &Clause) -> Option<Lit>
    ensures set { IsLitSet clause.now }
    ensures some { IfSome result (λ lit. Contains clause.now lit
        × IsUnassigned (lits_of trail.now.entries) lit) }
    ensures none { IfNone result ((lit : ℕ) → Contains clause.now lit
        → IsUnassigned (lits_of trail.now.entries) lit → ⊥) }
{
    for lit in clause.lits() {
        if trail.value(*lit).is_none() {
            return Some(*lit);
        }
    }
    None
}
