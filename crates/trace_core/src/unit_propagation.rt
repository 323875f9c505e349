//! Unit propagation over hints, on marks and the list of literals that hold.

ghost use Rattle.std.specs.Prelude.{◌≡◌, ℕ, ◌<◌, ◌↔◌, true, false, List, [], ◌∷◌, ◌++◌, length};
ghost use Rattle.std.specs.Prelude.{map, Contains, IsTrue, IfOk, Ok, MatchBool};
ghost use Rattle.std.specs.List.{concat};
ghost use Rattle.sat_base.specs.Lit.{opposite};
ghost use Rattle.trace_core.specs.Propagation.{Derive, IsUnit, ReachesConflict};
ghost use Rattle.trace_core.specs.Marking.{holds, is_uncovered, Agree, AreFree, HasRoom, CoveredBy};
ghost use Rattle.trace_core.specs.Checked.{hinted, HaveRoom};

use crate::database::Database;
use crate::marks::{Found, Mark, scan};
use sat_base::{Lit, Ref};
use std::alloc::AllocError;

// Adds a literal to those that hold. False where it holds already.
fn add(marks: &mut [Mark], set: &mut Vec<Lit>, lit: Lit) -> Result<bool, AllocError>
    requires within { lit < length marks.old }
    requires agree { Agree marks.old set.old.items }
    ensures agree { Agree marks.new set.new.items }
    ensures added { IfOk result
        (λ added. MatchBool added
        ((holds marks.old lit ≡ false) × (set.new.items ≡ set.old.items ++ lit ∷ []))
        (IsTrue (holds marks.old lit))) }
    ensures uncovered { (other : ℕ) → is_uncovered marks.new other ≡ is_uncovered marks.old other }
{
    let code = lit.code() as usize;
    let Mark::Free = marks[code] else {
        return Ok(false);
    };
    set.push(lit)?;
    marks[code] = Mark::Held;
    Ok(true)
}

// Adds the literal of a unit hint to those that hold. False where the hint isn't unit.
fn advance(marks: &mut [Mark], set: &mut Vec<Lit>, hint: &[Lit]) -> Result<bool, AllocError>
    requires room { HasRoom (length marks.old) hint.now }
    requires agree { Agree marks.old set.old.items }
    ensures agree { Agree marks.new set.new.items }
    ensures unit { IfOk result
        (λ added. MatchBool added
        ((lit : ℕ) × IsUnit set.old.items hint.now lit
        × (set.new.items ≡ set.old.items ++ lit ∷ [])) ((lit : ℕ)
        → ¬ IsUnit set.old.items hint.now lit)) }
    ensures covered { IfOk result (λ added. CoveredBy marks.old hint.now marks.new) }
{
    match scan(marks, hint) {
        Found::One(lit) => add(marks, set, lit),
        Found::Nothing => Ok(false),
        Found::More => Ok(false),
    }
}

// Goes through the hints in order: true exactly where they lead to a conflict.
fn propagate(
    marks: &mut [Mark],
    set: &mut Vec<Lit>,
    database: &Database,
    hints: &[Ref],
) -> Result<bool, AllocError>
    requires room { HaveRoom (length marks.old)
        (hinted database.now.inputs database.now.steps hints.now) }
    requires agree { Agree marks.old set.old.items }
    ensures agree { Agree marks.new set.new.items }
    ensures conflict { IfOk result
        (λ conflict. IsTrue conflict
        ↔ ReachesConflict set.old.items (hinted database.now.inputs database.now.steps hints.now)) }
    ensures covered { IfOk result
        (λ conflict. IsTrue conflict
        → CoveredBy marks.old
        (concat (hinted database.now.inputs database.now.steps hints.now)) marks.new) }
{
    if hints.is_empty() {
        return Ok(false);
    }
    let last = hints.len() - 1;
    for i in 0..last {
        if !advance(marks, set, database.lits_of(hints[i]))? {
            return Ok(false);
        }
    }
    match scan(marks, database.lits_of(hints[last])) {
        Found::Nothing => Ok(true),
        _ => Ok(false),
    }
}

// Lets the negation of each literal of the clause hold, none of which is covered yet.
fn assume_false(marks: &mut [Mark], set: &mut Vec<Lit>, clause: &[Lit]) -> Result<(), AllocError>
    requires room { HasRoom (length marks.old) clause.now }
    requires free { AreFree marks.old }
    requires empty { set.old.items ≡ [] }
    ensures agree { Agree marks.new set.new.items }
    ensures set { IfOk result (λ _. set.new.items ≡ map opposite clause.now) }
    ensures uncovered { IfOk result
        (λ _. (lit : ℕ)
        → IsTrue (is_uncovered marks.new lit) ↔ Contains clause.now (opposite lit)) }
{
    for lit in clause {
        let negation = lit.negated();
        set.push(negation)?;
        marks[negation.code() as usize] = Mark::Uncovered;
    }
    Ok(())
}

// Whether no literal of the clause is left that no hint has shown.
fn is_covered(marks: &[Mark], clause: &[Lit]) -> bool
    requires { HasRoom (length marks.now) clause.now }
    ensures { IsTrue result
        ↔ ((lit : ℕ) → Contains clause.now lit → is_uncovered marks.now (opposite lit) ≡ false) }
{
    for lit in clause {
        if let Mark::Uncovered = marks[lit.negated().code() as usize] {
            return false;
        }
    }
    true
}

// Whether the negations of the clause's literals lead to a conflict over the hints, which show each
// of them.
fn follow(
    marks: &mut [Mark],
    set: &mut Vec<Lit>,
    database: &Database,
    clause: &[Lit],
    hints: &[Ref],
) -> Result<bool, AllocError>
    requires clause_room { HasRoom (length marks.old) clause.now }
    requires room { HaveRoom (length marks.old)
        (hinted database.now.inputs database.now.steps hints.now) }
    requires free { AreFree marks.old }
    requires empty { set.old.items ≡ [] }
    ensures agree { Agree marks.new set.new.items }
    ensures derived { IfOk result (λ derived. IsTrue derived
        ↔ Derive (hinted database.now.inputs database.now.steps hints.now) clause.now) }
{
    assume_false(marks, set, clause)?;
    if !propagate(marks, set, database, hints)? {
        return Ok(false);
    }
    Ok(is_covered(marks, clause))
}

// Lets nothing hold.
fn clear(marks: &mut [Mark], set: &mut Vec<Lit>)
    requires { Agree marks.old set.old.items }
    ensures free { AreFree marks.new }
    ensures empty { set.new.items ≡ [] }
{
    for lit in set.iter() {
        marks[lit.code() as usize] = Mark::Free;
    }
    set.clear();
}

/// Whether the hints derive the clause, which is no tautology, by reverse unit propagation. Nothing
/// holds before and after the call, also where it wants memory.
pub(crate) fn derives(
    marks: &mut [Mark],
    set: &mut Vec<Lit>,
    database: &Database,
    clause: &[Lit],
    hints: &[Ref],
) -> Result<bool, AllocError>
    requires clause_room { HasRoom (length marks.old) clause.now }
    requires room { HaveRoom (length marks.old)
        (hinted database.now.inputs database.now.steps hints.now) }
    requires free { AreFree marks.old }
    requires empty { set.old.items ≡ [] }
    ensures derived { IfOk result (λ derived. IsTrue derived
        ↔ Derive (hinted database.now.inputs database.now.steps hints.now) clause.now) }
    ensures free { AreFree marks.new }
    ensures empty { set.new.items ≡ [] }
{
    let derived = follow(marks, set, database, clause, hints);
    clear(marks, set);
    derived
}
