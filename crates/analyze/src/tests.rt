//! Conflicts worked by hand, and refuted parts.

ghost use Rattle.std.specs.Prelude.{◌≡◌, ◌+◌, ◌<◌, ◌≤◌, IfNone, IfOk, IfSome, IsTrue, []};
ghost use Rattle.sat_base.specs.Lit.{variable};
ghost use Rattle.trail_core.specs.Trail.{IsTrail, lits_of};
ghost use Rattle.trail_core.specs.UnderTrail.{IsUnassigned};
ghost use Rattle.propagate.specs.Store.{AreWithin, AreNewFrom};
ghost use Rattle.propagate.specs.Pairing.{IsSettled};
ghost use Rattle.analyze.specs.Conflict.{IsReady, IsConflict};

use crate::{Learnt, Scratch, learn, refute};
use propagate::{Store, propagate};
use sat_base::Ref::{self, Input, Own};
use sat_base::{Clause, Cube, Lit};
use std::alloc::{AllocError, Global};
use std::process::Abort;
use std::test::Fail;
use trace_core::Step;
use trail_core::Trail;

// Every text is over the variables 1 to 7.
const VARS: u32 = 7;

// A clause by its numbers, and its tag. The i-th of a text is `Input(i)`.
type Row<'a> = (&'a [i32], u32);

// Three pigeons in two holes. A clause that was added last is looked at first, so after decision 1
// comes -5 before -3, and then 6 before 4.
const PIGEONS: [Row; 9] = [
    (&[1, 2], 1),
    (&[3, 4], 1),
    (&[5, 6], 1),
    (&[-1, -3], 1),
    (&[-1, -5], 1),
    (&[-3, -5], 1),
    (&[-2, -4], 1),
    (&[-2, -6], 1),
    (&[-4, -6], 1),
];

// Variables 2 and 3 follow from 1, and -5 from 2, 3 and 4; then the third clause is false.
const IMPLIED: [Row; 4] = [
    (&[-1, 2], 1),
    (&[-2, 3], 2),
    (&[-4, -1, 5], 1),
    (&[-5, -4, -2, -3], 3),
];

// Variable 6 is true at level 0, and so is 7, which has no clause of its own.
const GROUND: [Row; 4] = [
    (&[6], 2),
    (&[-6, 7], 1),
    (&[-1, -7, 2], 1),
    (&[-1, -6, -2], 1),
];

// Variable 3 is true at level 0 and only stands in the reason of the dropped literal 2.
const GROUND_BELOW: [Row; 4] = [
    (&[3], 2),
    (&[-1, -3, 2], 1),
    (&[-4, -1, 5], 1),
    (&[-5, -4, -2], 1),
];

// The names and tags of the unit clauses of level 0, by variable.
type Units = ([Ref; 7], [u32; 7]);

// What the item of a variable says that isn't of level 0.
const NONE: Ref = Input(0);

const NO_UNITS: Units = ([NONE; 7], [0; 7]);

struct Wanted<'a> {
    name: &'a str,
    rows: &'a [Row<'a>],
    units: Units,
    decisions: &'a [i32],
    clause: &'a [i32],
    back: u32,
    tag: u32,
    hints: &'a [Ref],
    met: &'a [u32],
}

const CONFLICTS: [Wanted; 4] = [
    Wanted {
        name: "pigeons: back to level 0",
        rows: &PIGEONS,
        units: NO_UNITS,
        decisions: &[1],
        clause: &[-1],
        back: 0,
        tag: 1,
        hints: &[Input(5), Input(4), Input(3), Input(2), Input(9)],
        met: &[1, 3, 4, 5, 6],
    },
    Wanted {
        name: "2 is implied by 1, and 3 by 2, which is dropped itself; tags of several queries",
        rows: &IMPLIED,
        units: NO_UNITS,
        decisions: &[1, 4],
        clause: &[-1, -4],
        back: 1,
        tag: 3,
        hints: &[Input(1), Input(2), Input(4), Input(3)],
        met: &[1, 2, 3, 4, 5],
    },
    Wanted {
        name: "literals of level 0 in the conflict and in a reason",
        rows: &GROUND,
        units: (
            [NONE, NONE, NONE, NONE, NONE, Input(1), Own(1)],
            [0, 0, 0, 0, 0, 2, 2],
        ),
        decisions: &[1],
        clause: &[-1],
        back: 0,
        tag: 2,
        hints: &[Input(1), Own(1), Input(4), Input(3)],
        met: &[1, 2],
    },
    Wanted {
        name: "a literal of level 0 in the reason of a dropped literal alone",
        rows: &GROUND_BELOW,
        units: (
            [NONE, NONE, Input(1), NONE, NONE, NONE, NONE],
            [0, 0, 2, 0, 0, 0, 0],
        ),
        decisions: &[1, 4],
        clause: &[-1, -4],
        back: 1,
        tag: 2,
        hints: &[Input(1), Input(2), Input(4), Input(3)],
        met: &[1, 2, 4, 5],
    },
];

// The literals that these numbers write.
fn literals(alloc: Global, numbers: &[i32]) -> Result<Vec<Lit>, AllocError> {
    let mut lits = Vec::new(alloc);
    for number in numbers {
        if let Some(lit) = Lit::of(*number) {
            lits.push(lit)?;
        }
    }
    Ok(lits)
}

fn is_within(clause: &Clause) -> bool
    ensures { IsTrue result → AreWithin 7 clause.now }
{
    clause.lits().iter().all(|lit| lit.var() <= 7)
}

// Adds a clause to a store whose clauses are all new, if it is over the variables 1 to 7.
fn add(store: &mut Store, clause: &Clause, tag: u32, number: u32) -> Result<(), AllocError>
    requires vars { store.old.vars ≡ 7 }
    requires all_new { AreNewFrom store.old 0 }
    ensures vars { store.new.vars ≡ 7 }
    ensures all_new { AreNewFrom store.new 0 }
{
    if !is_within(clause) {
        return Ok(());
    }
    store.add(clause, tag, Ref::Input(number))?;
    Ok(())
}

fn load(alloc: Global, rows: &[Row]) -> Result<Store, AllocError>
    ensures vars { IfOk result (λ store. store.vars ≡ 7) }
    ensures all_new { IfOk result (λ store. AreNewFrom store 0) }
{
    let mut store = Store::new(alloc);
    store.reserve(VARS)?;
    let mut number = 0u32;
    for (numbers, tag) in rows {
        number = number.saturating_add(1);
        let clause = Clause::from_lits(alloc, &literals(alloc, numbers)?)?;
        add(&mut store, &clause, *tag, number)?;
    }
    Ok(store)
}

// Propagates at level 0 on an empty trail. True where no clause is false.
fn begin(store: &mut Store, trail: &mut Trail) -> bool
    requires vars { store.old.vars ≡ trail.old.vars }
    requires all_new { AreNewFrom store.old 0 }
    requires empty { trail.old.entries ≡ [] }
    requires depth { trail.old.depth ≡ 0 }
    ensures store_vars { store.new.vars ≡ store.old.vars }
    ensures vars { trail.new.vars ≡ trail.old.vars }
    ensures ready { IsTrue result → IsReady store.new.clauses trail.new }
    ensures settled { IsTrue result → IsSettled store.new trail.new }
{
    // Brings that the clauses have reserved variables only.
    let _ = store.arena();
    propagate(store, trail).is_none()
}

// Decides an unassigned literal on a new level, and propagates. The answer is the number of a false
// clause.
fn decide(store: &mut Store, trail: &mut Trail, lit: Lit) -> Option<usize>
    requires vars { store.old.vars ≡ trail.old.vars }
    requires ready { IsReady store.old.clauses trail.old }
    requires settled { IsSettled store.old trail.old }
    requires trail { IsTrail trail.old }
    requires room { trail.old.depth < trail.old.vars }
    requires reserved { variable lit ≤ trail.old.vars }
    requires unassigned { IsUnassigned (lits_of trail.old.entries) lit }
    ensures store_vars { store.new.vars ≡ store.old.vars }
    ensures vars { trail.new.vars ≡ trail.old.vars }
    ensures ready { IfNone result (IsReady store.new.clauses trail.new) }
    ensures settled { IfNone result (IsSettled store.new trail.new) }
    ensures conflict { IfSome result (IsConflict store.new.clauses trail.new) }
{
    trail.open_level();
    trail.assign(lit, None);
    // Brings that the clauses have reserved variables only, and so has the trail.
    let _ = store.arena();
    let _ = trail.depth();
    propagate(store, trail)
}

// Decides the literals in turn, passing over those that are assigned, until a clause is false: then
// the answer is its number.
fn search(store: &mut Store, trail: &mut Trail, decisions: &[Lit]) -> Option<usize>
    requires reserved { trail.old.vars ≡ 7 }
    requires vars { store.old.vars ≡ trail.old.vars }
    requires ready { IsReady store.old.clauses trail.old }
    requires settled { IsSettled store.old trail.old }
    ensures vars { trail.new.vars ≡ trail.old.vars }
    ensures ready { IfNone result (IsReady store.new.clauses trail.new) }
    ensures conflict { IfSome result (IsConflict store.new.clauses trail.new) }
{
    for lit in decisions {
        if can_be_decided(trail, *lit) {
            if let Some(id) = decide(store, trail, *lit) {
                return Some(id);
            }
        }
    }
    None
}

fn can_be_decided(trail: &Trail, lit: Lit) -> bool
    requires { trail.now.vars ≡ 7 }
    ensures trail { IsTrail trail.now }
    ensures room { IsTrue result → trail.now.depth < trail.now.vars }
    ensures reserved { IsTrue result → variable lit ≤ trail.now.vars }
    ensures unassigned { IsTrue result → IsUnassigned (lits_of trail.now.entries) lit }
{
    trail.value(lit).is_none() && lit.var() <= VARS && trail.depth() < VARS
}

// What the first conflict teaches that these decisions lead to, if there is one above level 0.
fn learnt_after(
    alloc: Global,
    rows: &[Row],
    (names, tags): &Units,
    decisions: &[i32],
) -> Result<Option<Learnt>, AllocError> {
    let mut store = load(alloc, rows)?;
    let mut trail = Trail::new(alloc);
    trail.reserve(VARS)?;
    let mut scratch = Scratch::new(alloc);
    scratch.reserve(VARS)?;
    if !begin(&mut store, &mut trail) {
        return Ok(None);
    }
    let decisions = literals(alloc, decisions)?;
    let Some(id) = search(&mut store, &mut trail, &decisions) else {
        return Ok(None);
    };
    let learnt = learn(alloc, &mut scratch, store.arena(), names, tags, &trail, id)?;
    Ok(Some(learnt))
}

// The part that refutes a literal which is false after these decisions; none where it isn't, or a
// conflict comes before.
fn refuted_after(
    alloc: Global,
    rows: &[Row],
    (names, tags): &Units,
    decisions: &[i32],
    number: i32,
) -> Result<Option<(Cube, Step)>, AllocError> {
    let mut store = load(alloc, rows)?;
    let mut trail = Trail::new(alloc);
    trail.reserve(VARS)?;
    let mut scratch = Scratch::new(alloc);
    scratch.reserve(VARS)?;
    if !begin(&mut store, &mut trail) {
        return Ok(None);
    }
    let decisions = literals(alloc, decisions)?;
    let None = search(&mut store, &mut trail, &decisions) else {
        return Ok(None);
    };
    let Some(lit) = Lit::of(number) else {
        return Ok(None);
    };
    let Some(false) = trail.value(lit) else {
        return Ok(None);
    };
    let answer = refute(alloc, &mut scratch, store.arena(), names, tags, &trail, lit)?;
    Ok(Some(answer))
}

fn are_numbers(lits: &[Lit], numbers: &[i32]) -> bool {
    lits.len() == numbers.len()
        && lits
            .iter()
            .zip(numbers)
            .all(|(lit, number)| lit.number() == *number)
}

fn check_conflict(alloc: Global, rt: &impl Abort, wanted: &Wanted) -> Result<(), Fail> {
    let Some(learnt) = learnt_after(alloc, wanted.rows, &wanted.units, wanted.decisions)? else {
        panic!(rt; "no conflict: {}", wanted.name)
    };
    assert!(rt;
        are_numbers(learnt.clause.lits(), wanted.clause),
        "clause: {}",
        wanted.name
    );
    assert!(rt;
        are_numbers(learnt.step.clause.lits(), wanted.clause),
        "step: {}",
        wanted.name
    );
    assert_eq!(rt; learnt.back, wanted.back, "back: {}", wanted.name);
    assert_eq!(rt; learnt.step.tag, wanted.tag, "tag: {}", wanted.name);
    assert_eq!(rt;
        learnt.step.hints.items(),
        wanted.hints,
        "hints: {}",
        wanted.name
    );
    assert_eq!(rt; learnt.met.items(), wanted.met, "met: {}", wanted.name);
    Ok(())
}

#[test]
fn conflicts_teach_what_was_worked_by_hand(rt: HostRuntime) -> Result<(), Fail> {
    for wanted in &CONFLICTS {
        check_conflict(rt.alloc(), &rt, wanted)?;
    }
    Ok(())
}

// Clauses of a refuted literal: at level 0, by decisions, and as a decision itself.
const CHAIN: [Row; 2] = [(&[1], 1), (&[-1, 2], 1)];

const RULE: [Row; 2] = [(&[-1, -3, 2], 1), (&[-2, 4], 2)];

const CHAIN_UNITS: Units = (
    [Input(1), Own(1), NONE, NONE, NONE, NONE, NONE],
    [1, 1, 0, 0, 0, 0, 0],
);

// The rows, the unit clauses, the decisions, the literal, its part, the clause, the hints and the
// tag.
const PARTS: [(&[Row], Units, &[i32], i32, &[i32], &[i32], &[Ref], u32); 3] = [
    (&CHAIN, CHAIN_UNITS, &[], -2, &[-2], &[2], &[Own(1)], 1),
    (
        &RULE,
        NO_UNITS,
        &[1, 5, 3],
        -4,
        &[1, 3, -4],
        &[-1, -3, 4],
        &[Input(1), Input(2)],
        2,
    ),
    (&RULE, NO_UNITS, &[5, 1], -5, &[5, -5], &[5, -5], &[], 0),
];

#[test]
fn false_literals_have_the_parts_that_were_worked_by_hand(rt: HostRuntime) -> Result<(), Fail> {
    for (rows, units, decisions, lit, part, clause, hints, tag) in &PARTS {
        let Some((found, step)) = refuted_after(rt.alloc(), rows, units, decisions, *lit)? else {
            panic!(&rt; "{lit} isn't false")
        };
        assert!(rt; are_numbers(found.lits(), part), "the part of {lit}");
        assert!(rt;
            are_numbers(step.clause.lits(), clause),
            "the clause of {lit}"
        );
        assert_eq!(rt; step.hints.items(), *hints, "the hints of {lit}");
        assert_eq!(rt; step.tag, *tag, "the tag of {lit}");
    }
    Ok(())
}
