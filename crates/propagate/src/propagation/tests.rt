//! Propagation from call to call.

ghost use Rattle.std.specs.Prelude.{◌≡◌, ◌≤◌, [], IfNone, IfSome, IsTrue, ◌<◌, length};
ghost use Rattle.sat_base.specs.Lit.{variable};
ghost use Rattle.propagate.specs.Store.{AreWithin, AreNewFrom};
ghost use Rattle.propagate.specs.Pairing.{AreFit, IsSettled};

use super::*;
use sat_base::{Clause, Lit, Ref};
use std::alloc::{AllocError, Global};
use std::process::Abort;
use std::test::Fail;
use trail_core::Truth;

const VARS: u32 = 400_001;

fn literal(rt: &impl Abort, number: i32) -> Lit
    ensures { variable result ≤ 400001 }
{
    let lit = Lit::of(number).expect(rt, "a literal");
    assert!(rt; lit.var() <= 400_001);
    lit
}

fn is_small(clause: &Clause) -> bool
    ensures { IsTrue result → AreWithin 400001 clause.now }
{
    clause.lits().iter().all(|lit| lit.var() <= 400_001)
}

fn clause(rt: &impl Abort, alloc: Global, numbers: &[i32]) -> Result<Clause, AllocError> {
    let mut lits = Vec::new(alloc);
    for number in numbers {
        lits.push(literal(rt, *number))?;
    }
    Clause::from_lits(alloc, &lits)
}

// Adds a clause to a store whose clauses are all new.
fn add(
    rt: &impl Abort,
    alloc: Global,
    store: &mut Store,
    numbers: &[i32],
) -> Result<usize, AllocError>
    requires vars { store.old.vars ≡ 400001 }
    requires all_new { AreNewFrom store.old 0 }
    ensures vars { store.new.vars ≡ 400001 }
    ensures all_new { AreNewFrom store.new 0 }
{
    let clause = clause(rt, alloc, numbers)?;
    let small = is_small(&clause);
    assert!(rt; small);
    store.add(&clause, 1, Ref::Input(1))
}

// Propagates new clauses at level 0 on an empty trail.
fn begin(store: &mut Store, trail: &mut Trail) -> Option<usize>
    requires store { store.old.vars ≡ 400001 }
    requires trail { trail.old.vars ≡ 400001 }
    requires all_new { AreNewFrom store.old 0 }
    requires empty { trail.old.entries ≡ [] }
    requires depth { trail.old.depth ≡ 0 }
    ensures store { store.new.vars ≡ 400001 }
    ensures trail { trail.new.vars ≡ 400001 }
    ensures settled { IfNone result (IsSettled store.new trail.new) }
{
    // Brings that the clauses have reserved variables only, and so has the trail.
    let _ = store.arena();
    let _ = trail.depth();
    propagate(store, trail)
}

// Decides an unassigned literal on a new level, and propagates.
fn decide(rt: &impl Abort, store: &mut Store, trail: &mut Trail, number: i32) -> Option<usize>
    requires store { store.old.vars ≡ 400001 }
    requires trail { trail.old.vars ≡ 400001 }
    requires settled { IsSettled store.old trail.old }
    ensures store { store.new.vars ≡ 400001 }
    ensures trail { trail.new.vars ≡ 400001 }
    ensures known { IfSome result (λ id. id < length store.new.clauses) }
    ensures settled { IfNone result (IsSettled store.new trail.new) }
{
    let lit = literal(rt, number);
    assert!(rt; trail.depth() < VARS);
    trail.open_level();
    match trail.truth(lit) {
        Truth::Unassigned => trail.assign(lit, None),
        _ => panic!(rt; "assigned already"),
    }
    let _ = store.arena();
    let _ = trail.depth();
    propagate(store, trail)
}

// Three pigeons in two holes: no clause forces anything, and each first decision ends in a false
// clause.
#[test]
fn pigeons_conflict_after_one_decision(rt: HostRuntime) -> Result<(), Fail> {
    let alloc = rt.alloc();
    let mut store = Store::new(alloc);
    let mut trail = Trail::new(alloc);
    store.reserve(VARS)?;
    trail.reserve(VARS)?;
    let pairs = [
        [1, 2],
        [3, 4],
        [5, 6],
        [-1, -3],
        [-1, -5],
        [-3, -5],
        [-2, -4],
        [-2, -6],
        [-4, -6],
    ];
    for (id, pair) in pairs.iter().enumerate() {
        assert_eq!(rt; add(&rt, alloc, &mut store, pair.as_slice())?, id);
    }
    match begin(&mut store, &mut trail) {
        Some(_) => panic!(&rt; "a clause is false"),
        None => {}
    }
    assert_eq!(rt; trail.lits().len(), 0);
    match decide(&rt, &mut store, &mut trail, 1) {
        None => panic!(&rt; "no clause is false"),
        Some(id) => {
            for lit in store.arena().lits(id) {
                assert_eq!(rt; trail.value(*lit), Some(false));
            }
        }
    }
    Ok(())
}

// Adds that a variable implies the next one.
fn imply_next(rt: &impl Abort, alloc: Global, store: &mut Store, var: i32) -> Result<(), AllocError>
    requires vars { store.old.vars ≡ 400001 }
    requires all_new { AreNewFrom store.old 0 }
    ensures vars { store.new.vars ≡ 400001 }
    ensures all_new { AreNewFrom store.new 0 }
{
    add(rt, alloc, store, &[var.wrapping_neg(), var.wrapping_add(1)])?;
    Ok(())
}

// The implications from each of 400,000 variables to the next one, added in an order in
// which a pass over all clauses finds few of them at a time.
#[test]
fn a_chain_is_followed_to_its_end(rt: HostRuntime) -> Result<(), Fail> {
    let alloc = rt.alloc();
    let mut store = Store::new(alloc);
    let mut trail = Trail::new(alloc);
    store.reserve(VARS)?;
    trail.reserve(VARS)?;
    for k in 0..200_000i32 {
        imply_next(&rt, alloc, &mut store, k.wrapping_mul(2).wrapping_add(1))?;
    }
    for k in 0..200_000i32 {
        imply_next(
            &rt,
            alloc,
            &mut store,
            400_000i32.wrapping_sub(k.wrapping_mul(2)),
        )?;
    }
    match begin(&mut store, &mut trail) {
        Some(_) => panic!(&rt; "a clause is false"),
        None => {}
    }
    match decide(&rt, &mut store, &mut trail, 1) {
        Some(_) => panic!(&rt; "a clause is false"),
        None => {}
    }
    assert_eq!(rt; trail.lits().len(), 400_001);
    for var in 1..400_002 {
        assert_eq!(rt; trail.value(literal(&rt, var)), Some(true));
    }
    Ok(())
}

// What only a clause that was taken back would force isn't forced.
#[test]
fn clauses_that_were_taken_back_force_nothing(rt: HostRuntime) -> Result<(), Fail> {
    let alloc = rt.alloc();
    let mut store = Store::new(alloc);
    let mut trail = Trail::new(alloc);
    store.reserve(VARS)?;
    trail.reserve(VARS)?;
    let _ = add(&rt, alloc, &mut store, &[1, 2])?;
    let _ = add(&rt, alloc, &mut store, &[3])?;
    cut(&mut store, 3);
    assert_eq!(rt; store.arena().len(), 2);
    cut(&mut store, 1);
    assert_eq!(rt; add(&rt, alloc, &mut store, &[4])?, 1);
    match begin(&mut store, &mut trail) {
        Some(_) => panic!(&rt; "a clause is false"),
        None => {}
    }
    assert_eq!(rt; trail.lits().len(), 1);
    assert_eq!(rt; trail.value(literal(&rt, 4)), Some(true));
    Ok(())
}

// Takes back the clauses behind the first `len`, where all are new.
fn cut(store: &mut Store, len: usize)
    requires vars { store.old.vars ≡ 400001 }
    requires all_new { AreNewFrom store.old 0 }
    ensures vars { store.new.vars ≡ 400001 }
    ensures all_new { AreNewFrom store.new 0 }
{
    store.truncate(len);
}

// Throws away all clauses but those that have `true`.
fn keep(rt: &impl Abort, store: &mut Store, trail: &mut Trail, keep: &[bool])
    requires store { store.old.vars ≡ 400001 }
    requires trail { trail.old.vars ≡ 400001 }
    ensures store { store.new.vars ≡ 400001 }
    ensures trail { trail.new.vars ≡ 400001 }
    ensures all_new { AreNewFrom store.new 0 }
    ensures fit { AreFit store.new trail.new }
{
    let clauses = store.arena().len();
    assert!(rt; keep.len() == clauses);
    assert!(rt; trail.depth() == 0);
    store.keep(trail, keep);
}

// Propagates a store and a trail that fit together.
fn go_on(store: &mut Store, trail: &mut Trail) -> Option<usize>
    requires store { store.old.vars ≡ 400001 }
    requires trail { trail.old.vars ≡ 400001 }
    requires fit { AreFit store.old trail.old }
    ensures store { store.new.vars ≡ 400001 }
    ensures trail { trail.new.vars ≡ 400001 }
    ensures settled { IfNone result (IsSettled store.new trail.new) }
{
    let _ = store.arena();
    let _ = trail.depth();
    propagate(store, trail)
}

// A clause that was kept forces its literal as before, under its new number, and one that was
// thrown away doesn't; what was forced at level 0 stays.
#[test]
fn clauses_that_are_kept_force_as_before(rt: HostRuntime) -> Result<(), Fail> {
    let alloc = rt.alloc();
    let mut store = Store::new(alloc);
    let mut trail = Trail::new(alloc);
    store.reserve(VARS)?;
    trail.reserve(VARS)?;
    let _ = add(&rt, alloc, &mut store, &[7])?;
    let _ = add(&rt, alloc, &mut store, &[-1, 2])?;
    let _ = add(&rt, alloc, &mut store, &[-7, -1, 3])?;
    match begin(&mut store, &mut trail) {
        Some(_) => panic!(&rt; "a clause is false"),
        None => {}
    }
    keep(&rt, &mut store, &mut trail, &[false, false, true]);
    assert_eq!(rt; store.arena().len(), 1);
    match go_on(&mut store, &mut trail) {
        Some(_) => panic!(&rt; "a clause is false"),
        None => {}
    }
    match decide(&rt, &mut store, &mut trail, 1) {
        Some(_) => panic!(&rt; "a clause is false"),
        None => {}
    }
    assert_eq!(rt; trail.lits().len(), 3);
    assert_eq!(rt; trail.value(literal(&rt, 7)), Some(true));
    assert_eq!(rt; trail.value(literal(&rt, 2)), None);
    assert_eq!(rt; trail.value(literal(&rt, 3)), Some(true));
    assert_eq!(rt; trail.reason(3), Some(0));
    Ok(())
}
